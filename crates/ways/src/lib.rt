// Back over the queue of a search: which states have a way on, one level a step, to an end.
#![tactic(auto)]

ghost use Rattle.std.specs.Prelude.{◌*◌, ◌≤◌, ◌<◌, length};
ghost use Rattle.lists.specs.Decides.{Decides};
ghost use Rattle.model.specs.Values.{Valid};
ghost use Rattle.model.specs.Model.{graph_in};
ghost use Rattle.frontier.specs.Search.{Queue};
ghost use Rattle.ways.specs.Ways.{LeadsOn, KeptBack};

use model::{Header, successors_of};
use table::{get, put};

// Some successor of s has the entry `next` in region 2.
fn leads_on(file: &[u8], h: Header, work: &[u16], s: usize, next: usize) -> bool
    requires valid { Valid file.now h }
    requires states_in_bounds { 6 * h.states ≤ length work.now }
    requires s_lt_states { s < h.states }
    ensures { Decides (LeadsOn (graph_in file.now h) h.states work.now s next) result }
{
    let n = h.states;
    let successors = successors_of(file, h, s);
    for k in 0..successors.len() {
        let t = successors.target(k);
        if get(work, 2 * n + t) == next {
            return true;
        }
    }
    false
}

// Goes back over the queue: a state keeps its level if it is flagged in region 4, or if a successor one level later keeps
// its own; else its level becomes nothing.
pub fn keep_ways(file: &[u8], h: Header, work: &mut [u16], count: usize)
    requires valid { Valid file.now h }
    requires states_in_bounds { 6 * h.states ≤ length work.old }
    requires queue { Queue h.states count work.old }
    ensures { KeptBack (graph_in file.now h) h.states work.old work.new }
{
    let n = h.states;
    for i in (0..count).rev() {
        let s = get(work, 3 * n + i);
        if get(work, 4 * n + s) == 0 {
            let next = get(work, 2 * n + s) + 1;
            if !leads_on(file, h, work, s, next) {
                put(work, 2 * n + s, 0);
            }
        }
    }
}
