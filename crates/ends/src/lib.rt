// Flags in region 4 the ends of the ways after a loop start: the states of one level with a step to a goal, and the marked
// states whose entries in two regions are the same.
#![tactic(auto)]

ghost use Rattle.std.specs.Prelude.{◌*◌, ◌≤◌, ◌<◌, length};
ghost use Rattle.model.specs.Values.{Valid};
ghost use Rattle.model.specs.Model.{graph_in};
ghost use Rattle.lists.specs.Decides.{Decides};
ghost use Rattle.ends.specs.Ends.{MarkedEnd, ClosingPut, MarkedPut};

use looks::leads_to_goal;
use model::{Header, is_marked};
use table::{get, put};

// Flags the states of a level with a step to a goal below the bound, and no other.
pub fn flag_closing(file: &[u8], h: Header, work: &mut [u16], level: usize, bound: usize)
    requires valid { Valid file.now h }
    requires states_in_bounds { 6 * h.states ≤ length work.old }
    requires level_le_states { level ≤ h.states }
    requires bound_le_states { bound ≤ h.states }
    ensures { ClosingPut (graph_in file.now h) h.states h.start level bound h.states
        work.old work.new }
{
    let n = h.states;
    for s in 0..n {
        let flag = leads_to_goal(file, h, work, level, bound, s);
        put(work, 4 * n + s, usize::from(flag));
    }
}

// State s is marked and reached, and has the same entry in regions 2 and 5.
fn is_marked_end(file: &[u8], h: Header, work: &[u16], s: usize) -> bool
    requires valid { Valid file.now h }
    requires states_in_bounds { 6 * h.states ≤ length work.now }
    requires s_lt_states { s < h.states }
    ensures { Decides (MarkedEnd (graph_in file.now h) h.states work.now s) result }
{
    let n = h.states;
    if !is_marked(file, h, s) {
        return false;
    }
    let level = get(work, 2 * n + s);
    level != 0 && get(work, 5 * n + s) == level
}

// Flags the marked states that are reached and have the same entry in regions 2 and 5, and takes no flag away.
pub fn flag_marked(file: &[u8], h: Header, work: &mut [u16])
    requires valid { Valid file.now h }
    requires states_in_bounds { 6 * h.states ≤ length work.old }
    ensures { MarkedPut (graph_in file.now h) h.states h.states
        work.old work.new }
{
    let n = h.states;
    for s in 0..n {
        if is_marked_end(file, h, work, s) {
            put(work, 4 * n + s, 1);
        }
    }
}
