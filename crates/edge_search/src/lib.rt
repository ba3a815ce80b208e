// The search by the edges of the file, breadth-first by levels, from listed sources. The working table has the regions of
// the frontier.
#![tactic(auto)]

ghost use Rattle.std.specs.Prelude.{◌*◌, ◌≤◌, ◌<◌, length};
ghost use Rattle.model.specs.Values.{Valid};
ghost use Rattle.model.specs.Model.{graph_in};
ghost use Rattle.table.specs.Changes.{SameOutside};
ghost use Rattle.frontier.specs.Buckets.{HasPlan};
ghost use Rattle.edge_search.specs.Promises.{ApartInPlan, SearchedFromPlan};

use frontier::{admit, reach};
use model::{Header, edge_count, edge_target, row_part};
use table::get;

// The answer of a search: the length at which an edge into the target was found, or that there is none, with the
// number of states reached. No Result: a search for distances has no target and wants that number, so `Nothing` is no error.
#[derive(Clone, Copy)]
pub enum SpreadAnswer {
    Length(usize),
    Nothing(usize),
}

// The search by the edges of the file, from listed sources: level by level below the limit, until the first edge into the
// target. `head`, `at`, `end` and `tail` are places of the table, in region 3: a new state is put at `tail` with no sum to
// compute. It does not know of implied steps: such a step leads to a state that is reached already, so it matters only as
// one into the target, and a target whose only successor is itself is no source here.
pub fn search_edges(
    file: &[u8],
    h: Header,
    work: &mut [u16],
    limit: usize,
    target: usize,
) -> SpreadAnswer
    requires valid { Valid file.now h }
    requires limit_le_states { limit ≤ h.states }
    requires states_in_bounds { 6 * h.states ≤ length work.old }
    requires has_plan { HasPlan h.states limit work.old }
    requires apart_in_plan { ApartInPlan (graph_in file.now h) limit target work.old }
    ensures left { SearchedFromPlan (graph_in file.now h) limit target
        work.old work.new result }
    ensures same { SameOutside (2 * h.states) (4 * h.states) work.old work.new }
{
    let n = h.states;
    let queue = 3 * n;
    let mut head = queue;
    let mut tail = queue;
    for level in 0..limit {
        tail = admit(work, n, level, tail);
        let end = tail;
        for at in head..end {
            let s = get(work, at);
            let part = row_part(file, h, s);
            let d = edge_count(part);
            for k in 0..d {
                let t = edge_target(part, k);
                if t == target {
                    return SpreadAnswer::Length(level + 1);
                }
                tail = reach(work, n, t, level + 1, tail);
            }
        }
        head = end;
    }
    SpreadAnswer::Nothing(tail - queue)
}
