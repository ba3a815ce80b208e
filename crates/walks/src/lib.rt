// Distances from a state, and walks through a mark: one search, or two, of which the second goes on from the marked
// states at the levels that the first gave them.
#![tactic(auto)]

ghost use Rattle.std.specs.Prelude.{◌*◌, ◌≤◌, ◌<◌, length};
ghost use Rattle.numbers.specs.Limits.{most_states};
ghost use Rattle.model.specs.Values.{Valid};
ghost use Rattle.model.specs.Model.{graph_in};
ghost use Rattle.table.specs.Changes.{SameOutside};
ghost use Rattle.walks.specs.Through.{DistancesWithin, SpreadFromMarks, LoopLength, PlannedAt, KeptMarked};

use edge_search::{SpreadAnswer, search_edges};
use frontier::list_source;
use model::{Header, is_marked};
use spread::spread;
use table::{clear, put};

// Makes the plan of a search from the one source x, at level 0: with one source there are no states to go through.
fn start_at(work: &mut [u16], n: usize, x: usize, limit: usize)
    requires n_le_most_states { n ≤ most_states }
    requires x_lt_n { x < n }
    requires le_limit { 1 ≤ limit }
    requires limit_le_n { limit ≤ n }
    requires n_in_bounds { 6 * n ≤ length work.old }
    ensures { PlannedAt n x limit work.old work.new }
{
    clear(work, 2 * n, 3 * n);
    clear(work, 4 * n, 4 * n + limit);
    list_source(work, n, 0, x);
}

// Leaves the levels of the marked states alone, so that these are the sources of a next search.
fn keep_marked(file: &[u8], h: Header, work: &mut [u16])
    requires valid { Valid file.now h }
    requires states_in_bounds { 6 * h.states ≤ length work.old }
    ensures { KeptMarked (graph_in file.now h) work.old work.new }
{
    let n = h.states;
    for s in 0..n {
        if !is_marked(file, h, s) {
            put(work, 2 * n + s, 0);
        }
    }
}

// Puts the distances from x, up to the limit, into region 2, and answers how many states have one. No state has the
// number n, so no edge leads into that target.
pub fn distances_from(file: &[u8], h: Header, work: &mut [u16], x: usize, limit: usize) -> usize
    requires valid { Valid file.now h }
    requires x_lt_states { x < h.states }
    requires le_limit { 1 ≤ limit }
    requires limit_le_states { limit ≤ h.states }
    requires states_in_bounds { 6 * h.states ≤ length work.old }
    ensures { DistancesWithin (graph_in file.now h) x limit
        work.old work.new result }
{
    let n = h.states;
    start_at(work, n, x, limit);
    let answer = search_edges(file, h, work, limit, n);
    match answer {
        SpreadAnswer::Length(_) => 0,
        SpreadAnswer::Nothing(count) => count,
    }
}

// Searches on from the marked states, at the levels that region 2 holds for them.
pub fn from_marks(
    file: &[u8],
    h: Header,
    work: &mut [u16],
    limit: usize,
    target: usize,
) -> SpreadAnswer
    requires valid { Valid file.now h }
    requires limit_le_states { limit ≤ h.states }
    requires states_in_bounds { 6 * h.states ≤ length work.old }
    ensures { SpreadFromMarks (graph_in file.now h) limit target
        work.old work.new result }
{
    keep_marked(file, h, work);
    spread(file, h, work, limit, target)
}

// The loop length of x, the least length of a closed walk from x through a mark, if it is at most the limit.
pub fn loop_length(file: &[u8], h: Header, work: &mut [u16], x: usize, limit: usize) -> SpreadAnswer
    requires valid { Valid file.now h }
    requires x_lt_states { x < h.states }
    requires le_limit { 1 ≤ limit }
    requires limit_le_states { limit ≤ h.states }
    requires states_in_bounds { 6 * h.states ≤ length work.old }
    ensures answer { LoopLength (graph_in file.now h) x limit result }
    ensures same { SameOutside (2 * h.states) (6 * h.states) work.old work.new }
{
    distances_from(file, h, work, x, limit);
    from_marks(file, h, work, limit, x)
}
