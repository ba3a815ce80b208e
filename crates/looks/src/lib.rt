// Looks after the last loop start of a list: whether a state is a goal, so that the list can close there; at a place before
// the last whether a table has the state there; and whether a step leads from a state of a level to a goal.
#![tactic(auto)]

ghost use Rattle.std.specs.Prelude.{◌*◌, ◌≤◌, ◌<◌, length};
ghost use Rattle.numbers.specs.Limits.{most_states};
ghost use Rattle.lists.specs.Decides.{Decides};
ghost use Rattle.model.specs.Values.{Valid};
ghost use Rattle.model.specs.Model.{graph_in};
ghost use Rattle.looks.specs.Looks.{GoalAt, LastSays, PlaceSays, Closes};

use current::list_at;
use model::{Header, successors_of};
use table::get;

// State y is a goal: it can start the loop, and stands on the list at the place of its distance, which is below the bound.
fn is_goal(h: Header, work: &[u16], bound: usize, y: usize) -> bool
    requires states_in_bounds { 2 * h.states ≤ length work.now }
    requires states_le_most_states { h.states ≤ most_states }
    requires bound_le_states { bound ≤ h.states }
    requires y_lt_states { y < h.states }
    ensures { Decides (GoalAt h.states h.start work.now bound y) result }
{
    let entry = get(work, h.states + y);
    let reached = entry / 2;
    entry % 2 == 1 && 1 <= reached && reached <= bound && list_at(h, work, reached - 1) == y
}

// At the last place: t is a goal, at or before the last mark if no mark stands after the loop start. Both places are one
// more.
pub fn at_last(h: Header, work: &[u16], start: usize, mark: usize, t: usize) -> bool
    requires states_in_bounds { 2 * h.states ≤ length work.now }
    requires states_le_most_states { h.states ≤ most_states }
    requires start_le_states { start ≤ h.states }
    requires t_lt_states { t < h.states }
    ensures { Decides (LastSays h.states h.start work.now start mark t) result }
{
    is_goal(h, work, start.min(mark), t)
}

// At a place before the last: the table says that t may stand there.
pub fn before_last(n: usize, work: &[u16], b: usize, mark: usize, place: usize, t: usize) -> bool
    requires n_in_bounds { 6 * n ≤ length work.now }
    requires n_le_most_states { n ≤ most_states }
    requires b_le_place { b ≤ place }
    requires place_lt_n { place < n }
    requires t_lt_n { t < n }
    ensures { Decides (PlaceSays n work.now b mark place t) result }
{
    let region = if b + 1 < mark { 5 } else { 2 };
    get(work, region * n + t) == place + 2 - b
}

// State s has the level, and a step leads from it to a goal below the bound.
pub fn leads_to_goal(
    file: &[u8],
    h: Header,
    work: &[u16],
    level: usize,
    bound: usize,
    s: usize,
) -> bool
    requires valid { Valid file.now h }
    requires states_in_bounds { 6 * h.states ≤ length work.now }
    requires level_le_states { level ≤ h.states }
    requires bound_le_states { bound ≤ h.states }
    requires s_lt_states { s < h.states }
    ensures { Decides (Closes (graph_in file.now h) h.states h.start work.now
        level bound s) result }
{
    let n = h.states;
    if get(work, 2 * n + s) != level + 1 {
        return false;
    }
    let successors = successors_of(file, h, s);
    for k in 0..successors.len() {
        let t = successors.target(k);
        if is_goal(h, work, bound, t) {
            return true;
        }
    }
    false
}
