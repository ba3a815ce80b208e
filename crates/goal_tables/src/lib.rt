// Makes the two tables after a loop start: which state may stand at which place after it.
#![tactic(auto)]

ghost use Rattle.std.specs.Prelude.{◌*◌, ◌≤◌, ◌<◌, length};
ghost use Rattle.model.specs.Values.{Valid};
ghost use Rattle.model.specs.Model.{graph_in};
ghost use Rattle.table.specs.Changes.{SameOutside};
ghost use Rattle.current.specs.Current.{state_at};
ghost use Rattle.follow.specs.Follow.{StatesTo};
ghost use Rattle.goals.specs.Goals.{LastMark, LaterTable};
ghost use Rattle.goal_tables.specs.Tables.{Ground, LevelsVia, LaterMade, SoonerMade, Tables};

use current::list_at;
use edge_search::SpreadAnswer;
use ends::{flag_closing, flag_marked};
use lasso::Transitions;
use model::{Header, is_marked};
use table::{copy, get, put};
use walks::{distances_from, from_marks};
use ways::keep_ways;

// The last place of the list up to a given one with a marked state, plus 1; or 0.
pub fn last_mark(file: &[u8], h: Header, work: &[u16], place: usize) -> usize
    requires valid { Valid file.now h }
    requires states_in_bounds { 2 * h.states ≤ length work.now }
    requires place_le_states { place ≤ h.states }
    requires states_to { StatesTo h work.now place }
    ensures { LastMark (graph_in file.now h) (state_at h work.now) place result }
{
    for k in (0..=place).rev() {
        let s = list_at(h, work, k);
        if is_marked(file, h, s) {
            return k + 1;
        }
    }
    0
}

// Puts the least steps from x through a mark into region 2, exact below the limit, and answers how many states the search
// reached.
fn later_levels(file: &[u8], h: Header, work: &mut [u16], x: usize, limit: usize) -> usize
    requires valid { Valid file.now h }
    requires x_lt_states { x < h.states }
    requires le_limit { 1 ≤ limit }
    requires limit_le_states { limit ≤ h.states }
    requires states_in_bounds { 6 * h.states ≤ length work.old }
    ensures { LevelsVia (graph_in file.now h) x limit work.old work.new result }
{
    let n = h.states;
    let count = distances_from(file, h, work, x, limit);
    if is_marked(file, h, x) {
        return count;
    }
    let answer = from_marks(file, h, work, limit, n);
    match answer {
        SpreadAnswer::Length(_) => 0,
        SpreadAnswer::Nothing(found) => found,
    }
}

// Makes the table for lists with a mark after the loop start at place b.
fn make_later(file: &[u8], h: Header, work: &mut [u16], transitions: Transitions, b: usize)
    requires { Ground file.now h work.old transitions.0 b }
    ensures { LaterMade (graph_in file.now h) transitions.0 (state_at h work.old) b
        work.old work.new }
{
    let n = h.states;
    let x = list_at(h, work, b);
    let left = transitions.number() - b;
    let count = later_levels(file, h, work, x, left);
    flag_closing(file, h, work, left - 1, b + 1);
    keep_ways(file, h, work, count);
    copy(work, 2 * n, 5 * n, n);
}

// Makes the table for lists with no mark after the loop start at place b, from the one for lists with a mark.
fn make_sooner(
    file: &[u8],
    h: Header,
    work: &mut [u16],
    transitions: Transitions,
    b: usize,
    mark: usize,
)
    requires ground { Ground file.now h work.old transitions.0 b }
    requires last_mark { LastMark (graph_in file.now h) (state_at h work.old) b mark }
    requires later_table { LaterTable (graph_in file.now h) transitions.0 (state_at h work.old) b work.old }
    ensures { SoonerMade (graph_in file.now h) transitions.0 (state_at h work.old) b mark
        work.old work.new }
{
    let n = h.states;
    let x = list_at(h, work, b);
    let left = transitions.number() - b;
    let own = get(work, 5 * n + x);
    let count = distances_from(file, h, work, x, left);
    put(work, 5 * n + x, own);
    flag_closing(file, h, work, left - 1, mark);
    flag_marked(file, h, work);
    keep_ways(file, h, work, count);
}

// Makes both tables after the loop start at place b; if it is marked itself, they are the same.
pub fn make_tables(file: &[u8], h: Header, work: &mut [u16], transitions: Transitions, b: usize)
    requires { Ground file.now h work.old transitions.0 b }
    ensures tables { Tables (graph_in file.now h) transitions.0 (state_at h work.old) b
        work.new }
    ensures same { SameOutside (2 * h.states) (6 * h.states) work.old work.new }
{
    let mark = last_mark(file, h, work, b);
    make_later(file, h, work, transitions, b);
    if mark == b + 1 {
        return;
    }
    make_sooner(file, h, work, transitions, b, mark);
}
