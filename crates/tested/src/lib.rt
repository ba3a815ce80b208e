// Whether a state may stand at the next place of the list: by a look at region 1, at a goal or at one of two tables, or by
// a search.
#![tactic(auto)]

mod closing;

ghost use Rattle.std.specs.Prelude.{[], ◌∷◌, ◌++◌, true, ◌≡◌, ◌*◌, ◌<◌, T};
ghost use Rattle.lasso.specs.Graph.{pathb};
ghost use Rattle.model.specs.Model.{graph_in};
ghost use Rattle.table.specs.Changes.{SameOutside};
ghost use Rattle.current.specs.Current.{state_at, list_in};
ghost use Rattle.follow.specs.Follow.{Prepared};
ghost use Rattle.goal_tables.specs.Tables.{Ground, Tables};
ghost use Rattle.passed.specs.Passed.{PassedAt};
ghost use Rattle.tested.specs.Tested.{TestSays};

use closing::may_close;
use goal_tables::make_tables;
use lasso::Transitions;
use looks::{at_last, before_last};
use model::Header;
use passed::Passed;
use table::get;

// Makes the tables after the loop start at place b, unless they are there.
fn ensure_tables(
    file: &[u8],
    h: Header,
    work: &mut [u16],
    transitions: Transitions,
    b: usize,
    made: bool,
)
    requires ground { Ground file.now h work.old transitions.0 b }
    requires tables { made ≡ true → Tables (graph_in file.now h) transitions.0 (state_at h work.old) b work.old }
    ensures tables_2 { Tables (graph_in file.now h) transitions.0 (state_at h work.old) b
        work.new }
    ensures same { SameOutside (2 * h.states) (6 * h.states) work.old work.new }
{
    if !made {
        make_tables(file, h, work, transitions, b);
    }
}

// So many tests after a loop start are done by a search each; the next one makes the tables, which cost more.
const SEARCHES: usize = 2;

// State t may stand after the list up to a place: the two begin some shortest lasso. Either the loop's start is ahead, and
// then t stands on a stem at its distance; or it is passed, and then t leads to a goal.
pub fn may_follow(
    file: &[u8],
    h: Header,
    work: &mut [u16],
    transitions: Transitions,
    place: usize,
    t: usize,
    passed: &mut Passed,
) -> bool
    requires prepared { Prepared file.now h work.old transitions.0 }
    requires place_lt_transitions { place < transitions.0 }
    requires t_lt_states { t < h.states }
    requires t { T (pathb (graph_in file.now h) (list_in h.start work.old place ++ t ∷ [])) }
    requires passed_at { PassedAt file.now h work.old transitions.0 place passed.old }
    ensures { TestSays file.now h work.old work.new transitions.0 place t result passed.new }
{
    let n = h.states;
    let start = passed.start;
    let mark = passed.mark;
    if get(work, n + t) / 2 == place + 2 {
        return true;
    }
    if start == 0 {
        return false;
    }
    let b = start - 1;
    if place + 1 == transitions.number() {
        return at_last(h, work, start, mark, t);
    }
    if passed.searches < SEARCHES {
        passed.searches += 1;
        passed.made = false;
        return may_close(file, h, work, transitions, place, t);
    }
    ensure_tables(file, h, work, transitions, b, passed.made);
    passed.made = true;
    before_last(n, work, b, mark, place, t)
}
