// The least state that may stand at the next place of the list, of all or from a bound on: of the successors of its last
// state the first that may.
#![tactic(auto)]

ghost use Rattle.std.specs.Prelude.{[], ◌∷◌, ◌++◌, ◌<◌, T};
ghost use Rattle.lasso.specs.Graph.{pathb};
ghost use Rattle.lasso.specs.Extends.{Extends};
ghost use Rattle.model.specs.Model.{graph_in};
ghost use Rattle.current.specs.Current.{list_in};
ghost use Rattle.follow.specs.Follow.{Prepared};
ghost use Rattle.passed.specs.Passed.{PassedAt, KnownFrom};
ghost use Rattle.followers.specs.Followers.{TrySays, LeastFound, FirstFound};

use current::list_at;
use lasso::Transitions;
use model::{Header, successors_of};
use moves::retreat;
use passed::Passed;
use tested::may_follow;

// State t is not below the bound, and may stand after the list up to a place.
fn try_next(
    file: &[u8],
    h: Header,
    work: &mut [u16],
    transitions: Transitions,
    place: usize,
    bound: usize,
    t: usize,
    passed: &mut Passed,
) -> bool
    requires prepared { Prepared file.now h work.old transitions.0 }
    requires place_lt_transitions { place < transitions.0 }
    requires t_lt_states { t < h.states }
    requires t { T (pathb (graph_in file.now h) (list_in h.start work.old place ++ t ∷ [])) }
    requires passed_at { PassedAt file.now h work.old transitions.0 place passed.old }
    ensures { TrySays file.now h work.old work.new transitions.0 place bound t result passed.new }
{
    if t < bound {
        return false;
    }
    may_follow(file, h, work, transitions, place, t, passed)
}

// The least state from a bound on that may stand after the list up to a place. What is known is of a longer list at first.
pub fn least_follower(
    file: &[u8],
    h: Header,
    work: &mut [u16],
    transitions: Transitions,
    place: usize,
    bound: usize,
    passed: &mut Passed,
) -> Option<usize>
    requires prepared { Prepared file.now h work.old transitions.0 }
    requires place_lt_transitions { place < transitions.0 }
    requires t { T (pathb (graph_in file.now h) (list_in h.start work.old place)) }
    requires known_from { KnownFrom file.now h work.old transitions.0 place passed.old }
    ensures { LeastFound file.now h work.old work.new transitions.0 place bound result passed.new }
{
    *passed = retreat(file, h, work, transitions, place, *passed);
    let s = list_at(h, work, place);
    let successors = successors_of(file, h, s);
    for k in 0..successors.len() {
        let t = successors.target(k);
        if try_next(file, h, work, transitions, place, bound, t, passed) {
            return Some(t);
        }
    }
    None
}

// The least state that may stand after a list that extends: of its successors the last one needs no test.
pub fn first_follower(
    file: &[u8],
    h: Header,
    work: &mut [u16],
    transitions: Transitions,
    place: usize,
    passed: &mut Passed,
) -> usize
    requires prepared { Prepared file.now h work.old transitions.0 }
    requires place_lt_transitions { place < transitions.0 }
    requires extends { Extends (graph_in file.now h) transitions.0 (list_in h.start work.old place) }
    requires passed_at { PassedAt file.now h work.old transitions.0 place passed.old }
    ensures { FirstFound file.now h work.old work.new transitions.0 place result passed.new }
{
    let s = list_at(h, work, place);
    let successors = successors_of(file, h, s);
    let last = successors.len() - 1;
    for k in 0..last {
        let t = successors.target(k);
        if may_follow(file, h, work, transitions, place, t, passed) {
            return t;
        }
    }
    successors.target(last)
}
