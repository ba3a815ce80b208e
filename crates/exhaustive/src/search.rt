// The independent search: it follows every path without repeated states from the initial state, depth first, and
// closes each in every way. The graph is a set of pairs, the implied steps among them, a path a number with one digit for
// each state.
use crate::digits::{and, bit, digit, holds, size, with_digit};
use crate::models::{Model, explicit, has_edge, successors};

// What the search finds in a model among the accepting paths up to a ceiling: the least length of one, how many have it,
// the least length for each state that the loop may hold (one digit each, 0 if there is none); and the candidates of the
// model.
#[derive(Clone, Copy)]
pub struct Truth {
    pub states: usize,
    pub least: Option<u16>,
    pub lists: usize,
    pub lengths: u64,
    pub candidates: u64,
}

// A path on the way: its states as a list, how many they are, the set of them, and the state to go to next.
#[derive(Clone, Copy)]
struct Trail {
    list: u64,
    count: u16,
    passed: u64,
    next: usize,
}

// A set of states and, if it holds a state, that state's successors.
fn widened(m: Model, set: u64, state: usize) -> u64 {
    if holds(set, state) {
        set | successors(m, state)
    } else {
        set
    }
}

// The states that can be reached from the initial state: seven sweeps over seven states.
fn reached(m: Model) -> u64 {
    let mut set = bit(m.start);
    for _ in 0..7 {
        for state in 0..7 {
            set = widened(m, set, state);
        }
    }
    set
}

// The states of a list's last part from a state on: the loop that an edge back to that state closes.
pub fn loop_states(list: u64, count: u16, knot: usize) -> u64 {
    let mut set = 0;
    for place in 0..usize::from(count.min(16)) {
        let state = digit(list, place);
        set |= bit(state);
        if state == knot {
            return set;
        }
    }
    0
}

// The least lengths after a path of a length whose loop holds a state.
fn lowered_at(lengths: u64, state: usize, count: usize) -> u64 {
    let old = digit(lengths, state);
    if old == 0 || count < old {
        with_digit(lengths, state, count)
    } else {
        lengths
    }
}

// The least lengths after a path of a length whose loop holds some marked states.
fn lowered(lengths: u64, marked: u64, count: u16) -> u64 {
    (0..8).filter(|state| holds(marked, *state)).fold(
        lengths,
        |before, state| lowered_at(before, state, usize::from(count)),
    )
}

// Stores a list at a place of the roll, where there is room.
fn put_at(roll: &mut [u64], place: usize, list: u64) {
    if let Some(entry) = roll.get_mut(place) {
        *entry = list;
    }
}

// Keeps an accepting path: alone if it is shorter than those kept, after them if it is as long.
fn kept(t: Truth, list: u64, count: u16, lengths: u64, roll: &mut [u64]) -> Truth {
    if t.least.is_some_and(|least| least < count) {
        return Truth { lengths, ..t };
    }
    let least = Some(count);
    let place = if t.least == least { t.lists } else { 0 };
    put_at(roll, place, list);
    Truth {
        least,
        lists: place.saturating_add(1),
        lengths,
        ..t
    }
}

// What is known after the trail's next state has been tried as a way back. A path that is longer than the ceiling is
// not there.
fn closed(m: Model, ceiling: usize, trail: Trail, t: Truth, roll: &mut [u64]) -> Truth {
    let Trail {
        list,
        count,
        passed,
        next,
    } = trail;
    if ceiling < usize::from(count) || !holds(passed, next) || !has_edge(m, digit(list, 0), next) {
        return t;
    }
    let marked = loop_states(list, count, next) & m.marks;
    if marked == 0 {
        return t;
    }
    kept(
        t,
        and(list, next),
        count,
        lowered(t.lengths, marked, count),
        roll,
    )
}

// The trail one state shorter, with the state after the one that was left as the next to try.
fn left(trail: Trail) -> Trail {
    let state = digit(trail.list, 0);
    trail.count.checked_sub(1).map_or(
        trail,
        |count| Trail {
            list: trail.list >> 4,
            count,
            passed: trail.passed ^ bit(state),
            next: state + 1,
        },
    )
}

// The trail after one more turn of the enumeration. One that has more states than the ceiling has transitions is left.
fn moved(m: Model, ceiling: usize, trail: Trail) -> Trail {
    let Trail {
        list,
        count,
        passed,
        next,
    } = trail;
    if 7 < next || 15 < count || ceiling < usize::from(count) {
        return left(trail);
    }
    if has_edge(m, digit(list, 0), next) && !holds(passed, next) {
        return Trail {
            list: and(list, next),
            count: count + 1,
            passed: passed | bit(next),
            next: 0,
        };
    }
    Trail {
        next: next + 1,
        ..trail
    }
}

// What is known before any path has been followed.
fn nothing(m: Model) -> Truth {
    Truth {
        states: m.states,
        least: None,
        lists: 0,
        lengths: 0,
        candidates: reached(m) & m.marks,
    }
}

// The trail that a search starts with.
fn start(m: Model) -> Trail {
    Trail {
        list: m.start as u64,
        count: 1,
        passed: bit(m.start),
        next: 0,
    }
}

// Follows all paths of a model up to a ceiling, along its edges and its implied steps, in dictionary order among those of
// one length; the shortest accepting ones go to the roll. It has far more turns than it needs; should they not be enough,
// it answers more lists than the roll has room for.
pub fn explore(model: Model, ceiling: usize, roll: &mut [u64]) -> Truth {
    let m = explicit(model);
    let mut trail = start(m);
    let mut t = nothing(m);
    for _ in 0..100000 {
        if trail.count == 0 {
            return t;
        }
        t = closed(m, ceiling, trail, t, roll);
        trail = moved(m, ceiling, trail);
    }
    Truth {
        states: 0,
        least: None,
        lists: 1000,
        lengths: 0,
        candidates: 0,
    }
}
