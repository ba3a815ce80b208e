// Independent distances: sweeps over all edges, each of which lowers what is too great after it, with no queue. The
// distances are a number with one digit for each state, and 15 for a state that is not reached.
use crate::digits::{and, digit, with_digit};
use crate::expected::{Seen, plain, right};
use crate::models::{Model, has_edge};
use harness::Answer;

// The distances after one edge, if it is there: its end is at most one further away than its beginning.
fn lowered(m: Model, distances: u64, from: usize, to: usize) -> u64 {
    let through = digit(distances, from) + 1;
    if has_edge(m, from, to) && through < digit(distances, to) {
        with_digit(distances, to, through)
    } else {
        distances
    }
}

// The distances from the initial state: seven sweeps over all pairs of seven states. An implied step leads to no other
// state, so it lowers nothing.
pub fn distances(m: Model) -> u64 {
    let mut found = with_digit(0xffffffffffffffff, m.start, 0);
    for _ in 0..7 {
        for from in 0..7 {
            for to in 0..7 {
                found = lowered(m, found, from, to);
            }
        }
    }
    found
}

// A distance if it is not above the ceiling, else 15.
fn up_to(distance: usize, ceiling: usize) -> usize {
    if ceiling < distance { 15 } else { distance }
}

// The distances of the first so many states up to a ceiling, as a list.
fn list_within(distances: u64, states: usize, ceiling: usize) -> u64 {
    (0..states).fold(
        0,
        |list, state| and(list, up_to(digit(distances, state), ceiling)),
    )
}

// The last entry of a list.
fn last_entry(list: u64) -> u16 {
    match digit(list, 0) {
        15 => 65535,
        value => value as u16,
    }
}

// The answer of a distance call on a model with such distances, with room for so many entries in the output, the
// working table being too short or not.
pub fn of_distances(m: Model, distances: u64, ceiling: u16, space: usize, short: bool) -> Seen {
    if short {
        return plain(Answer::Refused(12));
    }
    if 4096 < ceiling {
        return plain(Answer::Refused(21));
    }
    if space < m.states {
        return plain(Answer::Refused(15));
    }
    let list = list_within(distances, m.states, usize::from(ceiling));
    let answer = Answer::Written {
        entries: m.states,
        last: last_entry(list),
    };
    right(answer, list)
}
