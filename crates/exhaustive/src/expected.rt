// What the calls must answer, from what the exhaustive search found. Under a ceiling that is what it found among the
// accepting paths up to the ceiling.
ghost use Rattle.std.specs.Prelude.{◌≤◌};

use crate::digits::{digit, member, size};
use crate::search::{Truth, loop_states};
use harness::{Answer, Best, Tried};

// What a call answers, and the list that it writes, 0 if it writes none.
#[derive(Clone, Copy, PartialEq, Eq)]
pub struct Seen {
    pub tried: Tried,
    pub list: u64,
}

// The number of candidates.
pub fn rounds(t: Truth) -> usize
    ensures { result ≤ 64 }
{
    size(t.candidates)
}

// The lesser of two lengths, or the only one.
fn lesser(a: Option<u16>, b: Option<u16>) -> Option<u16> {
    a.into_iter().chain(b).min()
}

// The length of the round at a place, if there is such a round and it has one.
pub fn round_at(t: Truth, place: usize) -> Option<u16> {
    match digit(t.lengths, member(t.candidates, place)?) {
        0 => None,
        length => Some(length as u16),
    }
}

// The best length after so many of the rounds.
fn best_after(t: Truth, count: u16) -> Option<u16> {
    (0..usize::from(count))
        .filter_map(|place| round_at(t, place))
        .min()
}

// An answer after which all tables are right, and the list that it writes.
pub fn right(answer: Answer, list: u64) -> Seen {
    Seen {
        tried: Tried { answer, wrong: 0 },
        list,
    }
}

// An answer that writes no list.
pub fn plain(answer: Answer) -> Seen {
    right(answer, 0)
}

// The answer of a step from a record, the working table being too short or not.
pub fn of_step<B: Into<Best>>(t: Truth, done: u16, best: B, short: bool) -> Seen {
    let Best(best) = best.into();
    if short {
        return plain(Answer::Refused(12));
    }
    let place = usize::from(done);
    if rounds(t) <= place {
        return plain(Answer::Finished { done, best });
    }
    plain(Answer::Advanced {
        done: done + 1,
        best: lesser(best, round_at(t, place)),
    })
}

// Where the loop of a list with so many transitions starts: after the states that are not on it.
fn loop_start(list: u64, least: u16) -> u16 {
    let on_loop = size(loop_states(list >> 4, least, digit(list, 0)));
    least.saturating_sub(on_loop as u16)
}

// The answer of a search with an allowance and room for so many entries, the working table being too short or not.
pub fn of_search(t: Truth, roll: &[u64], allowance: u16, space: usize, short: bool) -> Seen {
    if short {
        return plain(Answer::Refused(12));
    }
    let rounds = rounds(t) as u16;
    if allowance < rounds {
        return plain(Answer::Stopped {
            done: allowance,
            best: best_after(t, allowance),
        });
    }
    let Some(length) = t.least else {
        return plain(Answer::NoneWithin { rounds });
    };
    if space <= usize::from(length) {
        return plain(Answer::Refused(15));
    }
    let list = list_at(roll, 0);
    let k = loop_start(list, length);
    right(Answer::Found { length, k, rounds }, list)
}

// The list at a place of the roll, 0 past its end.
pub fn list_at(roll: &[u64], place: usize) -> u64 {
    roll.get(place).copied().unwrap_or(0)
}

// The place of a list with so many entries among the first so many of the roll; none if it is no shortest accepting path.
fn place_of(t: Truth, roll: &[u64], list: u64, entries: usize) -> Option<usize> {
    if entries != usize::from(t.least?) + 1 {
        return None;
    }
    roll.iter().take(t.lists).position(|right| *right == list)
}

// The answer of next after a list with so many entries, with room for so many, the working table being too short or not.
pub fn of_next(
    t: Truth,
    roll: &[u64],
    list: u64,
    entries: usize,
    space: usize,
    short: bool,
) -> Seen {
    if short {
        return plain(Answer::Refused(12));
    }
    let Some((length, place)) = t.least.zip(place_of(t, roll, list, entries)) else {
        return plain(Answer::Refused(13));
    };
    if t.lists.saturating_sub(1) <= place {
        return plain(Answer::NoMore);
    }
    if space <= usize::from(length) {
        return plain(Answer::Refused(15));
    }
    let list = list_at(roll, place + 1);
    let k = loop_start(list, length);
    right(Answer::NextFound { length, k }, list)
}
