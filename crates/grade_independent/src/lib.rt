// The independent grade of a list, from the words of the definition. It shares nothing with the grader: the model is a
// set of pairs in one number, the list a number with one digit for each entry, and the least length is that of the search
// that follows every path.
#![tactic(auto)]

ghost use Rattle.std.specs.Prelude.{◌<◌};

use exhaustive::{Model, bit, digit, holds, size};

// A list of so many entries, and the k that is claimed for it.
#[derive(Clone, Copy)]
pub struct Claim {
    pub list: u64,
    pub entries: usize,
    pub k: usize,
}

// Whether the list with that k is an accepting path, whether it is one of least length, and the first place where the
// list breaks, if there is one.
#[derive(Clone, Copy)]
pub struct Graded {
    pub accepting: bool,
    pub shortest: bool,
    pub place: Option<usize>,
}

// The entry at a place, counted from 0.
pub fn entry(list: u64, entries: usize, place: usize) -> usize
    ensures { result < 16 }
{
    if place < entries {
        digit(list, entries - 1 - place)
    } else {
        0
    }
}

// Whether a step leads from one number to another, both of them states.
fn leads(edges: u64, from: usize, to: usize) -> bool {
    from < 8 && to < 8 && holds(edges, 8 * from + to)
}

// Whether the entry at a place is no state or, past place 0, is not reached by a step from the entry before it.
fn breaks(m: Model, c: Claim, place: usize) -> bool {
    let to = entry(c.list, c.entries, place);
    m.states <= to || 0 < place && !leads(m.edges, entry(c.list, c.entries, place - 1), to)
}

// The set of the entries from one place up to another.
fn entries_between(c: Claim, from: usize, to: usize) -> u64 {
    (from..to).fold(0, |set, place| set | bit(entry(c.list, c.entries, place)))
}

// Whether a list without a break, with so many transitions, is an accepting path with its k: from the initial state, back
// to the entry at k, all entries but the last different, one of those from k on marked.
fn accepts(m: Model, c: Claim, length: usize) -> bool {
    let at = |place| entry(c.list, c.entries, place);
    c.k < length
        && at(0) == m.start
        && at(length) == at(c.k)
        && size(entries_between(c, 0, length)) == length
        && entries_between(c, c.k, length) & m.marks != 0
}

// How many transitions the shortest accepting paths of a model have, if it has any.
#[derive(Clone, Copy)]
pub struct Least(Option<usize>);

impl From<usize> for Least {
    fn from(transitions: usize) -> Least {
        Least(Some(transitions))
    }
}

impl From<Option<u16>> for Least {
    fn from(transitions: Option<u16>) -> Least {
        Least(transitions.map(usize::from))
    }
}

// The grade of a list, on a model whose steps are all edges and whose shortest accepting paths have so many transitions.
pub fn grade<L: Into<Least>>(m: Model, least: L, c: Claim) -> Graded {
    let Least(least) = least.into();
    let place = (0..c.entries).find(|place| breaks(m, c, *place));
    if c.entries < 2 || place.is_some() {
        return Graded {
            accepting: false,
            shortest: false,
            place,
        };
    }
    let length = c.entries - 1;
    let accepting = accepts(m, c, length);
    Graded {
        accepting,
        shortest: accepting && least == Some(length),
        place,
    }
}
