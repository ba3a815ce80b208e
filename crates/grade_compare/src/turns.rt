// All lists of up to two entries more than there are states, with entries up to the number of states, in dictionary order,
// each with every k.
use exhaustive::{and, digit};
use grade_independent::Claim;

// A turn: a list with so many entries, and which k is claimed for it: 0 up to the number of entries, which is one more than
// the transitions, and then 65,535. Or only the way back to a list from the longer ones that begin with it.
#[derive(Clone, Copy)]
pub enum Turn {
    Graded {
        list: u64,
        entries: usize,
        which: usize,
    },
    Back {
        list: u64,
        entries: usize,
    },
}

// The empty list with k 0.
pub const FIRST: Turn = Turn::Graded {
    list: 0,
    entries: 0,
    which: 0,
};

// The list with a greater last entry or, if that is the greatest, the way back to the list without it.
fn greater(list: u64, entries: usize, states: usize) -> Turn {
    let last = digit(list, 0);
    if last < states {
        Turn::Graded {
            list: and(list >> 4, last + 1),
            entries,
            which: 0,
        }
    } else {
        Turn::Back {
            list: list >> 4,
            entries: entries.saturating_sub(1),
        }
    }
}

// The turn after one: the next k, a longer list, or a greater one.
pub fn after(turn: Turn, states: usize) -> Turn {
    match turn {
        Turn::Graded {
            list,
            entries,
            which,
        } if which <= entries => Turn::Graded {
            list,
            entries,
            which: which.saturating_add(1),
        },
        Turn::Graded { list, entries, .. } if entries < states.saturating_add(2) => Turn::Graded {
            list: and(list, 0),
            entries: entries + 1,
            which: 0,
        },
        Turn::Graded { list, entries, .. } | Turn::Back { list, entries } => {
            greater(list, entries, states)
        }
    }
}

// A list and a k.
pub fn claim_of(list: u64, entries: usize, which: usize) -> Claim {
    Claim {
        list,
        entries,
        k: if which <= entries { which } else { 65535 },
    }
}
