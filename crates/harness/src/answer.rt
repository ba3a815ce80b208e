// What a call of the finder answered, and how many of its tables were found wrong after it.
ghost use Rattle.std.specs.Prelude.{◌≤◌};

use std::fmt;

// An answer: of a step the rounds that are done and the best length; of a search the length, the k and the rounds of a
// list, or the rounds after which there is none, or the record with which it stopped; of next the length and the k of a
// list; of the distances how many were written and the last of them; of each the number of a refusal.
#[derive(Clone, Copy, PartialEq, Eq)]
pub enum Answer {
    Advanced { done: u16, best: Option<u16> },
    Finished { done: u16, best: Option<u16> },
    Found { length: u16, k: u16, rounds: u16 },
    NoneWithin { rounds: u16 },
    Stopped { done: u16, best: Option<u16> },
    NextFound { length: u16, k: u16 },
    NoMore,
    Written { entries: usize, last: u16 },
    Refused(u16),
}

impl Answer {
    // The number of a refusal.
    pub fn refusal(self) -> Option<u16> {
        match self {
            Answer::Refused(number) => Some(number),
            _ => None,
        }
    }

    // The length and the k of the list that an answer brings.
    pub fn list(self) -> Option<(u16, u16)> {
        match self {
            Answer::Found { length, k, .. } | Answer::NextFound { length, k } => Some((length, k)),
            _ => None,
        }
    }

    // The entries that were written: those of the list that an answer brings, or the distances; 0 for any other answer.
    pub fn written(self) -> usize {
        match self {
            Answer::Found { length, .. } | Answer::NextFound { length, .. } => {
                usize::from(length) + 1
            }
            Answer::Written { entries, .. } => entries,
            _ => 0,
        }
    }
}

// A best length; in print `none` where there is none.
#[derive(Clone, Copy)]
pub struct Best(pub Option<u16>);

impl From<Option<u16>> for Best {
    fn from(length: Option<u16>) -> Best {
        Best(length)
    }
}

impl From<u64> for Best {
    // A number above 65,535 stands for none.
    fn from(number: u64) -> Best {
        Best(u16::try_from(number).ok())
    }
}

impl fmt::Display for Best {
    fn fmt<W: fmt::Write>(&self, f: &mut fmt::Formatter<W>) -> fmt::Result {
        match self.0 {
            Some(length) => write!(f, "{length}"),
            None => write!(f, "none"),
        }
    }
}

impl fmt::Display for Answer {
    fn fmt<W: fmt::Write>(&self, f: &mut fmt::Formatter<W>) -> fmt::Result {
        match *self {
            Answer::Advanced { done, best } => write!(f, "advanced {done} {}", Best(best)),
            Answer::Finished { done, best } => write!(f, "finished {done} {}", Best(best)),
            Answer::Found { length, k, rounds } => write!(f, "found {length} {k} {rounds} list"),
            Answer::NoneWithin { rounds } => write!(f, "none within {rounds}"),
            Answer::Stopped { done, best } => write!(f, "stopped {done} {}", Best(best)),
            Answer::NextFound { length, k } => write!(f, "found {length} {k} list"),
            Answer::NoMore => write!(f, "no more"),
            Answer::Written { entries, last } => write!(f, "written {entries} last {last} list"),
            Answer::Refused(number) => write!(f, "refused {number}"),
        }
    }
}

// An answer, and how many tables were found wrong after the call.
#[derive(Clone, Copy, PartialEq, Eq)]
pub struct Tried {
    pub answer: Answer,
    pub wrong: u8,
    ghost few: { wrong ≤ 15 },
}
