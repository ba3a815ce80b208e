// A grade on trial: the working table is filled before the call and looked at after it.
#![tactic(auto)]

pub use grade::{Graded, Verdict};
use harness::{Filling, fill, wrong_work};

// What a grade answered: the verdict with the first place where the list breaks, if there is one, or the number of the
// refusal. Then whether the working table is not as it must be.
#[derive(Clone, Copy)]
pub struct Tried {
    pub answer: Result<Graded, u16>,
    pub wrong: bool,
}

// A grade of a list with a claimed k by the marks of a table, lent a working table.
pub fn grade(file: &[u8], mark_table: u16, list: &[u16], k: u16, work: &mut [u16]) -> Tried {
    fill(work, Filling::Varied);
    let answer = grade::grade(file, mark_table, list, k, work).map_err(u16::from);
    Tried {
        answer,
        wrong: wrong_work(work, answer.err()),
    }
}
