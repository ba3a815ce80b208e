// How many tables were looked at after a call, and how many of them were not as they should be.
use harness::{Tried, sum};

#[derive(Clone, Copy, Default)]
pub struct Judged {
    pub looked: u64,
    pub wrong: u64,
}

// With the tables of four calls more: one for the step, two each for the search, for next and for the distances.
pub fn and(so_far: Judged, answers: &[Tried; 4]) -> Judged {
    let mut wrong = so_far.wrong;
    for tried in answers {
        wrong = sum(wrong, u64::from(tried.wrong));
    }
    Judged {
        looked: sum(so_far.looked, 7),
        wrong,
    }
}
