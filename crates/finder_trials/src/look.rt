// The look at the tables after a call, which were filled with varied numbers before it.
use harness::{Answer, Filling, Tried, holds, wrong_work};

// Whether the answer table is not untouched from the place on where the list that was written ends.
pub fn wrong_answer(table: &[u16], written: usize) -> bool {
    !holds(table, written, Filling::Varied)
}

// An answer with what was seen of the working table.
pub fn seen_work(answer: Answer, work: &[u16]) -> Tried {
    Tried {
        answer,
        wrong: u8::from(wrong_work(work, answer.refusal())),
    }
}

// An answer with what was seen of the answer table and of the working table.
pub fn seen(answer: Answer, table: &[u16], work: &[u16]) -> Tried {
    let wrong = u8::from(wrong_answer(table, answer.written()));
    Tried {
        answer,
        wrong: wrong + u8::from(wrong_work(work, answer.refusal())),
    }
}
