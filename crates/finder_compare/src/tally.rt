// The counts that are printed, and the comparison that counts differences.
use exhaustive::Seen;
use harness::{Answer, add, add_if};

// How many calls of a kind there were, and how many of them were refused.
#[derive(Clone, Copy, Default)]
pub struct Calls {
    pub tried: u64,
    pub refused: u64,
}

// The counts: models by their number of states, models with an implied step; files with one mark table and with two, by the
// table that is named, files with a bit of the other marks flipped, files by the least length, 0 for none, files with
// several lists; ceilings, steps, searches, nexts and distances with the kinds of their answers after each, refusals with 12
// to 15 and 21, steps from a best above the ceiling, lists and entries received, differences.
#[derive(Clone, Copy, Default)]
pub struct Tally {
    pub models: [u64; 7],
    pub implied: u64,
    pub one_table: [u64; 2],
    pub two_tables: [u64; 2],
    pub flipped: u64,
    pub lengths: [u64; 8],
    pub several: u64,
    pub ceilings: u64,
    pub steps: Calls,
    pub advanced: u64,
    pub finished: u64,
    pub searches: Calls,
    pub found: u64,
    pub none_within: u64,
    pub stopped: u64,
    pub nexts: Calls,
    pub next_found: u64,
    pub no_more: u64,
    pub distances: Calls,
    pub written: u64,
    pub refused: [u64; 5],
    pub above: u64,
    pub lists: u64,
    pub entries: u64,
    pub differences: u64,
}

// Adds one at a place of some counts.
pub fn add_at(counts: &mut [u64], at: usize) {
    if let Some(count) = counts.get_mut(at) {
        add(count, 1);
    }
}

// Counts an answer by its kind, a refusal by its number.
fn count_kind(tally: &mut Tally, answer: Answer) {
    match answer {
        Answer::Advanced { .. } => add(&mut tally.advanced, 1),
        Answer::Finished { .. } => add(&mut tally.finished, 1),
        Answer::Found { .. } => add(&mut tally.found, 1),
        Answer::NoneWithin { .. } => add(&mut tally.none_within, 1),
        Answer::Stopped { .. } => add(&mut tally.stopped, 1),
        Answer::NextFound { .. } => add(&mut tally.next_found, 1),
        Answer::NoMore => add(&mut tally.no_more, 1),
        Answer::Written { .. } => add(&mut tally.written, 1),
        Answer::Refused(21) => add(&mut tally.refused[4], 1),
        Answer::Refused(number) => add(&mut tally.refused[usize::from(number % 4)], 1),
    }
}

// Counts a call's answer, and a difference if it is not the one that it must be.
pub fn compare(tally: &mut Tally, seen: Seen, expected: Seen) {
    count_kind(tally, seen.tried.answer);
    add_if(&mut tally.differences, seen != expected);
}

impl Calls {
    // Counts a call with what it answered.
    pub fn count(&mut self, seen: Seen) {
        add(&mut self.tried, 1);
        add_if(&mut self.refused, seen.tried.answer.refusal().is_some());
    }
}
