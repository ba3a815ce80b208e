// The answers of the finder, in figures.
use harness::{Answer, entry};
use lasso::{RoundRecord, Transitions};
use next::NextList;
use numbers::Reason;
use search::SearchAnswer;
use step::StepAnswer;

// A best length in figures.
fn figure(best: Option<Transitions>) -> Option<u16> {
    best.map(|length| length.0)
}

// What a step answered.
pub fn of_step(given: Result<StepAnswer, Reason>) -> Answer {
    match given {
        Err(reason) => Answer::Refused(reason.into()),
        Ok(StepAnswer::Finished(RoundRecord { done, best })) => Answer::Finished {
            done,
            best: figure(best),
        },
        Ok(StepAnswer::Advanced(RoundRecord { done, best })) => Answer::Advanced {
            done,
            best: figure(best),
        },
    }
}

// What a search answered.
pub fn of_search(given: Result<SearchAnswer, Reason>) -> Answer {
    match given {
        Err(reason) => Answer::Refused(reason.into()),
        Ok(SearchAnswer::Stopped(RoundRecord { done, best })) => Answer::Stopped {
            done,
            best: figure(best),
        },
        Ok(SearchAnswer::Found(Transitions(length), k, rounds)) => {
            Answer::Found { length, k, rounds }
        }
        Ok(SearchAnswer::NoneWithin(rounds)) => Answer::NoneWithin { rounds },
    }
}

// What next answered.
pub fn of_next(given: Result<Option<NextList>, Reason>) -> Answer {
    match given {
        Err(reason) => Answer::Refused(reason.into()),
        Ok(Some(listed)) => Answer::NextFound {
            length: listed.length.0,
            k: listed.loop_start,
        },
        Ok(None) => Answer::NoMore,
    }
}

// What a distance call answered, with the last of the entries that it wrote, 0 if there are none.
pub fn of_distances(given: Result<u16, Reason>, output: &[u16]) -> Answer {
    match given {
        Err(reason) => Answer::Refused(reason.into()),
        Ok(n) => {
            let entries = usize::from(n);
            let last = entries.checked_sub(1).map_or(0, |at| entry(output, at));
            Answer::Written { entries, last }
        }
    }
}
