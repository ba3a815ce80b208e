// The rounds of a search. Region 0 of the working table holds the distances from the start throughout.
#![tactic(auto)]

ghost use Rattle.std.specs.Prelude.{◌≡◌, ◌*◌, ◌<◌, length};
ghost use Rattle.lasso.specs.Rounds.{candidates, after_round, after_allowed};
ghost use Rattle.lasso.specs.Values.{record_of};
ghost use Rattle.model.specs.Model.{graph_in};
ghost use Rattle.table.specs.Changes.{SameOutside};
ghost use Rattle.candidates.specs.Promises.{RoundsReady};

use after_round::after_round;
use candidates::{candidate_at, is_candidate};
use lasso::{RoundRecord, Transitions};
use model::Header;

// The record after one more round under a ceiling: the one for the candidate whose place is the count.
pub fn next_round(
    file: &[u8],
    h: Header,
    work: &mut [u16],
    ceiling: Transitions,
    so_far: RoundRecord,
) -> RoundRecord
    requires rounds_ready { RoundsReady file.now h work.old }
    requires so_far_in_bounds { so_far.done < length (candidates (graph_in file.now h)) }
    ensures result_value { record_of result ≡ after_round (graph_in file.now h) ceiling.0 (record_of so_far) }
    ensures same { SameOutside (2 * h.states) (6 * h.states) work.old work.new }
{
    let place = so_far.done as usize;
    let r = candidate_at(file, h, work, place);
    after_round(file, h, work, r, ceiling, so_far)
}

// The record after all rounds under a ceiling that the allowance admits.
pub fn run_rounds(
    file: &[u8],
    h: Header,
    work: &mut [u16],
    ceiling: Transitions,
    allowance: usize,
) -> RoundRecord
    requires { RoundsReady file.now h work.old }
    ensures result_value { record_of result ≡ after_allowed (graph_in file.now h) ceiling.0 allowance }
    ensures same { SameOutside (2 * h.states) (6 * h.states) work.old work.new }
{
    let n = h.states;
    let mut record = RoundRecord {
        done: 0,
        best: None,
    };
    for s in 0..n {
        if is_candidate(file, h, work, s) {
            let done = record.done as usize;
            if allowance <= done {
                return record;
            }
            record = after_round(file, h, work, s, ceiling, record);
        }
    }
    record
}
