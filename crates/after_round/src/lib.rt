// The record after one more round, whose candidate is given.
#![tactic(auto)]

ghost use Rattle.std.specs.Prelude.{◌≡◌, ◌*◌, ◌<◌, length, get_or};
ghost use Rattle.lasso.specs.Rounds.{candidates, after_round};
ghost use Rattle.lasso.specs.Values.{record_of};
ghost use Rattle.model.specs.Model.{graph_in};
ghost use Rattle.table.specs.Changes.{SameOutside};
ghost use Rattle.candidates.specs.Promises.{RoundsReady};

use lasso::{RoundRecord, Transitions};
use model::Header;
use round::round;
use round_limit::limit_of;

// The record after the round for candidate r, whose place is the count. A length above the best need not be found; the
// best is kept, also one above the ceiling.
pub fn after_round(
    file: &[u8],
    h: Header,
    work: &mut [u16],
    r: usize,
    ceiling: Transitions,
    so_far: RoundRecord,
) -> RoundRecord
    requires rounds_ready { RoundsReady file.now h work.old }
    requires so_far_in_bounds { so_far.done < length (candidates (graph_in file.now h)) }
    requires r_value { r ≡ get_or (candidates (graph_in file.now h)) so_far.done 0 }
    ensures result_value { record_of result ≡ after_round (graph_in file.now h) ceiling.0 (record_of so_far) }
    ensures same { SameOutside (2 * h.states) (6 * h.states) work.old work.new }
{
    let limit = limit_of(so_far, h.states, ceiling);
    let found = round(file, h, work, r, limit);
    so_far.with_round(found)
}
