// One step: the record after one more round under a ceiling, by the marks of the table that it names. It applies the
// reasons 22, 1 to 12 and 21 in order, and leaves the working table untouched after 1 to 12 and all zero otherwise.
#![tactic(auto)]

ghost use Rattle.std.specs.Prelude.{◌≡◌, ◌*◌, ◌≤◌, length};
ghost use Rattle.lasso.specs.Values.{record_of};
ghost use Rattle.model.specs.Values.{Valid};
ghost use Rattle.gate.specs.Gate.{work_of};
ghost use Rattle.step.specs.Step.{step_outcome_of, step_outcome};

use candidates::{count_candidates, start_distances};
use gate::{ceiling_too_high, enter, leave};
use lasso::{RoundRecord, Transitions};
use model::Header;
use numbers::Reason;
use rounds::next_round;

// What a step that is not refused answers: the record, the same or after one more round.
#[derive(Clone, Copy)]
pub enum StepAnswer {
    Finished(RoundRecord),
    Advanced(RoundRecord),
}

// The record after one more round, or the same if no candidate is left; refused if the ceiling is too high.
fn step_model(
    file: &[u8],
    h: Header,
    ceiling: Transitions,
    so_far: RoundRecord,
    work: &mut [u16],
) -> Result<StepAnswer, Reason>
    requires valid { Valid file.now h }
    requires states_in_bounds { 6 * h.states ≤ length work.old }
    ensures outcome { step_outcome_of result
        ≡ step_outcome file.now h.table ceiling.0 (record_of so_far) (length work.old) }
    ensures kept { length work.new ≡ length work.old }
{
    if ceiling_too_high(ceiling) {
        return Err(Reason::HighCeiling);
    }
    start_distances(file, h, work);
    let count = count_candidates(file, h, work);
    if count <= usize::from(so_far.done) {
        return Ok(StepAnswer::Finished(so_far));
    }
    let after = next_round(file, h, work, ceiling, so_far);
    Ok(StepAnswer::Advanced(after))
}

// The record after one more round under a ceiling, for any record at all.
pub fn step(
    file: &[u8],
    mark_table: u16,
    ceiling: Transitions,
    so_far: RoundRecord,
    work: &mut [u16],
) -> Result<StepAnswer, Reason>
    ensures outcome { step_outcome_of result
        ≡ step_outcome file.now mark_table ceiling.0 (record_of so_far) (length work.old) }
    ensures work { work.new ≡ work_of file.now mark_table work.old }
{
    let h = enter(file, mark_table, work)?;
    let stepped = step_model(file, h, ceiling, so_far, work);
    leave(work);
    stepped
}
