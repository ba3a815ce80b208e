// A step in C, but for its name there: the record comes and goes as numbers, and so does the answer.
#![tactic(auto)]

ghost use Rattle.std.specs.Prelude.{◌≡◌, ◌≤◌, length};
ghost use Rattle.lasso.specs.Values.{record_of};
ghost use Rattle.step.specs.Step.{step_outcome_of};
ghost use Rattle.figures.specs.Kinds.{record_given, figures_in};
ghost use Rattle.figures.specs.Short.{work_after_call};
ghost use Rattle.capi_step.specs.Call.{step_report, step_call};

use figures::{Kind, report_record, too_few};
use lasso::{RoundRecord, Transitions};
use numbers::Reason;
use step::{StepAnswer, step};

// The record that three figures stand for.
fn record_given(done: u16, has_best: u8, best: u16) -> RoundRecord
    ensures { record_of result ≡ record_given done has_best best }
{
    RoundRecord {
        done,
        best: (has_best != 0).then_some(Transitions(best)),
    }
}

// Reports the answer of a step.
fn report_step(answer: Result<StepAnswer, Reason>, out: &mut [u16]) -> u16
    requires { 3 ≤ length out.old }
    ensures kind { result ≡ (step_report (step_outcome_of answer)).kind }
    ensures out { out.new ≡ figures_in out.old (step_report (step_outcome_of answer)) }
{
    match answer {
        Err(reason) => reason.into(),
        Ok(StepAnswer::Finished(r)) => report_record(Kind::Finished, r, out),
        Ok(StepAnswer::Advanced(r)) => report_record(Kind::Advanced, r, out),
    }
}

// The record after one more round under a ceiling.
pub fn step_call(
    file: &[u8],
    mark_table: u16,
    ceiling: u16,
    done: u16,
    has_best: u8,
    best: u16,
    work: &mut [u16],
    out: &mut [u16],
) -> u16
    ensures value { result ≡ (step_call file.now mark_table ceiling (record_given done has_best best)
        work.old out.old).kind }
    ensures out { out.new ≡ figures_in out.old (step_call file.now mark_table ceiling
        (record_given done has_best best) work.old out.old) }
    ensures work { work.new ≡ work_after_call file.now mark_table work.old
        out.old }
{
    if too_few(out.len()) {
        return Kind::OutTooShort.into();
    }
    let so_far = record_given(done, has_best, best);
    let stepped = step(file, mark_table, Transitions(ceiling), so_far, work);
    report_step(stepped, out)
}
