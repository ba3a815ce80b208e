// A distance call in C, but for its name there: the answer goes as numbers.
#![tactic(auto)]

ghost use Rattle.std.specs.Prelude.{◌≡◌, ◌≤◌, length};
ghost use Rattle.distances.specs.Distances.{distances_outcome_of};
ghost use Rattle.figures.specs.Kinds.{written_report, figures_in};
ghost use Rattle.figures.specs.Short.{work_after_call};
ghost use Rattle.capi_distances.specs.Call.{distances_call, output_after_distances};

use distances::distances;
use figures::{Kind, report_figures, too_few};
use lasso::Transitions;
use numbers::Reason;

// Reports the answer of a distance call: the number of entries written is the one figure.
fn report_distances(answer: Result<u16, Reason>, out: &mut [u16]) -> u16
    requires { 1 ≤ length out.old }
    ensures kind { result ≡ (written_report (distances_outcome_of answer)).kind }
    ensures out { out.new ≡ figures_in out.old (written_report (distances_outcome_of answer)) }
{
    match answer {
        Err(reason) => reason.into(),
        Ok(entries) => report_figures(Kind::Written, &[entries], out),
    }
}

// The distances from the initial state up to a ceiling, written to the output.
pub fn distances_call(
    file: &[u8],
    ceiling: u16,
    output: &mut [u16],
    work: &mut [u16],
    out: &mut [u16],
) -> u16
    ensures value { result ≡ (distances_call file.now ceiling
        output.old work.old out.old).kind }
    ensures out { out.new ≡ figures_in out.old (distances_call file.now ceiling
        output.old work.old out.old) }
    ensures output { output.new ≡ output_after_distances file.now ceiling
        output.old work.old out.old }
    ensures work { work.new ≡ work_after_call file.now 0 work.old
        out.old }
{
    if too_few(out.len()) {
        return Kind::OutTooShort.into();
    }
    let written = distances(file, Transitions(ceiling), output, work);
    report_distances(written, out)
}
