// A combination in C, but for its name there: the answer goes as numbers.
#![tactic(auto)]

ghost use Rattle.std.specs.Prelude.{◌≡◌, ◌≤◌, length};
ghost use Rattle.combine.specs.Combine.{combine_outcome_of};
ghost use Rattle.figures.specs.Kinds.{written_report, figures_in};
ghost use Rattle.capi_combine.specs.Figures.{FigureFits};
ghost use Rattle.capi_combine.specs.Call.{combine_call, output_after_combine};

use combine::combine;
use figures::{Kind, report_figures, too_few};
use numbers::Reason;

// Reports the answer of a combination: its number of bytes is the one figure. A distance call counts in another size, with no
// bound to prove: one function for both would be longer than the line that they share.
fn report_combine(answer: Result<usize, Reason>, out: &mut [u16]) -> u16
    requires in_bounds { 4 ≤ length out.old }
    requires figure_fits { FigureFits answer }
    ensures kind { result ≡ (written_report (combine_outcome_of answer)).kind }
    ensures out { out.new ≡ figures_in out.old (written_report (combine_outcome_of answer)) }
{
    match answer {
        Err(reason) => reason.into(),
        Ok(bytes) => report_figures(Kind::Written, &[bytes as u16], out),
    }
}

// The combination of a rule with a property, written to the output as a model file.
pub fn combine_call(
    rule: &[u8],
    letters: &[u8],
    property: &[u8],
    output: &mut [u8],
    out: &mut [u16],
) -> u16
    ensures value { result ≡ (combine_call rule.now letters.now property.now
        output.old out.old).kind }
    ensures out { out.new ≡ figures_in out.old (combine_call rule.now
        letters.now property.now output.old out.old) }
    ensures output { output.new ≡ output_after_combine rule.now letters.now
        property.now output.old out.old }
{
    if too_few(out.len()) {
        return Kind::OutTooShort.into();
    }
    let combined = combine(rule, letters, property, output);
    report_combine(combined, out)
}
