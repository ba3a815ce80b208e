// The report of a grade: a kind and one figure, and the place where the list breaks in a table of its own.
#![tactic(auto)]

ghost use Rattle.std.specs.Prelude.{◌≡◌, ◌≤◌, length};
ghost use Rattle.grade.specs.Grade.{verdict_of};
ghost use Rattle.figures.specs.Kinds.{KindTold, figures_told};
ghost use Rattle.figures.specs.Numbered.{kind_number};
ghost use Rattle.grade_report.specs.Grades.{verdict_kind, report_of_graded, place_told};

use figures::Kind;
use grade::{Graded, Verdict};

// The kind of a verdict.
fn kind_of(v: Verdict) -> Kind
    ensures { kind_number result ≡ verdict_kind (verdict_of v) }
{
    match v {
        Verdict::False => Kind::False,
        Verdict::Accepting => Kind::Accepting,
        Verdict::Shortest => Kind::Shortest,
    }
}

// Reports the answer of the grader, whose refusal is a reason or a number: the one figure is whether there is a place where
// the list breaks. The place itself goes to a table of its own, and nothing goes there if there is none.
pub fn report_grade<N: Into<u16>>(
    answer: Result<Graded, N>,
    place: &mut [usize],
    out: &mut [u16],
) -> u16
    requires in_bounds { 1 ≤ length place.old }
    requires in_bounds_2 { 1 ≤ length out.old }
    ensures kind { KindTold N.converts report_of_graded answer result }
    ensures out { out.new ≡ figures_told out.old report_of_graded answer }
    ensures place { place.new ≡ place_told place.old answer }
{
    match answer {
        Err(reason) => reason.into(),
        Ok(graded) => {
            match graded.first_break {
                None => out[0] = 0,
                Some(j) => {
                    place[0] = j;
                    out[0] = 1;
                }
            }
            kind_of(graded.verdict).into()
        }
    }
}
