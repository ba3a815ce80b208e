// A public operation: the grade of a list with a claimed k, by the marks of the table that it names. It applies the reasons
// 22 and 1 to 12, and leaves the working table untouched after 1 to 12 and all zero otherwise.
#![tactic(auto)]

ghost use Rattle.std.specs.Prelude.{◌≡◌, ◌*◌, ◌≤◌, length};
ghost use Rattle.std.proofs.Math.Option.{none};
ghost use Rattle.model.specs.Model.{graph_in};
ghost use Rattle.model.specs.Values.{Valid};
ghost use Rattle.paths.specs.Breaks.{first_break};
ghost use Rattle.gate.specs.Gate.{work_of};
ghost use Rattle.grade_verdicts.specs.Verdict.{verdict};
ghost use Rattle.grade.specs.Grade.{verdict_of, graded_of, grade_of, grade_outcome_of, grade_outcome};

use gate::{enter, leave};
use grade_accepts::accepts;
use grade_least::is_least;
use model::Header;
use numbers::Reason;
use paths::first_break;

// What the grader says of a list with a claimed k: it is no accepting path, it is one, it is one of least length.
#[derive(Clone, Copy)]
pub enum Verdict {
    False,
    Accepting,
    Shortest,
}

// The grade of a list: the verdict, and the first place where the list breaks, if any.
#[derive(Clone, Copy)]
pub struct Graded {
    pub verdict: Verdict,
    pub first_break: Option<usize>,
}

// The verdict on a list that breaks nowhere. The rounds are done only if it is an accepting path.
fn verdict_of(file: &[u8], h: Header, list: &[u16], k: u16, work: &mut [u16]) -> Verdict
    requires valid { Valid file.now h }
    requires states_in_bounds { 6 * h.states ≤ length work.old }
    requires list_value { first_break (graph_in file.now h) list.now ≡ none }
    ensures tells { verdict_of result ≡ verdict (graph_in file.now h) list.now k }
    ensures kept { length work.new ≡ length work.old }
{
    if !accepts(file, h, list, k, work) {
        return Verdict::False;
    }
    if !is_least(file, h, list, work) {
        return Verdict::Accepting;
    }
    Verdict::Shortest
}

// The grade of a list where no reason holds: a list that breaks is false.
fn grade_of_model(file: &[u8], h: Header, list: &[u16], k: u16, work: &mut [u16]) -> Graded
    requires valid { Valid file.now h }
    requires states_in_bounds { 6 * h.states ≤ length work.old }
    ensures grade { graded_of result ≡ grade_of (graph_in file.now h) list.now k }
    ensures kept { length work.new ≡ length work.old }
{
    let first_break = first_break(file, h, list);
    let verdict = match first_break {
        Some(_) => Verdict::False,
        None => verdict_of(file, h, list, k, work),
    };
    Graded {
        verdict,
        first_break,
    }
}

// Grades a list with a claimed k: false, accepting or shortest, and the first place where the list breaks.
pub fn grade(
    file: &[u8],
    mark_table: u16,
    list: &[u16],
    k: u16,
    work: &mut [u16],
) -> Result<Graded, Reason>
    ensures outcome { grade_outcome_of result
        ≡ grade_outcome file.now mark_table list.now k (length work.old) }
    ensures work { work.new ≡ work_of file.now mark_table work.old }
{
    let h = enter(file, mark_table, work)?;
    let graded = grade_of_model(file, h, list, k, work);
    leave(work);
    Ok(graded)
}
