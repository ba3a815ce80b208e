// Next: the shortest accepting path that follows an earlier one, by the marks of the table that it names. It applies the
// reasons 22 and 1 to 15 in order, and leaves the working table untouched after 1 to 12 and all zero otherwise.
#![tactic(auto)]

ghost use Rattle.std.specs.Prelude.{◌≡◌, ◌*◌, ◌≤◌, length};
ghost use Rattle.std.proofs.Math.Option.{some};
ghost use Rattle.std.proofs.Math.ListN;
ghost use Rattle.lasso.specs.Roll.{least_length};
ghost use Rattle.model.specs.Model.{graph_in};
ghost use Rattle.model.specs.Values.{Valid};
ghost use Rattle.gate.specs.Gate.{work_of};
ghost use Rattle.candidates.specs.Promises.{RoundsReady};
ghost use Rattle.next.specs.Next.{next_outcome_of, next_outcome, next_answer};

use begun::all_rounds;
use cursor::{to_list, to_next, write_list};
use gate::{enter, leave};
use lasso::Transitions;
use model::Header;
use numbers::{Reason, limit};
use paths::is_lasso;

// The list that was written: its length, and the place where its loop starts.
#[derive(Clone, Copy)]
pub struct NextList {
    pub length: Transitions,
    pub loop_start: u16,
}

// Writes the shortest accepting path after the earlier one, where their length is known.
fn next_list(
    file: &[u8],
    h: Header,
    transitions: Transitions,
    earlier: &[u16],
    answer: &mut [u16],
    work: &mut [u16],
) -> Result<Option<NextList>, Reason>
    requires rounds_ready { RoundsReady file.now h work.old }
    requires h_value { least_length (graph_in file.now h) ≡ some transitions.0 }
    ensures outcome { next_outcome_of result
        ≡ next_outcome file.now h.table earlier.now
        (length answer.old)
        (length work.old) }
    ensures answer { answer.new
        ≡ next_answer file.now h.table earlier.now answer.old
        (length work.old) }
    ensures kept { length work.new ≡ length work.old }
{
    if !is_lasso(file, h, earlier, transitions) {
        return Err(Reason::NotShortest);
    }
    if limit::LONGEST_PATH < transitions.0 {
        return Err(Reason::TooLong);
    }
    to_list(file, h, transitions, earlier, work);
    if !to_next(file, h, transitions, work) {
        return Ok(None);
    }
    if answer.len() < transitions.entries().0 {
        return Err(Reason::NoRoom);
    }
    let k = write_list(h, work, transitions, answer);
    Ok(Some(NextList {
        length: transitions,
        loop_start: k as u16,
    }))
}

// All rounds and then, if there is an accepting path, the one after the earlier list.
fn next_of_model(
    file: &[u8],
    h: Header,
    earlier: &[u16],
    answer: &mut [u16],
    work: &mut [u16],
) -> Result<Option<NextList>, Reason>
    requires valid { Valid file.now h }
    requires states_in_bounds { 6 * h.states ≤ length work.old }
    ensures outcome { next_outcome_of result
        ≡ next_outcome file.now h.table earlier.now
        (length answer.old) (length work.old) }
    ensures answer { answer.new
        ≡ next_answer file.now h.table earlier.now answer.old
        (length work.old) }
    ensures kept { length work.new ≡ length work.old }
{
    match all_rounds(file, h, work).length {
        None => Err(Reason::NotShortest),
        Some(transitions) => next_list(file, h, transitions, earlier, answer, work),
    }
}

// The shortest accepting path that follows an earlier one, written to the answer table; none if there is no more.
pub fn next(
    file: &[u8],
    mark_table: u16,
    earlier: &[u16],
    answer: &mut [u16],
    work: &mut [u16],
) -> Result<Option<NextList>, Reason>
    ensures outcome { next_outcome_of result
        ≡ next_outcome file.now mark_table earlier.now (length answer.old)
        (length work.old) }
    ensures answer { answer.new
        ≡ next_answer file.now mark_table earlier.now answer.old (length work.old) }
    ensures work { work.new ≡ work_of file.now mark_table work.old }
{
    let h = enter(file, mark_table, work)?;
    let followed = next_of_model(file, h, earlier, answer, work);
    leave(work);
    followed
}
