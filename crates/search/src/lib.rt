// A search: the first of the shortest accepting paths, if they are not longer than the ceiling, by the marks of the table
// that it names. It applies the reasons 22, 1 to 12, 21, 14 and 15 in order, and leaves the working table untouched after 1
// to 12 and all zero otherwise.
#![tactic(auto)]

ghost use Rattle.std.specs.Prelude.{◌≡◌, ◌*◌, ◌≤◌, length};
ghost use Rattle.std.proofs.Math.Option.{some};
ghost use Rattle.std.proofs.Math.ListN;
ghost use Rattle.lasso.specs.Roll.{least_length};
ghost use Rattle.lasso.specs.Rounds.{candidates};
ghost use Rattle.model.specs.Model.{graph_in};
ghost use Rattle.model.specs.Values.{Valid};
ghost use Rattle.gate.specs.Gate.{work_of};
ghost use Rattle.candidates.specs.Promises.{RoundsReady};
ghost use Rattle.search.specs.Search.{search_outcome_of, search_outcome, search_answer, WithEnough};

use begun::{Begun, begin};
use cursor::{to_first, write_list};
use gate::{Ask, ceiling_too_high, enter, leave};
use lasso::{RoundRecord, Transitions};
use model::Header;
use numbers::{Reason, limit};

// What a search that is not refused answers: stopped with the record after the rounds that the allowance admits; found with
// the length, the loop's start and the rounds; or none within the ceiling with the rounds.
#[derive(Clone, Copy)]
pub enum SearchAnswer {
    Stopped(RoundRecord),
    Found(Transitions, u16, u16),
    NoneWithin(u16),
}

// Writes the first of the shortest accepting paths, whose length is known. All rounds are done, so that the answer is
// that of a search of this mark table with any allowance that suffices and any ceiling that the length is not above.
fn first_list(
    file: &[u8],
    h: Header,
    transitions: Transitions,
    rounds: u16,
    answer: &mut [u16],
    work: &mut [u16],
) -> Result<SearchAnswer, Reason>
    requires rounds_ready { RoundsReady file.now h work.old }
    requires h_value { least_length (graph_in file.now h) ≡ some transitions.0 }
    requires rounds_value { rounds ≡ length (candidates (graph_in file.now h)) }
    ensures outcome { WithEnough h.table rounds transitions.0 (λ ask. search_outcome_of result
        ≡ search_outcome file.now ask
        (length answer.old) (length work.old)) }
    ensures answer { WithEnough h.table rounds transitions.0 (λ ask. answer.new
        ≡ search_answer file.now ask answer.old (length work.old)) }
    ensures kept { length work.new ≡ length work.old }
{
    if limit::LONGEST_PATH < transitions.0 {
        return Err(Reason::TooLong);
    }
    if answer.len() < transitions.entries().0 {
        return Err(Reason::NoRoom);
    }
    to_first(file, h, transitions, work);
    let k = write_list(h, work, transitions, answer);
    Ok(SearchAnswer::Found(transitions, k as u16, rounds))
}

// The rounds that the allowance admits and, if it suffices, the first of the shortest accepting paths, if they are within
// the ceiling; refused if the ceiling is too high.
fn search_model(
    file: &[u8],
    h: Header,
    ask: Ask,
    answer: &mut [u16],
    work: &mut [u16],
) -> Result<SearchAnswer, Reason>
    requires valid { Valid file.now h × (h.table ≡ ask.table) }
    requires states_in_bounds { 6 * h.states ≤ length work.old }
    ensures outcome { search_outcome_of result
        ≡ search_outcome file.now ask (length answer.old) (length work.old) }
    ensures answer { answer.new
        ≡ search_answer file.now ask answer.old (length work.old) }
    ensures kept { length work.new ≡ length work.old }
{
    if ceiling_too_high(ask.ceiling) {
        return Err(Reason::HighCeiling);
    }
    match begin(file, h, ask.ceiling, ask.allowance, work) {
        Begun::Stopped(record) => Ok(SearchAnswer::Stopped(record)),
        Begun::NoneWithin(rounds) => Ok(SearchAnswer::NoneWithin(rounds)),
        Begun::Length(transitions, rounds) => first_list(
            file,
            h,
            transitions,
            rounds,
            answer,
            work,
        ),
    }
}

// The first of the shortest accepting paths, written to the answer table if it is not longer than the ceiling.
pub fn search(
    file: &[u8],
    ask: Ask,
    answer: &mut [u16],
    work: &mut [u16],
) -> Result<SearchAnswer, Reason>
    ensures outcome { search_outcome_of result
        ≡ search_outcome file.now ask (length answer.old) (length work.old) }
    ensures answer { answer.new
        ≡ search_answer file.now ask answer.old (length work.old) }
    ensures work { work.new ≡ work_of file.now ask.table work.old }
{
    let h = enter(file, ask.table, work)?;
    let searched = search_model(file, h, ask, answer, work);
    leave(work);
    searched
}
