// The rounds of a search under a ceiling, and what they come to. Search, next, the sheet and the grader all begin with them.
#![tactic(auto)]

ghost use Rattle.std.specs.Prelude.{◌≡◌, ◌*◌, ◌≤◌, length};
ghost use Rattle.std.proofs.Math.ListN;
ghost use Rattle.model.specs.Values.{Valid};
ghost use Rattle.model.specs.Model.{graph_in};
ghost use Rattle.candidates.specs.Promises.{RoundsReady};
ghost use Rattle.begun.specs.Begun.{BegunSays, AllRoundsSay};

use candidates::{count_candidates, start_distances};
use lasso::{RoundRecord, Transitions};
use model::Header;
use numbers::limit;
use rounds::run_rounds;

// What the rounds come to: stopped with the record, or all done, with the length of the shortest accepting paths, if
// there is one within the ceiling, and the number of rounds.
#[derive(Clone, Copy)]
pub enum Begun {
    Stopped(RoundRecord),
    NoneWithin(u16),
    Length(Transitions, u16),
}

// What all rounds of the whole model come to: the number of rounds, and the length of the shortest accepting paths, if there
// is one.
#[derive(Clone, Copy)]
pub struct AllRounds {
    pub rounds: u16,
    pub length: Option<Transitions>,
}

// Does the rounds under a ceiling that the allowance admits.
pub fn begin(
    file: &[u8],
    h: Header,
    ceiling: Transitions,
    allowance: u16,
    work: &mut [u16],
) -> Begun
    requires valid { Valid file.now h }
    requires states_in_bounds { 6 * h.states ≤ length work.old }
    ensures says { BegunSays (graph_in file.now h) ceiling.0 allowance result }
    ensures ready { RoundsReady file.now h work.new }
    ensures kept { length work.new ≡ length work.old }
{
    start_distances(file, h, work);
    let count = count_candidates(file, h, work);
    let allowed = allowance as usize;
    let record = run_rounds(file, h, work, ceiling, allowed);
    if allowed < count {
        return Begun::Stopped(record);
    }
    let rounds = record.done;
    match record.best {
        None => Begun::NoneWithin(rounds),
        Some(length) => Begun::Length(length, rounds),
    }
}

// Does all rounds of the whole model: no shortest accepting path is above the highest ceiling, and the allowance suffices for
// every model, so the rounds are never stopped.
pub fn all_rounds(file: &[u8], h: Header, work: &mut [u16]) -> AllRounds
    requires valid { Valid file.now h }
    requires states_in_bounds { 6 * h.states ≤ length work.old }
    ensures says { AllRoundsSay (graph_in file.now h) result }
    ensures ready { RoundsReady file.now h work.new }
    ensures kept { length work.new ≡ length work.old }
{
    let begun = begin(
        file,
        h,
        Transitions(limit::HIGHEST_CEILING),
        limit::ALL_ROUNDS,
        work,
    );
    match begun {
        Begun::Stopped(_) => unreachable!(),
        Begun::NoneWithin(rounds) => AllRounds {
            rounds,
            length: None,
        },
        Begun::Length(length, rounds) => AllRounds {
            rounds,
            length: Some(length),
        },
    }
}
