// Compares a grade with an independent one: all lists of up to two entries more than there are states, with every k,
// on all models of one and two states, on models of three with every edge set, and on pseudo-random ones of four, without
// implied steps and with them, in files with one mark table and with two, either of them named. Every list that a search
// and next bring is graded too.
#![tactic(auto)]

mod calls;
mod models;
mod tally;
mod turns;

ghost use Rattle.std.specs.Prelude.{◌<◌, ◌≤◌};

use exhaustive::{Model, Placed};
use grade_trials::{Graded, Tried, Verdict};
use tally::{Tally, add_brought, add_file, add_grade};
use turns::{Turn, after, claim_of};

// A working table's length for so many states: as many entries as needed, or up to five more.
fn room(states: usize, more: usize) -> usize
    ensures { result ≤ 48 }
{
    if 7 < states {
        return 0;
    }
    6 * states + more % 6
}

// Compares the grades of all lists with every k, on a model whose steps are all edges. There are far more turns than
// needed; should they not be enough, that is a difference.
fn compare_lists(
    rt: &impl Print,
    m: Model,
    least: Option<u16>,
    file: &[u8],
    mark_table: u16,
    t: &mut Tally,
) {
    let mut turn = turns::FIRST;
    for _ in 0..1000000 {
        match turn {
            Turn::Back { entries: 0, .. } => return,
            Turn::Back { .. } => {}
            Turn::Graded {
                list,
                entries,
                which,
            } => {
                let claim = claim_of(list, entries, which);
                let seen = calls::grade(file, mark_table, claim, room(m.states, which));
                let right = grade_independent::grade(m, least, claim);
                add_grade(rt, t, m, claim, seen, right);
            }
        }
        turn = after(turn, m.states);
    }
    add_brought(t, 0, false);
}

// Whether a list that was brought is graded as it must be.
fn is_shortest(seen: Tried) -> bool {
    !seen.wrong
        && matches!(
            seen.answer,
            Ok(Graded {
                verdict: Verdict::Shortest,
                first_break: None,
            })
        )
}

// Grades every list that a search and next bring, of which there must be so many.
fn compare_roll(states: usize, lists: usize, file: &[u8], mark_table: u16, t: &mut Tally) {
    let lent = room(states, 0);
    let mut table = [0u16; 8];
    let mut answer = calls::search(file, mark_table, &mut table, lent);
    let mut right = true;
    for got in 0..1000 {
        let Some((_, k)) = answer.list() else {
            return add_brought(t, got, right && got == lists);
        };
        let seen = calls::grade_found(file, mark_table, answer, k, &table, lent);
        right = right && is_shortest(seen);
        answer = calls::next(file, mark_table, answer, &mut table, lent);
    }
    add_brought(t, 0, false);
}

// All comparisons on a model in its file.
fn compare_placed(rt: &impl Print, p: Placed, states: usize, t: &mut Tally)
    requires { states ≤ 7 }
{
    let mut buffer = [0u8; 170];
    let mut roll = [0u64; 64];
    let size = exhaustive::write_placed(&mut buffer, p, states);
    let file = &buffer[..size];
    let truth = exhaustive::explore(p.model, 4096, &mut roll);
    let stepping = exhaustive::explicit(p.model);
    add_file(t, p);
    compare_lists(rt, stepping, truth.least, file, p.named, t);
    compare_roll(states, truth.lists, file, p.named, t);
}

fn main(rt: HostRuntime) {
    let mut t = Tally::default();
    for place in 0..models::END {
        let states = models::states_at(place);
        let number = models::among_its_states(place);
        for turn in 0..exhaustive::turns(states, number) {
            let p = exhaustive::placed_at(states, number, turn);
            compare_placed(&rt, p, states, &mut t);
        }
    }
    tally::print(&rt, &t);
}
