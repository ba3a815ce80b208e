// Compares step, search and next with an independent exhaustive search, and distances with sweeps over all edges, on
// all models of up to three states and on many pseudo-random ones of four to seven, each without implied steps and with
// them, in files with one mark table and with two, either of them named, and prints how many answers of each kind were
// compared.
#![tactic(auto)]

mod calls;
mod checks;
mod report;
mod tables;
mod tally;

ghost use Rattle.std.specs.Prelude.{◌<◌, ◌≤◌};

use exhaustive::{Model, Placed, Truth};
use harness::{add, add_if};
use tally::{Tally, add_at};

// The lists that there is room for.
const ROLL: usize = 64;

// Steps and searches under a ceiling.
fn compare_ceiling(
    m: Model,
    t: Truth,
    ceiling: u16,
    file: &[u8],
    mark_table: u16,
    tally: &mut Tally,
) {
    let mut roll = [0u64; ROLL];
    let within = exhaustive::explore(m, usize::from(ceiling), &mut roll);
    add(&mut tally.ceilings, 1);
    checks::check_steps(t, within, ceiling, file, mark_table, tally);
    checks::check_searches(t, within, &roll, ceiling, file, mark_table, tally);
}

// Steps and searches under every ceiling from 0 up to one more than the least length, and under 4,096.
fn compare_ceilings(m: Model, t: Truth, file: &[u8], mark_table: u16, tally: &mut Tally) {
    let end = t.least.unwrap_or(0) % 8 + 2;
    for ceiling in 0..end {
        compare_ceiling(m, t, ceiling, file, mark_table, tally);
    }
    compare_ceiling(m, t, 4096, file, mark_table, tally);
}

// All comparisons on the file of a model, whose marks are in the table that is named.
fn compare_file(
    m: Model,
    states: usize,
    t: Truth,
    roll: &[u64],
    file: &[u8],
    mark_table: u16,
    tally: &mut Tally,
)
    requires { states ≤ 7 }
{
    compare_ceilings(m, t, file, mark_table, tally);
    checks::check_sequence(t, roll, file, mark_table, tally);
    checks::check_lists(t, roll, file, mark_table, tally);
    checks::check_random(m, t, roll, file, mark_table, tally);
    checks::check_distances(m, states, file, tally);
}

// Counts a model, if this is the first of its turns, and its file; and a difference if there was not room for all its
// lists.
fn counted(p: Placed, states: usize, first: bool, t: Truth, tally: &mut Tally)
    requires { 0 < states }
{
    let named = usize::from(p.named);
    match p.second {
        None => add_at(&mut tally.one_table, named),
        Some(_) => add_at(&mut tally.two_tables, named),
    }
    if first {
        add_at(&mut tally.models, states - 1);
        add_if(&mut tally.implied, exhaustive::has_implied(p.model));
    }
    add_if(&mut tally.flipped, p.flipped);
    add_at(&mut tally.lengths, usize::from(t.least.unwrap_or(0)));
    add_if(&mut tally.several, 1 < t.lists);
    add_if(&mut tally.differences, ROLL < t.lists);
}

// All comparisons on a model in its file.
fn compare_placed(p: Placed, states: usize, first: bool, tally: &mut Tally)
    requires states_nonzero { 0 < states }
    requires states_bound { states ≤ 7 }
{
    let m = p.model;
    let mut file = [0u8; 170];
    let mut roll = [0u64; ROLL];
    let length = exhaustive::write_placed(&mut file, p, states);
    let t = exhaustive::explore(m, 4096, &mut roll);
    counted(p, states, first, t, tally);
    compare_file(m, states, t, &roll, &file[..length], p.named, tally);
}

// All comparisons on the models of so many states, in all their turns.
fn compare_states(states: usize, tally: &mut Tally)
    requires states_nonzero { 0 < states }
    requires states_bound { states ≤ 7 }
{
    for number in 0..exhaustive::how_many(states) {
        for turn in 0..exhaustive::turns(states, number) {
            let p = exhaustive::placed_at(states, number, turn);
            compare_placed(p, states, turn == 0, tally);
        }
    }
}

fn main(rt: HostRuntime) {
    let mut tally = Tally::default();
    for states in 1..8 {
        compare_states(states, &mut tally);
    }
    report::print(&rt, &tally);
}
