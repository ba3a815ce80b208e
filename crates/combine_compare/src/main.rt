// Compares combine with an independent combination, on all rules of up to three states, without implied steps and with
// them, and all properties of up to two, with pseudo-random letters, masks and second mark tables of rules, and a search of
// the result with an exhaustive one; every second call has faults.
#![tactic(auto)]

mod draws;
mod files;
mod found;
mod pairs;
mod tally;

ghost use Rattle.std.specs.Prelude.{◌≤◌};

use combine_trials::Tried;
use draws::{Fault, drawn_at};
use exhaustive::Model;
use files::{File, call, lent};
use harness::add;
use pairs::{answer_of, model_of};
use tally::{Tally, add_refused, add_searched, add_written, differs};

// How many combinations there are: each rule, without implied steps and with them, with each property, without a fault and
// with some.
const END: u64 = 828960;

// The bytes of the output that are lent: as many as the result has and up to seven more, or one fewer.
fn space(faults: u64, total: usize, more: u64) -> usize
    requires { total ≤ 169 }
    ensures { result ≤ 180 }
{
    if Fault::OutputShort.is_in(faults) {
        lent(total, true)
    } else {
        total + (more % 8) as usize
    }
}

// Whether a search of what was written answers what it must.
fn searched(m: Model, file: &[u8], tally: &mut Tally) -> bool
    requires { m.states ≤ 7 }
{
    let given = found::search(m, file);
    add(&mut tally.edges, u64::from(m.edges.count_ones()));
    add_searched(tally, given.answer);
    given.right
}

// Whether a call answered and wrote what it must: the file of the model of all pairs.
fn right(m: Model, tried: Tried, out: &File, file: &File, tally: &mut Tally) -> bool
    requires { m.states ≤ 7 }
{
    match tried.answer {
        _ if tried.wrong => false,
        Err(number) => {
            add_refused(tally, number);
            true
        }
        Ok(size) if out.len() < size => false,
        Ok(size) => {
            let written = &out[..size];
            file.starts_with(written) && searched(m, written, tally)
        }
    }
}

// Compares one combination.
fn compare(rt: &impl Print, number: u64, tally: &mut Tally) {
    let c = drawn_at(number);
    let m = model_of(c);
    let mut file = [0u8; 180];
    let mut out = [0u8; 180];
    let total = exhaustive::write(&mut file, m, m.states);
    let expected = answer_of(c, total);
    let tried = call(c, &mut out, space(c.faults, total, number / 2));
    if tried.answer.is_ok() {
        add_written(tally, c);
    }
    if tried.answer != expected || !right(m, tried, &out, &file, tally) {
        differs(rt, number, c, tried.answer, expected, tally);
    }
}

fn main(rt: HostRuntime) {
    let mut tally = Tally::default();
    for number in 0..END {
        add(&mut tally.combinations, 1);
        compare(&rt, number, &mut tally);
    }
    tally::print(&rt, &tally);
}
