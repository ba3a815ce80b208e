// Models in their files: the marks of a model stand in one of two mark tables, or in the only one there is.
ghost use Rattle.std.specs.Prelude.{◌<◌, ◌≤◌};

use crate::digits::{below, bit};
use crate::files::write;
use crate::models::{Model, drawn, numbered, with_marks};
use harness::{put_byte, put16};

// A model as calls see it that name a mark table of its file: the number of that table, the marks in table 0 and, if the
// file has two, in table 1, and whether a bit of those in the table that is not named was flipped.
#[derive(Clone, Copy)]
pub struct Placed {
    pub model: Model,
    pub named: u16,
    pub first: u64,
    pub second: Option<u64>,
    pub flipped: bool,
}

// A model whose marks are in the only mark table of its file, table 0.
fn in_one(m: Model) -> Placed {
    Placed {
        model: m,
        named: 0,
        first: m.marks,
        second: None,
        flipped: false,
    }
}

// A model whose marks are in the only mark table, while table 1 is named, which holds no marks then.
fn beside_one(m: Model) -> Placed {
    Placed {
        model: with_marks(m, 0),
        named: 1,
        ..in_one(m)
    }
}

// A model whose marks are in one of two tables: the number says in which, by its lowest bit, and by the bits above what the
// other one holds.
fn in_two(m: Model, number: u64, flipped: bool) -> Placed {
    let other = (number >> 1) & below(m.states);
    let named = (number % 2) as u16;
    let (first, second) = if named == 0 {
        (m.marks, other)
    } else {
        (other, m.marks)
    };
    Placed {
        model: m,
        named,
        first,
        second: Some(second),
        flipped,
    }
}

// How many turns the model with a number has. One of up to two states is tried in all ways: with one table and with every
// set of marks in the other of two, by either number. Of the others one in 91 is tried with each bit of the other marks
// flipped, and beside its only table.
pub fn turns(states: usize, number: u64) -> usize {
    match states {
        1 => 6,
        2 => 10,
        8.. => 0,
        _ if number / 2 % 91 == 1 => states + 2,
        _ => 1,
    }
}

// The model with a number in its file, by turn. From three states on, one in seven is in the only table; for the others
// the table and what the other one holds are drawn.
pub fn placed_at(states: usize, number: u64, turn: usize) -> Placed
    requires { 0 < states }
{
    let m = numbered(states, number);
    if states <= 2 && 2 <= turn {
        return in_two(m, (turn - 2) as u64, false);
    }
    if states <= 2 && turn == 1 || states < turn {
        return beside_one(m);
    }
    if turn == 0 && (states <= 2 || number / 2 % 7 == 0) {
        return in_one(m);
    }
    let x = drawn(drawn(number ^ ((states as u64) << 32) ^ 0xd1342543de82ef95));
    let flip = if turn == 0 { 0 } else { bit(turn) };
    in_two(m, (x >> 20) ^ flip, 0 < turn)
}

// Writes a model with so many states in its file; answers the file's length.
pub fn write_placed(file: &mut [u8], p: Placed, states: usize) -> usize
    requires { states ≤ 7 }
    ensures { result ≤ 170 }
{
    let length = write(file, with_marks(p.model, p.first), states);
    let Some(second) = p.second else {
        return length;
    };
    put_byte(file, length, second as usize);
    put16(file, 20, length + 1);
    length + 1
}
