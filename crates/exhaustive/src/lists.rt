// The lists that next is lent: right ones, wrong ones near a right one, and pseudo-random ones.
ghost use Rattle.std.specs.Prelude.{◌<◌, ◌≤◌};

use crate::digits::{and, lower, with_digit};
use crate::models::{Model, drawn};

// A list with so many entries.
#[derive(Clone, Copy)]
pub struct Earlier {
    pub list: u64,
    pub entries: usize,
}

impl Earlier {
    // The empty list.
    pub const EMPTY: Earlier = Earlier {
        list: 0,
        entries: 0,
    };
}

// A right list or a wrong one near it, by turn: for nine turns each, with one entry changed, the last first, and with one
// entry more; for five turns, the list itself; then without its last entry. The entries that are tried are 0 to 7, of
// which some are states, and 65,535, whose digit is 15.
pub fn near(list: u64, entries: usize, turn: usize) -> Earlier
    requires { entries ≤ 15 }
    ensures { result.entries ≤ 16 }
{
    let value = if turn % 9 == 8 { 15 } else { turn % 9 };
    if turn / 9 < entries {
        return Earlier {
            list: with_digit(list, turn / 9, value),
            entries,
        };
    }
    if turn / 9 == entries {
        return Earlier {
            list: and(list, value),
            entries: entries + 1,
        };
    }
    if turn % 9 < 5 {
        return Earlier { list, entries };
    }
    entries.checked_sub(1).map_or(
        Earlier::EMPTY,
        |entries| Earlier {
            list: list >> 4,
            entries,
        },
    )
}

// Which tables a turn has: those of its number among the turns with the list itself, the first ones otherwise.
pub fn tables_for(entries: usize, turn: usize) -> usize {
    if entries < turn / 9 && turn % 9 < 5 {
        turn % 9
    } else {
        0
    }
}

// A number from a model, to draw from.
pub fn seed_of(m: Model) -> u64 {
    let marks = m.marks << 56;
    let start = (m.start as u64) << 61;
    drawn(drawn(m.edges ^ marks ^ start ^ 0x2545f4914f6cdd1d))
}

// The list that a draw gives: up to eight entries below eight, every second time with a first entry of its own.
pub fn random_list(x: u64, first: usize, turn: usize) -> Earlier
    ensures { result.entries ≤ 16 }
{
    let entries = ((x >> 60) % 9) as usize;
    let list = lower(x & 0x7777777777777777, 4 * entries);
    if entries == 0 {
        return Earlier::EMPTY;
    }
    if turn % 2 == 0 {
        return Earlier {
            list: with_digit(list, entries - 1, first),
            entries,
        };
    }
    Earlier { list, entries }
}
