// Lists in the tables that are lent to the calls.
use exhaustive::{and, digit};
use harness::first;

// The digit that stands for an entry: its number, or 14 for what is no small number, or 15 for 65,535.
fn digit_of(entry: u16) -> usize {
    match entry {
        65535 => 15,
        _ => usize::from(entry.min(14)),
    }
}

// The first so many entries of a table as a list.
pub fn list_in(table: &[u16], count: usize) -> u64 {
    first(table, count)
        .iter()
        .fold(0, |list, entry| and(list, digit_of(*entry)))
}

// The entry that a digit stands for.
fn entry_of(value: usize) -> u16 {
    if value < 15 { value as u16 } else { 65535 }
}

// Writes a list to a table, which has as many entries.
pub fn put_list(table: &mut [u16], list: u64) {
    for (place, entry) in table.iter_mut().rev().enumerate() {
        *entry = entry_of(digit(list, place));
    }
}
