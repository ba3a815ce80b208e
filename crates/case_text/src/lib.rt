// Test support: cases that are written as text. Lines, parts of a line, decimal numbers, files and tables of numbers.
#![tactic(auto)]

mod items;
mod reading;

pub use items::{make, make_entries};
pub use reading::{
    Lines, NumberRead, byte_at, digits, end_behind, find, lines_of, next_number, skip, within,
};
