// Test support: answers, counts, tables that are filled and looked at, bytes of model files, texts and entries in print,
// and a text read to its end.
#![tactic(auto)]

mod answer;
mod counts;
mod files;
mod print;
mod read;
mod tables;

pub use answer::{Answer, Best, Tried};
pub use counts::{add, add_if, sum};
pub use files::{header_word, put_byte, put16};
pub use print::{entries, text};
pub use read::read_text;
pub use tables::{Filling, Left, entry, fill, first, holds, wrong_work};
