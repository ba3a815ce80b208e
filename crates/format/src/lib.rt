// The bytes of a model file: its numbers, where its tables stand, and the part of a row.
#![tactic(auto)]

mod bytes;
mod layout;

pub use bytes::{bit, bit_if_there, entry_at, long, word};
pub use layout::{edge_part, edges_at, mark_bytes, marks_at, row, row_entry, table_at, total_of};
