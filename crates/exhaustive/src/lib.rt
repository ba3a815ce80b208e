// An independent search, which shares nothing with the finder but the bytes of the file: small models as sets in one
// number, their files, all their accepting paths, found by following every path without repeated states, their
// distances, found by sweeps over all edges, and what the calls must answer.
#![tactic(auto)]

mod digits;
mod expected;
mod files;
mod lists;
mod models;
mod placed;
mod search;
mod sweeps;

pub use digits::{and, bit, digit, holds, size};
pub use expected::{Seen, list_at, of_next, of_search, of_step, round_at, rounds};
pub use files::write;
pub use lists::{Earlier, near, random_list, seed_of, tables_for};
pub use models::{Model, drawn, explicit, has_implied, how_many};
pub use placed::{Placed, placed_at, turns, write_placed};
pub use search::{Truth, explore};
pub use sweeps::{distances, of_distances};
