// Writes a model of up to seven states as a file with one mark table, which holds its edges alone and says whether there are
// implied steps.
ghost use Rattle.std.specs.Prelude.{◌<◌, ◌≤◌};

use crate::digits::{lower, member, size};
use crate::models::Model;
use harness::{header_word, put16};

// The 16-bit number at a place after the header: the edges before each row, where they lead, and the marks.
fn table_word(m: Model, states: usize, edges: usize, place: usize) -> usize
    requires { place < 100 }
{
    if place <= states {
        return size(lower(m.edges, 8 * place));
    }
    let edge = place - states - 1;
    if edge < edges {
        return member(m.edges, edge).map_or(0, |pair| pair % 8);
    }
    if edge == edges {
        return m.marks as usize;
    }
    0
}

// The 16-bit number at a place of the file, counted in such numbers.
fn word(m: Model, states: usize, edges: usize, place: usize) -> usize
    requires states_bound { states ≤ 7 }
    requires edges_bound { edges ≤ 64 }
    requires place_bound { place < 100 }
{
    if place == 3 {
        return m.stays as usize;
    }
    if place < 12 {
        return header_word(place, states, edges, m.start);
    }
    table_word(m, states, edges, place - 12)
}

// Writes a model with so many states; answers the file's length.
pub fn write(file: &mut [u8], m: Model, states: usize) -> usize
    requires { states ≤ 7 }
    ensures { result ≤ 169 }
{
    let edges = size(m.edges);
    for place in 0..85 {
        put16(file, 2 * place, word(m, states, edges, place));
    }
    27 + 2 * states + 2 * edges
}
