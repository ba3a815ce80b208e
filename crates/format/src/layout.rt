// Where the tables of a model file stand, by its numbers of states and edges, and the part of a row. Each function of
// these numbers is named as its definition in specs/Layout.antt.
ghost use Rattle.std.specs.Prelude.{◌≡◌, ◌+◌, ◌*◌, ◌≤◌, ◌<◌, length};
ghost use Rattle.numbers.specs.Limits.{most_states, most_edges};
ghost use Rattle.format.specs.Bytes.{words};
ghost use Rattle.format.specs.Layout.{states, rows_at, edges_at, marks_at, mark_bytes, total_of, table_at, row_entry, row_numbers, row_targets};

use crate::bytes::entry_at;

// The offset of the row table.
const ROWS_AT: usize = 24;

// The offset of the edge table.
pub fn edges_at(n: usize) -> usize
    requires { n ≤ most_states }
    ensures { result ≡ edges_at n }
{
    ROWS_AT + 2 * (n + 1)
}

// The offset of the marks.
pub fn marks_at(n: usize, m: usize) -> usize
    requires { (n ≤ most_states) × (m ≤ most_edges) }
    ensures { result ≡ marks_at n m }
{
    edges_at(n) + 2 * m
}

// The number of bytes of a mark table.
pub fn mark_bytes(n: usize) -> usize
    requires { n ≤ most_states }
    ensures { result ≡ mark_bytes n }
{
    n.div_ceil(8)
}

// The offset of mark table t.
pub fn table_at(n: usize, m: usize, t: usize) -> usize
    requires { (n ≤ most_states) × (m ≤ most_edges) × (t ≤ 1) }
    ensures { result ≡ table_at n m t }
{
    marks_at(n, m) + t * mark_bytes(n)
}

// The total length of a model file with one mark table.
pub fn total_of(n: usize, m: usize) -> usize
    requires { (n ≤ most_states) × (m ≤ most_edges) }
    ensures { result ≡ total_of n m }
{
    marks_at(n, m) + mark_bytes(n)
}

// The row entry at a place of the row table.
pub fn row_entry(file: &[u8], s: usize) -> usize
    requires { rows_at + 2 * s + 1 < length file.now }
    ensures { (result ≡ row_entry file.now s) × (result < 65536) }
{
    entry_at(file, ROWS_AT, s)
}

// The part of a table that belongs to row s: the table has one 16-bit number for each edge, in edge order, and starts at
// byte `base`; the row's entries s and s + 1 are in order and within the table.
pub fn edge_part(file: &[u8], base: usize, s: usize) -> &[u8]
    requires s_in_bounds { rows_at + 2 * (s + 1) + 1 < length file.now }
    requires s_bound { row_entry file.now s ≤ row_entry file.now (s + 1) }
    requires s_in_bounds_2 { base + 2 * row_entry file.now (s + 1) ≤ length file.now }
    ensures { words result.now ≡ row_numbers file.now base s }
{
    let from = base + 2 * row_entry(file, s);
    let to = base + 2 * row_entry(file, s + 1);
    &file[from..to]
}

// The part of the file that holds the targets of row s, in a file of n states whose entries s and s + 1 are in order
// and within the edge table.
pub fn row(file: &[u8], n: usize, s: usize) -> &[u8]
    requires n_value { (n ≡ states file.now) × (n ≤ most_states) }
    requires s_lt_n { s < n }
    requires s_bound { row_entry file.now s ≤ row_entry file.now (s + 1) }
    requires s_in_bounds { edges_at n + 2 * row_entry file.now (s + 1) ≤ length file.now }
    ensures { words result.now ≡ row_targets file.now s }
{
    edge_part(file, edges_at(n), s)
}
