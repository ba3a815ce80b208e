// Rule 6, as one test of a file whose numbers of states and edges were read: its offsets and its total length.
#![tactic(auto)]

ghost use Rattle.std.specs.Prelude.{◌≡◌, false, ◌≤◌, length};
ghost use Rattle.numbers.specs.Limits.{most_states, most_edges};
ghost use Rattle.format.specs.Layout.{states, edge_count};
ghost use Rattle.format.specs.Rules.{total_fits, bad_offsets};

use format::{edges_at, long, mark_bytes, marks_at};

// The total length is one that a kind of file of n states may have: `total` with one mark table, and one table's size more
// with each further one, up to `tables`.
fn total_fits(file: &[u8], n: usize, total: usize, tables: usize) -> bool
    requires in_bounds { 24 ≤ length file.now }
    requires n_value { (n ≡ states file.now) × (n ≤ most_states) }
    requires total_bound { (total ≤ 65535) × (tables ≤ 2) }
    ensures { result ≡ total_fits total tables file.now }
{
    let size = mark_bytes(n);
    let given = long(file, 20);
    for further in 0..tables {
        if given == total + further * size {
            return true;
        }
    }
    false
}

// Rule 6: an offset differs from the one that n states and m edges give, or the total length is none of those of this kind
// of file.
pub fn offsets_broken(file: &[u8], n: usize, m: usize, total: usize, tables: usize) -> bool
    requires in_bounds { 24 ≤ length file.now }
    requires n_value { (n ≡ states file.now) × (m ≡ edge_count file.now) }
    requires n_le_most_states { (n ≤ most_states) × (m ≤ most_edges) }
    requires total_bound { (total ≤ 65535) × (tables ≤ 2) }
    ensures { result ≡ bad_offsets total tables file.now }
{
    long(file, 8) != 24
        || long(file, 12) != edges_at(n)
        || long(file, 16) != marks_at(n, m)
        || !total_fits(file, n, total, tables)
}
