// The model file of a combination: how many edges it has, and writing it from the two files, one combined state after
// the other. The rule has the header h, the property the header k. c is the number of a combined state (s, q): s is
// c / size and q is c % size, where the property has `size` states.
#![tactic(auto)]

ghost use Rattle.std.specs.Prelude.{◌≡◌, ◌+◌, ◌*◌, ◌≤◌, ◌<◌, length};
ghost use Rattle.numbers.specs.Limits.{most_edges};
ghost use Rattle.format.specs.Layout.{total_of};
ghost use Rattle.text.specs.Writing.{Adds, HasRoom};
ghost use Rattle.writer.specs.File.{edge_total, file_of};
ghost use Rattle.writer.specs.Tables.{table_bytes, TablesFit};
ghost use Rattle.combine_graph.specs.Combined.{combined, Combinable};

use combine_edges::{pair_degree, write_edges};
use combine_marks::write_marks;
use model::Header;
use text::Output;
use writer::{write_header, write_word};

// The number of edges of the combination.
pub fn count_edges(rule: &[u8], h: Header, letters: &[u8], property: &[u8], k: Header) -> usize
    requires { Combinable rule.now letters.now property.now h k }
    ensures { result ≡ edge_total (combined rule.now letters.now property.now) }
{
    let pairs = h.states * k.states;
    let mut edges = 0;
    for c in 0..pairs {
        edges += pair_degree(rule, h, letters, property, k, c);
    }
    edges
}

// Writes the row table and the edge table, in one pass over the combined states.
fn write_tables(
    out: &mut Output,
    rule: &[u8],
    h: Header,
    letters: &[u8],
    property: &[u8],
    k: Header,
)
    requires combinable { Combinable rule.now letters.now property.now h k }
    requires tables_fit { TablesFit (combined rule.now letters.now property.now) out.old }
    ensures { Adds out.old (table_bytes (combined rule.now letters.now property.now)) out.new }
{
    let states = h.states * k.states;
    let cut = out.at + 2 * (states + 1);
    let text = &mut *out.bytes;
    let (rows, edges) = text.split_at_mut(cut);
    let mut rows = Output {
        bytes: rows,
        at: out.at,
    };
    let mut edges = Output {
        bytes: edges,
        at: 0,
    };
    for c in 0..states {
        write_word(&mut rows, edges.at / 2);
        write_edges(&mut edges, rule, h, letters, property, k, c);
    }
    let total = edges.at / 2;
    write_word(&mut rows, total);
    out.at = cut + edges.at;
}

// Writes the model file of the combination, which has so many edges.
pub fn write_product(
    out: &mut Output,
    rule: &[u8],
    h: Header,
    letters: &[u8],
    property: &[u8],
    k: Header,
    edges: usize,
)
    requires combinable { Combinable rule.now letters.now property.now h k }
    requires edges_value { (edges ≡ edge_total (combined rule.now letters.now property.now)) × (edges ≤ most_edges) }
    requires edges_in_bounds { HasRoom out.old (total_of (h.states * k.states) edges) }
    ensures { Adds out.old (file_of (combined rule.now letters.now property.now)) out.new }
{
    let states = h.states * k.states;
    let start = h.start * k.states + k.start;
    write_header(out, states, edges, start);
    write_tables(out, rule, h, letters, property, k);
    write_marks(out, property, k, states)
}
