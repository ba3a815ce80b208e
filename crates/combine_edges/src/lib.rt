// The edges of one combined state: how many there are, and writing them. The rule has the header h, the property the
// header k. c is the number of a combined state (s, q): s is c / size and q is c % size, where the property has `size`
// states.
#![tactic(auto)]

ghost use Rattle.std.specs.Prelude.{◌≡◌, ◌+◌, ◌*◌, ◌≤◌, ◌<◌, length};
ghost use Rattle.text.specs.Writing.{Adds, HasRoom};
ghost use Rattle.writer.specs.File.{words16};
ghost use Rattle.combine_graph.specs.Combined.{combined, Combinable};

use combine_row::write_row;
use model::{Header, successors_of};
use property::{count_holding, mask_part, target_part};
use text::Output;

// The number of edges from the combined state with number c.
pub fn pair_degree(
    rule: &[u8],
    h: Header,
    letters: &[u8],
    property: &[u8],
    k: Header,
    c: usize,
) -> usize
    requires combinable { Combinable rule.now letters.now property.now h k }
    requires c_bound { c < h.states * k.states }
    ensures { (result ≡ length ((combined rule.now letters.now property.now).succs c))
        × (result ≤ 67108864) }
{
    let size = k.states;
    let s = c / size;
    let letter = letters[s] as usize;
    let steps = successors_of(rule, h, s).len();
    steps * count_holding(mask_part(property, k, c % size), letter)
}

// Writes the edges from the combined state with number c.
pub fn write_edges(
    out: &mut Output,
    rule: &[u8],
    h: Header,
    letters: &[u8],
    property: &[u8],
    k: Header,
    c: usize,
)
    requires combinable { Combinable rule.now letters.now property.now h k }
    requires c_bound { c < h.states * k.states }
    requires c_in_bounds { HasRoom out.old (2 * length ((combined rule.now letters.now property.now).succs c)) }
    ensures { Adds out.old (words16 ((combined rule.now letters.now property.now).succs c)) out.new }
{
    let size = k.states;
    let s = c / size;
    let q = c % size;
    let letter = letters[s] as usize;
    let successors = successors_of(rule, h, s);
    let targets = target_part(property, k, q);
    let masks = mask_part(property, k, q);
    write_row(out, &successors, targets, masks, letter, size)
}
