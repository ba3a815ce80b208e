// The marks of the model file of a combination. The property has the header k.
#![tactic(auto)]

ghost use Rattle.std.specs.Prelude.{◌≡◌, map, ◌+◌, ◌*◌, ◌≤◌, ◌<◌, length};
ghost use Rattle.numbers.specs.Limits.{most_states};
ghost use Rattle.lists.specs.Lists.{below};
ghost use Rattle.format.specs.Layout.{mark_bytes};
ghost use Rattle.text.specs.Writing.{Adds, HasRoom};
ghost use Rattle.property.specs.Property.{ValidProperty};
ghost use Rattle.combine_graph.specs.Combined.{pair_mark, pair_mark_byte};

use format::mark_bytes;
use model::Header;
use property::property_marked;
use text::Output;

// The combined state with number c is marked, where there are `states`.
fn pair_mark(property: &[u8], k: Header, states: usize, c: usize) -> bool
    requires { ValidProperty property.now k }
    ensures { result ≡ pair_mark property.now states c }
{
    c < states && property_marked(property, k, c % k.states)
}

// The mark byte at place b.
fn mark_byte(property: &[u8], k: Header, states: usize, b: usize) -> usize
    requires valid_property { ValidProperty property.now k }
    requires b_bound { b < 512 }
    ensures { (result ≡ pair_mark_byte property.now states b) × (result < 256) }
{
    let mut byte = 0;
    for j in 0..8 {
        if pair_mark(property, k, states, 8 * b + j) {
            byte += 1 << j;
        }
    }
    byte
}

// Writes the marks.
pub fn write_marks(out: &mut Output, property: &[u8], k: Header, states: usize)
    requires valid_property { ValidProperty property.now k }
    requires states_le_most_states { (states ≤ most_states) × HasRoom out.old (mark_bytes states) }
    ensures { Adds out.old (map (pair_mark_byte property.now states) (below (mark_bytes states))) out.new }
{
    let count = mark_bytes(states);
    for b in 0..count {
        let byte = mark_byte(property, k, states, b);
        out.write_byte(byte as u8);
    }
}
