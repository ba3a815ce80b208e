// Writers of the bytes of a model file, each from the output's next place on.
#![tactic(auto)]

ghost use Rattle.std.specs.Prelude.{◌≤◌, ◌<◌};
ghost use Rattle.numbers.specs.Limits.{most_states, most_edges};
ghost use Rattle.text.specs.Writing.{Adds, HasRoom};
ghost use Rattle.writer.specs.File.{word16, words16, halves, header_words};

use format::{edges_at, marks_at, total_of};
use text::Output;

// Writes a 16-bit number.
pub fn write_word(out: &mut Output, x: usize)
    requires at_in_bounds { HasRoom out.old 2 }
    requires x_bound { x < 65536 }
    ensures { Adds out.old (word16 x) out.new }
{
    out.write_bytes(&(x as u16).to_le_bytes())
}

// Writes a number below 2³² as two of 16 bits.
fn write_long(out: &mut Output, x: usize)
    requires at_in_bounds { HasRoom out.old 4 }
    requires x_bound { x < 4294967296 }
    ensures { Adds out.old (words16 (halves x)) out.new }
{
    out.write_bytes(&(x as u32).to_le_bytes())
}

// Writes the header of a model file with n states, m edges, an initial state and one mark table.
pub fn write_header(out: &mut Output, n: usize, m: usize, start: usize)
    requires in_bounds { HasRoom out.old 24 }
    requires n_le_most_states { (n ≤ most_states) × (m ≤ most_edges) × (start < n) }
    ensures { Adds out.old (words16 (header_words n m start)) out.new }
{
    write_word(out, n);
    write_word(out, m);
    write_word(out, start);
    write_word(out, 0);
    write_long(out, 24);
    write_long(out, edges_at(n));
    write_long(out, marks_at(n, m));
    write_long(out, total_of(n, m))
}
