// The writer of the line of a list.
#![tactic(auto)]

ghost use Rattle.std.specs.Prelude.{◌-◌, ◌≤◌, length, take, drop};
ghost use Rattle.text.specs.Writing.{Adds, HasRoom};
ghost use Rattle.sheet_line.specs.Line.{between, stem_loop};

use lasso::Transitions;
use text::Output;

// Writes each state between two texts.
fn write_states(text: &mut Output, before: &[u8], states: &[u16], after: &[u8])
    requires { HasRoom text.old (length (between before.now after.now states.now)) }
    ensures { Adds text.old (between before.now after.now states.now) text.new }
{
    for s in states {
        text.write_bytes(before);
        text.write_number(*s as usize);
        text.write_bytes(after);
    }
}

// Writes the line of the list that stands in a table from entry 0 on, given the place where its loop starts and its
// length.
pub fn write_line(text: &mut Output, list: &[u16], k: usize, transitions: Transitions)
    requires k_le_transitions { (k ≤ transitions.0) × (transitions.0 ≤ length list.now) }
    requires list_in_bounds { HasRoom text.old
        (length (stem_loop (take k list.now) (take (transitions.0 - k) (drop k list.now)))) }
    ensures { Adds text.old
        (stem_loop (take k list.now) (take (transitions.0 - k) (drop k list.now)))
        text.new }
{
    write_states(text, b"", &list[..k], b" ");
    text.write_byte(b'|');
    write_states(text, b" ", &list[k..transitions.number()], b"");
    text.write_byte(b'\n')
}
