// The lines of the desk sheet that tell numbers alone: the one line of a refused file, and the lines before the lists.
#![tactic(auto)]

ghost use Rattle.std.specs.Prelude.{◌≤◌, length};
ghost use Rattle.text.specs.Figure.{figure};
ghost use Rattle.text.specs.Writing.{Wrote, Adds, HasRoom};
ghost use Rattle.sheet_head.specs.Words.{refused_word};
ghost use Rattle.sheet_head.specs.Head.{head};

use model::Header;
use text::Output;

// Writes the one line of a refused file.
pub fn write_refused(text: &mut Output, number: usize)
    requires { HasRoom text.old (length (figure refused_word number)) }
    ensures { Adds text.old (figure refused_word number) text.new }
{
    text.write_figure(b"refused ", number)
}

// Writes the one line of a refused file to the front of a text, and answers its length.
pub fn write_refusal(text: &mut [u8], number: usize) -> usize
    requires { length (figure refused_word number) ≤ length text.old }
    ensures { Wrote text.old 0 (figure refused_word number) text.new result }
{
    let mut line = Output { bytes: text, at: 0 };
    write_refused(&mut line, number);
    line.at
}

// Writes the lines with the numbers of states, edges and rounds.
pub fn write_head(text: &mut Output, h: Header, rounds: usize)
    requires { HasRoom text.old (length (head h.states h.edges rounds)) }
    ensures { Adds text.old (head h.states h.edges rounds) text.new }
{
    text.write_bytes(b"model ");
    text.write_number(h.states);
    text.write_figure(b" ", h.edges);
    text.write_figure(b"rounds ", rounds)
}
