// The lists of a roll as text: one after the other in the working table, each written to the answer table and as a line.
#![tactic(auto)]

ghost use Rattle.std.specs.Prelude.{◌≡◌, ◌++◌, ◌+◌, ◌≤◌, ◌<◌, length, drop};
ghost use Rattle.std.proofs.Math.Option.{some};
ghost use Rattle.numbers.specs.Limits.{lists_room};
ghost use Rattle.lasso.specs.Roll.{least_length, roll};
ghost use Rattle.model.specs.Model.{graph_in};
ghost use Rattle.candidates.specs.Promises.{RoundsReady};
ghost use Rattle.current.specs.Current.{list_in};
ghost use Rattle.outcomes.specs.Tables.{written};
ghost use Rattle.text.specs.Writing.{Adds, HasRoom};
ghost use Rattle.sheet_line.specs.Line.{line};
ghost use Rattle.sheet_lists.specs.RollText.{closing_line, lists_text, last_printed};

use cursor::{to_first, to_next, write_list};
use lasso::Transitions;
use model::Header;
use numbers::limit;
use sheet_line::write_line;
use text::Output;

// Writes the line of the current list, and the list itself to the answer table.
fn write_current(
    h: Header,
    transitions: Transitions,
    answer: &mut [u16],
    work: &[u16],
    text: &mut Output,
)
    requires transitions_in_bounds { transitions.0 ≤ length work.now }
    requires transitions_in_bounds_2 { transitions.0 < length answer.old }
    requires start_bound { h.start < 65536 }
    requires transitions_in_bounds_3 { HasRoom text.old (length (line (list_in h.start work.now transitions.0))) }
    ensures line { Adds text.old (line (list_in h.start work.now transitions.0)) text.new }
    ensures list { answer.new
        ≡ list_in h.start work.now transitions.0 ++ drop (transitions.0 + 1) answer.old }
{
    let k = write_list(h, work, transitions, answer);
    write_line(text, answer, k, transitions)
}

// Writes the closing line.
fn write_closing(text: &mut Output, count: usize, more: bool)
    requires { HasRoom text.old (length (closing_line more count)) }
    ensures { Adds text.old (closing_line more count) text.new }
{
    if more {
        text.write_figure(b"more ", count)
    } else {
        text.write_figure(b"end ", count)
    }
}

// Writes the lines of the first 20 lists and the closing line. All rounds are done, and the length of the lists is known.
pub fn write_lists(
    file: &[u8],
    h: Header,
    transitions: Transitions,
    answer: &mut [u16],
    work: &mut [u16],
    text: &mut Output,
)
    requires rounds_ready { RoundsReady file.now h work.old }
    requires h_value { least_length (graph_in file.now h) ≡ some transitions.0 }
    requires transitions_in_bounds { transitions.0 < length answer.old }
    requires lists_room_in_bounds { HasRoom text.old lists_room }
    ensures text { Adds text.old (lists_text (roll (graph_in file.now h))) text.new }
    ensures answer { answer.new
        ≡ written (last_printed (roll (graph_in file.now h))) answer.old }
    ensures kept { length work.new ≡ length work.old }
{
    to_first(file, h, transitions, work);
    let mut count = 0;
    // No `for` over the 20 lists: it would need an answer after its last turn, which always returns.
    loop {
        write_current(h, transitions, answer, work, text);
        count += 1;
        let more = to_next(file, h, transitions, work);
        if !more {
            return write_closing(text, count, false);
        }
        if count == limit::MOST_LISTS {
            return write_closing(text, count, true);
        }
    }
}
