// The text of the desk sheet of an accepted file, by the marks of table 0.
#![tactic(auto)]

ghost use Rattle.std.specs.Prelude.{◌≡◌, ◌*◌, ◌≤◌, length};
ghost use Rattle.std.proofs.Math.Option.{some};
ghost use Rattle.std.proofs.Math.ListN;
ghost use Rattle.numbers.specs.Limits.{sheet_room};
ghost use Rattle.lasso.specs.Roll.{least_length};
ghost use Rattle.lasso.specs.Rounds.{candidates};
ghost use Rattle.model.specs.Model.{graph_in};
ghost use Rattle.model.specs.Values.{Valid};
ghost use Rattle.candidates.specs.Promises.{RoundsReady};
ghost use Rattle.text.specs.Writing.{Adds, HasRoom};
ghost use Rattle.sheet_text.specs.SheetText.{sheet_text, sheet_answer};

use begun::all_rounds;
use lasso::Transitions;
use model::Header;
use numbers::Reason;
use sheet_head::{write_head, write_refused};
use sheet_lists::write_lists;
use text::Output;

// Writes the sheet of a file whose shortest accepting paths have a known length. All rounds are done.
fn write_shortest(
    file: &[u8],
    h: Header,
    transitions: Transitions,
    rounds: u16,
    answer: &mut [u16],
    work: &mut [u16],
    text: &mut Output,
)
    requires rounds_ready { RoundsReady file.now h work.old × (h.table ≡ 0) }
    requires h_value { least_length (graph_in file.now h) ≡ some transitions.0 }
    requires rounds_value { rounds ≡ length (candidates (graph_in file.now h)) }
    requires sheet_room_in_bounds { HasRoom text.old sheet_room }
    ensures text { Adds text.old
        (sheet_text file.now (length answer.old) (length work.old))
        text.new }
    ensures answer { answer.new ≡
        sheet_answer file.now answer.old (length work.old) }
    ensures kept { length work.new ≡ length work.old }
{
    if answer.len() < transitions.entries().0 {
        return write_refused(text, u16::from(Reason::NoRoom) as usize);
    }
    write_head(text, h, rounds as usize);
    text.write_figure(b"shortest ", transitions.number());
    write_lists(file, h, transitions, answer, work, text)
}

// Writes the sheet of an accepted file.
pub fn sheet_model(file: &[u8], h: Header, answer: &mut [u16], work: &mut [u16], text: &mut Output)
    requires valid { Valid file.now h × (h.table ≡ 0) }
    requires states_in_bounds { 6 * h.states ≤ length work.old }
    requires sheet_room_in_bounds { HasRoom text.old sheet_room }
    ensures text { Adds text.old
        (sheet_text file.now (length answer.old) (length work.old))
        text.new }
    ensures answer { answer.new ≡
        sheet_answer file.now answer.old (length work.old) }
    ensures kept { length work.new ≡ length work.old }
{
    let done = all_rounds(file, h, work);
    match done.length {
        None => {
            write_head(text, h, done.rounds as usize);
            text.write_bytes(b"none\n")
        }
        Some(transitions) => write_shortest(file, h, transitions, done.rounds, answer, work, text),
    }
}
