// The whole text of the desk sheet: a model file goes in, its sheet comes out in a lent text.
#![tactic(auto)]

ghost use Rattle.std.specs.Prelude.{◌≡◌};
ghost use Rattle.text.specs.Writing.{Wrote};
ghost use Rattle.sheet.specs.Sheet.{sheet_written, sheet_answered, sheet_worked};

use gate::{enter, leave};
use numbers::limit;
use sheet_head::write_refusal;
use sheet_text::sheet_model;
use text::Output;

// The mark table that a sheet is about.
const SHEET_TABLE: u16 = 0;

// Writes the sheet of a file to the front of a text, and answers the number of bytes written. With fewer than 410,000
// bytes of room it writes nothing and answers 0.
pub fn sheet(input: &[u8], answer: &mut [u16], work: &mut [u16], text: &mut [u8]) -> usize
    ensures text { Wrote text.old 0
        (sheet_written input.now answer.old work.old text.old)
        text.new result }
    ensures answer { answer.new ≡
        sheet_answered input.now answer.old work.old text.old }
    ensures work { work.new ≡
        sheet_worked input.now work.old text.old }
{
    if text.len() < limit::SHEET_ROOM {
        return 0;
    }
    match enter(input, SHEET_TABLE, work) {
        Err(reason) => write_refusal(text, u16::from(reason) as usize),
        Ok(h) => {
            let mut sheet = Output { bytes: text, at: 0 };
            sheet_model(input, h, answer, work, &mut sheet);
            leave(work);
            sheet.at
        }
    }
}
