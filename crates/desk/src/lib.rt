// The desk sheet program, but for its `main`: an input is read from a reader, its sheet is printed to a writer.
#![tactic(auto)]

ghost use Rattle.std.specs.Prelude.{◌≡◌, ◌≤◌, true, length};
ghost use Rattle.numbers.specs.Limits.{answer_entries, work_entries, sheet_room};
ghost use Rattle.text.specs.Writing.{Wrote};
ghost use Rattle.desk.specs.Desk.{input_text, desk_text};
ghost use Rattle.desk.specs.Printed.{SheetPrinted};

use numbers::limit;
use reading::{input_bytes, read_model};
use sheet::sheet;
use std::io::{Read, Write};

// The bytes of the buffer for an input: one more than the longest file has, so that no longer input passes for it.
const INPUT_ROOM: usize = limit::FILE_BYTES;

// The bytes of the buffer for a text: no sheet is longer.
const TEXT_ROOM: usize = limit::SHEET_ROOM;

// Writes the sheet of an input with tables and a text of the program's sizes.
fn write_sheet(input: &[u8], answer: &mut [u16], work: &mut [u16], text: &mut [u8]) -> usize
    requires answer_len { length answer.old ≡ answer_entries }
    requires work_len { length work.old ≡ work_entries }
    requires sheet_room_in_bounds { sheet_room ≤ length text.old }
    ensures { Wrote text.old 0 (input_text input.now) text.new result }
{
    sheet(input, answer, work, text)
}

// Writes the sheet of what was read of an input to the front of a text, and answers the number of bytes written. An
// input that could not be read to its end, since a read failed, counts as empty.
pub fn desk_sheet(read: &[u8], failed: bool, text: &mut [u8; TEXT_ROOM]) -> usize
    ensures { Wrote text.old 0 (desk_text failed read.now) text.new result }
{
    let mut answer = [0u16; limit::ANSWER_ENTRIES];
    let mut work = [0u16; limit::WORK_ENTRIES];
    let enough = input_bytes(read, failed, INPUT_ROOM);
    write_sheet(&read[..enough], &mut answer, &mut work, text)
}

// Reads an input from a reader, prints its sheet to a writer, and answers whether all of the sheet was printed.
pub fn print_sheet<R: Read, W: Write>(from: &mut R, to: &mut W) -> bool
    ensures { result ≡ true → SheetPrinted (R.remaining from.old) (R.remaining from.new)
        (W.contents to.old) (W.contents to.new) }
{
    let mut input = [0u8; INPUT_ROOM];
    let reading = read_model(from, &mut input);
    let mut text = [0u8; TEXT_ROOM];
    let written = desk_sheet(&input[..reading.count], reading.failed, &mut text);
    to.write_all(&text[..written]).is_ok()
}
