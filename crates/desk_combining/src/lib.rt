// The combining program, but for its `main`: a rule, its letters and a property are read from three readers, and the
// combined model file is written to a writer, or the line of a refusal to another.
#![tactic(auto)]

ghost use Rattle.std.specs.Prelude.{◌≡◌, ◌≤◌, true, length};
ghost use Rattle.numbers.specs.Limits.{output_bytes};
ghost use Rattle.text.specs.Writing.{Wrote};
ghost use Rattle.reading.specs.Reading.{input_of};
ghost use Rattle.combine.specs.Combine.{combine_outcome_of};
ghost use Rattle.desk_combining.specs.Combining.{refusal_room, NumberFits, bytes_told, line_told, output_text, error_text};
ghost use Rattle.desk_combining.specs.Printed.{CombinationPrinted};

use combine::combine;
use numbers::{Reason, limit};
use reading::{Opened, input_bytes, open_named, read_letters, read_model, read_property};
use sheet_head::write_refusal;
use std::env::FillError;
use std::io::{Read, Write};
use std::rt::{Env, Files};

// The bytes of the buffers for a rule, a letter table and a property: one more than the longest of each has, so that no
// longer input passes for it.
const RULE_ROOM: usize = limit::FILE_BYTES;

const LETTERS_ROOM: usize = limit::LETTERS_BYTES;

const PROPERTY_ROOM: usize = limit::PROPERTY_BYTES;

// The bytes of the buffers for a combined model file and for the line of a refusal: none is longer.
const OUTPUT_ROOM: usize = limit::OUTPUT_BYTES;

const LINE_ROOM: usize = 16;

// Whether a read of each input failed before the input's end.
#[derive(Clone, Copy)]
pub struct Failures {
    pub rule: bool,
    pub letters: bool,
    pub property: bool,
}

// What a combination tells: so many bytes for standard output, so many for standard error.
#[derive(Clone, Copy)]
pub struct Told {
    pub output: usize,
    pub errors: usize,
}

// Writes the line of a refusal, and answers how many bytes there are to be told.
fn tell(answer: Result<usize, Reason>, line: &mut [u8]) -> Told
    requires number_fits { NumberFits (combine_outcome_of answer) }
    requires refusal_room_in_bounds { refusal_room ≤ length line.old }
    ensures output { result.output ≡ bytes_told (combine_outcome_of answer) }
    ensures errors { Wrote line.old 0 (line_told (combine_outcome_of answer)) line.new
        result.errors }
{
    match answer {
        Err(reason) => {
            let number = u16::from(reason);
            let errors = write_refusal(line, number as usize);
            Told { output: 0, errors }
        }
        Ok(bytes) => Told {
            output: bytes,
            errors: 0,
        },
    }
}

// Combines three inputs with an output and a line of the program's sizes.
fn write_combination(
    rule: &[u8],
    letters: &[u8],
    property: &[u8],
    out: &mut [u8],
    line: &mut [u8],
) -> Told
    requires out_len { length out.old ≡ output_bytes }
    requires refusal_room_in_bounds { refusal_room ≤ length line.old }
    ensures output { Wrote out.old 0
        (output_text rule.now letters.now property.now)
        out.new result.output }
    ensures errors { Wrote line.old 0
        (error_text rule.now letters.now property.now)
        line.new result.errors }
{
    let answer = combine(rule, letters, property, out);
    tell(answer, line)
}

// Combines what was read of three inputs: the combined model file is written to the front of the output, or the line of a
// refusal to the front of the line. An input that could not be read to its end, since a read failed, counts as empty.
pub fn desk_combine(
    rule: &[u8],
    letters: &[u8],
    property: &[u8],
    failed: Failures,
    out: &mut [u8; OUTPUT_ROOM],
    line: &mut [u8; LINE_ROOM],
) -> Told
    ensures output { Wrote out.old 0
        (output_text (input_of failed.rule rule.now) (input_of failed.letters letters.now)
        (input_of failed.property property.now)) out.new result.output }
    ensures errors { Wrote line.old 0
        (error_text (input_of failed.rule rule.now) (input_of failed.letters letters.now)
        (input_of failed.property property.now)) line.new result.errors }
{
    let rule_bytes = input_bytes(rule, failed.rule, RULE_ROOM);
    let letter_bytes = input_bytes(letters, failed.letters, LETTERS_ROOM);
    let property_bytes = input_bytes(property, failed.property, PROPERTY_ROOM);
    write_combination(
        &rule[..rule_bytes],
        &letters[..letter_bytes],
        &property[..property_bytes],
        out,
        line,
    )
}

// The bytes of the buffer for an argument: no name of a file is longer.
pub const ARGUMENT_ROOM: usize = 4096;

// Whether the program was started with an argument at a place, its own name being at 0.
fn has_argument<R: Env>(rt: &R, place: usize) -> bool {
    let mut name = [0u8; 1];
    !matches!(rt.arg(place, &mut name), Err(FillError::NotPresent))
}

// How many arguments the program was started with, its own name among them.
pub fn argument_count<R: Env>(rt: &R) -> usize {
    (0..usize::MAX)
        .take_while(|place| has_argument(rt, *place))
        .count()
}

// Writes an argument to the front of a text, and answers its length: 0 if it is missing or longer than the text.
pub fn argument<R: Env>(rt: &R, place: usize, name: &mut [u8; ARGUMENT_ROOM]) -> usize
    ensures { result ≤ length name.new }
{
    rt.arg(place, name).unwrap_or(0)
}

// Opens the file that an argument names. From one that cannot be opened nothing can be read.
pub fn open_argument<R: Env + Files>(rt: &R, place: usize) -> Opened<R::File> {
    let mut name = [0u8; ARGUMENT_ROOM];
    let length = argument(rt, place, &mut name);
    open_named(rt, &name[..length])
}

// Reads a rule, its letters and a property from three readers, writes the combined model file to a writer or the line of a
// refusal to another, and answers whether all of the file was written.
pub fn print_combination<R: Read, W: Write, E: Write>(
    rule_from: &mut R,
    letters_from: &mut R,
    property_from: &mut R,
    to: &mut W,
    errors_to: &mut E,
) -> bool
    ensures { result ≡ true → CombinationPrinted
        record { rule = R.remaining rule_from.old; letters = R.remaining letters_from.old; property = R.remaining property_from.old }
        record { rule = R.remaining rule_from.new; letters = R.remaining letters_from.new; property = R.remaining property_from.new }
        (W.contents to.old) (W.contents to.new) }
{
    let mut rule = [0u8; RULE_ROOM];
    let rule_read = read_model(rule_from, &mut rule);
    let mut letters = [0u8; LETTERS_ROOM];
    let letters_read = read_letters(letters_from, &mut letters);
    let mut property = [0u8; PROPERTY_ROOM];
    let property_read = read_property(property_from, &mut property);
    let failed = Failures {
        rule: rule_read.failed,
        letters: letters_read.failed,
        property: property_read.failed,
    };
    let mut out = [0u8; OUTPUT_ROOM];
    let mut line = [0u8; LINE_ROOM];
    let told = desk_combine(
        &rule[..rule_read.count],
        &letters[..letters_read.count],
        &property[..property_read.count],
        failed,
        &mut out,
        &mut line,
    );
    let _ = errors_to.write_all(&line[..told.errors]);
    to.write_all(&out[..told.output]).is_ok()
}
