// Reading an input from a reader. An error is not the end of the input. Each kind of input has a buffer of one size: one
// byte more than the longest input has, so that no longer one passes for it, and no more is read than decides.
#![tactic(auto)]

ghost use Rattle.std.specs.Prelude.{◌≡◌, ◌<◌, false, length, take};
ghost use Rattle.std.specs.Io.KnownBytes.{Consumes, IsAtEnd};
ghost use Rattle.numbers.specs.Limits.{file_bytes, letters_bytes, property_bytes};
ghost use Rattle.text.specs.Writing.{Within};
ghost use Rattle.reading.specs.Reading.{failed_read, input_of, FirstBytes, InputRead};

use std::io::Read;
use std::rt::Files;
use std::{fs, io, str};

// What was read: so many bytes at the front of the buffer, and whether a read failed before the end of the input.
// No `Result`: the clause `read` of the readers below tells how many bytes were taken where a read failed, too.
#[derive(Clone, Copy)]
pub struct Reading {
    pub count: usize,
    pub failed: bool,
}

// A file that was opened, or none, from which nothing can be read, where it could not be opened.
#[derive(Drop)]
pub struct Opened<F> {
    file: Option<F>,
}

impl<F: Read> Read for Opened<F> {
    fn read(&mut self, buf: &mut [u8]) -> io::Result<usize> {
        match &mut self.file {
            Some(file) => file.read(buf),
            None => Err(io::Error::from(io::ErrorKind::NotFound)),
        }
    }
}

// Opens the file of a name. A name that is no text names no file.
pub fn open_named<R: Files>(rt: &R, name: &[u8]) -> Opened<R::File> {
    let path = str::from_utf8(name).ok();
    Opened {
        file: path.and_then(|path| fs::open(rt, path).ok()),
    }
}

// The read failed: its answer is an error.
fn has_failed(got: &io::Result<usize>) -> bool
    ensures { result ≡ failed_read got.now }
{
    got.is_err()
}

// Reads once. No bytes are read at the end of the input, or if the read fails.
fn read_once<R: Read>(from: &mut R, buffer: &mut [u8]) -> Reading
    ensures within { Within result.count buffer.new }
    ensures bytes { Consumes (R.remaining from.old) (R.remaining from.new) (take result.count buffer.new) }
    ensures ended { result.failed ≡ false → result.count ≡ 0 → 0 < length buffer.new
        → IsAtEnd (R.remaining from.new) }
{
    let got = from.read(buffer);
    let failed = has_failed(&got);
    let count = got.unwrap_or(0);
    Reading { count, failed }
}

// Reads until the buffer is full, the input ends or a read fails. No `for`: a turn goes on by as many bytes as were read.
fn read_input<R: Read>(from: &mut R, buffer: &mut [u8]) -> Reading
    ensures within { Within result.count buffer.new }
    ensures read { InputRead (length buffer.new) (R.remaining from.old) (R.remaining from.new)
        result.failed (take result.count buffer.new) }
{
    let mut count = 0;
    while count < buffer.len() {
        let reading = read_once(from, &mut buffer[count..]);
        let more = reading.count;
        if more == 0 {
            return Reading {
                count,
                failed: reading.failed,
            };
        }
        count += more;
    }
    Reading {
        count,
        failed: false,
    }
}

// Three readers in place of one for any size: each promises to read no more than decides of its kind of input, and asks
// for a buffer of that size; what they do is `read_input`.

// Reads a model file.
pub fn read_model<R: Read>(from: &mut R, buffer: &mut [u8]) -> Reading
    requires { length buffer.old ≡ file_bytes }
    ensures within { Within result.count buffer.new }
    ensures read { InputRead (length buffer.new) (R.remaining from.old) (R.remaining from.new)
        result.failed (take result.count buffer.new) }
{
    read_input(from, buffer)
}

// Reads the letters of a rule.
pub fn read_letters<R: Read>(from: &mut R, buffer: &mut [u8]) -> Reading
    requires { length buffer.old ≡ letters_bytes }
    ensures within { Within result.count buffer.new }
    ensures read { InputRead (length buffer.new) (R.remaining from.old) (R.remaining from.new)
        result.failed (take result.count buffer.new) }
{
    read_input(from, buffer)
}

// Reads a property.
pub fn read_property<R: Read>(from: &mut R, buffer: &mut [u8]) -> Reading
    requires { length buffer.old ≡ property_bytes }
    ensures within { Within result.count buffer.new }
    ensures read { InputRead (length buffer.new) (R.remaining from.old) (R.remaining from.new)
        result.failed (take result.count buffer.new) }
{
    read_input(from, buffer)
}

// The number of bytes at the front of what was read that count as the input: none if a read failed, else at most so many.
pub fn input_bytes(read: &[u8], failed: bool, most: usize) -> usize
    ensures within { Within result read.now }
    ensures input { FirstBytes most (input_of failed read.now) (take result read.now) }
{
    if failed { 0 } else { read.len().min(most) }
}
