// Reads lines of text: line after line, the bytes up to a mark, the ends of parts, and decimal numbers.
ghost use Rattle.std.specs.Prelude.{◌≤◌, ◌<◌, length};
ghost use Rattle.std.specs.Iterator.{at_most};

use harness::text;

// A number that was read, and the place after it.
#[derive(Clone, Copy)]
pub struct NumberRead {
    pub value: usize,
    pub next: usize,
}

// The first place from the given one on that holds a byte, or the end of the text.
pub fn find(words: &[u8], from: usize, mark: u8) -> usize
    requires { from ≤ length words.now }
    ensures { (from ≤ result) × (result ≤ length words.now) }
{
    let found = words[from..].iter().position(|byte| *byte == mark);
    found.map_or(words.len(), |i| from + i)
}

// The end of the part of a line that begins after a place: the next slash, or the end of the line.
pub fn end_behind(line: &[u8], place: usize) -> usize
    requires { place ≤ length line.now }
    ensures { (place ≤ result) × (result ≤ length line.now) }
{
    if place < line.len() {
        find(line, place + 1, b'/')
    } else {
        line.len()
    }
}

// The lines of a text, one after another, each without the newline at its end.
#[derive(Drop)]
pub struct Lines<'a>(&'a [u8]);

// The lines of a text.
pub fn lines_of(script: &[u8]) -> Lines<'_> {
    Lines(script)
}

impl<'a> Iterator for Lines<'a> {
    type Item = &'a [u8];

    ghost remaining = { λ s. at_most (length s.0.now) };

    fn next(&mut self) -> Option<&'a [u8]> {
        let script = self.0;
        if script.is_empty() {
            return None;
        }
        let end = find(script, 0, b'\n');
        self.0 = &script[(end + 1).min(script.len())..];
        Some(&script[..end])
    }
}

// The byte at a place, 0 after the end.
pub fn byte_at(words: &[u8], at: usize) -> u8 {
    words.get(at).copied().unwrap_or(0)
}

// The place of the first digit from the given one on, or the end.
pub fn skip(words: &[u8], from: usize) -> usize
    requires { from ≤ length words.now }
    ensures { (from ≤ result) × (result ≤ length words.now) }
{
    let found = words[from..].iter().position(|byte| byte.is_ascii_digit());
    found.map_or(words.len(), |i| from + i)
}

// The digits from a place on, read as a number below 100,000.
pub fn digits(words: &[u8], from: usize) -> NumberRead
    requires { from ≤ length words.now }
    ensures { (result.value < 100000) × (from ≤ result.next) × (result.next ≤ length words.now) }
{
    let mut value = 0;
    for i in from..words.len() {
        if !words[i].is_ascii_digit() || 10000 <= value {
            return NumberRead { value, next: i };
        }
        value = 10 * value + usize::from(words[i] - b'0');
    }
    NumberRead {
        value,
        next: words.len(),
    }
}

// The next number of a text, after whatever stands before it.
pub fn next_number(words: &[u8], from: usize) -> NumberRead
    requires { from ≤ length words.now }
    ensures { (result.value < 100000) × (from ≤ result.next) × (result.next ≤ length words.now) }
{
    digits(words, skip(words, from))
}

// A number that is at most as large as there is room for; one that had to be cut shows in print.
pub fn within(rt: &impl Print, value: usize, most: usize) -> usize
    ensures { result ≤ most }
{
    if value <= most {
        return value;
    }
    text(rt, b" cut");
    most
}
