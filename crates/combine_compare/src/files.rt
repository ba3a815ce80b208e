// The files of a combination, and the call on them.
ghost use Rattle.std.specs.Prelude.{◌≤◌, ◌<◌, ◌+◌};

use crate::draws::{Combination, Fault};
use crate::pairs::{leads, mask};
use combine_trials::Tried;
use exhaustive::Model;
use harness::{put_byte, put16};

// A buffer for a file, longer than any.
pub type File = [u8; 180];

// How many bytes of a file are lent: all, or one fewer.
pub fn lent(size: usize, short: bool) -> usize
    ensures { result ≤ size }
{
    if short { size.saturating_sub(1) } else { size }
}

// Writes the mask at a place of the masks, if the property has its edge; answers the place after it in the file.
fn put_mask(file: &mut [u8], at: usize, edges: u64, masks: u64, place: usize) -> usize
    requires { at < 1000 }
    ensures { result ≤ at + 2 }
{
    if !leads(edges, place) {
        return at;
    }
    put16(file, at, mask(masks, place));
    at + 2
}

// Writes a property: the file of its model with the masks after it, which the total length counts.
fn write_property(file: &mut [u8], m: Model, masks: u64) -> usize
    requires { m.states ≤ 2 }
    ensures { result ≤ 180 }
{
    let mut at = exhaustive::write(file, m, m.states);
    for place in 0..4 {
        at = put_mask(file, at, m.edges, masks, place);
    }
    put16(file, 20, at);
    at
}

// Writes a rule: the file of its model, and after it the second mark table, if it has one, which the total length counts.
fn write_rule(file: &mut [u8], c: Combination) -> usize
    requires { c.rule.states ≤ 3 }
    ensures { result ≤ 180 }
{
    let m = c.rule;
    let size = exhaustive::write(file, m, m.states);
    let Some(second) = c.second else {
        return size;
    };
    put_byte(file, size, second as usize);
    put16(file, 20, size + 1);
    size + 1
}

// How many letters are lent: as many as there are states, one fewer or one more.
fn letters_lent(states: usize, faults: u64) -> usize
    requires { states ≤ 3 }
    ensures { result ≤ 4 }
{
    if Fault::LettersShort.is_in(faults) {
        lent(states, true)
    } else if Fault::LettersLong.is_in(faults) {
        states + 1
    } else {
        states
    }
}

// The letter table, with a letter more than there can be states.
fn letter_table(letters: u64) -> [u8; 4] {
    let [first, second, third, ..] = letters.to_le_bytes();
    [first, second, third, 0]
}

// The call with a rule and its letters, lent so many bytes of an output.
fn call_with(rule: &[u8], letters: &[u8], c: Combination, out: &mut File, space: usize) -> Tried
    requires { (c.property.states ≤ 2) × (space ≤ 180) }
{
    let mut property = [0u8; 180];
    let size = write_property(&mut property, c.property, c.masks);
    let end = lent(size, Fault::PropertyShort.is_in(c.faults));
    combine_trials::combine(rule, letters, &property[..end], out, space)
}

// The call, with the faults that it has, lent so many bytes of an output.
pub fn call(c: Combination, out: &mut File, space: usize) -> Tried
    requires { (c.rule.states ≤ 3) × (c.property.states ≤ 2) × (space ≤ 180) }
{
    let mut rule = [0u8; 180];
    let letters = letter_table(c.letters);
    let size = write_rule(&mut rule, c);
    let end = lent(size, Fault::RuleShort.is_in(c.faults));
    let count = letters_lent(c.rule.states, c.faults);
    call_with(&rule[..end], &letters[..count], c, out, space)
}
