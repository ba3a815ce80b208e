// Makes the bytes of a file, or a table of numbers, from a text of items. An item is a sign and some numbers:
//   12         the 16-bit number 12
//   b12        the byte 12
//   r1 2 3 9   three 16-bit numbers, from 1 on, each 2 more than the one before, modulo 9
//   s1 2 3 9   the same as bytes
//   l2 9 8     the edges of a ladder: eight 16-bit numbers, 2 3 2 3 4 5 4 5, modulo 9
//   h5 7 0     the header of a model file with 5 states, 7 edges and the initial state 0
//   p5 7 0     the header of a property file with the same
//   @20 43     the 16-bit number 43 at place 20, instead of what stands there
//   =50        50 bytes in all: the file is cut, or has zeros at its end
// A sign that is none of these shows in print, and so do more bytes than the file has room for.
ghost use Rattle.std.specs.Prelude.{◌≤◌, ◌<◌, length};

use crate::reading::{byte_at, digits, next_number, skip, within};
use harness::{header_word, put_byte, text};

// An item: its sign, its numbers, and the place after it.
#[derive(Clone, Copy)]
struct Item {
    sign: u8,
    first: usize,
    second: usize,
    third: usize,
    fourth: usize,
    next: usize,
}

// The place after an item with a sign, given the places after each of the four numbers from its first one on.
fn behind(rt: &impl Print, sign: u8, one: usize, two: usize, three: usize, four: usize) -> usize
    requires { (one ≤ two) × (two ≤ three) × (three ≤ four) }
    ensures { result ≤ four }
{
    match sign {
        b'r' | b's' => four,
        b'h' | b'p' | b'l' => three,
        b'@' => two,
        b' ' | b'b' | b'=' => one,
        _ => {
            text(rt, b" unknown sign");
            one
        }
    }
}

// The item whose first number begins at a place. It has no more numbers than its sign says; those after them are not
// looked at.
fn item_at(rt: &impl Print, words: &[u8], place: usize) -> Item
    requires { place ≤ length words.now }
    ensures { (result.first < 100000) × (result.second < 100000) × (result.third < 100000) × (result.next ≤ length words.now) }
{
    let sign = if place == 0 {
        b' '
    } else {
        byte_at(words, place - 1)
    };
    let first = digits(words, place);
    let second = next_number(words, first.next);
    let third = next_number(words, second.next);
    let fourth = next_number(words, third.next);
    Item {
        sign,
        first: first.value,
        second: second.value,
        third: third.value,
        fourth: fourth.value,
        next: behind(rt, sign, first.next, second.next, third.next, fourth.next),
    }
}

// The number at a place of a header: as in a model file, but that the total length counts so many masks.
fn header_number(i: Item, place: usize, masks: usize) -> usize
    requires { masks < 100000 }
    ensures { result < 500000 }
{
    if 4097 < i.first || 8194 < i.second {
        return 0;
    }
    let number = header_word(place, i.first, i.second, i.third) % 100000;
    if place == 10 {
        return number + 2 * masks;
    }
    number
}

// A number as it stands in a run with a modulus.
fn reduced(value: usize, modulus: usize) -> usize
    ensures { result < 65536 }
{
    value.checked_rem(modulus).unwrap_or(0) % 65536
}

// The number at a place of an item, after another.
fn number_at(i: Item, place: usize, before: usize) -> usize
    requires first_bound { (i.first < 100000) × (i.second < 100000) }
    requires place_bound { (place < 100000) × (before < 500000) }
    ensures { result < 500000 }
{
    match i.sign {
        b'r' | b's' if place == 0 => reduced(i.first, i.fourth),
        b'r' | b's' => reduced(before + i.second, i.fourth),
        b'l' => reduced(i.first + 2 * (place / 4) + place % 2, i.second),
        b'h' => header_number(i, place, 0),
        b'p' => header_number(i, place, i.second),
        b'@' => i.second,
        _ => i.first,
    }
}

// How many numbers an item writes.
fn count_of(i: Item) -> usize
    requires { i.third < 100000 }
    ensures { result < 100000 }
{
    match i.sign {
        b'r' | b's' | b'l' => i.third,
        b'h' | b'p' => 12,
        b'=' => 0,
        _ => 1,
    }
}

// How many bytes each number of an item has.
fn width_of(sign: u8) -> usize
    ensures { result ≤ 2 }
{
    match sign {
        b'b' | b's' => 1,
        _ => 2,
    }
}

// Writes a number of one byte or two.
fn put_number(file: &mut [u8], at: usize, value: usize, width: usize)
    requires { at < 1000000 }
{
    put_byte(file, at, value);
    if 1 < width {
        put_byte(file, at + 1, value / 256);
    }
}

// Writes the numbers of an item from a place on; answers the place after them.
fn put_numbers(file: &mut [u8], from: usize, i: Item) -> usize
    requires from_bound { from ≤ 200000 }
    requires first_bound { (i.first < 100000) × (i.second < 100000) × (i.third < 100000) }
{
    let count = count_of(i);
    let width = width_of(i.sign);
    let mut at = from;
    let mut value = 0;
    for place in 0..count {
        value = number_at(i, place, value);
        put_number(file, at, value, width);
        at += width;
    }
    at
}

// Writes an item after so many bytes; answers how many there are then.
fn put_item(file: &mut [u8], size: usize, i: Item) -> usize
    requires size_bound { size ≤ 200000 }
    requires first_bound { (i.first < 100000) × (i.second < 100000) × (i.third < 100000) }
{
    match i.sign {
        b'@' => {
            put_numbers(file, i.first, i);
            size
        }
        b'=' => i.first,
        _ => put_numbers(file, size, i),
    }
}

// Makes the file that a text describes; answers its length.
pub fn make(rt: &impl Print, words: &[u8], file: &mut [u8]) -> usize
    ensures { result ≤ length file.old }
{
    let mut size = 0;
    let mut p = skip(words, 0);
    // A `while`: each turn goes on by as much as an item takes.
    while p < words.len() {
        let i = item_at(rt, words, p);
        if i.next <= p {
            return within(rt, size, file.len());
        }
        size = within(rt, put_item(file, size, i), 200000);
        p = skip(words, i.next);
    }
    within(rt, size, file.len())
}

// Puts the 16-bit numbers in the first so many bytes of a file at the front of a table; answers how many there are.
fn put_entries(rt: &impl Print, file: &[u8], size: usize, table: &mut [u16]) -> usize
    requires { size ≤ length file.now }
    ensures { result ≤ length table.old }
{
    let (pairs, _) = file[..size].as_chunks::<2>();
    for (entry, pair) in table.iter_mut().zip(pairs) {
        *entry = u16::from_le_bytes(*pair);
    }
    within(rt, pairs.len(), table.len())
}

// Makes the table of 16-bit numbers that a text describes, by way of a buffer; answers how many there are.
pub fn make_entries(rt: &impl Print, words: &[u8], buffer: &mut [u8], table: &mut [u16]) -> usize
    ensures { result ≤ length table.old }
{
    let size = make(rt, words, buffer);
    put_entries(rt, buffer, size, table)
}
