// Runs a case that is written as a line: a name, a model, what is changed in its file, the tables that are lent, and the
// list, as items (crates/case_text/src/items.rt). What a step, a search, next and the distances answer is printed, or
// counted where the line stands for many calls.
ghost use Rattle.std.specs.Prelude.{◌≤◌, ◌<◌, length};

use crate::calls::CaseNumbers;
use crate::judged::Judged;
use crate::model_put::{File, put_model};
use crate::setting::{Setting, is_setting};
use crate::sweeps::{changes, lengths, once};
use case_text::{NumberRead, byte_at, digits, find, make_entries, next_number, skip, within};
use harness::{first, put16, text};

// A case's size, allowance and entries, from four places of a line, and what it shares with others.
fn figures_at(
    rt: &impl Print,
    line: &[u8],
    from: usize,
    size: usize,
    shown: bool,
    shared: Setting,
) -> CaseNumbers
    requires { size ≤ length line.now }
    ensures { (result.size ≤ 25800) × (result.room ≤ 4097) × (result.entries ≤ 24576) }
{
    let bytes = next_number(line, size);
    let allowance = next_number(line, bytes.next);
    let room = next_number(line, allowance.next);
    let entries = next_number(line, room.next);
    CaseNumbers {
        from,
        size: within(rt, bytes.value, 25800),
        mark_table: shared.mark_table,
        ceiling: shared.ceiling,
        best: shared.best,
        allowance: (allowance.value % 65536) as u16,
        room: within(rt, room.value, 4097),
        entries: within(rt, entries.value, 24576),
        shown,
    }
}

// The place after so many numbers from a place on.
fn behind(line: &[u8], from: usize, count: usize) -> usize
    requires { from ≤ length line.now }
    ensures { result ≤ length line.now }
{
    let mut place = from;
    for _ in 0..count {
        place = next_number(line, place).next;
    }
    place
}

// Changes a 16-bit number of the file.
fn change(file: &mut File, at: usize, value: usize) {
    if at < 65000 {
        put16(file, at, value);
    }
}

// Makes the changes that a part of a line lists: pairs of a place and the 16-bit number to stand there.
fn put_changes(pairs: &[u8], file: &mut File) {
    let mut p = skip(pairs, 0);
    // A `while`: each turn goes on by as much as a pair takes.
    while p < pairs.len() {
        let at = digits(pairs, p);
        let value = next_number(pairs, at.next);
        if value.next <= p {
            return;
        }
        change(file, at.value, value.value);
        p = skip(pairs, value.next);
    }
}

// Runs a case on the file and with the list that it lends: once, at every length, or with every byte changed.
fn run_lent(
    rt: &impl Print,
    mark: u8,
    file: &mut File,
    earlier: &[u16],
    f: CaseNumbers,
    before: Judged,
) -> Judged
    requires { (f.size ≤ 25800) × (f.room ≤ 4097) × (f.entries ≤ 24576) }
{
    match mark {
        b'+' => lengths(rt, file, earlier, f, before),
        b'*' => changes(rt, file, earlier, f, before),
        _ => once(rt, file, earlier, f, before),
    }
}

// Runs a case whose model stands in the part of a line from the colon on, its changes and its list from a place on.
fn run_parts(rt: &impl Print, rest: &[u8], end: usize, f: CaseNumbers, before: Judged) -> Judged
    requires end_in_bounds { end ≤ length rest.now }
    requires size_bound { (f.size ≤ 25800) × (f.room ≤ 4097) × (f.entries ≤ 24576) }
{
    let mut file = [0u8; 25800];
    let mut bytes = [0u8; 8194];
    let mut list = [0u16; 4097];
    let slash = find(rest, end, b'/');
    put_model(rt, byte_at(rest, 2), &mut file);
    put_changes(&rest[end..slash], &mut file);
    let count = make_entries(rt, &rest[slash..], &mut bytes, &mut list);
    run_lent(
        rt,
        byte_at(rest, 1),
        &mut file,
        first(&list, count),
        f,
        before,
    )
}

// The least length and the place after it; only the cases with every length have one.
fn least_length(rest: &[u8], mark: u8) -> NumberRead
    ensures { result.next ≤ length rest.now }
{
    if mark == b'+' {
        next_number(rest, 0)
    } else {
        NumberRead { value: 0, next: 0 }
    }
}

// Runs a case, whose name stands before the colon of its line, the rest from the colon on. After the colon a blank stands
// for one call each, `+` for every length from one up to another, which has one number more, and `*` for every byte changed
// to every other value.
fn run_case(rt: &impl Print, name: &[u8], rest: &[u8], shared: Setting, before: Judged) -> Judged {
    let mark = byte_at(rest, 1);
    let once = mark == b' ';
    let from = least_length(rest, mark);
    text(rt, name);
    text(rt, if once { b":" } else { b"\n" });
    let f = figures_at(rt, rest, from.value, from.next, once, shared);
    run_parts(rt, rest, behind(rest, from.next, 4), f, before)
}

// Runs a line. One that begins with `#`, or says what the cases after it share, is printed as it stands.
pub fn run_line(rt: &impl Print, line: &[u8], shared: Setting, before: Judged) -> Judged {
    if line.starts_with(b"#") || is_setting(line) {
        text(rt, line);
        text(rt, b"\n");
        return before;
    }
    let (name, rest) = line.split_at(find(line, 0, b':'));
    run_case(rt, name, rest, shared, before)
}
