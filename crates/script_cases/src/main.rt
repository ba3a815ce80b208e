// Plays the scripts that it reads on small files, and prints each call with its answer. A line that begins with a slash is
// a script: the entries of the answer table and of the log that are lent, the file, and the numbers of the script, the last
// two as items (crates/case_text/src/items.rt). One that begins with `#` says what follows. Any other line is printed as
// it stands.
#![tactic(auto)]

mod report;

use case_text::{byte_at, end_behind, lines_of, make, make_entries, next_number, within};
use harness::{first, read_text, text};
use report::show;

// Plays the script of a line.
fn run_script(rt: &impl Print, line: &[u8]) {
    let mut file = [0u8; 100];
    let mut numbers = [0u8; 200];
    let mut script = [0u16; 64];
    let (_, rest) = line.split_at(end_behind(line, 0));
    let (items, commands) = rest.split_at(end_behind(rest, 0));
    let room = next_number(line, 0);
    let entries = next_number(line, room.next);
    let size = make(rt, items, &mut file);
    let count = make_entries(rt, commands, &mut numbers, &mut script);
    show(
        rt,
        &file[..size],
        first(&script, count),
        within(rt, room.value, 6),
        within(rt, entries.value, 64),
    );
}

// Runs a line.
fn run_line(rt: &impl Print, line: &[u8]) {
    match byte_at(line, 0) {
        b'/' => run_script(rt, line),
        b'#' => {}
        _ => {
            text(rt, line);
            text(rt, b"\n");
        }
    }
}

fn main(rt: HostRuntime) {
    let mut input = [0u8; 10000];
    let got = read_text(&mut rt.stdin(), &mut input);
    for line in lines_of(&input[..got]) {
        run_line(&rt, line);
    }
}
