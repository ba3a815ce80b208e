// The desk sheet program's reading and printing, run on one file after another.
#![tactic(auto)]

use reading::open_named;
use std::io;
use std::rt::Files;

// The files, the last two of which are none.
const NAMES: [&str; 19] = [
    "d",
    "two",
    "two_spare",
    "cut",
    "none",
    "a_stays",
    "chain_stays",
    "fork_stays",
    "d_stays",
    "flag_two",
    "twenty",
    "more",
    "ring",
    "longest_one",
    "longest",
    "one_over",
    "far_over",
    ".",
    "missing",
];

fn main(rt: HostRuntime) {
    for name in NAMES {
        print_case(&rt, name);
    }
}

// Prints the name of a file, and the sheet of what is read from it. A file that cannot be opened cannot be read either.
fn print_case<R: Files + Print>(rt: &R, name: &str) {
    let _ = print!(rt; "# {name}\n");
    let mut from = open_named(rt, name.as_bytes());
    desk::print_sheet(&mut from, &mut io::writer(rt));
}
