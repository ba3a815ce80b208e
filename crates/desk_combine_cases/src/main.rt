// The combining program's reading and writing, run on the files that the arguments name, three after another.
#![tactic(auto)]

ghost use Rattle.std.specs.Prelude.{◌+◌, ◌<◌};

use desk_combining::{ARGUMENT_ROOM, argument, argument_count, open_argument, print_combination};
use std::io;
use std::rt::{Env, Files};

fn main(rt: HostRuntime) {
    for case in 0..argument_count(&rt).saturating_sub(1) / 3 {
        print_case(&rt, 3 * case);
    }
}

// Prints the names of three files, those of the arguments after a place, and what is written for them.
fn print_case<R: Env + Files + Print>(rt: &R, place: usize)
    requires { place + 3 < 18446744073709551616 }
{
    let _ = print!(rt; "#");
    print_argument(rt, place + 1);
    print_argument(rt, place + 2);
    print_argument(rt, place + 3);
    let _ = print!(rt; "\n");
    let mut rule = open_argument(rt, place + 1);
    let mut letters = open_argument(rt, place + 2);
    let mut property = open_argument(rt, place + 3);
    print_combination(
        &mut rule,
        &mut letters,
        &mut property,
        &mut io::writer(rt),
        &mut io::writer(rt),
    );
}

// Prints an argument after a space.
fn print_argument<R: Env + Print>(rt: &R, place: usize) {
    let mut name = [0u8; ARGUMENT_ROOM];
    let length = argument(rt, place, &mut name);
    let _ = print!(rt; " ");
    let _ = rt.write_all(&name[..length]);
}
