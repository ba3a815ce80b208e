// The combining program: reads a rule, its letters and a property from the files that its arguments name, and writes the
// combined model file to standard output.
#![tactic(auto)]

use desk_combining::{argument_count, open_argument, print_combination};

fn main(rt: HostRuntime) {
    if argument_count(&rt) != 4 {
        let _ = eprintln!(rt; "usage: desk_combine RULE LETTERS PROPERTY > MODEL");
        return;
    }
    let mut rule = open_argument(&rt, 1);
    let mut letters = open_argument(&rt, 2);
    let mut property = open_argument(&rt, 3);
    if !print_combination(
        &mut rule,
        &mut letters,
        &mut property,
        &mut rt.stdout(),
        &mut rt.stderr(),
    ) {
        let _ = eprintln!(rt; "desk_combine: the model could not be written");
    }
}
