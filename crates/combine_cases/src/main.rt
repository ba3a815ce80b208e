// Runs the cases that it reads: prints what a combination answers, what it writes and what a search of that finds, and how
// many answers and outputs are not as they should be.
#![tactic(auto)]

mod calls;

use calls::Seen;
use case_text::{end_behind, find, lines_of, make, next_number};
use harness::{read_text, sum, text};

// How many cases were run, how many answers are not the expected ones, and how many outputs and tables are wrong.
#[derive(Clone, Copy, Default)]
struct Judged {
    cases: u64,
    other: u64,
    wrong: u64,
}

// The parts of a line: its name and, each with the mark before it, the rule, the letters, the property and the numbers.
#[derive(Clone, Copy)]
struct Parts<'a> {
    name: &'a [u8],
    rule: &'a [u8],
    letters: &'a [u8],
    property: &'a [u8],
    numbers: &'a [u8],
}

// With one case more.
fn and(before: Judged, seen: Seen) -> Judged {
    Judged {
        cases: sum(before.cases, 1),
        other: sum(before.other, u64::from(seen.other)),
        wrong: sum(before.wrong, seen.wrong),
    }
}

// The parts of a line.
fn parts_of(line: &[u8]) -> Parts<'_> {
    let (name, rest) = line.split_at(find(line, 0, b':'));
    let (rule, rest) = rest.split_at(end_behind(rest, 0));
    let (letters, rest) = rest.split_at(end_behind(rest, 0));
    let (property, numbers) = rest.split_at(end_behind(rest, 0));
    Parts {
        name,
        rule,
        letters,
        property,
        numbers,
    }
}

// Runs a case: makes the files that its parts describe, and combines them.
fn run_parts(rt: &impl Print, parts: Parts<'_>, space: usize, expected: usize) -> Seen {
    let mut rule = [0u8; 25700];
    let mut letters = [0u8; 4200];
    let mut property = [0u8; 41600];
    let rule_size = make(rt, parts.rule, &mut rule);
    let letters_size = make(rt, parts.letters, &mut letters);
    let property_size = make(rt, parts.property, &mut property);
    calls::run(
        rt,
        &rule[..rule_size],
        &letters[..letters_size],
        &property[..property_size],
        space % 25201,
        expected,
    )
}

// Runs the case of a line: its name is printed, and after the parts stand the bytes of the output and the answer.
fn run_case(rt: &impl Print, line: &[u8], before: Judged) -> Judged {
    let parts = parts_of(line);
    let space = next_number(parts.numbers, 0);
    let expected = next_number(parts.numbers, space.next);
    text(rt, parts.name);
    text(rt, b":");
    let seen = run_parts(rt, parts, space.value, expected.value);
    text(rt, b"\n");
    and(before, seen)
}

// Runs a line. One that begins with `#` is printed as it stands.
fn run_line(rt: &impl Print, line: &[u8], before: Judged) -> Judged {
    if line.starts_with(b"#") {
        text(rt, line);
        text(rt, b"\n");
        return before;
    }
    run_case(rt, line, before)
}

fn main(rt: HostRuntime) {
    let mut input = [0u8; 30000];
    let got = read_text(&mut rt.stdin(), &mut input);
    let mut all = Judged::default();
    for line in lines_of(&input[..got]) {
        all = run_line(&rt, line, all);
    }
    let Judged {
        cases,
        other,
        wrong,
    } = all;
    let spoilt = calls::spoilt();
    let _ = print!(rt;
        "spoilt noticed {spoilt}\ncases {cases}\nother answers {other}\nwrong outputs {wrong}\n"
    );
}
