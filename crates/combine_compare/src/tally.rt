// The counts that are printed, and the difference that is printed first.
use crate::draws::Combination;
use exhaustive::Model;
use harness::{Answer, add, add_if};

// The counts: combinations, those written, those of them whose rule and whose property has an implied step, those whose rule
// has two mark tables, the edges in them, searches of them that found a list and that found none, refusals with 7, 15, 16
// and 17, differences.
#[derive(Clone, Copy, Default)]
pub struct Tally {
    pub combinations: u64,
    written: u64,
    rule_implied: u64,
    property_implied: u64,
    two_tables: u64,
    pub edges: u64,
    found: u64,
    none_within: u64,
    refused_7: u64,
    refused_15: u64,
    refused_16: u64,
    refused_17: u64,
    differences: u64,
}

// Counts a combination that is written, the implied steps of its files and the mark tables of its rule.
pub fn add_written(tally: &mut Tally, c: Combination) {
    add(&mut tally.written, 1);
    add_if(&mut tally.rule_implied, exhaustive::has_implied(c.rule));
    add_if(
        &mut tally.property_implied,
        exhaustive::has_implied(c.property),
    );
    add_if(&mut tally.two_tables, c.second.is_some());
}

// Counts a search by whether it found a list.
pub fn add_searched(tally: &mut Tally, answer: Answer) {
    match answer {
        Answer::Found { .. } => add(&mut tally.found, 1),
        _ => add(&mut tally.none_within, 1),
    }
}

// Counts a refusal by its number.
pub fn add_refused(tally: &mut Tally, number: u16) {
    match number {
        7 => add(&mut tally.refused_7, 1),
        15 => add(&mut tally.refused_15, 1),
        16 => add(&mut tally.refused_16, 1),
        _ => add(&mut tally.refused_17, 1),
    }
}

// Prints a rule or a property.
fn show(rt: &impl Print, m: Model) {
    let Model {
        states,
        start,
        edges,
        marks,
        stays,
    } = m;
    let stays = u8::from(stays);
    let _ = print!(rt;
        "states {states}, initial state {start}, edges {edges}, marks {marks}, bytes 6 and 7 {stays}\n"
    );
}

// An answer as one number: that of the refusal, or of the bytes written, which are more than 24.
fn number_of(answer: Result<usize, u16>) -> usize {
    answer.unwrap_or_else(usize::from)
}

// Prints a combination, and what it answered and must answer.
fn show_all(
    rt: &impl Print,
    number: u64,
    c: Combination,
    answer: Result<usize, u16>,
    expected: Result<usize, u16>,
) {
    let _ = print!(rt;
        "combination {number}: answered {}, expected {}\n",
        number_of(answer),
        number_of(expected)
    );
    show(rt, c.rule);
    show(rt, c.property);
    let _ = print!(rt;
        "two mark tables {}, marks of the second {}, letters {}, masks {}, faults {}\n",
        u8::from(c.second.is_some()),
        c.second.unwrap_or(0),
        c.letters,
        c.masks,
        c.faults
    );
}

// Counts a difference, and prints the first one.
pub fn differs(
    rt: &impl Print,
    number: u64,
    c: Combination,
    answer: Result<usize, u16>,
    expected: Result<usize, u16>,
    tally: &mut Tally,
) {
    if tally.differences == 0 {
        show_all(rt, number, c, answer, expected);
    }
    add(&mut tally.differences, 1);
}

// Prints all counts.
pub fn print(rt: &impl Print, t: &Tally) {
    let _ = print!(rt;
        "combinations {}\nwritten {}\n  with an implied step of the rule: {}\n  with an implied step of the property, not read: {}\n  with two mark tables of the rule: {}\nedges {}\nfound {}\nnone within {}\nrefused 7: {}\nrefused 15: {}\nrefused 16: {}\nrefused 17: {}\ndifferences {}\n",
        t.combinations,
        t.written,
        t.rule_implied,
        t.property_implied,
        t.two_tables,
        t.edges,
        t.found,
        t.none_within,
        t.refused_7,
        t.refused_15,
        t.refused_16,
        t.refused_17,
        t.differences
    );
}
