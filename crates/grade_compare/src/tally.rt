// The counts that are printed, and the comparison that counts differences.
use exhaustive::{Model, Placed};
use grade_independent::{Claim, Graded};
use grade_trials::{Tried, Verdict};
use harness::{add, add_if};

// The counts: files, those with an implied step, with two mark tables, with table 1 named, with a bit of the other marks
// flipped; lists, those with a place where they break, the sum of the places, grades,
// those of them with each verdict, lists brought by a search and next, differences.
#[derive(Clone, Copy, Default)]
pub struct Tally {
    files: u64,
    implied: u64,
    two: u64,
    second: u64,
    flipped: u64,
    lists: u64,
    broken: u64,
    places: u64,
    grades: u64,
    falses: u64,
    accepting: u64,
    shortest: u64,
    brought: u64,
    differences: u64,
}

// Counts a file, of a model by the marks of its table that is named.
pub fn add_file(t: &mut Tally, p: Placed) {
    add(&mut t.files, 1);
    add_if(&mut t.implied, exhaustive::has_implied(p.model));
    add_if(&mut t.two, p.second.is_some());
    add_if(&mut t.second, p.named == 1);
    add_if(&mut t.flipped, p.flipped);
}

// Counts lists that were brought, and a difference unless all is right.
pub fn add_brought(t: &mut Tally, lists: usize, right: bool) {
    add(&mut t.brought, lists as u64);
    add_if(&mut t.differences, !right);
}

// What must be said of a list.
fn verdict_of(right: Graded) -> Verdict {
    if right.shortest {
        Verdict::Shortest
    } else if right.accepting {
        Verdict::Accepting
    } else {
        Verdict::False
    }
}

// The number of a verdict; 0 stands for a refusal.
fn number_of(given: Verdict) -> u64 {
    match given {
        Verdict::False => 1,
        Verdict::Accepting => 2,
        Verdict::Shortest => 3,
    }
}

// Whether a grade of a list is as it must be.
fn is_right(seen: Tried, right: Graded) -> bool {
    !seen.wrong
        && seen.answer.is_ok_and(|given| {
            number_of(given.verdict) == number_of(verdict_of(right))
                && given.first_break == right.place
        })
}

// Prints a grade that is not as it must be.
fn show(rt: &impl Print, m: Model, c: Claim, seen: Tried, right: Graded) {
    let said = seen.answer.map_or(0, |given| number_of(given.verdict));
    let place = seen.answer.map_or(None, |given| given.first_break);
    let _ = print!(rt;
        "states {}, initial state {}, edges {}, marks {}, list {} of {} entries, k {}: said {said}, place {}, tables wrong {}; must be {}, {}\n",
        m.states,
        m.start,
        m.edges,
        m.marks,
        c.list,
        c.entries,
        c.k,
        place.unwrap_or(0),
        u8::from(seen.wrong),
        number_of(verdict_of(right)),
        right.place.unwrap_or(c.entries)
    );
}

// Counts a list with a place where it breaks, if there is one.
fn add_list(t: &mut Tally, place: Option<usize>) {
    add(&mut t.lists, 1);
    add_if(&mut t.broken, place.is_some());
    add(&mut t.places, place.unwrap_or(0) as u64);
}

// Counts a verdict.
fn add_verdict(t: &mut Tally, given: Verdict) {
    match given {
        Verdict::False => add(&mut t.falses, 1),
        Verdict::Accepting => add(&mut t.accepting, 1),
        Verdict::Shortest => add(&mut t.shortest, 1),
    }
}

// Counts a grade, and a difference if it is not as it must be; the first difference is printed.
pub fn add_grade(rt: &impl Print, t: &mut Tally, m: Model, c: Claim, seen: Tried, right: Graded) {
    let differs = !is_right(seen, right);
    if differs && t.differences == 0 {
        show(rt, m, c, seen, right);
    }
    if c.k == 0 {
        add_list(t, seen.answer.map_or(None, |given| given.first_break));
    }
    add(&mut t.grades, 1);
    if let Ok(given) = seen.answer {
        add_verdict(t, given.verdict);
    }
    add_if(&mut t.differences, differs);
}

// Prints all counts.
pub fn print(rt: &impl Print, t: &Tally) {
    let _ = print!(rt;
        "all models of 1 and 2 states, every fifth of 3 states, 432 random ones of 4 states\nfiles: {}\n  with an implied step: {}\n  with two mark tables: {}\n  with table 1 named: {}\n  with one bit of the other marks flipped: {}\nlists: {}\n  with a place: {}\n  sum of the places: {}\ngrades: {}\n  false: {}\n  accepting: {}\n  shortest: {}\nlists brought by a search and next, graded shortest: {}\ndifferences {}\n",
        t.files,
        t.implied,
        t.two,
        t.second,
        t.flipped,
        t.lists,
        t.broken,
        t.places,
        t.grades,
        t.falses,
        t.accepting,
        t.shortest,
        t.brought,
        t.differences
    );
}
