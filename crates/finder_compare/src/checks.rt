// The calls on one model: steps from many records and searches with every allowance under a ceiling, next after right
// and wrong lists, and distances.
ghost use Rattle.std.specs.Prelude.{◌≤◌};

use crate::calls;
use crate::tally::{Tally, compare};
use exhaustive::{Earlier, Model, Seen, Truth, drawn, near, random_list, seed_of, tables_for};
use harness::{Answer, add, add_if};

// A working table's length for so many states: one entry too short, or with up to five entries more than needed.
fn room(states: usize, short: bool, more: usize) -> usize
    ensures { result ≤ 48 }
{
    match states {
        1..=7 if short => 6 * states - 1,
        1..=7 => 6 * states + more % 6,
        _ => 0,
    }
}

// The count that stands for a place of a loop: itself, or 65,535 for the last place.
fn count_for(place: usize, end: usize) -> u16 {
    if place < end && place < 65535 {
        place as u16
    } else {
        65535
    }
}

// The best lengths that steps start from: none, 0, 1, the length that the round has under no ceiling, one more (2 if it
// has none), the ceiling, one more (none if there is no such length), and 65,535.
fn best_for(own: Option<u16>, ceiling: u16, which: usize) -> Option<u16> {
    match which {
        0 => None,
        1 => Some(0),
        2 => Some(1),
        3 => own,
        4 => Some(own.map_or(2, |length| length % 65535 + 1)),
        5 => Some(ceiling),
        6 => ceiling.checked_add(1),
        _ => Some(65535),
    }
}

// One step on a model under a ceiling, up to which the exhaustive search found what is passed; the ninth is the one with
// a working table that is too short.
fn check_step(
    t: Truth,
    within: Truth,
    ceiling: u16,
    file: &[u8],
    mark_table: u16,
    done: u16,
    which: usize,
    tally: &mut Tally,
) {
    let short = which == 8;
    let own = exhaustive::round_at(t, done as usize);
    let best = best_for(own, ceiling, which);
    let seen = calls::step(
        file,
        mark_table,
        ceiling,
        done,
        best,
        room(t.states, short, which),
    );
    let expected = exhaustive::of_step(within, done, best, short);
    tally.steps.count(seen);
    compare(tally, seen, expected);
    let above = best.is_some_and(|length| ceiling < length);
    add_if(&mut tally.above, above && !short);
}

// Steps under a ceiling from every count up to one more than the candidates, and from 65,535.
pub fn check_steps(
    t: Truth,
    within: Truth,
    ceiling: u16,
    file: &[u8],
    mark_table: u16,
    tally: &mut Tally,
) {
    let end = exhaustive::rounds(t) + 2;
    for place in 0..end + 1 {
        let done = count_for(place, end);
        for which in 0..9 {
            check_step(t, within, ceiling, file, mark_table, done, which, tally);
        }
    }
}

// The answer tables' lengths: 12 entries, as many as the list needs, one fewer, none.
fn space(t: Truth, which: usize) -> usize
    ensures { result ≤ 16 }
{
    let least = usize::from(t.least.unwrap_or(0));
    if 15 < least {
        return 0;
    }
    match which {
        1 => least + 1,
        2 => least,
        3 => 0,
        _ => 12,
    }
}

// One search on a model under a ceiling, up to which the exhaustive search found what is passed; the fifth is the one
// with a working table that is too short.
fn check_search(
    t: Truth,
    within: Truth,
    roll: &[u64],
    ceiling: u16,
    file: &[u8],
    mark_table: u16,
    allowance: u16,
    which: usize,
    tally: &mut Tally,
) -> Seen {
    let short = which == 4;
    let entries = space(t, which);
    let lent = room(t.states, short, which);
    let seen = calls::search(file, mark_table, ceiling, allowance, entries, lent);
    let expected = exhaustive::of_search(within, roll, allowance, entries, short);
    tally.searches.count(seen);
    compare(tally, seen, expected);
    seen
}

// Searches under a ceiling with every allowance up to one more than the candidates, and with 65,535.
pub fn check_searches(
    t: Truth,
    within: Truth,
    roll: &[u64],
    ceiling: u16,
    file: &[u8],
    mark_table: u16,
    tally: &mut Tally,
) {
    let end = exhaustive::rounds(t) + 2;
    for place in 0..end + 1 {
        let allowance = count_for(place, end);
        for which in 0..5 {
            check_search(
                t, within, roll, ceiling, file, mark_table, allowance, which, tally,
            );
        }
    }
}

// One next; the fifth is the one with a working table that is too short.
fn check_next(
    t: Truth,
    roll: &[u64],
    file: &[u8],
    mark_table: u16,
    e: Earlier,
    which: usize,
    tally: &mut Tally,
) -> Seen
    requires { e.entries ≤ 16 }
{
    let short = which == 4;
    let entries = space(t, which);
    let lent = room(t.states, short, which);
    let seen = calls::next(file, mark_table, e, entries, lent);
    let expected = exhaustive::of_next(t, roll, e.list, e.entries, entries, short);
    tally.nexts.count(seen);
    compare(tally, seen, expected);
    seen
}

// Next after one right list with each of the tables, and after the wrong ones near it.
fn check_list(
    t: Truth,
    roll: &[u64],
    file: &[u8],
    mark_table: u16,
    list: u64,
    entries: usize,
    tally: &mut Tally,
)
    requires { entries ≤ 15 }
{
    for turn in 0..9 * entries + 15 {
        let earlier = near(list, entries, turn);
        let which = tables_for(entries, turn);
        check_next(t, roll, file, mark_table, earlier, which, tally);
    }
}

// Next after each list of the roll, and after the wrong ones near it.
pub fn check_lists(t: Truth, roll: &[u64], file: &[u8], mark_table: u16, tally: &mut Tally) {
    let Some(least @ 0..=14) = t.least else {
        return;
    };
    for list in roll.iter().take(t.lists) {
        check_list(
            t,
            roll,
            file,
            mark_table,
            *list,
            usize::from(least) + 1,
            tally,
        );
    }
}

// Next after the empty list and after pseudo-random ones.
pub fn check_random(
    m: Model,
    t: Truth,
    roll: &[u64],
    file: &[u8],
    mark_table: u16,
    tally: &mut Tally,
) {
    check_next(t, roll, file, mark_table, Earlier::EMPTY, 0, tally);
    let mut x = seed_of(m);
    for turn in 0..6 {
        let earlier = random_list(x, m.start, turn);
        check_next(t, roll, file, mark_table, earlier, 0, tally);
        x = drawn(x);
    }
}

// The list that an answer brought, as a copy; the empty one if a table of 16 entries cannot hold it.
fn copy_of(list: u64, length: u16) -> Earlier
    ensures { result.entries ≤ 16 }
{
    if 15 < length {
        return Earlier::EMPTY;
    }
    Earlier {
        list,
        entries: usize::from(length) + 1,
    }
}

// Whether an answer says that there are no more lists, or none.
fn ends(answer: Answer) -> bool {
    matches!(answer, Answer::NoMore | Answer::NoneWithin { .. })
}

// Counts a list that was received, and a difference if it is not the one at its place of the roll.
fn received(copy: Earlier, right: u64, tally: &mut Tally) {
    add(&mut tally.lists, 1);
    add(&mut tally.entries, copy.entries as u64);
    add_if(&mut tally.differences, copy.list != right);
}

// Counts a difference if the lists ended at another place than the roll, or with another answer than no more or none.
fn ended(lists: usize, answer: Answer, got: usize, tally: &mut Tally) {
    add_if(&mut tally.differences, got != lists);
    add_if(&mut tally.differences, !ends(answer));
}

// A search and then next with the copy last received, until there are no more lists: the whole roll in order, each once.
pub fn check_sequence(t: Truth, roll: &[u64], file: &[u8], mark_table: u16, tally: &mut Tally) {
    let mut s = check_search(t, t, roll, 4096, file, mark_table, 65535, 0, tally);
    for got in 0..1000 {
        let Some((length, _)) = s.tried.answer.list() else {
            ended(t.lists, s.tried.answer, got, tally);
            return;
        };
        let copy = copy_of(s.list, length);
        received(copy, exhaustive::list_at(roll, got), tally);
        s = check_next(t, roll, file, mark_table, copy, 0, tally);
    }
    add(&mut tally.differences, 1);
}

// The ceilings of the distance calls: 0 up to one more than there are states, 4,096, and two that are too high.
fn distance_ceiling(place: usize, states: usize) -> u16
    requires { states ≤ 7 }
{
    if place < states + 2 {
        return place as u16;
    }
    match place - states {
        2 => 4096,
        3 => 4097,
        _ => 65535,
    }
}

// The output's length for so many states: three entries more than needed, as many, or one too few.
fn output_space(states: usize, which: usize) -> usize
    requires { states ≤ 7 }
    ensures { result ≤ 16 }
{
    match which {
        _ if states == 0 => 0,
        1 => states,
        2 => states - 1,
        _ => states + 3,
    }
}

// One distance call; the fourth is the one with a working table that is too short.
fn check_distance(
    m: Model,
    states: usize,
    right: u64,
    file: &[u8],
    ceiling: u16,
    which: usize,
    tally: &mut Tally,
)
    requires { states ≤ 7 }
{
    let short = which == 3;
    let entries = output_space(states, which);
    let seen = calls::distances(file, ceiling, entries, room(states, short, which));
    let expected = exhaustive::of_distances(m, right, ceiling, entries, short);
    tally.distances.count(seen);
    compare(tally, seen, expected);
}

// Distances up to every ceiling.
pub fn check_distances(m: Model, states: usize, file: &[u8], tally: &mut Tally)
    requires { states ≤ 7 }
{
    let right = exhaustive::distances(m);
    for place in 0..states + 5 {
        let ceiling = distance_ceiling(place, states);
        for which in 0..4 {
            check_distance(m, states, right, file, ceiling, which, tally);
        }
    }
}
