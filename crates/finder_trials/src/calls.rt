// The calls, each with tables that are filled before it and looked at after it.
use crate::answer::{of_distances, of_next, of_search, of_step};
use crate::look::{seen, seen_work};
use gate::Ask;
use harness::{Best, Filling, Tried, fill};
use lasso::{RoundRecord, Transitions};

// A step by the marks of a table, under a ceiling and from a record, lent a working table.
pub fn step<B: Into<Best>>(
    file: &[u8],
    mark_table: u16,
    ceiling: u16,
    done: u16,
    best: B,
    work: &mut [u16],
) -> Tried {
    fill(work, Filling::Varied);
    let Best(best) = best.into();
    let so_far = RoundRecord {
        done,
        best: best.map(Transitions),
    };
    let given = step::step(file, mark_table, Transitions(ceiling), so_far, work);
    seen_work(of_step(given), work)
}

// A search by the marks of a table and under a ceiling, lent an answer table and a working table.
pub fn search(
    file: &[u8],
    mark_table: u16,
    ceiling: u16,
    allowance: u16,
    table: &mut [u16],
    work: &mut [u16],
) -> Tried {
    fill(table, Filling::Varied);
    fill(work, Filling::Varied);
    let ask = Ask {
        table: mark_table,
        ceiling: Transitions(ceiling),
        allowance,
    };
    let given = search::search(file, ask, table, work);
    seen(of_search(given), table, work)
}

// Next by the marks of a table, with an earlier list, lent an answer table and a working table.
pub fn next(
    file: &[u8],
    mark_table: u16,
    earlier: &[u16],
    table: &mut [u16],
    work: &mut [u16],
) -> Tried {
    fill(table, Filling::Varied);
    fill(work, Filling::Varied);
    let given = next::next(file, mark_table, earlier, table, work);
    seen(of_next(given), table, work)
}

// The distances up to a ceiling, lent an output and a working table.
pub fn distances(file: &[u8], ceiling: u16, output: &mut [u16], work: &mut [u16]) -> Tried {
    fill(output, Filling::Varied);
    fill(work, Filling::Varied);
    let given = distances::distances(file, Transitions(ceiling), output, work);
    seen(of_distances(given, output), output, work)
}
