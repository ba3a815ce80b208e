// A step, a search, next and the distances on a file, each with tables of its own, and their answers in print.
ghost use Rattle.std.specs.Prelude.{◌≤◌};

use finder_trials::wrong_answer;
use harness::{Filling, Tried, entries, fill, first, wrong_work};

// What a case says in numbers: the least and the greatest size of the file that is lent, the mark table that step, search
// and next name, the ceiling, the best length that a step starts from, the search's allowance, the entries of the answer
// table, which is also the output for the distances, and of the working table that are lent; and whether the answers are
// printed.
#[derive(Clone, Copy)]
pub struct CaseNumbers {
    pub from: usize,
    pub size: usize,
    pub mark_table: u16,
    pub ceiling: u16,
    pub best: Option<u16>,
    pub allowance: u16,
    pub room: usize,
    pub entries: usize,
    pub shown: bool,
}

// Prints a call with its answer, and at most eight of the entries that it wrote to its table.
fn show(rt: &impl Print, call: &str, tried: Tried, table: &[u16]) {
    let _ = print!(rt; "{call} {}", tried.answer);
    entries(rt, first(table, tried.answer.written().min(8)));
}

// Prints a call with its answer if that is asked for.
fn told(rt: &impl Print, call: &str, tried: Tried, table: &[u16], shown: bool) -> Tried {
    if shown {
        show(rt, call, tried, table);
    }
    tried
}

// A step from the record before the first round, with a best length.
fn step(rt: &impl Print, file: &[u8], f: CaseNumbers) -> Tried
    requires { f.entries ≤ 24576 }
{
    let mut work = [0u16; 24576];
    let lent = &mut work[..f.entries];
    let tried = finder_trials::step(file, f.mark_table, f.ceiling, 0, f.best, lent);
    told(rt, " step", tried, &work, f.shown)
}

// A search.
fn search(rt: &impl Print, file: &[u8], f: CaseNumbers) -> Tried
    requires { (f.room ≤ 4097) × (f.entries ≤ 24576) }
{
    let mut answer = [0u16; 4097];
    let mut work = [0u16; 24576];
    let tried = finder_trials::search(
        file,
        f.mark_table,
        f.ceiling,
        f.allowance,
        &mut answer[..f.room],
        &mut work[..f.entries],
    );
    told(rt, ", search", tried, &answer, f.shown)
}

// A call of next.
fn next(rt: &impl Print, file: &[u8], earlier: &[u16], f: CaseNumbers) -> Tried
    requires { (f.room ≤ 4097) × (f.entries ≤ 24576) }
{
    let mut answer = [0u16; 4097];
    let mut work = [0u16; 24576];
    let tried = finder_trials::next(
        file,
        f.mark_table,
        earlier,
        &mut answer[..f.room],
        &mut work[..f.entries],
    );
    told(rt, ", next", tried, &answer, f.shown)
}

// The distances.
fn distances(rt: &impl Print, file: &[u8], f: CaseNumbers) -> Tried
    requires { (f.room ≤ 4097) × (f.entries ≤ 24576) }
{
    let mut output = [0u16; 4097];
    let mut work = [0u16; 24576];
    let tried = finder_trials::distances(
        file,
        f.ceiling,
        &mut output[..f.room],
        &mut work[..f.entries],
    );
    told(rt, ", distances", tried, &output, f.shown)
}

// The four calls: the step, the search, next and the distances.
pub fn try_all(rt: &impl Print, file: &[u8], earlier: &[u16], f: CaseNumbers) -> [Tried; 4]
    requires { (f.room ≤ 4097) × (f.entries ≤ 24576) }
{
    [
        step(rt, file, f),
        search(rt, file, f),
        next(rt, file, earlier, f),
        distances(rt, file, f),
    ]
}

// Looks at four tables that are spoilt on purpose and at one that is right; answers how many count as wrong.
pub fn spoilt() -> u8 {
    let mut table = [0u16; 8];
    fill(&mut table, Filling::Varied);
    let work = u8::from(wrong_work(&table, 13)) + u8::from(wrong_work(&table, 22));
    table[5] = 0;
    work + u8::from(wrong_work(&table, 12))
        + u8::from(wrong_answer(&table, 5))
        + u8::from(wrong_answer(&table, 6))
}
