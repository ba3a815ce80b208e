// The calls of the library, each with tables of its own.
ghost use Rattle.std.specs.Prelude.{◌≤◌};

use grade_independent::{Claim, entry};
use grade_trials::Tried;
use harness::{Answer, first};

// A table for a list.
pub type Table = [u16; 8];

// The list in a table.
fn table_of(c: Claim) -> Table {
    let mut table = [0u16; 8];
    for (place, at) in table.iter_mut().enumerate() {
        *at = entry(c.list, c.entries, place) as u16;
    }
    table
}

// A grade of a list with a claimed k by the marks of a table, with room for so many entries in the working table.
pub fn grade(file: &[u8], mark_table: u16, c: Claim, room: usize) -> Tried
    requires { room ≤ 48 }
{
    let table = table_of(c);
    let mut work = [0u16; 48];
    let k = (c.k % 65536) as u16;
    let list = first(&table, c.entries);
    grade_trials::grade(file, mark_table, list, k, &mut work[..room])
}

// A search by the marks of a table, with room for so many entries in the working table.
pub fn search(file: &[u8], mark_table: u16, table: &mut Table, room: usize) -> Answer
    requires { room ≤ 48 }
{
    let mut work = [0u16; 48];
    finder_trials::search(file, mark_table, 4096, 65535, table, &mut work[..room]).answer
}

// Next after the list in the table, which an answer brought.
pub fn next(file: &[u8], mark_table: u16, before: Answer, table: &mut Table, room: usize) -> Answer
    requires { room ≤ 48 }
{
    let earlier = *table;
    let mut work = [0u16; 48];
    let list = first(&earlier, before.written());
    finder_trials::next(file, mark_table, list, table, &mut work[..room]).answer
}

// The grade of the list in the table, with the k of the answer that brought it.
pub fn grade_found(
    file: &[u8],
    mark_table: u16,
    before: Answer,
    k: u16,
    table: &Table,
    room: usize,
) -> Tried
    requires { room ≤ 48 }
{
    let mut work = [0u16; 48];
    let list = first(table, before.written());
    grade_trials::grade(file, mark_table, list, k, &mut work[..room])
}
