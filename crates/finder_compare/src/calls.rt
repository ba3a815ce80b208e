// The calls of the library, each with tables of its own, and the list that it wrote.
ghost use Rattle.std.specs.Prelude.{◌≤◌};

use crate::tables::{list_in, put_list};
use exhaustive::{Earlier, Seen};
use harness::Tried;

// A call with what it answered, and the list that it wrote to a table.
fn seen(tried: Tried, table: &[u16]) -> Seen {
    Seen {
        tried,
        list: list_in(table, tried.answer.written()),
    }
}

// A step by the marks of a table, under a ceiling and from a record, with room for so many entries in the working table.
pub fn step(
    file: &[u8],
    mark_table: u16,
    ceiling: u16,
    done: u16,
    best: Option<u16>,
    room: usize,
) -> Seen
    requires { room ≤ 48 }
{
    let mut work = [0u16; 48];
    let tried = finder_trials::step(file, mark_table, ceiling, done, best, &mut work[..room]);
    seen(tried, &[])
}

// A search by the marks of a table and under a ceiling, with room for so many entries in the answer table and in the
// working table.
pub fn search(
    file: &[u8],
    mark_table: u16,
    ceiling: u16,
    allowance: u16,
    space: usize,
    room: usize,
) -> Seen
    requires space_bound { space ≤ 16 }
    requires room_bound { room ≤ 48 }
{
    let mut table = [0u16; 16];
    let mut work = [0u16; 48];
    let tried = finder_trials::search(
        file,
        mark_table,
        ceiling,
        allowance,
        &mut table[..space],
        &mut work[..room],
    );
    seen(tried, &table)
}

// Next by the marks of a table, with an earlier list, and with room for so many entries in the other tables.
pub fn next(file: &[u8], mark_table: u16, e: Earlier, space: usize, room: usize) -> Seen
    requires entries_bound { e.entries ≤ 16 }
    requires space_bound { space ≤ 16 }
    requires room_bound { room ≤ 48 }
{
    let mut lent = [0u16; 16];
    let mut table = [0u16; 16];
    let mut work = [0u16; 48];
    let earlier = &mut lent[..e.entries];
    put_list(earlier, e.list);
    let tried = finder_trials::next(
        file,
        mark_table,
        earlier,
        &mut table[..space],
        &mut work[..room],
    );
    seen(tried, &table)
}

// The distances up to a ceiling, with room for so many entries in the output and in the working table.
pub fn distances(file: &[u8], ceiling: u16, space: usize, room: usize) -> Seen
    requires space_bound { space ≤ 16 }
    requires room_bound { room ≤ 48 }
{
    let mut output = [0u16; 16];
    let mut work = [0u16; 48];
    let tried = finder_trials::distances(file, ceiling, &mut output[..space], &mut work[..room]);
    seen(tried, &output)
}
