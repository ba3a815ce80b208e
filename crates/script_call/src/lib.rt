// One call, made and logged: its answer goes to the log as four numbers, and the entries received are counted.
#![tactic(auto)]

ghost use Rattle.std.specs.Prelude.{◌≡◌, ◌∷◌, ◌++◌, ◌+◌, ◌≤◌, length, take, drop};
ghost use Rattle.search.specs.Search.{search_outcome_of};
ghost use Rattle.next.specs.Next.{next_outcome_of};
ghost use Rattle.sequence.specs.Calls.{of_search, of_next, found_length};
ghost use Rattle.script_call.specs.Log.{entries_of, Made};

use answers::{report_next, report_search};
use gate::Ask;
use next::{NextList, next};
use numbers::Reason;
use search::{SearchAnswer, search};

// Writes the four numbers of a call.
fn put_row(log: &mut [u16], place: usize, kind: u16, figures: &[u16])
    requires figures_len { length figures.now ≡ 3 }
    requires place_in_bounds { place + 4 ≤ length log.old }
    ensures { log.new ≡ take place log.old ++ (kind ∷ figures.now)
        ++ drop (place + 4) log.old }
{
    log[place] = kind;
    log[place + 1..place + 4].copy_from_slice(figures);
}

// The entries of the list that a search brings.
fn search_entries(answer: Result<SearchAnswer, Reason>) -> usize
    ensures { result ≡ entries_of (found_length (of_search (search_outcome_of answer))) }
{
    match answer {
        Ok(SearchAnswer::Found(transitions, _, _)) => transitions.entries().0,
        _ => 0,
    }
}

// The entries of the list that a next brings.
fn next_entries(answer: Result<Option<NextList>, Reason>) -> usize
    ensures { result ≡ entries_of (found_length (of_next (next_outcome_of answer))) }
{
    match answer {
        Ok(Some(list)) => list.length.entries().0,
        _ => 0,
    }
}

// A search, with its numbers put into the log.
pub fn play_search(
    file: &[u8],
    ask: Ask,
    answer: &mut [u16],
    work: &mut [u16],
    log: &mut [u16],
    place: usize,
) -> usize
    requires { place + 4 ≤ length log.old }
    ensures { Made file.now
        (Rattle.sequence.specs.Calls.search ask answer.old work.old)
        place log.old answer.new work.new log.new result }
{
    let mut figures = [0u16; 3];
    let result = search(file, ask, answer, work);
    let kind = report_search(result, &mut figures);
    put_row(log, place, kind, &figures);
    search_entries(result)
}

// A next, with its numbers put into the log.
pub fn play_next(
    file: &[u8],
    mark_table: u16,
    earlier: &[u16],
    answer: &mut [u16],
    work: &mut [u16],
    log: &mut [u16],
    place: usize,
) -> usize
    requires { place + 4 ≤ length log.old }
    ensures { Made file.now
        (Rattle.sequence.specs.Calls.next mark_table earlier.now answer.old work.old)
        place log.old answer.new work.new log.new result }
{
    let mut figures = [0u16; 3];
    let result = next(file, mark_table, earlier, answer, work);
    let kind = report_next(result, &mut figures);
    put_row(log, place, kind, &figures);
    next_entries(result)
}
