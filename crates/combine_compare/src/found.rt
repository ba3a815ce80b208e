// The search of a file that a combination wrote, against the exhaustive search of the model of all pairs.
ghost use Rattle.std.specs.Prelude.{◌≤◌};

use exhaustive::{Model, Seen, digit};
use harness::{Answer, first};

// What a search answered, and whether it must answer that.
#[derive(Clone, Copy)]
pub struct Searched {
    pub answer: Answer,
    pub right: bool,
}

// Whether a table begins with a list of so many entries.
fn begins_with(table: &[u16], list: u64, count: usize) -> bool {
    first(table, count)
        .iter()
        .rev()
        .enumerate()
        .all(|(place, entry)| usize::from(*entry) == digit(list, place))
}

// What a search of a model must answer, with an allowance and an answer table that are large enough.
fn right(m: Model) -> Seen {
    let mut roll = [0u64; 64];
    let t = exhaustive::explore(m, 4096, &mut roll);
    exhaustive::of_search(t, &roll, 65535, 16, false)
}

// The search of the file of a model, by mark table 0.
pub fn search(m: Model, file: &[u8]) -> Searched
    requires { m.states ≤ 7 }
{
    let mut table = [0u16; 16];
    let mut work = [0u16; 48];
    let lent = &mut work[..6 * m.states];
    let tried = finder_trials::search(file, 0, 4096, 65535, &mut table, lent);
    let expected = right(m);
    let listed = begins_with(&table, expected.list, tried.answer.written());
    Searched {
        answer: tried.answer,
        right: tried == expected.tried && listed,
    }
}
