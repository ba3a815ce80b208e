// A search in C, but for its name there: what is asked comes as numbers, and the answer goes as numbers.
#![tactic(auto)]

ghost use Rattle.std.specs.Prelude.{◌≡◌};
ghost use Rattle.gate.specs.Gate.{asking};
ghost use Rattle.figures.specs.Kinds.{figures_in};
ghost use Rattle.figures.specs.Short.{work_after_call};
ghost use Rattle.capi_search.specs.Call.{search_call, answer_after_search};

use answers::report_search;
use figures::{Kind, too_few};
use gate::Ask;
use lasso::Transitions;
use search::search;

// The first of the shortest accepting paths, written to the answer table if it is not longer than the ceiling.
pub fn search_call(
    file: &[u8],
    mark_table: u16,
    ceiling: u16,
    allowance: u16,
    answer: &mut [u16],
    work: &mut [u16],
    out: &mut [u16],
) -> u16
    ensures value { result ≡ (search_call file.now (asking mark_table ceiling allowance)
        answer.old work.old out.old).kind }
    ensures out { out.new ≡ figures_in out.old
        (search_call file.now (asking mark_table ceiling allowance)
        answer.old work.old out.old) }
    ensures answer { answer.new ≡ answer_after_search file.now (asking mark_table ceiling allowance)
        answer.old work.old out.old }
    ensures work { work.new ≡ work_after_call file.now mark_table work.old
        out.old }
{
    if too_few(out.len()) {
        return Kind::OutTooShort.into();
    }
    let ask = Ask {
        table: mark_table,
        ceiling: Transitions(ceiling),
        allowance,
    };
    let searched = search(file, ask, answer, work);
    report_search(searched, out)
}
