// A next in C, but for its name there: the answer goes as numbers.
#![tactic(auto)]

ghost use Rattle.std.specs.Prelude.{◌≡◌};
ghost use Rattle.figures.specs.Kinds.{figures_in};
ghost use Rattle.figures.specs.Short.{work_after_call};
ghost use Rattle.capi_next.specs.Call.{next_call, answer_after_next};

use answers::report_next;
use figures::{Kind, too_few};
use next::next;

// The shortest accepting path that follows an earlier one, written to the answer table.
pub fn next_call(
    file: &[u8],
    mark_table: u16,
    earlier: &[u16],
    answer: &mut [u16],
    work: &mut [u16],
    out: &mut [u16],
) -> u16
    ensures value { result ≡ (next_call file.now mark_table earlier.now
        answer.old work.old out.old).kind }
    ensures out { out.new ≡ figures_in out.old (next_call file.now mark_table
        earlier.now answer.old work.old out.old) }
    ensures answer { answer.new ≡ answer_after_next file.now mark_table earlier.now
        answer.old work.old out.old }
    ensures work { work.new ≡ work_after_call file.now mark_table work.old
        out.old }
{
    if too_few(out.len()) {
        return Kind::OutTooShort.into();
    }
    let followed = next(file, mark_table, earlier, answer, work);
    report_next(followed, out)
}
