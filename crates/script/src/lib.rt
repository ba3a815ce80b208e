// The call that a command of a script asks for, made and logged.
#![tactic(auto)]

ghost use Rattle.std.specs.Prelude.{◌≡◌, false, ◌+◌, ◌≤◌, length};
ghost use Rattle.script_call.specs.Log.{Made};
ghost use Rattle.script_commands.specs.Commands.{overb};
ghost use Rattle.script.specs.Asked.{call_of};

use gate::Ask;
use lasso::Transitions;
use script_call::{play_next, play_search};
use script_commands::{Action, number_at};

// The call that the first command of a script asks for.
pub fn play_one(
    file: &[u8],
    script: &[u16],
    copy: &[u16],
    answer: &mut [u16],
    work: &mut [u16],
    log: &mut [u16],
    place: usize,
) -> usize
    requires script_value { overb script.now ≡ false }
    requires place_in_bounds { place + 4 ≤ length log.old }
    ensures { Made file.now
        (call_of script.now copy.now answer.old work.old)
        place log.old answer.new work.new log.new result }
{
    // A script that is not over has no unknown action.
    let action = Action::of(number_at(script, 0)).unwrap_or(Action::NextOfList);
    let mark_table = number_at(script, 1);
    let third = number_at(script, 2);
    match action {
        Action::Search => {
            let allowance = number_at(script, 3);
            let ask = Ask {
                table: mark_table,
                ceiling: Transitions(third),
                allowance,
            };
            play_search(file, ask, answer, work, log, place)
        }
        Action::NextOfCopy => play_next(file, mark_table, copy, answer, work, log, place),
        Action::NextOfList => {
            let end = 3 + third as usize;
            play_next(file, mark_table, &script[3..end], answer, work, log, place)
        }
    }
}
