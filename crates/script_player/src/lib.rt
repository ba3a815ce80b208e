// Plays a sequence of searches and next calls from a script of numbers, and logs each call's answer as four numbers.
#![tactic(auto)]

ghost use Rattle.std.specs.Prelude.{◌≡◌, length};
ghost use Rattle.script_player.specs.Played.{played, results};
ghost use Rattle.script_player.specs.Log.{log_after_all, answer_after_all, work_after_all, BookPlayed};

mod copying;

use copying::receive;
use numbers::limit;
use script::play_one;
use script_commands::command_size;

// Plays the calls of a script, as many as the log has room for, and answers their number. A next is lent the copy last
// received or the list that the script gives; the copy is kept here.
pub fn play(
    file: &[u8],
    script: &[u16],
    answer: &mut [u16],
    work: &mut [u16],
    log: &mut [u16],
) -> usize
    ensures calls { result ≡ length (played file.now script.now
        answer.old work.old log.old) }
    ensures log { log.new ≡ log_after_all log.old (results file.now
        script.now answer.old work.old log.old) }
    ensures answer { answer.new ≡ answer_after_all answer.old (results file.now
        script.now answer.old work.old log.old) }
    ensures work { work.new ≡ work_after_all work.old (results file.now
        script.now answer.old work.old log.old) }
    ensures book { BookPlayed file.now script.now
        answer.old work.old log.old log.new }
{
    let room = log.len() / 4;
    // A buffer with a length beside it: the copy is kept without a heap.
    let mut copy = [0u16; limit::ANSWER_ENTRIES];
    let mut held = 0;
    let mut at = 0;
    for calls in 0..room {
        let Some(size) = command_size(&script[at..]) else {
            return calls;
        };
        let got = play_one(
            file,
            &script[at..],
            &copy[..held],
            answer,
            work,
            log,
            4 * calls,
        );
        held = receive(answer, got, &mut copy, held);
        at += size;
    }
    room
}
