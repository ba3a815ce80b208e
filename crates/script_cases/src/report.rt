// Prints the calls of a script: each with its answer, and with the list that it brings.
ghost use Rattle.std.specs.Prelude.{◌≤◌};

use harness::{Filling, entries, entry, first, holds};
use script_commands::{Action, command_size};
use script_player::play;

// The kinds of answer in a log; what is below them is the number of a refusal. They are numbers because the log is a table
// that C reads.
const KINDS_FROM: u16 = 100;

const STOPPED: u16 = 101;

const FOUND: u16 = 102;

const NONE_WITHIN: u16 = 103;

// The entries of the answer table, of the working table and of the log.
const ANSWER: usize = 6;

const WORK: usize = 42;

const LOG: usize = 64;

// Prints what a command asks for.
fn show_command(rt: &impl Print, command: &[u16], action: Action) {
    let table = entry(command, 1);
    let _ = match action {
        Action::Search => {
            let ceiling = entry(command, 2);
            let allowance = entry(command, 3);
            print!(rt; "search by table {table} with ceiling {ceiling} and allowance {allowance}")
        }
        Action::NextOfCopy => print!(rt; "next by table {table} with the copy"),
        Action::NextOfList => {
            let shown = print!(rt; "next by table {table} with");
            entries(rt, command.get(3..).unwrap_or(&[]));
            shown
        }
    };
}

// Prints the answer whose four numbers stand at a place of the log, with the list in the answer table. A search that was
// stopped has a best length as its third figure if the second is not 0; one that finds has one figure more than a next.
fn show_answer(
    rt: &impl Print,
    log: &[u16; LOG],
    place: usize,
    action: Action,
    answer: &[u16; ANSWER],
)
    requires { place ≤ 60 }
{
    let kind = log[place];
    let figure = log[place + 1];
    let second = log[place + 2];
    let third = log[place + 3];
    let _ = match kind {
        _ if kind < KINDS_FROM => print!(rt; ": refused {kind}"),
        STOPPED if second == 0 => print!(rt; ": stopped {figure} none"),
        STOPPED => print!(rt; ": stopped {figure} {third}"),
        FOUND if matches!(action, Action::Search) => print!(rt;
            ": found {figure} {second} {third}, list"
        ),
        FOUND => print!(rt; ": found {figure} {second}, list"),
        NONE_WITHIN => print!(rt; ": none within {figure}"),
        _ => print!(rt; ": no more"),
    };
    if kind == FOUND {
        entries(rt, first(answer, usize::from(figure) + 1));
    }
    let _ = print!(rt; "\n");
}

// Prints what the calls of a script leave in the tables, of which so many entries were lent. A log with entries after the
// last four that a call can have is printed too.
fn show_tables(
    rt: &impl Print,
    answer: &[u16; ANSWER],
    room: usize,
    work: &[u16; WORK],
    log: &[u16; LOG],
    end: usize,
) {
    let _ = print!(rt; "in all: answer table");
    entries(rt, first(answer, room));
    let state = if holds(work, 0, Filling::Zeros) {
        "all zero"
    } else {
        "not all zero"
    };
    let _ = print!(rt; ", working table {state}\n");
    if end % 4 != 0 {
        let _ = print!(rt; "the log:");
        entries(rt, first(log, end));
        let _ = print!(rt; "\n");
    }
}

// Plays a script in tables full of nines, lent so many entries of the answer table and of the log. Prints the answer to the
// last call that the log has room for, if its action is given, or what all calls leave.
fn show_played(
    rt: &impl Print,
    file: &[u8],
    script: &[u16],
    room: usize,
    end: usize,
    action: Option<Action>,
)
    requires { (room ≤ 6) × (end ≤ 64) }
{
    let mut answer = [9u16; ANSWER];
    let mut work = [9u16; WORK];
    let mut log = [9u16; LOG];
    let lent = &mut answer[..room];
    play(file, script, lent, &mut work, &mut log[..end]);
    match (action, end.checked_sub(4)) {
        (Some(action), Some(place)) => show_answer(rt, &log, place, action, &answer),
        _ => show_tables(rt, &answer, room, &work, &log, end),
    }
}

// Prints the calls of a script. It is played anew up to each call, so that the answer table holds the list that the call
// brings.
fn show_calls(rt: &impl Print, file: &[u8], script: &[u16], room: usize, end: usize)
    requires { (room ≤ 6) × (end ≤ 64) }
{
    let mut left = script;
    for call in 0..end / 4 {
        let action = Action::of(entry(left, 0));
        let Some((size, asked)) = command_size(left).zip(action) else {
            return;
        };
        let (command, rest) = left.split_at(size);
        show_command(rt, command, asked);
        show_played(rt, file, script, room, 4 * call + 4, action);
        left = rest;
    }
}

// Prints the calls of a script, lent so many entries of the answer table and of the log, and what all of them leave in the
// tables.
pub fn show(rt: &impl Print, file: &[u8], script: &[u16], room: usize, end: usize)
    requires { (room ≤ 6) × (end ≤ 64) }
{
    show_calls(rt, file, script, room, end);
    show_played(rt, file, script, room, end, None);
}
