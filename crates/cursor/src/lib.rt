// The way through the roll on one working table, once all rounds are done: the first list or a given one, then list after
// list. Search, next and the sheet all go this way.
#![tactic(auto)]

ghost use Rattle.std.specs.Prelude.{◌≡◌, ◌≤◌, length, drop};
ghost use mathlib.Core.List.{Memᴰ, ◌++◌};
ghost use Rattle.std.proofs.Math.Option.{some};
ghost use Rattle.std.proofs.Math.ListN;
ghost use Rattle.lasso.specs.Graph.{edges};
ghost use Rattle.lasso.specs.Roll.{least_length, roll};
ghost use Rattle.model.specs.Model.{graph_in};
ghost use Rattle.candidates.specs.Promises.{RoundsReady};
ghost use Rattle.cursor.specs.Cursor.{At, Placed, PlacedAt, MovedOn};

pub use current::write_list;
use lasso::Transitions;
use listing::first;
use model::Header;
use stems::prepare;
use table::{get, put};

// Goes to the first list of the roll.
pub fn to_first(file: &[u8], h: Header, transitions: Transitions, work: &mut [u16])
    requires rounds_ready { RoundsReady file.now h work.old }
    requires h_value { least_length (graph_in file.now h) ≡ some transitions.0 }
    ensures at { At file.now h transitions.0 0 work.new }
    ensures kept { length work.new ≡ length work.old }
{
    prepare(file, h, work, transitions);
    first(file, h, work, transitions);
}

// Puts the list's entries from place 1 on into region 0.
fn load(list: &[u16], work: &mut [u16])
    requires in_bounds { 1 ≤ length list.now }
    requires list_in_bounds { edges list.now ≤ length work.old }
    ensures { work.new
        ≡ drop 1 list.now ++ drop (edges list.now) work.old }
{
    // Entry by entry: with the library's copy of a slice the archive for C would need `memmove` from outside.
    for j in 1..list.len() {
        let s = get(list, j);
        put(work, j - 1, s);
    }
}

// Goes to a given list of the roll.
pub fn to_list(file: &[u8], h: Header, transitions: Transitions, list: &[u16], work: &mut [u16])
    requires rounds_ready { RoundsReady file.now h work.old }
    requires h_value { least_length (graph_in file.now h) ≡ some transitions.0 }
    requires fact { Memᴰ list.now (roll (graph_in file.now h)) }
    ensures at { PlacedAt file.now h transitions.0 list.now work.new }
    ensures kept { length work.new ≡ length work.old }
{
    prepare(file, h, work, transitions);
    load(list, work);
}

// Goes to the next list of the roll, and answers true; or answers false if there is none.
pub fn to_next(file: &[u8], h: Header, transitions: Transitions, work: &mut [u16]) -> bool
    requires { Placed file.now h transitions.0 work.old }
    ensures moved { MovedOn file.now h transitions.0 work.old work.new result }
    ensures kept { length work.new ≡ length work.old }
{
    listing::advance(file, h, work, transitions)
}
