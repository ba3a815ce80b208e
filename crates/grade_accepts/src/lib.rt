// Whether a list that breaks nowhere is an accepting path with a claimed k.
#![tactic(auto)]

ghost use Rattle.std.specs.Prelude.{◌≡◌, ◌*◌, ◌≤◌, length, take};
ghost use Rattle.std.proofs.Math.Option.{none};
ghost use Rattle.lists.specs.Lists.{differentb};
ghost use Rattle.lasso.specs.Graph.{edges};
ghost use Rattle.model.specs.Model.{graph_in};
ghost use Rattle.model.specs.Values.{Valid};
ghost use Rattle.paths.specs.Breaks.{first_break, AllBelow};
ghost use Rattle.grade_verdicts.specs.Verdict.{accepts_at};

use lasso::Transitions;
use model::Header;
use paths::loops_at;
use table::{clear, get, put};

// The entries but the last, all of them below n, are all different. A flag for each number below n stands in the table,
// whatever stood there before.
fn all_different(list: &[u16], n: usize, work: &mut [u16]) -> bool
    requires in_bounds { 2 ≤ length list.now }
    requires all_below { AllBelow n list.now }
    requires n_in_bounds { n ≤ length work.old }
    ensures tells { result ≡ differentb (take (edges list.now) list.now) }
    ensures kept { length work.new ≡ length work.old }
{
    clear(work, 0, n);
    let end = list.len() - 1;
    for state in &list[..end] {
        let s = usize::from(*state);
        if get(work, s) != 0 {
            return false;
        }
        put(work, s, 1);
    }
    true
}

// A list that breaks nowhere is an accepting path with that k. A list with no entry after place k is none: k is not below its
// length.
pub fn accepts(file: &[u8], h: Header, list: &[u16], k: u16, work: &mut [u16]) -> bool
    requires valid { Valid file.now h }
    requires states_in_bounds { 6 * h.states ≤ length work.old }
    requires list_value { first_break (graph_in file.now h) list.now ≡ none }
    ensures tells { result ≡ accepts_at (graph_in file.now h) list.now k }
    ensures kept { length work.new ≡ length work.old }
{
    Transitions(k).entries().0 < list.len()
        && get(list, 0) == h.start
        && all_different(list, h.states, work)
        && loops_at(file, h, list, usize::from(k))
}
