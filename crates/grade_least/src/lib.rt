// Whether a list has the least length of an accepting path.
#![tactic(auto)]

ghost use Rattle.std.specs.Prelude.{◌≡◌, ◌*◌, ◌≤◌, length};
ghost use Rattle.lasso.specs.Graph.{edges};
ghost use Rattle.lasso.specs.Roll.{least_length};
ghost use Rattle.model.specs.Model.{graph_in};
ghost use Rattle.model.specs.Values.{Valid};
ghost use Rattle.grade_verdicts.specs.Verdict.{leastb};

use begun::all_rounds;
use model::Header;

// The list has the least length of an accepting path: all rounds are done.
pub fn is_least(file: &[u8], h: Header, list: &[u16], work: &mut [u16]) -> bool
    requires valid { Valid file.now h }
    requires states_in_bounds { 6 * h.states ≤ length work.old }
    requires in_bounds { 2 ≤ length list.now }
    ensures tells { result ≡ leastb (least_length (graph_in file.now h)) (edges list.now) }
    ensures kept { length work.new ≡ length work.old }
{
    all_rounds(file, h, work)
        .length
        .is_some_and(|least| list.len() == least.entries().0)
}
