// How far a round looks: the one place where the ceiling of a search or a step acts.
#![tactic(auto)]

ghost use Rattle.std.specs.Prelude.{◌≡◌, min};
ghost use Rattle.std.proofs.Math.Option.{some};
ghost use Rattle.lists.specs.Least.{lesser};
ghost use Rattle.lasso.specs.Rounds.{best_length};
ghost use Rattle.lasso.specs.Values.{record_of};

use lasso::{RoundRecord, Transitions};

// The greatest length that a round needs to find: none above the ceiling counts, no accepting path is longer than the
// number of states, and none that is longer than the best so far counts. No other function of the rounds acts on the ceiling.
pub fn limit_of(so_far: RoundRecord, n: usize, ceiling: Transitions) -> usize
    ensures { lesser (best_length (record_of so_far)) (some (min n ceiling.0)) ≡ some result }
{
    let bound = n.min(ceiling.number());
    match so_far.best {
        None => bound,
        Some(length) => length.number().min(bound),
    }
}
