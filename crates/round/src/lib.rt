// One round. Region 0 of the working table holds the distances from the start throughout.
#![tactic(auto)]

ghost use Rattle.std.specs.Prelude.{◌≡◌, suc, ◌+◌, ◌*◌, ◌≤◌, ◌<◌, length};
ghost use Rattle.lists.specs.Least.{sum};
ghost use Rattle.lasso.specs.Rounds.{round_length};
ghost use Rattle.lasso.specs.Values.{length_of};
ghost use Rattle.model.specs.Model.{graph_in};
ghost use Rattle.table.specs.Changes.{SameOutside};
ghost use Rattle.frontier.specs.Regions.{entry_of, value_of};
ghost use Rattle.lists.specs.Limit.{under};
ghost use Rattle.candidates.specs.Promises.{RoundsReady};
ghost use Rattle.round.specs.Promises.{SumsFit, SumsPut};

use edge_search::SpreadAnswer;
use lasso::Transitions;
use model::Header;
use spread::spread;
use table::{get, put};
use walks::distances_from;

// The entry for the sum of what two entries stand for: nothing if one of them stands for nothing.
fn sum_entry(a: usize, b: usize) -> usize
    requires { a + b ≤ 65536 }
    ensures value { result ≡ entry_of (sum (value_of a) (value_of b)) }
    ensures small { result < 65536 }
{
    if a == 0 || b == 0 {
        return 0;
    }
    a + b - 1
}

// Adds the distances from the start to those in region 2, where there are both; elsewhere region 2 becomes nothing.
fn add_start_distances(work: &mut [u16], n: usize)
    requires n_in_bounds { 3 * n ≤ length work.old }
    requires sums_fit { SumsFit n work.old }
    ensures sums { SumsPut n n work.old work.new }
    ensures same { SameOutside (2 * n) (3 * n) work.old work.new }
{
    for s in 0..n {
        let from_start = get(work, s);
        let level = get(work, 2 * n + s);
        let both = sum_entry(from_start, level);
        put(work, 2 * n + s, both);
    }
}

// One round, for candidate r: its length, if it is at most the limit.
pub fn round(
    file: &[u8],
    h: Header,
    work: &mut [u16],
    r: usize,
    limit: usize,
) -> Option<Transitions>
    requires rounds_ready { RoundsReady file.now h work.old }
    requires r_lt_states { r < h.states }
    requires limit_le_states { limit ≤ h.states }
    ensures result_value { length_of result ≡ under (suc limit) (round_length (graph_in file.now h) r) }
    ensures same { SameOutside (2 * h.states) (6 * h.states) work.old work.new }
{
    if limit == 0 {
        return None;
    }
    let n = h.states;
    distances_from(file, h, work, r, limit);
    add_start_distances(work, n);
    let answer = spread(file, h, work, limit, r);
    match answer {
        SpreadAnswer::Length(length) => Some(Transitions(length as u16)),
        SpreadAnswer::Nothing(_) => None,
    }
}
