// Which states stand on the stem of a shortest lasso. Region 1 of the working table holds twice the distance plus 2 for
// each of them, and 1 more for a state that can start the loop.
#![tactic(auto)]

ghost use Rattle.std.specs.Prelude.{◌≡◌, ◌*◌, ◌≤◌, length};
ghost use Rattle.std.proofs.Math.Option.{some};
ghost use Rattle.numbers.specs.Limits.{most_states};
ghost use Rattle.lasso.specs.Roll.{least_length};
ghost use Rattle.model.specs.Model.{graph_in};
ghost use Rattle.table.specs.Changes.{SameOutside};
ghost use Rattle.candidates.specs.Promises.{RoundsReady};
ghost use Rattle.stems.specs.Stems.{StemEntries, LevelsFit, StemsPut};

use lasso::Transitions;
use model::Header;
use starts::prepare_starts;
use table::{copy, get, put};
use walks::distances_from;
use ways::keep_ways;

// Puts the entries of the stems into region 1: twice the level of region 2, and 1 more for a loop start.
fn put_stems(work: &mut [u16], n: usize)
    requires n_le_most_states { n ≤ most_states }
    requires n_in_bounds { 3 * n ≤ length work.old }
    requires levels_fit { LevelsFit n work.old }
    ensures { StemsPut n n work.old work.new }
{
    for s in 0..n {
        let level = get(work, 2 * n + s);
        let one = usize::from(get(work, n + s) != 0);
        put(work, n + s, 2 * level + one);
    }
}

// Puts the stems into region 1: the loop starts are the ends of ways back over the distances from the start.
pub fn prepare(file: &[u8], h: Header, work: &mut [u16], transitions: Transitions)
    requires rounds_ready { RoundsReady file.now h work.old }
    requires h_value { least_length (graph_in file.now h) ≡ some transitions.0 }
    ensures stem_entries { StemEntries (graph_in file.now h) transitions.0 work.new }
    ensures same { SameOutside h.states (6 * h.states) work.old work.new }
{
    prepare_starts(file, h, work, transitions);
    let n = h.states;
    let start = h.start;
    let limit = transitions.number();
    let count = distances_from(file, h, work, start, limit);
    copy(work, n, 4 * n, n);
    keep_ways(file, h, work, count);
    put_stems(work, n);
}
