// The distances from the start, in region 0 of the working table, and the candidates.
#![tactic(auto)]

ghost use Rattle.std.specs.Prelude.{◌≡◌, ◌*◌, ◌≤◌, ◌<◌, length, get_or};
ghost use Rattle.lasso.specs.Rounds.{candidateb, candidates};
ghost use Rattle.model.specs.Values.{Valid};
ghost use Rattle.model.specs.Model.{graph_in};
ghost use Rattle.candidates.specs.Promises.{StartDistancesPut, RoundsReady};

use model::{Header, is_marked};
use table::{copy, get};
use walks::distances_from;

// Puts the distances from the start into region 0.
pub fn start_distances(file: &[u8], h: Header, work: &mut [u16])
    requires valid { Valid file.now h }
    requires states_in_bounds { 6 * h.states ≤ length work.old }
    ensures { StartDistancesPut (graph_in file.now h) work.old work.new }
{
    let n = h.states;
    distances_from(file, h, work, h.start, n);
    copy(work, 2 * n, 0, n);
}

// The state is a candidate: marked, and reached from the start.
pub fn is_candidate(file: &[u8], h: Header, work: &[u16], s: usize) -> bool
    requires rounds_ready { RoundsReady file.now h work.now }
    requires s_lt_states { s < h.states }
    ensures { result ≡ candidateb (graph_in file.now h) s }
{
    get(work, s) != 0 && is_marked(file, h, s)
}

// The number of candidates.
pub fn count_candidates(file: &[u8], h: Header, work: &[u16]) -> usize
    requires { RoundsReady file.now h work.now }
    ensures { result ≡ length (candidates (graph_in file.now h)) }
{
    let n = h.states;
    let mut count = 0;
    for s in 0..n {
        if is_candidate(file, h, work, s) {
            count += 1;
        }
    }
    count
}

// The candidate at a place, the first having place 0.
pub fn candidate_at(file: &[u8], h: Header, work: &[u16], place: usize) -> usize
    requires rounds_ready { RoundsReady file.now h work.now }
    requires place_in_bounds { place < length (candidates (graph_in file.now h)) }
    ensures { result ≡ get_or (candidates (graph_in file.now h)) place 0 }
{
    let mut before: usize = 0;
    for s in 0..h.states {
        if is_candidate(file, h, work, s) {
            if before == place {
                return s;
            }
            before += 1;
        }
    }
    unreachable!()
}
