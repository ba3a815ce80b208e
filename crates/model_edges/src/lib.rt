// Whether a model file has an edge: it is looked for in the row of its source.
#![tactic(auto)]

ghost use Rattle.std.specs.Prelude.{◌≡◌, ◌<◌};
ghost use Rattle.lasso.specs.Graph.{edgeb};
ghost use Rattle.model.specs.Model.{graph_in};
ghost use Rattle.model.specs.Values.{Valid};

use model::{Header, successors_of};

// There is an edge from s to t. Successors ascend, so t is looked for in the middle of the places where it can stand, which
// halves them: it stands at none after place t.
pub fn has_edge(file: &[u8], h: Header, s: usize, t: usize) -> bool
    requires valid { Valid file.now h }
    requires s_lt_states { s < h.states }
    ensures { result ≡ edgeb (graph_in file.now h) s t }
{
    let successors = successors_of(file, h, s);
    let d = successors.len();
    // By hand: `binary_search` and `partition_point` need a slice of numbers, and the file holds its numbers as bytes.
    let mut low = 0;
    let mut high = if t < d { t + 1 } else { d };
    while low < high {
        let middle = low + (high - low) / 2;
        let u = successors.target(middle);
        if u == t {
            return true;
        }
        if u < t {
            low = middle + 1;
        } else {
            high = middle;
        }
    }
    false
}
