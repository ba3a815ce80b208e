// Tests of a given list: the first place where it breaks, whether it is a path, whether it closes at a mark, whether it is
// a lasso of a length.
#![tactic(auto)]

ghost use Rattle.std.specs.Prelude.{◌≡◌, ◌&&◌, ◌≤◌, ◌<◌, length, get_or, T, eqb};
ghost use Rattle.std.proofs.Math.Option.{none};
ghost use Rattle.lists.specs.Lists.{anyb, below};
ghost use Rattle.lasso.specs.Graph.{edges, pathb, loopsb, lassob};
ghost use Rattle.model.specs.Model.{graph_in};
ghost use Rattle.model.specs.Values.{Valid};
ghost use Rattle.paths.specs.Breaks.{break_of, first_break};

use lasso::{Entries, Transitions};
use model::{Header, is_marked};
use model_edges::has_edge;
use table::get;

// The first place, counted from 0, whose entry is no state or, past place 0, is not reached by an edge from the entry before
// it.
pub fn first_break(file: &[u8], h: Header, list: &[u16]) -> Option<usize>
    requires { Valid file.now h }
    ensures { break_of result ≡ first_break (graph_in file.now h) list.now }
{
    if list.is_empty() {
        return None;
    }
    let first = get(list, 0);
    if h.states <= first {
        return Some(0);
    }
    for j in 1..list.len() {
        let s = get(list, j - 1);
        let t = get(list, j);
        if !has_edge(file, h, s, t) {
            return Some(j);
        }
    }
    None
}

// The list is a path from the start: each entry but the last has an edge to the next.
pub fn is_path(file: &[u8], h: Header, list: &[u16]) -> bool
    requires valid { Valid file.now h }
    requires in_bounds { 1 ≤ length list.now }
    ensures { result
        ≡ (eqb (get_or list.now 0 0) h.start
        && pathb (graph_in file.now h) list.now) }
{
    get(list, 0) == h.start && first_break(file, h, list).is_none()
}

// From place k on a list that breaks nowhere is a closed walk with a mark: the last entry is the one at k, and one of
// those from k to before the last is marked.
pub fn loops_at(file: &[u8], h: Header, list: &[u16], k: usize) -> bool
    requires valid { Valid file.now h }
    requires list_value { first_break (graph_in file.now h) list.now ≡ none }
    requires k_bound { k < edges list.now }
    ensures { result ≡ loopsb (graph_in file.now h) list.now k }
{
    let end = list.len() - 1;
    if get(list, end) != get(list, k) {
        return false;
    }
    for j in k..end {
        let state = get(list, j);
        if is_marked(file, h, state) {
            return true;
        }
    }
    false
}

// The last entry of a path from the start stands at an earlier place too, and a mark from there on: then so it is from the
// first of its places.
pub fn closes(file: &[u8], h: Header, list: &[u16]) -> bool
    requires valid { Valid file.now h }
    requires in_bounds { 1 ≤ length list.now }
    requires list_value { (get_or list.now 0 0 ≡ h.start) × T (pathb (graph_in file.now h) list.now) }
    ensures { result
        ≡ anyb (loopsb (graph_in file.now h) list.now) (below (edges list.now)) }
{
    let end = list.len() - 1;
    let last = get(list, end);
    for k in 0..end {
        if get(list, k) == last {
            return loops_at(file, h, list, k);
        }
    }
    false
}

// The list is a lasso of the given length.
pub fn is_lasso(file: &[u8], h: Header, list: &[u16], transitions: Transitions) -> bool
    requires { Valid file.now h }
    ensures { result
        ≡ (lassob (graph_in file.now h) list.now
        && eqb (edges list.now) transitions.0) }
{
    let entries = transitions.entries();
    let given = Entries(list.len());
    given.0 == entries.0 && is_path(file, h, list) && closes(file, h, list)
}
