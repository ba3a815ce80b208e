// Which state may stand at the next place of the list, if no loop start lies ahead of it: a search from the state tells.
ghost use Rattle.std.specs.Prelude.{[], ◌∷◌, ◌++◌, ◌*◌, ◌≤◌, ◌<◌, length, T};
ghost use Rattle.lists.specs.Decides.{Decides};
ghost use Rattle.lasso.specs.Graph.{pathb};
ghost use Rattle.model.specs.Model.{graph_in};
ghost use Rattle.model.specs.Values.{Valid};
ghost use Rattle.table.specs.Changes.{SameOutside};
ghost use Rattle.current.specs.Current.{list_in};
ghost use Rattle.follow.specs.Follow.{StatesTo, Prepared, OnStem, ClosesMarked, ClosesStart, MayFollow};

use current::list_at;
use lasso::Transitions;
use model::{Header, is_marked};
use table::get;
use walks::{distances_from, from_marks};

// A state of the list, up to a place, is reached soon enough, and a mark stands from it on.
fn closes_marked(file: &[u8], h: Header, work: &[u16], place: usize, left: usize) -> bool
    requires valid { Valid file.now h }
    requires states_in_bounds { 3 * h.states ≤ length work.now }
    requires place_lt_states { place < h.states }
    requires left_le_states { left ≤ h.states }
    requires states_to { StatesTo h work.now place }
    ensures { Decides
        (ClosesMarked (graph_in file.now h) h.states h.start work.now place left) result }
{
    let n = h.states;
    let mut marked = false;
    for k in (0..=place).rev() {
        let s = list_at(h, work, k);
        if is_marked(file, h, s) {
            marked = true;
        }
        if marked {
            let level = get(work, 2 * n + s);
            if level != 0 && level <= left + 1 {
                return true;
            }
        }
    }
    false
}

// A state of the list, up to a place, that can start the loop is reached soon enough. Without one no second search is
// needed.
fn closes_start(h: Header, work: &[u16], place: usize, left: usize) -> bool
    requires states_in_bounds { 3 * h.states ≤ length work.now }
    requires place_lt_states { place < h.states }
    requires left_le_states { left ≤ h.states }
    requires states_to { StatesTo h work.now place }
    ensures { Decides (ClosesStart h.states h.start work.now place left) result }
{
    let n = h.states;
    for k in 0..=place {
        let s = list_at(h, work, k);
        let level = get(work, 2 * n + s);
        if get(work, n + s) % 2 == 1 && level != 0 && level <= left + 1 {
            return true;
        }
    }
    false
}

// State t, on no stem at the next place, may stand after the list up to a place: the two begin some shortest lasso. Its
// loop start is passed, and then a mark is passed with it or is ahead.
pub fn may_close(
    file: &[u8],
    h: Header,
    work: &mut [u16],
    transitions: Transitions,
    place: usize,
    t: usize,
) -> bool
    requires prepared { Prepared file.now h work.old transitions.0 }
    requires place_lt_transitions { place < transitions.0 }
    requires t_lt_states { t < h.states }
    requires t { T (pathb (graph_in file.now h) (list_in h.start work.old place ++ t ∷ [])) }
    requires fact { OnStem h.states work.old place t → ⊥ }
    ensures decides { Decides (MayFollow (graph_in file.now h) transitions.0 work.old place t) result }
    ensures same { SameOutside (2 * h.states) (6 * h.states) work.old work.new }
{
    let n = h.states;
    let left = transitions.number() - (place + 1);
    distances_from(file, h, work, t, left + 1);
    if closes_marked(file, h, work, place, left) {
        return true;
    }
    if !closes_start(h, work, place, left) {
        return false;
    }
    from_marks(file, h, work, left + 1, n);
    closes_start(h, work, place, left)
}
