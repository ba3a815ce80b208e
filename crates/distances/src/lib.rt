// A public operation: the distances from the initial state, up to a ceiling. It applies the reasons 1 to 12, then 21,
// then 15, and leaves the working table untouched after 1 to 12 and all zero otherwise.
#![tactic(auto)]

ghost use Rattle.std.specs.Prelude.{◌≡◌, suc, ◌*◌, ◌≤◌, length};
ghost use Rattle.lists.specs.Limit.{under};
ghost use Rattle.frontier.specs.Regions.{value_of};
ghost use Rattle.model.specs.Values.{Valid};
ghost use Rattle.gate.specs.Gate.{work_of};
ghost use Rattle.distances.specs.Distances.{entry_for, distances_outcome_of, distances_outcome, distances_output};

use candidates::start_distances;
use gate::{ceiling_too_high, enter, leave};
use lasso::Transitions;
use model::Header;
use numbers::{Reason, limit};

// The mark table of a call that names none. Distances do not depend on marks.
const TABLE_NOT_NAMED: u16 = 0;

// The entry of a state, from what the working table holds for it: one more than its distance, or 0 if it has none. Both
// tables are lent by C with one number for each state, so 0 and 65,535 stand for none in them.
fn entry_for(stored: u16, ceiling: Transitions) -> u16
    ensures { result ≡ entry_for (under (suc ceiling.0) (value_of stored)) }
{
    if stored == 0 {
        return limit::NOT_REACHED;
    }
    let distance = stored - 1;
    if distance <= ceiling.0 {
        return distance;
    }
    limit::NOT_REACHED
}

// The distances of all states, where none of 1 to 12 holds. The distances are found in full; the ceiling only decides
// which of them are written.
fn distances_model(
    file: &[u8],
    h: Header,
    ceiling: Transitions,
    output: &mut [u16],
    work: &mut [u16],
) -> Result<u16, Reason>
    requires valid { Valid file.now h × (h.table ≡ 0) }
    requires states_in_bounds { 6 * h.states ≤ length work.old }
    ensures outcome { distances_outcome_of result
        ≡ distances_outcome file.now ceiling.0
        (length output.old) (length work.old) }
    ensures output { output.new
        ≡ distances_output file.now ceiling.0 output.old (length work.old) }
    ensures kept { length work.new ≡ length work.old }
{
    let n = h.states;
    if ceiling_too_high(ceiling) {
        return Err(Reason::HighCeiling);
    }
    if output.len() < n {
        return Err(Reason::NoRoom);
    }
    start_distances(file, h, work);
    for s in 0..n {
        output[s] = entry_for(work[s], ceiling);
    }
    Ok(n as u16)
}

// Writes the distance of each state from the initial state, or 65,535 if there is none up to the ceiling, and answers the
// number of entries written.
pub fn distances(
    file: &[u8],
    ceiling: Transitions,
    output: &mut [u16],
    work: &mut [u16],
) -> Result<u16, Reason>
    ensures outcome { distances_outcome_of result
        ≡ distances_outcome file.now ceiling.0
        (length output.old) (length work.old) }
    ensures output { output.new
        ≡ distances_output file.now ceiling.0 output.old (length work.old) }
    ensures work { work.new ≡ work_of file.now 0 work.old }
{
    let h = enter(file, TABLE_NOT_NAMED, work)?;
    let written = distances_model(file, h, ceiling, output, work);
    leave(work);
    written
}
