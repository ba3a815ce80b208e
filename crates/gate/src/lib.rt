// The gate of every call but combine: reason 22, for the calls that name a mark table; the reasons 1 to 12, which concern the file and
// the working table; reason 21, for the calls that take a ceiling; and the way out, by which every call that passed the
// gate leaves the working table.
#![tactic(auto)]

ghost use Rattle.std.specs.Prelude.{◌≡◌, length};
ghost use Rattle.model.specs.Values.{checked_of};
ghost use Rattle.gate.specs.Gate.{gate_of, work_entered, high_ceiling, Zeroed};

use checking::check;
use lasso::Transitions;
use model::Header;
use numbers::{Reason, limit};
use table::clear;

// What a search names beside the file and the tables that it is lent: the mark table, the length that no list may exceed,
// and the rounds that it is allowed.
#[derive(Clone, Copy)]
pub struct Ask {
    pub table: u16,
    pub ceiling: Transitions,
    pub allowance: u16,
}

// Applies the reasons 22 and 1 to 12 in order: the number of the first that holds, or the file's header, which names the
// mark table. After 22 the working table is all zero; in every other case it is as it was.
pub fn enter(file: &[u8], mark_table: u16, work: &mut [u16]) -> Result<Header, Reason>
    ensures answer { checked_of result ≡ gate_of file.now mark_table (length work.old) }
    ensures work { work.new ≡ work_entered mark_table work.old }
{
    if 1 < mark_table {
        leave(work);
        return Err(Reason::NoTable);
    }
    let h = check(file)?;
    if work.len() < 6 * h.states {
        return Err(Reason::SmallTable);
    }
    Ok(h.naming(mark_table as usize))
}

// The ceiling is above 4,096: reason 21, which is applied after 12.
pub fn ceiling_too_high(ceiling: Transitions) -> bool
    ensures { result ≡ high_ceiling ceiling.0 }
{
    limit::HIGHEST_CEILING < ceiling.0
}

// Makes every entry of the working table zero, however long it is.
pub fn leave(work: &mut [u16])
    ensures { Zeroed work.old work.new }
{
    work.fill(0);
}
