// The check of a file by the numbered rules: 1 to 5, which concern its header, then 6 to 11 by the kind of file.
#![tactic(auto)]

ghost use Rattle.std.specs.Prelude.{◌≡◌, ◌≤◌};
ghost use Rattle.format.specs.Layout.{total_of};
ghost use Rattle.model.specs.Values.{Accept, checked_of, head_of, check_with, check_of};

use format::{long, total_of, word};
use model::Header;
use numbers::{Reason, limit};
use rules_offsets::offsets_broken;
use rules_rows::{order_broken, rows_broken, targets_broken};
use rules_spare::spare_set;

// The most mark tables that a model file may have.
const MARK_TABLES: usize = 2;

// Applies the rules 1 to 11 in order, each to the whole file before the next. The header names mark table 0.
pub fn check(file: &[u8]) -> Result<Header, Reason>
    ensures { checked_of result ≡ check_of file.now }
{
    let h = check_head(file)?;
    check_tables(file, h, total_of(h.states, h.edges), MARK_TABLES)
}

// Applies the rules 1 to 5 in order.
pub fn check_head(file: &[u8]) -> Result<Header, Reason>
    ensures { checked_of result ≡ head_of file.now }
{
    if file.len() < 24 {
        return Err(Reason::ShortFile);
    }
    let states = word(file, 0);
    let edges = word(file, 2);
    let start = word(file, 4);
    if states == 0 || limit::MOST_STATES < states {
        return Err(Reason::BadStates);
    }
    if limit::MOST_EDGES < edges {
        return Err(Reason::BadEdges);
    }
    if states <= start {
        return Err(Reason::BadStart);
    }
    let stays_word = word(file, 6);
    if 1 < stays_word {
        return Err(Reason::BadStays);
    }
    let stays = stays_word == 1;
    Ok(Header {
        states,
        edges,
        start,
        stays,
        table: 0,
    })
}

// Applies the rules 6 to 11 to a file that keeps the rules 1 to 5, by the total length that its kind has with one mark table
// and the most mark tables that it may have.
pub fn check_tables(file: &[u8], h: Header, total: usize, tables: usize) -> Result<Header, Reason>
    requires file_value { head_of file.now ≡ Accept h }
    requires edges_bound { (total_of h.states h.edges ≤ total) × (total ≤ 65535) × (tables ≤ 2) }
    ensures { checked_of result ≡ check_with total tables file.now }
{
    let n = h.states;
    let m = h.edges;
    if offsets_broken(file, n, m, total, tables) {
        return Err(Reason::BadOffsets);
    }
    if file.len() != long(file, 20) {
        return Err(Reason::BadLength);
    }
    if rows_broken(file, n, m) {
        return Err(Reason::BadRows);
    }
    if targets_broken(file, n, m) {
        return Err(Reason::BadTargets);
    }
    if order_broken(file, n, m) {
        return Err(Reason::BadOrder);
    }
    if spare_set(file, n, m, tables) {
        return Err(Reason::BadSpare);
    }
    Ok(h)
}
