// Rule 11, as one test of a file whose numbers of states and edges were read: the spare bits of its mark tables.
#![tactic(auto)]

ghost use Rattle.std.specs.Prelude.{◌≡◌, false, ◌≤◌};
ghost use Rattle.format.specs.Layout.{HasTables};
ghost use Rattle.format.specs.Rules.{spare_set, bad_spare};

use format::{bit_if_there, mark_bytes, table_at};

// A spare bit of mark table t is set.
fn spare_of_table(file: &[u8], n: usize, m: usize, t: usize) -> bool
    requires has_tables { HasTables file.now n m }
    requires t_bound { t ≤ 1 }
    ensures { result ≡ spare_set file.now t }
{
    let at = table_at(n, m, t);
    let end = 8 * mark_bytes(n);
    for s in n..end {
        if bit_if_there(file, at, s) {
            return true;
        }
    }
    false
}

// Rule 11: a spare bit of the marks is set, in one of the tables that this kind of file may have.
pub fn spare_set(file: &[u8], n: usize, m: usize, tables: usize) -> bool
    requires has_tables { HasTables file.now n m }
    requires tables_bound { tables ≤ 2 }
    ensures { result ≡ bad_spare tables file.now }
{
    for t in 0..tables {
        if spare_of_table(file, n, m, t) {
            return true;
        }
    }
    false
}
