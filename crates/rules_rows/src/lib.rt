// The rules 8 to 10, each as one test of a file whose numbers of states and edges were read: its rows and targets.
#![tactic(auto)]

ghost use Rattle.std.specs.Prelude.{◌≡◌, false};
ghost use Rattle.lists.specs.Lists.{ascendingb};
ghost use Rattle.format.specs.Bytes.{words};
ghost use Rattle.format.specs.Layout.{HasTables};
ghost use Rattle.format.specs.Rules.{bad_rows, bad_targets, bad_order};

use format::{edges_at, entry_at, row, row_entry, word};

// Rule 8: the first row entry is not 0, an entry is less than the one before, or the last is not m.
pub fn rows_broken(file: &[u8], n: usize, m: usize) -> bool
    requires { HasTables file.now n m }
    ensures { result ≡ bad_rows file.now }
{
    if row_entry(file, 0) != 0 {
        return true;
    }
    for s in 0..n {
        if row_entry(file, s + 1) < row_entry(file, s) {
            return true;
        }
    }
    row_entry(file, n) != m
}

// Rule 9: a target is not below n.
pub fn targets_broken(file: &[u8], n: usize, m: usize) -> bool
    requires { HasTables file.now n m }
    ensures { result ≡ bad_targets file.now }
{
    let base = edges_at(n);
    for e in 0..m {
        if n <= entry_at(file, base, e) {
            return true;
        }
    }
    false
}

// The numbers of a part ascend strictly.
fn ascends(part: &[u8]) -> bool
    ensures { result ≡ ascendingb (words part.now) }
{
    let count = part.len() / 2;
    for k in 1..count {
        if word(part, 2 * k) <= word(part, 2 * (k - 1)) {
            return false;
        }
    }
    true
}

// Rule 10: the targets in some row are not strictly ascending.
pub fn order_broken(file: &[u8], n: usize, m: usize) -> bool
    requires has_tables { HasTables file.now n m }
    requires file_value { bad_rows file.now ≡ false }
    ensures { result ≡ bad_order file.now }
{
    for s in 0..n {
        if !ascends(row(file, n, s)) {
            return true;
        }
    }
    false
}
