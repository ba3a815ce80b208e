// The lent tables of 16-bit entries: reading, writing, clearing and copying.
#![tactic(auto)]

ghost use Rattle.std.specs.Prelude.{◌≡◌, ◌⊎◌, ◌+◌, ◌≤◌, ◌<◌, length, get_or, set};
ghost use Rattle.table.specs.Changes.{Cleared, Copied};

// The entry at a place.
pub fn get(table: &[u16], at: usize) -> usize
    requires { at < length table.now }
    ensures value { result ≡ get_or table.now at 0 }
    ensures small { result < 65536 }
{
    table[at] as usize
}

// Stores a value at a place.
pub fn put(table: &mut [u16], at: usize, value: usize)
    requires at_in_bounds { at < length table.old }
    requires value_bound { value < 65536 }
    ensures { table.new ≡ set table.old at value }
{
    table[at] = value as u16;
}

// Makes the entries from one place up to another zero.
pub fn clear(table: &mut [u16], from: usize, to: usize)
    requires from_le_to { from ≤ to }
    requires to_in_bounds { to ≤ length table.old }
    ensures { Cleared from to table.old table.new }
{
    table[from..to].fill(0);
}

// Copies n entries from one place to another; the two parts are apart.
pub fn copy(table: &mut [u16], from: usize, to: usize, n: usize)
    requires fact { (to + n ≤ from) ⊎ (from + n ≤ to) }
    requires n_in_bounds { from + n ≤ length table.old }
    requires n_in_bounds_2 { to + n ≤ length table.old }
    ensures { Copied from to n table.old table.new }
{
    table.copy_within(from..from + n, to);
}
