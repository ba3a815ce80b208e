// Counts: sums, and adding to one.

// A sum, up to a bound that no run comes near.
pub fn sum(count: u64, more: u64) -> u64 {
    const BOUND: u64 = 1000000000;
    if count < BOUND && more < BOUND {
        count + more
    } else {
        count
    }
}

// Adds a number to a count.
pub fn add(count: &mut u64, more: u64) {
    *count = count.saturating_add(more);
}

// Adds one to a count if something holds.
pub fn add_if(count: &mut u64, holds: bool) {
    add(count, u64::from(holds));
}
