// The frontier of a search: its sources, listed by the levels at which they start, and the states that it has reached.
// The working table is six regions of n entries, n the number of states, at the multiples of n:
//   0 distances from the start   1 loop lengths   2 levels   3 queue   4 first source of a level   5 next source
// An entry 0 stands for nothing; a level l stands as l + 1, a state s in a list of sources as s + 1. Between searches the
// listing has other uses for some: the list in 0, the stems in 1, flags of ends in 4, the tables after a loop start in 2 and 5.
// Entries stay numbers, and lists chains of entries: one lent table holds them all, since what C calls takes no memory of its own.
#![tactic(auto)]

ghost use Rattle.std.specs.Prelude.{◌≡◌, ◌+◌, ◌*◌, ◌≤◌, ◌<◌, length};
ghost use Rattle.numbers.specs.Limits.{most_states};
ghost use Rattle.table.specs.Changes.{SameOutside};
ghost use Rattle.frontier.specs.Regions.{entry, queued};
ghost use Rattle.frontier.specs.Buckets.{with_source, Planned};
ghost use Rattle.frontier.specs.Search.{Reached, LevelReady, Admitted};

use table::{clear, get, put};

// Puts a source in front of the list of its level.
pub fn list_source(work: &mut [u16], n: usize, level: usize, s: usize)
    requires n_le_most_states { n ≤ most_states }
    requires level_lt_n { level < n }
    requires s_lt_n { s < n }
    requires n_in_bounds { 6 * n ≤ length work.old }
    ensures { work.new ≡ with_source n level s work.old }
{
    let first = get(work, 4 * n + level);
    put(work, 5 * n + s, first);
    put(work, 4 * n + level, s + 1);
}

// Lists the sources of each level below the limit, from the start levels in region 2, which it clears.
pub fn plan(work: &mut [u16], n: usize, limit: usize)
    requires n_le_most_states { n ≤ most_states }
    requires limit_le_n { limit ≤ n }
    requires n_in_bounds { 6 * n ≤ length work.old }
    ensures { Planned n limit work.old work.new }
{
    clear(work, 4 * n, 4 * n + limit);
    for s in 0..n {
        let start = get(work, 2 * n + s);
        put(work, 2 * n + s, 0);
        // An entry 0 wraps to the greatest number, so that one comparison tells the sources.
        let level = start.wrapping_sub(1);
        if level < limit {
            list_source(work, n, level, s);
        }
    }
}

// Marks a state with its level and puts it at the end of the queue, unless it was reached before. The end of the queue
// is a place of the table; answers the end afterwards.
pub fn reach(work: &mut [u16], n: usize, t: usize, level: usize, tail: usize) -> usize
    requires n_le_most_states { n ≤ most_states }
    requires t_lt_n { t < n }
    requires level_le_n { level ≤ n }
    requires n_in_bounds { 6 * n ≤ length work.old }
    requires n_bound { 3 * n ≤ tail }
    requires tail_bound { entry 2 n work.old t ≡ 0 → queued n tail < n }
    ensures change { Reached n t (level + 1) (queued n tail)
        work.old work.new (queued n result) }
    ensures grows { tail ≤ result }
{
    if get(work, 2 * n + t) != 0 {
        return tail;
    }
    put(work, 2 * n + t, level + 1);
    put(work, tail, t);
    tail + 1
}

// Reaches the sources of a level; answers the end of the queue afterwards.
pub fn admit(work: &mut [u16], n: usize, level: usize, tail: usize) -> usize
    requires n_le_most_states { n ≤ most_states }
    requires n_bound { 3 * n ≤ tail }
    requires level_ready { LevelReady n level (queued n tail) work.old }
    ensures change { Admitted n level (queued n tail) work.old work.new (queued n result) }
    ensures grows { tail ≤ result }
    ensures same { SameOutside (2 * n) (4 * n) work.old work.new }
{
    let mut cursor = get(work, 4 * n + level);
    let mut end = tail;
    while 0 < cursor {
        let s = cursor - 1;
        end = reach(work, n, s, level, end);
        cursor = get(work, 5 * n + s);
    }
    end
}
