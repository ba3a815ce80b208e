// Prints the counts.
use crate::tally::Tally;

// All counts.
pub fn print(rt: &impl Print, t: &Tally) {
    let _ = print!(rt;
        "each model with 0 and with 1 in bytes 6 and 7\nall models of 1 state: {}\nall models of 2 states: {}\nall models of 3 states: {}\nrandom models of 4 states: {}\nrandom models of 5 states: {}\nrandom models of 6 states: {}\nrandom models of 7 states: {}\nmodels with an implied step: {}\n",
        t.models[0],
        t.models[1],
        t.models[2],
        t.models[3],
        t.models[4],
        t.models[5],
        t.models[6],
        t.implied
    );
    let _ = print!(rt;
        "files with one mark table, table 0 named: {}\nfiles with one mark table, table 1 named: {}\nfiles with two mark tables, table 0 named: {}\nfiles with two mark tables, table 1 named: {}\nfiles with one bit of the other marks flipped: {}\nfiles without an accepting path: {}\n",
        t.one_table[0], t.one_table[1], t.two_tables[0], t.two_tables[1], t.flipped, t.lengths[0]
    );
    for length in 1..8 {
        let _ = print!(rt;
            "files with a least length of {length}: {}\n",
            t.lengths[length]
        );
    }
    let _ = print!(rt;
        "files with several shortest accepting paths: {}\nceilings, over all files: {}\nsteps: {}\n  advanced: {}\n  finished: {}\n  refused: {}\nsearches: {}\n  found: {}\n  none within: {}\n  stopped: {}\n  refused: {}\n",
        t.several,
        t.ceilings,
        t.steps.tried,
        t.advanced,
        t.finished,
        t.steps.refused,
        t.searches.tried,
        t.found,
        t.none_within,
        t.stopped,
        t.searches.refused
    );
    let _ = print!(rt;
        "nexts: {}\n  found: {}\n  no more: {}\n  refused: {}\ndistances: {}\n  written: {}\n  refused: {}\n",
        t.nexts.tried,
        t.next_found,
        t.no_more,
        t.nexts.refused,
        t.distances.tried,
        t.written,
        t.distances.refused
    );
    for (number, count) in [12, 13, 14, 15, 21].iter().zip(&t.refused) {
        let _ = print!(rt; "refused with {number}: {count}\n");
    }
    let _ = print!(rt;
        "steps from a best length above the ceiling: {}\nlists received by a search and next in turn: {}\nentries in them: {}\ndifferences {}\n",
        t.above, t.lists, t.entries, t.differences
    );
}
