// A file once, at every length, and with every byte changed to every other value. The answers of the last two
// are counted by call and number.
ghost use Rattle.std.specs.Prelude.{◌≤◌, ◌<◌};

use crate::calls::{CaseNumbers, try_all};
use crate::judged::{Judged, and};
use crate::model_put::File;
use harness::{Tried, sum};

// Twenty-three counts each for the step, the search, next and the distances: first the calls that were not refused, then
// the refusals by their number.
type Counts = [[u64; 23]; 4];

// Counts the answers of four calls.
fn note(counts: &mut Counts, answers: &[Tried; 4]) {
    for (of_call, tried) in counts.iter_mut().zip(answers) {
        let place = tried.answer.refusal().map_or(0, usize::from);
        if let Some(count) = of_call.get_mut(place) {
            *count = sum(*count, 1);
        }
    }
}

// Prints the counts of one number, if it occurs: the step's, the search's, those of next and of the distances.
fn show_number(rt: &impl Print, counts: &Counts, refusal: usize)
    requires { refusal < 23 }
{
    let [step, search, next, distances] = [
        counts[0][refusal],
        counts[1][refusal],
        counts[2][refusal],
        counts[3][refusal],
    ];
    if step | search | next | distances == 0 {
        return;
    }
    let _ = if refusal == 0 {
        print!(rt; "  not refused")
    } else {
        print!(rt; "  refused {refusal}")
    };
    let _ = print!(rt; ": step {step}, search {search}, next {next}, distances {distances}\n");
}

// Prints a line for each number that occurs.
fn show_counts(rt: &impl Print, counts: &Counts) {
    for refusal in 0..23 {
        show_number(rt, counts, refusal);
    }
}

// The four calls on the first bytes of a buffer, on a line.
pub fn once(rt: &impl Print, file: &File, earlier: &[u16], f: CaseNumbers, before: Judged) -> Judged
    requires { (f.size ≤ 25800) × (f.room ≤ 4097) × (f.entries ≤ 24576) }
{
    let answers = try_all(rt, &file[..f.size], earlier, f);
    let _ = print!(rt; "\n");
    and(before, &answers)
}

// The first bytes of a buffer, at every length from the least up to the greatest.
pub fn lengths(
    rt: &impl Print,
    file: &File,
    earlier: &[u16],
    f: CaseNumbers,
    before: Judged,
) -> Judged
    requires { (f.size ≤ 25800) × (f.room ≤ 4097) × (f.entries ≤ 24576) }
{
    let mut counts = [[0u64; 23]; 4];
    let mut so_far = before;
    for size in f.from..f.size + 1 {
        let answers = try_all(rt, &file[..size], earlier, f);
        note(&mut counts, &answers);
        so_far = and(so_far, &answers);
    }
    show_counts(rt, &counts);
    so_far
}

// Every one of the first bytes of a buffer changed to every other value, and put back afterwards.
pub fn changes(
    rt: &impl Print,
    file: &mut File,
    earlier: &[u16],
    f: CaseNumbers,
    before: Judged,
) -> Judged
    requires { (f.size ≤ 25800) × (f.room ≤ 4097) × (f.entries ≤ 24576) }
{
    let mut counts = [[0u64; 23]; 4];
    let mut so_far = before;
    for at in 0..f.size {
        let old = file[at];
        for value in 0..=255 {
            if value != old {
                file[at] = value;
                let answers = try_all(rt, &file[..f.size], earlier, f);
                note(&mut counts, &answers);
                so_far = and(so_far, &answers);
            }
        }
        file[at] = old;
    }
    show_counts(rt, &counts);
    so_far
}
