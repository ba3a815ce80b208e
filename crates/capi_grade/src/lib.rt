// A grade in C, but for its name there: the answer goes as numbers, the place where the list breaks to a table of its own.
#![tactic(auto)]

ghost use Rattle.std.specs.Prelude.{◌≡◌, ◌||◌};
ghost use Rattle.figures.specs.Kinds.{figures_in};
ghost use Rattle.figures.specs.Short.{too_few};
ghost use Rattle.capi_grade.specs.Call.{no_entry, grade_call, place_after_grade, work_after_grade};

use figures::{Kind, too_few};
use grade::grade;
use grade_report::report_grade;

// The entries that the table for a place must have.
const PLACE_ENTRIES: usize = 1;

// A table for the place of so many entries, or one for the figures, is too short.
fn tables_short(place: usize, out: usize) -> bool
    ensures { result ≡ (too_few out || no_entry place) }
{
    too_few(out) || place < PLACE_ENTRIES
}

// The grade of a list with a claimed k; the first place where it breaks is written to the table for it.
pub fn grade_call(
    file: &[u8],
    mark_table: u16,
    list: &[u16],
    k: u16,
    place: &mut [usize],
    work: &mut [u16],
    out: &mut [u16],
) -> u16
    ensures value { result ≡ (grade_call file.now mark_table list.now k
        place.old work.old out.old).kind }
    ensures out { out.new ≡ figures_in out.old (grade_call file.now mark_table
        list.now k place.old work.old out.old) }
    ensures place { place.new ≡ place_after_grade file.now mark_table list.now k
        place.old work.old out.old }
    ensures work { work.new ≡ work_after_grade file.now mark_table place.old
        work.old out.old }
{
    if tables_short(place.len(), out.len()) {
        return Kind::OutTooShort.into();
    }
    let graded = grade(file, mark_table, list, k, work);
    report_grade(graded, place, out)
}
