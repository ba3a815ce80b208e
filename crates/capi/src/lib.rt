// The C interface: step, search, next, grade, distances and combine under plain names, with answers as numbers. What is
// returned is the number of the refusal, 1 to 99, or the kind of answer, whose figures go to `out`: a refused call
// changes nothing there. With fewer than 4 entries in `out` the answer is 100 and nothing at all is done; so it is for
// a grade whose table for the place has no entry.
#![tactic(auto)]

ghost use Rattle.std.specs.Prelude.{◌≡◌};
ghost use Rattle.gate.specs.Gate.{asking};
ghost use Rattle.figures.specs.Kinds.{record_given, figures_in};
ghost use Rattle.figures.specs.Short.{work_after_call};
ghost use Rattle.capi_step.specs.Call.{step_call};
ghost use Rattle.capi_search.specs.Call.{search_call, answer_after_search};
ghost use Rattle.capi_next.specs.Call.{next_call, answer_after_next};
ghost use Rattle.capi_grade.specs.Call.{grade_call, place_after_grade, work_after_grade};
ghost use Rattle.capi_distances.specs.Call.{distances_call, output_after_distances};
ghost use Rattle.capi_combine.specs.Call.{combine_call, output_after_combine};

use capi_combine::combine_call;
use capi_distances::distances_call;
use capi_grade::grade_call;
use capi_next::next_call;
use capi_search::search_call;
use capi_step::step_call;

// The record after one more round under a ceiling.
#[unsafe(no_mangle)]
pub extern "C" fn fahkelo_step(
    file: &[u8],
    mark_table: u16,
    ceiling: u16,
    done: u16,
    has_best: u8,
    best: u16,
    work: &mut [u16],
    out: &mut [u16],
) -> u16
    ensures value { result ≡ (step_call file.now mark_table ceiling (record_given done has_best best)
        work.old out.old).kind }
    ensures out { out.new ≡ figures_in out.old (step_call file.now mark_table ceiling
        (record_given done has_best best) work.old out.old) }
    ensures work { work.new ≡ work_after_call file.now mark_table work.old
        out.old }
{
    step_call(file, mark_table, ceiling, done, has_best, best, work, out)
}

// The first of the shortest accepting paths, written to the answer table if it is not longer than the ceiling.
#[unsafe(no_mangle)]
pub extern "C" fn fahkelo_search(
    file: &[u8],
    mark_table: u16,
    ceiling: u16,
    allowance: u16,
    answer: &mut [u16],
    work: &mut [u16],
    out: &mut [u16],
) -> u16
    ensures value { result ≡ (search_call file.now (asking mark_table ceiling allowance)
        answer.old work.old out.old).kind }
    ensures out { out.new ≡ figures_in out.old
        (search_call file.now (asking mark_table ceiling allowance)
        answer.old work.old out.old) }
    ensures answer { answer.new ≡ answer_after_search file.now (asking mark_table ceiling allowance)
        answer.old work.old out.old }
    ensures work { work.new ≡ work_after_call file.now mark_table work.old
        out.old }
{
    search_call(file, mark_table, ceiling, allowance, answer, work, out)
}

// The shortest accepting path that follows an earlier one, written to the answer table.
#[unsafe(no_mangle)]
pub extern "C" fn fahkelo_next(
    file: &[u8],
    mark_table: u16,
    earlier: &[u16],
    answer: &mut [u16],
    work: &mut [u16],
    out: &mut [u16],
) -> u16
    ensures value { result ≡ (next_call file.now mark_table earlier.now
        answer.old work.old out.old).kind }
    ensures out { out.new ≡ figures_in out.old (next_call file.now mark_table
        earlier.now answer.old work.old out.old) }
    ensures answer { answer.new ≡ answer_after_next file.now mark_table earlier.now
        answer.old work.old out.old }
    ensures work { work.new ≡ work_after_call file.now mark_table work.old
        out.old }
{
    next_call(file, mark_table, earlier, answer, work, out)
}

// The grade of a list with a claimed k; the first place where it breaks is written to the table for it.
#[unsafe(no_mangle)]
pub extern "C" fn fahkelo_grade(
    file: &[u8],
    mark_table: u16,
    list: &[u16],
    k: u16,
    place: &mut [usize],
    work: &mut [u16],
    out: &mut [u16],
) -> u16
    ensures value { result ≡ (grade_call file.now mark_table list.now k
        place.old work.old out.old).kind }
    ensures out { out.new ≡ figures_in out.old (grade_call file.now mark_table
        list.now k place.old work.old out.old) }
    ensures place { place.new ≡ place_after_grade file.now mark_table list.now k
        place.old work.old out.old }
    ensures work { work.new ≡ work_after_grade file.now mark_table place.old
        work.old out.old }
{
    grade_call(file, mark_table, list, k, place, work, out)
}

// The distances from the initial state up to a ceiling, written to the output.
#[unsafe(no_mangle)]
pub extern "C" fn fahkelo_distances(
    file: &[u8],
    ceiling: u16,
    output: &mut [u16],
    work: &mut [u16],
    out: &mut [u16],
) -> u16
    ensures value { result ≡ (distances_call file.now ceiling
        output.old work.old out.old).kind }
    ensures out { out.new ≡ figures_in out.old (distances_call file.now ceiling
        output.old work.old out.old) }
    ensures output { output.new ≡ output_after_distances file.now ceiling
        output.old work.old out.old }
    ensures work { work.new ≡ work_after_call file.now 0 work.old
        out.old }
{
    distances_call(file, ceiling, output, work, out)
}

// The combination of a rule with a property, written to the output as a model file.
#[unsafe(no_mangle)]
pub extern "C" fn fahkelo_combine(
    rule: &[u8],
    letters: &[u8],
    property: &[u8],
    output: &mut [u8],
    out: &mut [u16],
) -> u16
    ensures value { result ≡ (combine_call rule.now letters.now property.now
        output.old out.old).kind }
    ensures out { out.new ≡ figures_in out.old (combine_call rule.now
        letters.now property.now output.old out.old) }
    ensures output { output.new ≡ output_after_combine rule.now letters.now
        property.now output.old out.old }
{
    combine_call(rule, letters, property, output, out)
}
