// Writes the edges of one combined state (s, q) from the parts that hold the rows of s and of q: for each successor s'
// of s, a block with (s', q') for each q' whose mask holds the letter. The masks are looked at once, for the first
// block; each further block is made from the first one in the output.
#![tactic(auto)]

ghost use Rattle.std.specs.Prelude.{◌≡◌, ◌+◌, ◌*◌, ◌≤◌, length};
ghost use Rattle.numbers.specs.Limits.{highest_letter};
ghost use Rattle.format.specs.Bytes.{words};
ghost use Rattle.text.specs.Writing.{Adds, HasRoom};
ghost use Rattle.writer.specs.File.{words16};
ghost use Rattle.property.specs.Property.{chosen};
ghost use Rattle.combine_row.specs.Row.{block, copied, row_of, TargetsFit, BlockFits, RowFits};

use format::word;
use model::Successors;
use property::mask_holds;
use text::Output;
use writer::write_word;

// Writes the first block: base plus each target whose mask holds the letter.
fn write_block(out: &mut Output, targets: &[u8], masks: &[u8], letter: usize, base: usize)
    requires letter_le_highest_letter { letter ≤ highest_letter }
    requires masks_len { length (words masks.now) ≡ length (words targets.now) }
    requires targets_fit { TargetsFit base (words targets.now) }
    requires targets_in_bounds { HasRoom out.old (2 * length (chosen letter (words masks.now) (words targets.now))) }
    ensures { Adds out.old (words16 (block base (chosen letter (words masks.now) (words targets.now)))) out.new }
{
    let count = targets.len() / 2;
    for k in 0..count {
        if mask_holds(word(masks, 2 * k), letter) {
            write_word(out, base + word(targets, 2 * k));
        }
    }
}

// Writes a block made from an earlier one: the `count` entries from place `from` on, with base replaced by another.
fn copy_block(out: &mut Output, from: usize, count: usize, base: usize, other: usize)
    requires count_bound { (from + 2 * count ≤ out.old.at) × HasRoom out.old (2 * count) }
    requires block_fits { BlockFits out.old.bytes.now from count base other }
    ensures { Adds out.old (words16 (copied out.old.bytes.now from count base other)) out.new }
{
    for j in 0..count {
        let entry = word(out.bytes(), from + 2 * j);
        write_word(out, other + (entry - base));
    }
}

// Writes the edges of (s, q): a block for each successor of s, from the parts that hold the rows of q, where s has the
// letter and the property has `size` states.
pub fn write_row(
    out: &mut Output,
    successors: &Successors,
    targets: &[u8],
    masks: &[u8],
    letter: usize,
    size: usize,
)
    requires letter_le_highest_letter { letter ≤ highest_letter }
    requires masks_len { length (words masks.now) ≡ length (words targets.now) }
    requires row_fits { RowFits size successors.now (words targets.now) }
    requires targets_in_bounds { HasRoom out.old (2 * length (row_of size successors.now
        (chosen letter (words masks.now) (words targets.now)))) }
    ensures { Adds out.old (words16 (row_of size successors.now
        (chosen letter (words masks.now) (words targets.now)))) out.new }
{
    let d = successors.len();
    if d == 0 {
        return;
    }
    let from = out.at;
    let base = successors.target(0) * size;
    write_block(out, targets, masks, letter, base);
    let count = (out.at - from) / 2;
    if count == 0 {
        return;
    }
    for k in 1..d {
        let other = successors.target(k) * size;
        copy_block(out, from, count, base, other);
    }
}
