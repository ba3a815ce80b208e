// A public operation: the combination of a rule with a property, written as a model file.
#![tactic(auto)]

ghost use Rattle.std.specs.Prelude.{◌≡◌, false, length};
ghost use Rattle.format.specs.Layout.{states};
ghost use Rattle.model.specs.Values.{Valid};
ghost use Rattle.property.specs.Property.{bad_property, ValidProperty};
ghost use Rattle.combine_letters.specs.Letters.{bad_letters};
ghost use Rattle.combine.specs.Combine.{combine_outcome, combine_output, combine_outcome_of};

use checking::check;
use combine_file::{count_edges, write_product};
use combine_letters::letters_broken;
use format::total_of;
use model::Header;
use numbers::{Reason, limit};
use property::{check_property, has_zero_mask};
use text::Output;

// Combines a rule, whose states have the letters, with a property, and writes the combination as a model file from the
// first byte of the output on. The rule has one mark table or two, which are not used, the property and the combination
// have one. Refused: the rule's 1 to 11, 16 for the letters, 17 for the property, 18 for a result that is too large, 15
// for an output that is too short. The answer is the number of bytes written.
pub fn combine(
    rule: &[u8],
    letters: &[u8],
    property: &[u8],
    output: &mut [u8],
) -> Result<usize, Reason>
    ensures outcome { combine_outcome_of result ≡ combine_outcome rule.now letters.now
        property.now (length output.old) }
    ensures output { output.new ≡ combine_output rule.now letters.now
        property.now output.old }
{
    let h = check(rule)?;
    if letters_broken(letters, h.states) {
        return Err(Reason::BadLetters);
    }
    with_property(rule, h, letters, property, output)
}

// From reason 17 on: an accepted rule with its letters.
fn with_property(
    rule: &[u8],
    h: Header,
    letters: &[u8],
    property: &[u8],
    output: &mut [u8],
) -> Result<usize, Reason>
    requires valid { Valid rule.now h }
    requires letters_value { bad_letters (states rule.now) letters.now ≡ false }
    ensures outcome { combine_outcome_of result ≡ combine_outcome rule.now letters.now
        property.now (length output.old) }
    ensures output { output.new ≡ combine_output rule.now letters.now
        property.now output.old }
{
    let Ok(k) = check_property(property) else {
        return Err(Reason::BadProperty);
    };
    if has_zero_mask(property, k) {
        return Err(Reason::BadProperty);
    }
    within_limits(rule, h, letters, property, k, output)
}

// From reason 18 on: both files and the letters are as they should be.
fn within_limits(
    rule: &[u8],
    h: Header,
    letters: &[u8],
    property: &[u8],
    k: Header,
    output: &mut [u8],
) -> Result<usize, Reason>
    requires valid { Valid rule.now h }
    requires letters_value { bad_letters (states rule.now) letters.now ≡ false }
    requires valid_property { ValidProperty property.now k }
    requires property_value { bad_property property.now ≡ false }
    ensures outcome { combine_outcome_of result ≡ combine_outcome rule.now letters.now
        property.now (length output.old) }
    ensures output { output.new ≡ combine_output rule.now letters.now
        property.now output.old }
{
    let states = h.states * k.states;
    if limit::MOST_STATES < states {
        return Err(Reason::TooLarge);
    }
    let edges = count_edges(rule, h, letters, property, k);
    if limit::MOST_EDGES < edges {
        return Err(Reason::TooLarge);
    }
    let total = total_of(states, edges);
    if output.len() < total {
        return Err(Reason::NoRoom);
    }
    let mut out = Output {
        bytes: output,
        at: 0,
    };
    write_product(&mut out, rule, h, letters, property, k, edges);
    Ok(out.at)
}
