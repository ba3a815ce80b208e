// The property file: its check, and the leaves that read its targets, masks and marks by rows.
#![tactic(auto)]

ghost use Rattle.std.specs.Prelude.{◌≡◌, ◌≤◌, ◌<◌, length};
ghost use Rattle.numbers.specs.Limits.{highest_letter};
ghost use Rattle.lists.specs.Lists.{keep};
ghost use Rattle.format.specs.Bytes.{words, bitb};
ghost use Rattle.format.specs.Layout.{row_targets, mark_bit};
ghost use Rattle.model.specs.Values.{checked_of};
ghost use Rattle.property.specs.Property.{property_check_of, row_masks, zero_mask, ValidProperty};

use checking::{check_head, check_tables};
use format::{bit, edge_part, entry_at, row, table_at, total_of, word};
use model::Header;
use numbers::Reason;

// Applies the rules 1 to 11 in order; there is one mark table, and the total length counts the masks after it.
pub fn check_property(file: &[u8]) -> Result<Header, Reason>
    ensures { checked_of result ≡ property_check_of file.now }
{
    let h = check_head(file)?;
    check_tables(file, h, total_of(h.states, h.edges) + 2 * h.edges, 1)
}

// Some edge has a zero mask.
pub fn has_zero_mask(file: &[u8], h: Header) -> bool
    requires { ValidProperty file.now h }
    ensures { result ≡ zero_mask file.now }
{
    let m = h.edges;
    let masks = total_of(h.states, m);
    for e in 0..m {
        if entry_at(file, masks, e) == 0 {
            return true;
        }
    }
    false
}

// The part of the file that holds the targets of one state's row.
pub fn target_part(file: &[u8], h: Header, q: usize) -> &[u8]
    requires valid_property { ValidProperty file.now h }
    requires q_lt_states { q < h.states }
    ensures { words result.now ≡ row_targets file.now q }
{
    row(file, h.states, q)
}

// The part of the file that holds the masks of one state's row.
pub fn mask_part(file: &[u8], h: Header, q: usize) -> &[u8]
    requires valid_property { ValidProperty file.now h }
    requires q_lt_states { q < h.states }
    ensures { words result.now ≡ row_masks file.now q }
{
    edge_part(file, total_of(h.states, h.edges), q)
}

// The mask holds the letter: bit l of the mask is letter l.
pub fn mask_holds(mask: usize, letter: usize) -> bool
    requires { letter ≤ highest_letter }
    ensures { result ≡ bitb mask letter }
{
    (mask >> letter) % 2 == 1
}

// How many masks of a part hold the letter.
pub fn count_holding(masks: &[u8], letter: usize) -> usize
    requires { letter ≤ highest_letter }
    ensures { result ≡ length (keep (λ m. bitb m letter) (words masks.now)) }
{
    let count = masks.len() / 2;
    let mut held = 0;
    for k in 0..count {
        if mask_holds(word(masks, 2 * k), letter) {
            held += 1;
        }
    }
    held
}

// State q is marked in mark table 0, the only one.
pub fn property_marked(file: &[u8], h: Header, q: usize) -> bool
    requires valid_property { ValidProperty file.now h }
    requires q_lt_states { q < h.states }
    ensures { result ≡ mark_bit file.now 0 q }
{
    bit(file, table_at(h.states, h.edges, 0), q)
}
