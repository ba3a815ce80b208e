// The letter table of a combination: reason 16.
#![tactic(auto)]

ghost use Rattle.std.specs.Prelude.{◌≡◌};
ghost use Rattle.combine_letters.specs.Letters.{bad_letters};

use numbers::limit;

// Reason 16: there is not one letter per state, or a letter is above 15.
pub fn letters_broken(letters: &[u8], n: usize) -> bool
    ensures { result ≡ bad_letters n letters.now }
{
    letters.len() != n || letters.iter().any(|letter| limit::HIGHEST_LETTER < *letter)
}
