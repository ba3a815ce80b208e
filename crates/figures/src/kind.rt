ghost use Rattle.std.specs.Prelude.{◌≡◌};

// The kinds of answers that are no refusals, each with its number.
#[derive(Clone, Copy, PartialEq, Eq)]
pub enum Kind {
    // A table that every answer needs is too short.
    OutTooShort = 100,

    // The search was stopped.
    Stopped = 101,

    // A list was found.
    Found = 102,

    // There is no list within the ceiling.
    NoneWithin = 103,

    // No list follows.
    NoMore = 104,

    // No candidate is left.
    Finished = 105,

    // One more round was done.
    Advanced = 106,

    // So much was written.
    Written = 107,

    // The list is no accepting path.
    False = 108,

    // The list is an accepting path, but not of least length.
    Accepting = 109,

    // The list is a shortest accepting path.
    Shortest = 110,
}

impl From<Kind> for u16 {
    ghost use Rattle.figures.specs.Numbered.{kind_number};

    ghost from_gives = { λ kind n. n ≡ kind_number kind };

    // The number of the kind.
    fn from(kind: Kind) -> u16 {
        kind as u16
    }
}
