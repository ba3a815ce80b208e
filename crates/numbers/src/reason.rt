ghost use Rattle.std.specs.Prelude.{◌≡◌};

// The reasons to refuse a call, each with its number.
#[derive(Clone, Copy, PartialEq, Eq)]
pub enum Reason {
    // The file has fewer bytes than its header.
    ShortFile = 1,

    // The file has no state, or too many.
    BadStates = 2,

    // The file has too many edges.
    BadEdges = 3,

    // The initial state is not one of the states.
    BadStart = 4,

    // The word that says whether a state without edges stays is neither 0 nor 1.
    BadStays = 5,

    // An offset or the total length is not as the header gives it.
    BadOffsets = 6,

    // The file is not as long as it says.
    BadLength = 7,

    // The row entries do not ascend from 0 to the number of edges.
    BadRows = 8,

    // A target is not one of the states.
    BadTargets = 9,

    // The targets of a row do not ascend.
    BadOrder = 10,

    // A spare bit of the marks is set.
    BadSpare = 11,

    // The working table is too small.
    SmallTable = 12,

    // The earlier list is not one of the shortest accepting paths.
    NotShortest = 13,

    // The shortest accepting paths are too long.
    TooLong = 14,

    // The table or the output is too short for what is to be written.
    NoRoom = 15,

    // The letter table does not give each state of the rule a letter.
    BadLetters = 16,

    // The property file is refused.
    BadProperty = 17,

    // The combined model has too many states or edges.
    TooLarge = 18,

    // The ceiling is too high.
    HighCeiling = 21,

    // There is no mark table with the number that is named.
    NoTable = 22,
}

impl From<Reason> for u16 {
    ghost use Rattle.numbers.specs.Numbered.{number_of};

    ghost from_gives = { λ reason n. n ≡ number_of reason };

    // The number of the reason.
    fn from(reason: Reason) -> u16 {
        reason as u16
    }
}
