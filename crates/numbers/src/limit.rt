// The limits of files, calls and programs.

// The most states of a model.
pub const MOST_STATES: usize = 4096;

// The most edges of a model.
pub const MOST_EDGES: usize = 8192;

// The highest ceiling that a call may be given.
pub const HIGHEST_CEILING: u16 = 4096;

// The edges of the longest accepting path that is ever written.
pub const LONGEST_PATH: u16 = 4096;

// An allowance that no search uses up: no model has as many candidates.
pub const ALL_ROUNDS: u16 = 65535;

// The entry of a state that has no distance up to the ceiling.
pub const NOT_REACHED: u16 = 65535;

// The highest letter that a state of a rule can have.
pub const HIGHEST_LETTER: u8 = 15;

// One more than the longest model file has.
pub const FILE_BYTES: usize = 25_627;

// One more than the longest letter table has.
pub const LETTERS_BYTES: usize = 4_097;

// One more than the longest property file has.
pub const PROPERTY_BYTES: usize = 41_499;

// The bytes of a combined model file: no model file with one mark table has more.
pub const OUTPUT_BYTES: usize = 25_114;

// The entries of an answer table that every accepting path fits into.
pub const ANSWER_ENTRIES: usize = 4097;

// The entries of a working table that is large enough for every file.
pub const WORK_ENTRIES: usize = 24576;

// The most lists that a desk sheet prints.
pub const MOST_LISTS: usize = 20;

// The bytes that are asked for a desk sheet: none is longer.
pub const SHEET_ROOM: usize = 410_000;
