// Sets of small numbers and lists of small numbers, each held in one number. A list has one hexadecimal digit for each
// entry, the last entry lowest, so lists of equal length compare as their numbers do. Numbers, not tables: what is compared
// with the library keeps its data in another form than the library does.
ghost use Rattle.std.specs.Prelude.{◌≤◌, ◌<◌};

// The set that holds one number below 64.
pub fn bit(at: usize) -> u64 {
    if at < 64 { 1 << at } else { 0 }
}

// The set of the numbers below one, up to seven.
pub fn below(end: usize) -> u64 {
    !(u64::MAX << end.min(7))
}

// Whether a set holds a number.
pub fn holds(set: u64, at: usize) -> bool {
    set & bit(at) != 0
}

// How many numbers a set holds.
pub fn size(set: u64) -> usize
    ensures { result ≤ 64 }
{
    set.count_ones() as usize
}

// The number at a place of a set in ascending order.
pub fn member(set: u64, place: usize) -> Option<usize> {
    (0..64).filter(|at| holds(set, *at)).nth(place)
}

// The numbers of a set that are below one.
pub fn lower(set: u64, end: usize) -> u64 {
    if end < 64 {
        set & !(u64::MAX << end)
    } else {
        set
    }
}

// The digit at a place, place 0 being the lowest.
pub fn digit(list: u64, place: usize) -> usize
    ensures { result < 16 }
{
    if place < 16 {
        ((list >> (4 * place)) % 16) as usize
    } else {
        0
    }
}

// A digit moved up to a place.
pub fn digit_at(value: usize, place: usize) -> u64 {
    if place < 16 {
        ((value % 16) as u64) << (4 * place)
    } else {
        0
    }
}

// The list with another digit at a place.
pub fn with_digit(list: u64, place: usize, value: usize) -> u64 {
    list ^ digit_at(digit(list, place), place) ^ digit_at(value, place)
}

// The list with one entry more at its end.
pub fn and(list: u64, value: usize) -> u64 {
    (list << 4) ^ digit_at(value, 0)
}
