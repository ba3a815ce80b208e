// Fills tables with something before a call, and looks whether they hold it.

// What a table can be filled with: zeros, nines, or numbers that are never 0 and not the same everywhere.
#[derive(Clone, Copy)]
pub enum Filling {
    Zeros,
    Nines,
    Varied,
}

impl From<usize> for Filling {
    // By its number: 0, 1, and any other.
    fn from(number: usize) -> Filling {
        match number {
            0 => Filling::Zeros,
            1 => Filling::Nines,
            _ => Filling::Varied,
        }
    }
}

impl Filling {
    // What stands at a place of a table with such a filling.
    fn at(self, place: usize) -> u16 {
        match self {
            Filling::Zeros => 0,
            Filling::Nines => 9,
            Filling::Varied => (place % 60000 + 7) as u16,
        }
    }
}

// What a working table that was filled with varied numbers must hold after a call: it is untouched after a refusal with
// 1 to 12, and zero after every other answer.
#[derive(Clone, Copy)]
pub struct Left(Filling);

impl From<usize> for Left {
    // After a refusal with a number, or 0 for an answer that is none.
    fn from(refusal: usize) -> Left {
        match refusal {
            1..=12 => Left(Filling::Varied),
            _ => Left(Filling::Zeros),
        }
    }
}

impl From<Option<u16>> for Left {
    // After a refusal, or after another answer.
    fn from(refusal: Option<u16>) -> Left {
        Left::from(refusal.map_or(0, usize::from))
    }
}

// Fills a table.
pub fn fill<F: Into<Filling>>(table: &mut [u16], filling: F) {
    let filling = filling.into();
    for (place, entry) in table.iter_mut().enumerate() {
        *entry = filling.at(place);
    }
}

// Whether a table holds its filling from a place on.
pub fn holds<F: Into<Filling>>(table: &[u16], from: usize, filling: F) -> bool {
    let filling = filling.into();
    (from..table.len()).all(|place| table[place] == filling.at(place))
}

// Whether the working table does not hold what it must after a refusal, or after another answer.
pub fn wrong_work<R: Into<Left>>(work: &[u16], refusal: R) -> bool {
    let Left(filling) = refusal.into();
    !holds(work, 0, filling)
}

// The entry at a place, 0 after the end.
pub fn entry(table: &[u16], at: usize) -> u16 {
    table.get(at).copied().unwrap_or(0)
}

// The first so many entries of a table, all of them if there are fewer.
pub fn first(table: &[u16], count: usize) -> &[u16] {
    &table[..count.min(table.len())]
}
