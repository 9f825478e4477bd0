// Why a call was refused.
ghost use Rattle.std.specs.Prelude.{◌≡◌, Some};
ghost use Rattle.drawing.specs.Refusals.{table_number, first_number, written};

use std::fmt;

// The tables in which a bad entry may be found, by their numbers in a refusal.
#[derive(Clone, Copy, PartialEq, Eq, Debug)]
pub enum Table {
    Junctions = 1,
    Roads = 2,
    Book = 3,
}

impl Table {
    // Which table it is, by the number that users know.
    fn number(self) -> u64
        ensures { result ≡ table_number self }
    {
        self as u64
    }
}

// A refusal. Its numbers, which users meet, are given by `numbers` in specs/Refusals.antt.
#[derive(Clone, Copy, PartialEq, Eq, Debug)]
pub enum Refusal {
    // another measure than the drawing or the book has
    OtherMeasure,
    // a count to start is 0 or over its limit
    BadCount,
    // a table has fewer entries than the call needs
    ShortTable { needed: u64 },
    // no junction has this number
    NoJunction,
    // no road has this number
    NoRoad,
    // no district has this number
    NoDistrict,
    // both ends of a road are one junction
    EndsAlike,
    // a road may not have this value
    NotLawful,
    // no road can be added, by the limit or for want of room in the table
    RoadsFull,
    // a push or a fill of what is done already
    NothingLeft,
    // a link or a write while work is left
    WorkLeft,
    // the words are fewer than the book has
    ShortBook { words: u64 },
    // the words are no book
    NoBook,
    // the first bad entry of a table
    BadEntry { table: Table, place: u64 },
}

impl Refusal {
    // Which refusal it is, by the number that users know.
    pub fn number(&self) -> u64
        ensures { result ≡ first_number self.now }
    {
        match self {
            Refusal::OtherMeasure => 1,
            Refusal::BadCount => 2,
            Refusal::ShortTable { .. } => 3,
            Refusal::NoJunction => 4,
            Refusal::NoRoad | Refusal::NoDistrict => 5,
            Refusal::EndsAlike => 6,
            Refusal::NotLawful => 7,
            Refusal::RoadsFull => 8,
            Refusal::NothingLeft | Refusal::WorkLeft => 9,
            Refusal::ShortBook { .. } => 10,
            Refusal::NoBook => 11,
            Refusal::BadEntry { .. } => 12,
        }
    }
}

// A refusal is written as its numbers, with a space between two.
impl fmt::Display for Refusal {
    ghost output = { λ r. Some (written r) };

    fn fmt<W: fmt::Write>(&self, f: &mut fmt::Formatter<W>) -> fmt::Result {
        match *self {
            // The number and the space after it are one piece, so that a writer that has no room for both takes neither.
            Refusal::ShortTable { needed } => write!(f, "3 {needed}"),
            Refusal::ShortBook { words } => write!(f, "10 {words}"),
            Refusal::BadEntry { table, place } => {
                let number = table.number();
                write!(f, "12 {number} {place}")
            }
            _ => {
                let number = self.number();
                write!(f, "{number}")
            }
        }
    }
}
