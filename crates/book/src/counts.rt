// The counts of a book.

// How many junctions, districts, borders, border entries, district entries and words a book says that it has.
#[derive(Clone, Copy, PartialEq, Eq, Debug)]
pub struct Counts {
    pub junctions: u64,
    pub districts: u64,
    pub borders: u64,
    pub border_entries: u64,
    pub district_entries: u64,
    pub words: u64,
}
