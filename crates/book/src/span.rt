// Where a section of a book lies.
ghost use Rattle.std.specs.Prelude.{◌≡◌, ◌+◌, ◌-◌, ◌<◌, ◌≤◌, min};

// A section of a book: the place of its first word, its length in words, and the number of all words of the book, past which it
// does not reach.
#[derive(Clone, Copy, PartialEq, Eq, Debug)]
pub struct Span {
    pub(crate) first: u64,
    pub(crate) length: u64,
    pub(crate) total: u64,
    ghost within: { first + length ≤ total },
}

impl Span {
    // The span with this first word and length, cut off where it would reach past the total.
    pub(crate) fn new(first: u64, length: u64, total: u64) -> Span
        ensures first { result.first ≡ min first total }
        ensures length { result.length ≡ min length (total - min first total) }
        ensures total { result.total ≡ total }
    {
        let first = first.min(total);
        let length = length.min(total - first);
        Span {
            first,
            length,
            total,
        }
    }

    // The span of this length that begins where this one ends, cut off in the same way.
    pub(crate) fn next(&self, length: u64) -> Span
        ensures first { result.first ≡ self.now.first + self.now.length }
        ensures length { result.length ≡ min length (self.now.total - (self.now.first + self.now.length)) }
        ensures total { result.total ≡ self.now.total }
    {
        Span::new(self.after(), length, self.total)
    }

    // The place of the span's word number j.
    pub(crate) fn place(&self, j: u64) -> u64
        requires { j < self.now.length }
        ensures { result ≡ self.now.first + j }
    {
        self.first + j
    }

    // The place after the span's last word.
    pub(crate) fn after(&self) -> u64
        ensures { result ≡ self.now.first + self.now.length }
    {
        self.first + self.length
    }
}
