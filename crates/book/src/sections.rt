// The six sections of a book, each beginning where the one before it ends.
ghost use Rattle.std.specs.Prelude.{◌≡◌};
ghost use Rattle.book.specs.Bad.{entry_count};
ghost use Rattle.book.specs.Found.{Few};
ghost use Rattle.book.specs.Layout.{total};
ghost use Rattle.book.specs.Sections.{HasSections, offsets_of, entries_of};

use super::names::Names;
use super::{Counts, Span};

// Where the six sections of a book lie: the district of each junction, the border order, the offsets of the border rows, the
// border entries, the offsets of the district rows, the district entries.
#[derive(Clone, Copy, PartialEq, Eq, Debug)]
pub(crate) struct Sections {
    pub(crate) places: Span,
    pub(crate) order: Span,
    pub(crate) border_offsets: Span,
    pub(crate) border_entries: Span,
    pub(crate) district_offsets: Span,
    pub(crate) district_entries: Span,
}

impl Sections {
    // The offsets of the rows of this kind.
    pub(crate) fn offsets(&self, names: Names) -> Span
        ensures { result ≡ offsets_of self.now names }
    {
        match names {
            Names::Ranks => self.border_offsets,
            Names::Hubs => self.district_offsets,
        }
    }

    // The entries of those rows.
    pub(crate) fn entries(&self, names: Names) -> Span
        ensures { result ≡ entries_of self.now names }
    {
        match names {
            Names::Ranks => self.border_entries,
            Names::Hubs => self.district_entries,
        }
    }
}

// The counts of a book, and the sections that they give.
#[derive(Clone, Copy, PartialEq, Eq, Debug)]
pub(crate) struct Layout {
    pub(crate) counts: Counts,
    pub(crate) sections: Sections,
    ghost laid: { HasSections counts sections },
}

impl Counts {
    // The layout of a book with these counts.
    pub(crate) fn layout(self) -> Layout
        requires few { Few self }
        requires words { self.words ≡ total self }
        ensures { result.counts ≡ self }
    {
        let places = Span::new(8, self.junctions, self.words);
        let order = places.next(self.borders);
        let border_offsets = order.next(self.junctions + 1);
        let border_entries = border_offsets.next(2 * self.border_entries);
        let district_offsets = border_entries.next(self.junctions + 1);
        let district_entries = district_offsets.next(2 * self.district_entries);
        Layout {
            counts: self,
            sections: Sections {
                places,
                order,
                border_offsets,
                border_entries,
                district_offsets,
                district_entries,
            },
        }
    }

    // How many entries the rows of this kind have.
    pub(crate) fn entry_count(&self, names: Names) -> u64
        ensures { result ≡ entry_count self.now names }
    {
        match names {
            Names::Ranks => self.border_entries,
            Names::Hubs => self.district_entries,
        }
    }
}
