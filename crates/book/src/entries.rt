// The rows of one kind, searched one after another for the first bad word of their entries.
ghost use Rattle.std.specs.Prelude.{◌≡◌, ◌-◌, ◌*◌, ◌≤◌};
ghost use Rattle.book.specs.Bad.{offset, entries_at, bad_entry, Finds};
ghost use Rattle.book.specs.Found.{FirstInPart};
ghost use Rattle.book.specs.Ready.{GoodOffsets};

use super::laid::Laid;
use super::names::Names;
use super::row::Row;
use measure::Measure;

// The rows of one kind, of which no offset is bad.
#[derive(Clone, Copy, PartialEq, Eq, Debug)]
pub(crate) struct Rows<'a> {
    pub(crate) laid: Laid<'a>,
    pub(crate) names: Names,
    ghost good: { GoodOffsets laid.words.now laid.layout.counts names },
}

impl<'a> Rows<'a> {
    // The row of a junction.
    fn row(&self, junction: u64) -> Row<'a>
        requires { (1 ≤ junction) × (junction ≤ self.now.laid.layout.counts.junctions) }
        ensures rows { result.rows ≡ self.now }
        ensures junction { result.junction ≡ junction }
    {
        Row {
            rows: *self,
            junction,
            from: self.laid.offset(self.names, junction - 1),
            to: self.laid.offset(self.names, junction),
        }
    }

    // The first bad word of the row of a junction.
    fn bad_in_row<M: Measure>(&self, junction: u64) -> Option<u64>
        requires { (1 ≤ junction) × (junction ≤ self.now.laid.layout.counts.junctions) }
        ensures { Finds (bad_entry M.Measure.scale self.now.laid.words.now self.now.laid.layout.counts self.now.names) (2 * offset self.now.laid.words.now self.now.laid.layout.counts self.now.names (junction - 1)) (2 * offset self.now.laid.words.now self.now.laid.layout.counts self.now.names junction) result }
    {
        self.row(junction).first_bad::<M>()
    }

    // The place of the first bad word of the entries.
    pub(crate) fn bad_entry<M: Measure>(&self) -> Option<u64>
        ensures { FirstInPart (entries_at self.now.laid.layout.counts self.now.names) (bad_entry M.Measure.scale self.now.laid.words.now self.now.laid.layout.counts self.now.names) result }
    {
        let entries = self.laid.layout.sections.entries(self.names);
        (1..self.laid.layout.counts.junctions + 1)
            .find_map(|junction| self.bad_in_row::<M>(junction))
            .map(|j| entries.place(j))
    }
}
