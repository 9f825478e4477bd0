// One row of a book, searched for its first bad word.
ghost use Rattle.std.specs.Prelude.{◌≡◌, ◌+◌, ◌*◌, ◌<◌, ◌≤◌};
ghost use Rattle.book.specs.Bad.{right_name, bad_value, bad_entry, Finds};
ghost use Rattle.book.specs.InRow.{Lies, bad_name_in, bad_word_in};

use super::entries::Rows;
use super::names::Names;
use measure::Measure;

// One of the rows of a kind: of which junction it is, and the numbers of its first entry and of the one after its last.
#[derive(Clone, Copy, PartialEq, Eq, Debug)]
pub(crate) struct Row<'a> {
    pub(crate) rows: Rows<'a>,
    pub(crate) junction: u64,
    pub(crate) from: u64,
    pub(crate) to: u64,
    ghost lies: { Lies rows.laid.words.now rows.laid.layout.counts rows.names junction from to },
}

// Whether the value of an entry is no value of the measure, or none.
fn is_bad_value<M: Measure>(value: u64) -> bool
    ensures { result ≡ bad_value M.Measure.scale value }
{
    !M::is_value(value) || value == M::NONE
}

impl<'a> Row<'a> {
    // Whether a hub's name is right in this row.
    fn is_right_name(&self, name: u64) -> bool
        ensures { result ≡ right_name self.now.rows.laid.words.now self.now.rows.laid.layout.counts self.now.rows.names self.now.junction name }
    {
        match self.rows.names {
            Names::Ranks => name < self.rows.laid.layout.counts.borders,
            Names::Hubs => {
                1 <= name
                    && name <= self.rows.laid.layout.counts.junctions
                    && self.rows.laid.district(name - 1)
                        == self.rows.laid.district(self.junction - 1)
            }
        }
    }

    // Whether the name in entry number `number` is bad.
    fn is_bad_name(&self, number: u64) -> bool
        requires { (self.now.from ≤ number) × (number < self.now.to) }
        ensures { result ≡ bad_name_in self.now.rows.laid.words.now self.now.rows.laid.layout.counts self.now.rows.names self.now.junction self.now.from number }
    {
        let name = self.rows.laid.entry_word(self.rows.names, 2 * number);
        !self.is_right_name(name)
            || (number != self.from
                && name <= self.rows.laid.entry_word(self.rows.names, 2 * (number - 1)))
    }

    // The first bad word of entry number `number`.
    fn bad_in_entry<M: Measure>(&self, number: u64) -> Option<u64>
        requires { (self.now.from ≤ number) × (number < self.now.to) }
        ensures { Finds (bad_word_in M.Measure.scale self.now.rows.laid.words.now self.now.rows.laid.layout.counts self.now.rows.names self.now.junction self.now.from) (2 * number) (2 * (number + 1)) result }
    {
        if self.is_bad_name(number) {
            Some(2 * number)
        } else if is_bad_value::<M>(self.rows.laid.entry_word(self.rows.names, 2 * number + 1)) {
            Some(2 * number + 1)
        } else {
            None
        }
    }

    // The first bad word of the row.
    pub(crate) fn first_bad<M: Measure>(&self) -> Option<u64>
        ensures { Finds (bad_entry M.Measure.scale self.now.rows.laid.words.now self.now.rows.laid.layout.counts self.now.rows.names) (2 * self.now.from) (2 * self.now.to) result }
    {
        (self.from..self.to).find_map(|number| self.bad_in_entry::<M>(number))
    }
}
