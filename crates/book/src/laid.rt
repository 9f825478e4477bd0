// The words of a book of which no count is bad, and what stands in its sections.
ghost use Rattle.std.specs.Prelude.{◌≡◌, ◌+◌, ◌*◌, ◌<◌, ◌≤◌, length};
ghost use Rattle.book.specs.Bad.{entry_count, entry_word, offset};
ghost use Rattle.book.specs.Layout.{word, places_at, order_at};
ghost use Rattle.book.specs.Ready.{Ready};

use super::Span;
use super::names::Names;
use super::sections::Layout;

// Words, and the layout that the counts give with which they begin. No count is bad: so the words of all sections are there.
#[derive(Clone, Copy, PartialEq, Eq, Debug)]
pub(crate) struct Laid<'a> {
    pub(crate) words: &'a [u64],
    pub(crate) layout: Layout,
    ghost ready: { Ready words.now layout.counts },
}

impl<'a> Laid<'a> {
    // Word number j of a section.
    fn word_at(&self, section: Span, j: u64) -> u64
        requires { (j < section.length) × (section.total ≤ length self.now.words.now) }
        ensures { result ≡ word self.now.words.now (section.first + j) }
    {
        self.words[section.place(j) as usize]
    }

    // The district of junction j + 1.
    pub(crate) fn district(&self, j: u64) -> u64
        requires { j < self.now.layout.counts.junctions }
        ensures { result ≡ word self.now.words.now ((places_at self.now.layout.counts).first + j) }
    {
        self.word_at(self.layout.sections.places, j)
    }

    // The border of rank j.
    pub(crate) fn border(&self, j: u64) -> u64
        requires { j < self.now.layout.counts.borders }
        ensures { result ≡ word self.now.words.now ((order_at self.now.layout.counts).first + j) }
    {
        self.word_at(self.layout.sections.order, j)
    }

    // Offset number j of the rows of this kind.
    pub(crate) fn offset(&self, names: Names, j: u64) -> u64
        requires { j ≤ self.now.layout.counts.junctions }
        ensures { result ≡ offset self.now.words.now self.now.layout.counts names j }
    {
        self.word_at(self.layout.sections.offsets(names), j)
    }

    // Word number j of the entries of those rows.
    pub(crate) fn entry_word(&self, names: Names, j: u64) -> u64
        requires { j < 2 * entry_count self.now.layout.counts names }
        ensures { result ≡ entry_word self.now.words.now self.now.layout.counts names j }
    {
        self.word_at(self.layout.sections.entries(names), j)
    }
}
