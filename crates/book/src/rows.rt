// The rows of an opened book.
ghost use Rattle.std.specs.Prelude.{◌≡◌, not, [], ◌∷◌};
ghost use Rattle.drawing.specs.Edits.{within};
ghost use Rattle.drawing.specs.Outcomes.{refuse, verdict};
ghost use Rattle.drawing.specs.declared.refusal.Refusal.TheVariants.{NoJunction};
ghost use Rattle.book.specs.Opened.{HandsOutTheRow};
ghost use Rattle.book.specs.Parts.{IsPart, IsWord, IsStretch};
ghost use Rattle.book.specs.Sections.{offsets_of};
ghost use Rattle.book.specs.declared.names.Names.TheVariants.{Ranks, Hubs};
ghost use Rattle.measure.specs.Scale.{Scale};

use super::names::Names;
use super::{Book, Span};
use drawing::Refusal;

// The part of the words that the span says, where they are all there; of a book that was opened they are.
fn part(words: &[u64], span: Span) -> Result<&[u64], Refusal>
    ensures { IsPart words.now span result }
{
    if (words.len() as u64) < span.total {
        return Err(Refusal::NoBook);
    }
    Ok(&words[span.first as usize..span.after() as usize])
}

impl Span {
    // Of a section of entries, those from number `begin` to before number `end`.
    fn stretch(&self, begin: u64, end: u64) -> Span
        ensures { IsStretch self.now begin end result }
    {
        let first = self.first.saturating_add(begin.saturating_mul(2));
        let length = end.saturating_sub(begin).saturating_mul(2);
        Span::new(first, length, self.total)
    }
}

impl<'a> Book<'a> {
    // Word number j of a section. It is 0, and no `None`, where there is none: a book has no invariant of its own, by a rule of the
    // project, and of a book that was opened the word is there.
    pub(crate) fn word_in(&self, section: Span, j: u64) -> u64
        ensures { IsWord self.now.words.now section j result }
    {
        self.words
            .get(section.first.saturating_add(j) as usize)
            .copied()
            .unwrap_or(0)
    }

    // Refuses a number that no junction of the book has.
    pub(crate) fn check_junction(&self, junction: u64) -> Result<(), Refusal>
        ensures { result ≡ verdict (refuse NoJunction (not (within 1 self.now.layout.counts.junctions junction)) ∷ []) }
    {
        if (1..=self.layout.counts.junctions).contains(&junction) {
            Ok(())
        } else {
            Err(Refusal::NoJunction)
        }
    }

    // Offset number j of the rows with these names.
    fn offset(&self, names: Names, j: u64) -> u64
        ensures { IsWord self.now.words.now (offsets_of self.now.layout.sections names) j result }
    {
        self.word_in(self.layout.sections.offsets(names), j)
    }

    // The row of a junction, among the rows with these names.
    fn row(&self, names: Names, junction: u64) -> Result<&'a [u64], Refusal>
        ensures { (s : Scale) → HandsOutTheRow s names self.now junction result }
    {
        self.check_junction(junction)?;
        let begin = self.offset(names, junction - 1);
        let end = self.offset(names, junction);
        part(
            self.words,
            self.layout.sections.entries(names).stretch(begin, end),
        )
    }

    // The border row of a junction: its hubs are ranks in the border order. (One line on `row`, as the next: each kind of row has a
    // call of its own, and `Names` stays within the crate.)
    pub fn border_row(&self, junction: u64) -> Result<&'a [u64], Refusal>
        ensures { (s : Scale) → HandsOutTheRow s Ranks self.now junction result }
    {
        self.row(Names::Ranks, junction)
    }

    // The district row of a junction: its hubs are junctions.
    pub fn district_row(&self, junction: u64) -> Result<&'a [u64], Refusal>
        ensures { (s : Scale) → HandsOutTheRow s Hubs self.now junction result }
    {
        self.row(Names::Hubs, junction)
    }
}
