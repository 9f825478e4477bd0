// Opening a book.
ghost use Rattle.std.specs.Prelude.{◌≡◌, ◌<◌, ◌≤◌, ◌++◌, take};
ghost use Rattle.book.specs.Bad.{count_faults, bad_district, bad_border, bad_offset, offsets_at, place_parts, row_parts};
ghost use Rattle.book.specs.Found.{first_true, FirstIn, FirstInPart, Few, MarkTheBorders};
ghost use Rattle.book.specs.Layout.{counts_of, total, words_in, places_at, order_at};
ghost use Rattle.book.specs.Opened.{open_checks, OpensExactlyBooks};
ghost use Rattle.book.specs.declared.names.Names.TheVariants.{Ranks, Hubs};
ghost use Rattle.book.specs.Ready.{GoodOffsets};
ghost use Rattle.drawing.specs.declared.refusal.Refusal.TheVariants.{BadEntry};
ghost use Rattle.drawing.specs.declared.refusal.Table.TheVariants.{Book as of_the_book};
ghost use Rattle.drawing.specs.Outcomes.{verdict, Ends};

use super::entries::Rows;
use super::laid::Laid;
use super::names::Names;
use super::{Book, Counts};
use drawing::{MOST_DISTRICTS, MOST_JUNCTIONS, Marks, Refusal, Table};
use measure::Measure;

// The counts that the words begin with, if these have what they must have before any of them can be bad: the book's number, the
// measure's tag, and as many words as they say.
fn read_counts<M: Measure>(words: &[u64]) -> Result<Counts, Refusal>
    ensures { Ends (verdict (open_checks M.Measure.scale words.now)) result (Unit {0}) (λ c. c ≡ counts_of words.now) }
{
    let &[
        1,
        tag,
        junctions,
        districts,
        borders,
        border_entries,
        district_entries,
        said,
        ..
    ] = words
    else {
        return Err(Refusal::NoBook);
    };
    if tag != M::TAG {
        return Err(Refusal::OtherMeasure);
    }
    if (words.len() as u64) < said {
        return Err(Refusal::ShortBook { words: said });
    }
    Ok(Counts {
        junctions,
        districts,
        borders,
        border_entries,
        district_entries,
        words: said,
    })
}

impl Counts {
    // How many words a book with these counts has.
    fn total_words(&self) -> u64
        requires { Few self.now }
        ensures { result ≡ total self.now }
    {
        10 + 3 * self.junctions + self.borders + 2 * self.border_entries + 2 * self.district_entries
    }

    // The place of the first bad count: they are words 2 to 7.
    fn first_bad(&self) -> Option<u64>
        ensures { result ≡ first_true 0 (count_faults self.now) }
    {
        if self.junctions < 1 || self.junctions > MOST_JUNCTIONS {
            return Some(2);
        }
        if self.districts < 1 || self.districts > MOST_DISTRICTS {
            return Some(3);
        }
        if self.borders > self.junctions {
            return Some(4);
        }
        if self.border_entries > self.junctions * self.borders {
            return Some(5);
        }
        if self.district_entries > self.junctions * self.junctions {
            return Some(6);
        }
        if self.words != self.total_words() {
            return Some(7);
        }
        None
    }
}

impl<'a> Laid<'a> {
    // Whether the district of junction j + 1 is bad.
    fn is_bad_district(&self, j: u64) -> bool
        requires { j < self.now.layout.counts.junctions }
        ensures { result ≡ bad_district self.now.words.now self.now.layout.counts j }
    {
        self.district(j) >= self.layout.counts.districts
    }

    // The place of the first bad district.
    fn bad_district(&self) -> Option<u64>
        ensures { FirstInPart (places_at self.now.layout.counts) (bad_district self.now.words.now self.now.layout.counts) result }
    {
        let places = self.layout.sections.places;
        (0..self.layout.counts.junctions)
            .find(|&j| self.is_bad_district(j))
            .map(|j| places.place(j))
    }

    // Whether the border of rank j is bad, where the borders before it are marked.
    fn is_bad_border(&self, seen: &Marks, j: u64) -> bool
        requires { (j < self.now.layout.counts.borders) × (MarkTheBorders seen.now (take j (words_in (order_at self.now.layout.counts) self.now.words.now))) }
        ensures { result ≡ bad_border self.now.words.now self.now.layout.counts j }
    {
        let border = self.border(j);
        border < 1 || border > self.layout.counts.junctions || seen.has(border)
    }

    // The place of the first bad border.
    fn bad_border(&self) -> Option<u64>
        ensures { FirstInPart (order_at self.now.layout.counts) (bad_border self.now.words.now self.now.layout.counts) result }
    {
        let order = self.layout.sections.order;
        let mut seen = Marks::new();
        // A loop: each round marks a border too, and a `find` whose closure does that would be no plainer.
        for j in 0..self.layout.counts.borders {
            if self.is_bad_border(&seen, j) {
                return Some(order.place(j));
            }
            seen.mark(self.border(j));
        }
        None
    }

    // The place of the first bad word of the districts and the border order.
    fn bad_place(&self) -> Option<u64>
        ensures { FirstIn (place_parts self.now.words.now self.now.layout.counts) result }
    {
        // A match and no `or_else`: tried, bare, with a clause of its own, with `move` and through a wrapper, and no proof learns what
        // the closure answered.
        match self.bad_district() {
            Some(place) => Some(place),
            None => self.bad_border(),
        }
    }

    // Whether offset number j is bad.
    fn is_bad_offset(&self, names: Names, j: u64) -> bool
        requires { j ≤ self.now.layout.counts.junctions }
        ensures { result ≡ bad_offset self.now.words.now self.now.layout.counts names j }
    {
        let offset = self.offset(names, j);
        let falls = if j == 0 {
            offset != 0
        } else {
            offset < self.offset(names, j - 1)
        };
        let entries = self.layout.counts.entry_count(names);
        falls || offset > entries || (j == self.layout.counts.junctions && offset != entries)
    }

    // The place of the first bad offset of the rows of this kind.
    fn bad_offset(&self, names: Names) -> Option<u64>
        ensures { FirstInPart (offsets_at self.now.layout.counts names) (bad_offset self.now.words.now self.now.layout.counts names) result }
    {
        let offsets = self.layout.sections.offsets(names);
        (0..self.layout.counts.junctions + 1)
            .find(|&j| self.is_bad_offset(names, j))
            .map(|j| offsets.place(j))
    }

    // The place of the first bad word of those rows.
    fn bad_row<M: Measure>(&self, names: Names) -> Option<u64>
        ensures { FirstIn (row_parts M.Measure.scale self.now.words.now self.now.layout.counts names) result }
    {
        self.bad_offset(names).or_else(
            ||
                requires { GoodOffsets self.now.words.now self.now.layout.counts names }
            { Rows { laid: *self, names }.bad_entry::<M>() },
        )
    }

    // The place of the first bad word after the counts.
    fn first_bad<M: Measure>(&self) -> Option<u64>
        ensures { FirstIn (place_parts self.now.words.now self.now.layout.counts ++ (row_parts M.Measure.scale self.now.words.now self.now.layout.counts Ranks ++ row_parts M.Measure.scale self.now.words.now self.now.layout.counts Hubs)) result }
    {
        self.bad_place()
            .or_else(|| self.bad_row::<M>(Names::Ranks))
            .or_else(|| self.bad_row::<M>(Names::Hubs))
    }
}

// The refusal of words of which the one at this place is bad.
fn bad_word(place: u64) -> Refusal
    ensures { result ≡ BadEntry of_the_book place }
{
    Refusal::BadEntry {
        table: Table::Book,
        place,
    }
}

// Opens the book that the words begin with.
pub fn open<M: Measure>(words: &[u64]) -> Result<Book<'_>, Refusal>
    ensures { OpensExactlyBooks M.Measure.scale words.now result }
{
    let counts = read_counts::<M>(words)?;
    if let Some(place) = counts.first_bad() {
        return Err(bad_word(place));
    }
    let layout = counts.layout();
    let laid = Laid { words, layout };
    if let Some(place) = laid.first_bad::<M>() {
        return Err(bad_word(place));
    }
    Ok(Book { words, layout })
}
