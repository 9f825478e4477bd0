// What an opened book tells of itself: its counts, and its districts and borders.
ghost use Rattle.book.specs.Told.{TellsTheCounts, TellsTheDistrict, TellsTheBorder};
ghost use Rattle.measure.specs.Scale.{Scale};

use super::{Book, Counts};
use drawing::Refusal;

impl<'a> Book<'a> {
    // How many junctions, districts, borders, entries and words the book has.
    pub fn counts(&self) -> Counts
        ensures { TellsTheCounts self.now result }
    {
        self.layout.counts
    }

    // The district of a junction.
    pub fn district(&self, junction: u64) -> Result<u64, Refusal>
        ensures { (s : Scale) → TellsTheDistrict s self.now junction result }
    {
        self.check_junction(junction)?;
        Ok(self.word_in(self.layout.sections.places, junction - 1))
    }

    // The junction that has this rank in the border order.
    pub fn border(&self, rank: u64) -> Option<u64>
        ensures { (s : Scale) → TellsTheBorder s self.now rank result }
    {
        if rank >= self.layout.counts.borders {
            return None;
        }
        Some(self.word_in(self.layout.sections.order, rank))
    }
}
