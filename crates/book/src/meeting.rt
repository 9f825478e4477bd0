// Two rows of an opened book joined.
ghost use Rattle.std.specs.Prelude.{ℕ, List};
ghost use Rattle.book.specs.Opened.{IsBook, JoinsTwoRows};
ghost use Rattle.book.specs.Told.{JoinsBorderRows, RowsAreRows};

use super::Book;
use super::joining::join_rows;
use measure::Measure;

impl<'a> Book<'a> {
    // Two border rows joined: the best value that they give, and the first border that gives it.
    pub fn meet_border_rows<M: Measure>(&self, first: &[u64], second: &[u64]) -> Option<(u64, u64)>
        ensures { JoinsBorderRows M.Measure.scale self.now first.now second.now result }
    {
        let (value, rank) = join_rows::<M>(first, second)?;
        self.border(rank).map(|border| (value, border))
    }

    // Two district rows joined: the best value that they give, and the first junction that gives it.
    pub fn meet_district_rows<M: Measure>(
        &self,
        first: &[u64],
        second: &[u64],
    ) -> Option<(u64, u64)>
        ensures { JoinsTwoRows M.Measure.scale first.now second.now result }
    {
        join_rows::<M>(first, second)
    }
}

// The theorem that the rows which an opened book hands out are rows; the call itself does nothing.
pub fn rows_are_rows<M: Measure>()
    ensures { (ws : List ℕ) → IsBook M.Measure.scale ws → RowsAreRows M.Measure.scale ws }
{}
