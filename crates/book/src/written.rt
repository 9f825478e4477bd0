// The words of a network's book are a book.
ghost use Rattle.std.specs.Prelude.{ℕ, List, ◌++◌};
ghost use Rattle.network.specs.Networks.{Network, BorderOrder};
ghost use Rattle.book.specs.Words.{words};
ghost use Rattle.book.specs.Written.{Bookable, WordsAreABook};

use measure::Measure;

// The words of a network's book, under any border order, are a book that shows exactly its rows, whatever words come after them.
pub fn words_are_a_book<M: Measure>()
    ensures { (net : Network) (order more : List ℕ) → Bookable M.Measure.scale net → BorderOrder net order → WordsAreABook M.Measure.scale net order (words M.Measure.scale net order ++ more) }
{}
