// The entries of the two tables that a drawing is lent, and the parts of these that are in use.
ghost use Rattle.std.specs.Prelude.{◌≡◌, [], ◌∷◌, length, take};
ghost use Rattle.drawing.specs.Edits.{size_check};
ghost use Rattle.drawing.specs.Outcomes.{verdict, Ends};

use super::Refusal;

// A junction's entry: the district in which it lies. Junction 1 has the first.
#[derive(Clone, Copy, PartialEq, Eq, Debug, Default)]
pub struct Junction {
    pub district: u64,
}

// Whether a road may be used.
#[derive(Clone, Copy, PartialEq, Eq, Debug, Default)]
pub enum Mark {
    Open,
    #[default]
    Closed,
}

// A road's record: the junctions at its two ends, its value and its mark. Road 1 has the first.
#[derive(Clone, Copy, PartialEq, Eq, Debug, Default)]
pub struct Road {
    pub first: u64,
    pub second: u64,
    pub value: u64,
    pub mark: Mark,
}

// The entries of a table that are in use, the first so many; or the refusal of a table that is too short.
pub(crate) fn used<T>(table: &[T], needed: u64) -> Result<&[T], Refusal>
    ensures { Ends (verdict (size_check needed (length table.now) ∷ [])) result (Unit {0}) (λ part. part.now ≡ take needed table.now) }
{
    table
        .get(..needed as usize)
        .ok_or(Refusal::ShortTable { needed })
}
