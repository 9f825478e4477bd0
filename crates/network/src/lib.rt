// Walks, best values, borders and rows, and why two short rows answer every pair. Each theorem is a function that does nothing.
#![tactic(auto)]

ghost use Rattle.std.specs.Prelude.{ℕ, List};
ghost use Rattle.network.specs.Networks.{Network, Sound, borders, BorderOrder};
ghost use Rattle.network.specs.Theorems.{Allowed, BestIsWellDefined, BorderRowsAnswer, DistrictRowsAnswer, OffersGiveBest};
ghost use Rattle.network.specs.Theorems.{EveryEntryIsNeeded, CellsFollowFromEntries, RowsAscend};
ghost use Rattle.network.specs.Worked.{AllHold, network_cases};
ghost use Rattle.network.specs.Misleading.{RowsWithoutShortcutsMislead, KeptTiesAddEntries};

use measure::Measure;

// What is computed as the best value is the best over all walks, and no other value is.
pub fn best_is_well_defined<M: Measure>()
    ensures { (net : Network) → Allowed M.Measure.scale net → BestIsWellDefined M.Measure.scale net }
{}

// The borders, ascending, are a border order.
pub fn borders_are_an_order<M: Measure>()
    ensures { (net : Network) → Sound M.Measure.scale net → BorderOrder net (borders net) }
{}

// Between junctions of two districts, their border rows joined give the best value, whatever the order of the borders.
pub fn border_rows_answer<M: Measure>()
    ensures { (net : Network) (order : List ℕ) → Allowed M.Measure.scale net → BorderOrder net order → BorderRowsAnswer M.Measure.scale net order }
{}

// Between two junctions of a district, their district rows joined give the best value, which is that of the district's network.
pub fn district_rows_answer<M: Measure>()
    ensures { (net : Network) → Allowed M.Measure.scale net → DistrictRowsAnswer M.Measure.scale net }
{}

// Between two junctions of a district, best is the best over walks inside it that begin at the first of them, or at a border
// with the best value to it.
pub fn offers_give_best<M: Measure>()
    ensures { (net : Network) → Allowed M.Measure.scale net → OffersGiveBest M.Measure.scale net }
{}

// Without any one of its entries, a row joined with the row of that entry's hub falls short.
pub fn every_entry_is_needed<M: Measure>()
    ensures { (net : Network) (order : List ℕ) → Allowed M.Measure.scale net → EveryEntryIsNeeded M.Measure.scale net order }
{}

// A cell can be told from the best value and the entries of two rows.
pub fn cells_follow_from_entries<M: Measure>()
    ensures { (net : Network) (order : List ℕ) → Allowed M.Measure.scale net → CellsFollowFromEntries M.Measure.scale net order }
{}

// Rows ascend, and have values other than none.
pub fn rows_ascend<M: Measure>()
    ensures { (net : Network) (order : List ℕ) → Allowed M.Measure.scale net → RowsAscend M.Measure.scale net order }
{}

// The borders, border rows, shortcuts and district rows of a network of six junctions, worked out.
pub fn six_junctions_worked_out()
    ensures { AllHold network_cases }
{}

// District rows that are made without shortcuts give a longer way for the best.
pub fn rows_without_shortcuts_mislead()
    ensures { RowsWithoutShortcutsMislead }
{}

// A rule that keeps a cell where an earlier hub ties adds entries.
pub fn kept_ties_add_entries()
    ensures { KeptTiesAddEntries }
{}
