// One line of each kind, checked field by field from the left.
ghost use Rattle.std.specs.Prelude.{◌≡◌, ◌≤◌, [], ◌∷◌};
ghost use Rattle.roadtext.specs.Text.{fields, letter_of};
ghost use Rattle.roadtext.specs.Lines.{check, no_number, number_at, field_is, junction_checks, end_check, p_checks, a_checks, d_checks, q_checks, passed};
ghost use Rattle.roadtext.specs.Lines.{head_in, arc_in, move_in, ask_in};
ghost use Rattle.roadtext.specs.declared.fault.Cause.TheVariants.{Field};

use super::fault::Cause;
use super::fields::{Fields, cut, number};
use super::parts::{Arc, Ask, Head, LineFault, Move};
use drawing::{MOST_DISTRICTS, MOST_JUNCTIONS, Refusal};
use measure::Measure;

// The letter of a line: its first field, if that has one byte.
pub(crate) fn letter(line: &[u8]) -> Option<char>
    ensures { result ≡ letter_of (fields line.now) }
{
    match cut(Some(line)).0 {
        Some([b]) => Some(char::from(*b)),
        _ => None,
    }
}

// The number in field number `i`.
fn number_at(line: &Fields, i: u64) -> Result<u64, LineFault>
    requires { (2 ≤ i) × (i ≤ 5) }
    ensures { result ≡ passed (check i Field (no_number (fields line.now.line.now) i) ∷ []) (number_at (fields line.now.line.now) i) }
{
    line.field(i).and_then(number).ok_or(LineFault {
        field: i,
        cause: Cause::Field,
    })
}

// Faults a field for this cause, where a check of it fails.
pub(crate) fn fault_if(fails: bool, field: u64, cause: Cause) -> Result<(), LineFault>
    ensures { result ≡ passed (check field cause fails ∷ []) tt }
{
    if fails {
        Err(LineFault { field, cause })
    } else {
        Ok(())
    }
}

// The junction in field number `i`, of a drawing with so many. (`line` and `junctions` stay two parameters here and below: a struct
// of both would be made by each caller for one use.)
fn junction_at(line: &Fields, i: u64, junctions: u64) -> Result<u64, LineFault>
    requires { (2 ≤ i) × (i ≤ 5) }
    ensures { result ≡ passed (junction_checks junctions (fields line.now.line.now) i) (number_at (fields line.now.line.now) i) }
{
    let n = number_at(line, i)?;
    fault_if(
        n < 1 || n > junctions,
        i,
        Cause::Drawing(Refusal::NoJunction),
    )?;
    Ok(n)
}

// There is no field after number `i`.
fn end_after(line: &Fields, i: u64) -> Result<(), LineFault>
    requires { (1 ≤ i) × (i ≤ 4) }
    ensures { result ≡ passed (end_check (fields line.now.line.now) i ∷ []) tt }
{
    fault_if(line.field(i + 1).is_some(), i + 1, Cause::Field)
}

// Whether field 2 is the word `sp`.
fn has_sp(line: &Fields) -> bool
    ensures { result ≡ field_is (fields line.now.line.now) 2 (115 ∷ 112 ∷ []) }
{
    matches!(line.field(2), Some(b"sp"))
}

// `p sp N A`, with a junction table of so many entries.
pub(crate) fn read_head(line: &[u8], places: u64) -> Result<Head, LineFault>
    ensures { result ≡ passed (p_checks places (fields line.now)) (head_in (fields line.now)) }
{
    let fields = Fields::of(line);
    fault_if(!has_sp(&fields), 2, Cause::Field)?;
    let junctions = number_at(&fields, 3)?;
    let bad_count = junctions < 1 || junctions > MOST_JUNCTIONS;
    fault_if(bad_count, 3, Cause::Drawing(Refusal::BadCount))?;
    let too_short = Refusal::ShortTable { needed: junctions };
    fault_if(places < junctions, 3, Cause::Drawing(too_short))?;
    let arcs = number_at(&fields, 4)?;
    fault_if(arcs % 2 != 0, 4, Cause::Twin)?;
    end_after(&fields, 4)?;
    Ok(Head { junctions, arcs })
}

// `a U V W`: an arc from U to V with the value W.
pub(crate) fn read_arc<M: Measure>(line: &[u8], junctions: u64) -> Result<Arc, LineFault>
    ensures { result ≡ passed (a_checks M.Measure.scale junctions (fields line.now)) (arc_in (fields line.now)) }
{
    let fields = Fields::of(line);
    let from = junction_at(&fields, 2, junctions)?;
    let to = junction_at(&fields, 3, junctions)?;
    fault_if(from == to, 3, Cause::Drawing(Refusal::EndsAlike))?;
    let worth = number_at(&fields, 4)?;
    fault_if(!M::is_lawful(worth), 4, Cause::Drawing(Refusal::NotLawful))?;
    end_after(&fields, 4)?;
    Ok(Arc { from, to, worth })
}

// `d J D`: junction J lies in district D.
pub(crate) fn read_move(line: &[u8], junctions: u64) -> Result<Move, LineFault>
    ensures { result ≡ passed (d_checks junctions (fields line.now)) (move_in (fields line.now)) }
{
    let fields = Fields::of(line);
    let junction = junction_at(&fields, 2, junctions)?;
    let district = number_at(&fields, 3)?;
    fault_if(
        district >= MOST_DISTRICTS,
        3,
        Cause::Drawing(Refusal::NoDistrict),
    )?;
    end_after(&fields, 3)?;
    Ok(Move { junction, district })
}

// `q S T`: a distance is asked from S to T.
pub(crate) fn read_ask(line: &[u8], junctions: u64) -> Result<Ask, LineFault>
    ensures { result ≡ passed (q_checks junctions (fields line.now)) (ask_in (fields line.now)) }
{
    let fields = Fields::of(line);
    let from = junction_at(&fields, 2, junctions)?;
    let to = junction_at(&fields, 3, junctions)?;
    end_after(&fields, 3)?;
    Ok(Ask { from, to })
}
