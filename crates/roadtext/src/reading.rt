// Reading a text into a drawing.
ghost use Rattle.roadtext.specs.Read.{ReadsTheText};

use super::asks::asks_in;
use super::checking::check;
use super::draw::draw;
use super::outcome::{Reading, Unread};
use super::parts::Room;
use drawing::{Junction, Road};
use measure::Measure;
use std::alloc::Global;

// Reads a road text: draws the network that it describes in the two tables, and answers the drawing with the asks. A text that is
// refused leaves both tables as they were. (Two tables, as every call of a drawing is lent them.)
pub fn read<M: Measure>(
    heap: Global,
    text: &[u8],
    junctions: &mut [Junction],
    roads: &mut [Road],
) -> Result<Reading, Unread>
    ensures { ReadsTheText M.Measure.scale text.now junctions.old roads.old result junctions.new roads.new }
{
    let room = Room::of(junctions, roads);
    let count = check::<M>(text, room)?;
    let asks = asks_in::<M>(heap, text, room)?;
    let Ok(drawing) = draw::<M>(text, count, junctions, roads) else {
        // nothing is refused in a text without fault
        unreachable!()
    };
    Ok(Reading { drawing, asks })
}
