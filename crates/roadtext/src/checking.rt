// Checking a text: every line is looked at, and nothing is drawn.
ghost use Rattle.std.specs.Prelude.{◌≡◌, IfOk};
ghost use Rattle.roadtext.specs.Checked.{junctions_read};
ghost use Rattle.roadtext.specs.Reading.{read_text};
ghost use Rattle.roadtext.specs.Steps.{Startable};

use super::fault::{Cause, Fault};
use super::parts::Room;
use super::walk::Walk;
use measure::Measure;

// A text has at most so many bytes.
pub const MOST_BYTES: usize = 65_536;

// Checks a road text for tables with this room: the number of its junctions, or its first fault.
pub fn check<M: Measure>(text: &[u8], room: Room) -> Result<u64, Fault>
    ensures reads { result ≡ junctions_read (read_text M.Measure.scale room text.now) }
    ensures counts { IfOk result (λ n. Startable room.places n) }
{
    // The rules give such a fault the line 0 and the field 0.
    if text.len() > MOST_BYTES {
        return Err(Fault {
            line: 0,
            field: 0,
            cause: Cause::TooLong,
        });
    }
    let mut walk = Walk::<M>::over(text, room);
    // No `for`: the proof does not know the walk after a loop over `&mut walk` (tried), and its end is needed.
    while let Some(event) = walk.next() {
        event?;
    }
    walk.ended()
}
