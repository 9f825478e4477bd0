// Theorems about what a text means. Each is a function that does nothing.
ghost use Rattle.std.specs.Prelude.{ℕ, List};
ghost use Rattle.roadtext.specs.FirstFault.{FaultIsTheFirst};
ghost use Rattle.roadtext.specs.Written.{Writable, ReadsBack};

use super::parts::{Arc, Ask, Move, Room};
use measure::Measure;

// A text is refused with its first fault and no other, and read where it has none.
pub fn fault_is_the_first<M: Measure>()
    ensures { (room : Room) (text : List ℕ) → FaultIsTheFirst M.Measure.scale room text }
{}

// A network within the limits and its asks, written out as a text of at most 65,536 bytes, are read back, whatever comments
// stand between the lines.
pub fn written_networks_read_back<M: Measure>()
    ensures { (room : Room) (n : ℕ) (roads : List Arc) (moves : List Move) (asks : List Ask) → Writable M.Measure.scale room n roads moves asks → ReadsBack M.Measure.scale room n roads moves asks }
{}
