// What road text is made of, as it is read.
ghost use Rattle.std.specs.Prelude.{◌≡◌};
ghost use Rattle.roadtext.specs.Reading.{fault_at, reversed};
ghost use Rattle.roadtext.specs.Read.{room_of};

use super::fault::{Cause, Fault};
use drawing::{Junction, Road};

// The room there is: entries of the junction table, records of the road table.
#[derive(Clone, Copy, PartialEq, Eq, Debug)]
pub struct Room {
    pub places: u64,
    pub records: u64,
}

impl Room {
    // The room that there is in two tables.
    pub(crate) fn of(junctions: &[Junction], roads: &[Road]) -> Room
        ensures { result ≡ room_of junctions.now roads.now }
    {
        Room {
            places: junctions.len() as u64,
            records: roads.len() as u64,
        }
    }
}

// An arc line: from one junction to another, with a value. A road is read as its first arc.
#[derive(Clone, Copy, PartialEq, Eq, Debug)]
pub struct Arc {
    pub from: u64,
    pub to: u64,
    pub worth: u64,
}

impl Arc {
    // The arc with its ends exchanged, which is its twin.
    pub(crate) fn reversed(self) -> Arc
        ensures { result ≡ reversed self }
    {
        Arc {
            from: self.to,
            to: self.from,
            worth: self.worth,
        }
    }
}

// A `d` line: a junction lies in a district.
#[derive(Clone, Copy, PartialEq, Eq, Debug)]
pub struct Move {
    pub junction: u64,
    pub district: u64,
}

// A `q` line: a distance is asked from one junction to another.
#[derive(Clone, Copy, PartialEq, Eq, Debug)]
pub struct Ask {
    pub from: u64,
    pub to: u64,
}

// The `p` line: the number of junctions, and of arc lines to come.
#[derive(Clone, Copy, PartialEq, Eq, Debug)]
pub(crate) struct Head {
    pub junctions: u64,
    pub arcs: u64,
}

// A fault of a line: the cause, and the field, counted from 1. (The cause comes first, so that it lies at the same place in a fault
// and in a result that holds one: moving faults then costs less.)
#[derive(Clone, Copy, PartialEq, Eq, Debug)]
pub(crate) struct LineFault {
    pub cause: Cause,
    pub field: u64,
}

impl LineFault {
    // The fault, with the number of its line.
    pub(crate) fn at(self, line: u64) -> Fault
        ensures { result ≡ fault_at line self }
    {
        Fault {
            line,
            field: self.field,
            cause: self.cause,
        }
    }
}

// Which line is awaited: the `p` line; the first arc of a road, while so many arcs are to come; the twin of an arc, while so many
// are to come after it; a `d` line or a `q` line; a `q` line.
#[derive(Clone, Copy, PartialEq, Eq, Debug)]
pub(crate) enum Stage {
    Head,
    Arc(u64),
    Twin(Arc, u64),
    Tail,
    Asks,
}
