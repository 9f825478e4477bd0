// The first fault of a text.
ghost use Rattle.std.specs.Prelude.{◌≡◌, Some};
ghost use Rattle.roadtext.specs.Faults.{cause_number, written_fault};

use drawing::Refusal;
use std::fmt;

// What is wrong with a text.
#[derive(Clone, Copy, PartialEq, Eq, Debug)]
pub enum Cause {
    // a letter out of place
    Letter,
    // a field that is missing, malformed or too many
    Field,
    // an arc without its twin, or an odd number of arcs
    Twin,
    // a text that is too long
    TooLong,
    // what the drawing refuses
    Drawing(Refusal),
}

impl Cause {
    // The number of a cause, which users meet. What a drawing refuses has the first number of the refusal.
    pub fn number(&self) -> u64
        ensures { result ≡ cause_number self.now }
    {
        match self {
            Cause::Letter => 31,
            Cause::Field => 32,
            Cause::Twin => 33,
            Cause::TooLong => 34,
            Cause::Drawing(refusal) => refusal.number(),
        }
    }
}

// The first fault of a text: its line and its field, each counted from 1, and its cause. Both are 0 where the text is too long.
#[derive(Clone, Copy, PartialEq, Eq, Debug)]
pub struct Fault {
    pub line: u64,
    pub field: u64,
    pub cause: Cause,
}

// A fault is written as its numbers, with a space between two. The first is above those of a drawing's refusals.
impl fmt::Display for Fault {
    ghost output = { λ f. Some (written_fault f) };

    fn fmt<W: fmt::Write>(&self, f: &mut fmt::Formatter<W>) -> fmt::Result {
        let number = self.cause.number();
        write!(f, "13 {} {} {number}", self.line, self.field)
    }
}
