// A walk over the lines of a text, which every reading of a text is.
ghost use Rattle.std.specs.Prelude.{◌≡◌, ◌+◌, ◌<◌, ◌^◌, length};
ghost use Rattle.std.specs.Iterator.{at_most};
ghost use Rattle.roadtext.specs.Checked.{ended_at};
ghost use Rattle.roadtext.specs.Reading.{nothing_read};
ghost use Rattle.roadtext.specs.Steps.{progress_of};
ghost use Rattle.roadtext.specs.Walked.{WalkGives};

use super::fault::{Cause, Fault};
use super::lines::cut_line;
use super::parts::{Room, Stage};
use super::steps::{Event, Progress};
use measure::Measure;
use std::marker::PhantomData;

// How far a walk has come: what has been read, the number of the next line, and the text that is left.
#[derive(Drop)]
pub(crate) struct Walk<'a, M> {
    progress: Progress,
    number: u64,
    rest: &'a [u8],
    measure: PhantomData<M>,
}

impl<'a, M: Measure> Walk<'a, M> {
    // Before the first line of a text, with this room in the tables.
    pub(crate) fn over(text: &'a [u8], room: Room) -> Walk<'a, M>
        ensures progress { result.progress ≡ progress_of room nothing_read }
        ensures number { result.number ≡ 1 }
        ensures rest { result.rest.now ≡ text.now }
    {
        Walk {
            progress: Progress {
                room,
                stage: Stage::Head,
                junctions: 0,
                roads: 0,
            },
            number: 1,
            rest: text,
            measure: PhantomData,
        }
    }

    // The end of the text, where no line is left: the number of its junctions, or the fault of an end while a `p` line or an arc
    // is awaited.
    pub(crate) fn ended(&self) -> Result<u64, Fault>
        ensures { result ≡ ended_at self.now.number self.now.progress.junctions self.now.progress.stage }
    {
        match self.progress.stage {
            Stage::Tail | Stage::Asks => Ok(self.progress.junctions),
            _ => Err(Fault {
                line: self.number,
                field: 1,
                cause: Cause::Letter,
            }),
        }
    }
}

// A step of a walk gives what a line adds, if anything, or the fault of the line.
impl<'a, M: Measure> Iterator for Walk<'a, M> {
    type Item = Result<Option<Event>, Fault>;

    ghost can_next = { λ w. w.number + length w.rest.now < 2 ^ 64 };

    ghost next_gives = { WalkGives M.Measure.scale };

    ghost remaining = { λ w. at_most (length w.rest.now) };

    fn next(&mut self) -> Option<Result<Option<Event>, Fault>> {
        let (line, more) = cut_line(self.rest)?;
        let number = self.number;
        self.rest = more;
        self.number = number + 1;
        match self.progress.step::<M>(line) {
            Ok(step) => {
                self.progress = step.progress;
                Some(Ok(step.event))
            }
            Err(fault) => Some(Err(fault.at(number))),
        }
    }
}
