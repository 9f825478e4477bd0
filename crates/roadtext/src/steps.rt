// One line of a text: what it adds to what has been read.
ghost use Rattle.std.specs.Prelude.{◌≡◌, Some};
ghost use Rattle.roadtext.specs.Text.{fields};
ghost use Rattle.roadtext.specs.Lines.{p_checks, a_checks, d_checks, q_checks, passed, head_in, arc_in, move_in, ask_in};
ghost use Rattle.roadtext.specs.Reading.{arcs_to_come_lem};
ghost use Rattle.roadtext.specs.Steps.{Steps, moved_to, head_step, arc_step, road_checks, twin_checks, twin_step};
ghost use Rattle.roadtext.specs.declared.parts.Stage.TheVariants.{Tail, Asks};
ghost use Rattle.roadtext.specs.declared.steps.Event.TheVariants.{Move as MoveRead, Ask as AskRead};

use super::fault::Cause;
use super::line::{fault_if, letter, read_arc, read_ask, read_head, read_move};
use super::parts::{Arc, Ask, Head, LineFault, Move, Room, Stage};
use drawing::{MOST_ROADS, Refusal};
use measure::Measure;

// How far the reading has come: the room in the two tables, which line is awaited, and how many junctions and roads there are.
#[derive(Clone, Copy, PartialEq, Eq, Debug)]
pub(crate) struct Progress {
    pub(crate) room: Room,
    pub(crate) stage: Stage,
    pub(crate) junctions: u64,
    pub(crate) roads: u64,
}

// What a line may add: a road, a move or an ask.
#[derive(Clone, Copy, PartialEq, Eq, Debug)]
pub(crate) enum Event {
    Road(Arc),
    Move(Move),
    Ask(Ask),
}

// A line read: what the line adds, if anything, and how far that brings the reading. (The event comes first, so that it lies at the
// same place in a step and in a result that holds one: moving steps then costs less.)
#[derive(Clone, Copy, PartialEq, Eq, Debug)]
pub(crate) struct Step {
    pub(crate) event: Option<Event>,
    pub(crate) progress: Progress,
}

// What is awaited when so many arc lines are to come.
fn arcs_to_come(left: u64) -> Stage
    ensures { result ≡ arcs_to_come_lem left }
{
    if left == 0 {
        Stage::Tail
    } else {
        Stage::Arc(left)
    }
}

impl Progress {
    // The next stage is this one.
    fn moved_to(&self, stage: Stage, event: Option<Event>) -> Step
        ensures { result ≡ moved_to self.now stage event }
    {
        Step {
            progress: Progress { stage, ..*self },
            event,
        }
    }

    // The second arc is the twin of the first, and there is room for one road more.
    fn check_twin(&self, first: Arc, second: Arc) -> Result<(), LineFault>
        ensures { result ≡ passed (road_checks self.now first second) tt }
    {
        fault_if(second != first.reversed(), 1, Cause::Twin)?;
        let full = self.roads >= MOST_ROADS || self.roads >= self.room.records;
        fault_if(full, 1, Cause::Drawing(Refusal::RoadsFull))
    }

    // After the `p` line: its arcs are to come.
    fn headed(&self, head: Head) -> Step
        ensures { result ≡ head_step self.now head }
    {
        let stage = arcs_to_come(head.arcs);
        Step {
            progress: Progress {
                stage,
                junctions: head.junctions,
                ..*self
            },
            event: None,
        }
    }

    // The `p` line.
    fn head(&self, line: &[u8]) -> Result<Step, LineFault>
        ensures { result ≡ passed (p_checks self.now.room.places (fields line.now)) (head_step self.now (head_in (fields line.now))) }
    {
        let head = read_head(line, self.room.places)?;
        Ok(self.headed(head))
    }

    // The first arc of a road, while so many arcs are to come.
    fn arc<M: Measure>(&self, line: &[u8], left: u64) -> Result<Step, LineFault>
        ensures { result ≡ passed (a_checks M.Measure.scale self.now.junctions (fields line.now)) (arc_step self.now left (arc_in (fields line.now))) }
    {
        let arc = read_arc::<M>(line, self.junctions)?;
        Ok(self.moved_to(Stage::Twin(arc, left.saturating_sub(2)), None))
    }

    // The twin of an arc, while so many are to come after it.
    fn twin<M: Measure>(&self, line: &[u8], first: Arc, left: u64) -> Result<Step, LineFault>
        ensures { result ≡ passed (twin_checks M.Measure.scale self.now (fields line.now) first) (twin_step self.now first left) }
    {
        let second = read_arc::<M>(line, self.junctions)?;
        self.check_twin(first, second)?;
        let stage = arcs_to_come(left);
        Ok(Step {
            progress: Progress {
                stage,
                roads: self.roads + 1,
                ..*self
            },
            event: Some(Event::Road(first)),
        })
    }

    // A `q` line.
    fn ask(&self, line: &[u8]) -> Result<Step, LineFault>
        ensures { result ≡ passed (q_checks self.now.junctions (fields line.now)) (moved_to self.now Asks (Some (AskRead (ask_in (fields line.now))))) }
    {
        let ask = read_ask(line, self.junctions)?;
        Ok(self.moved_to(Stage::Asks, Some(Event::Ask(ask))))
    }

    // A `d` line.
    fn move_line(&self, line: &[u8]) -> Result<Step, LineFault>
        ensures { result ≡ passed (d_checks self.now.junctions (fields line.now)) (moved_to self.now Tail (Some (MoveRead (move_in (fields line.now))))) }
    {
        let moved = read_move(line, self.junctions)?;
        Ok(self.moved_to(Stage::Tail, Some(Event::Move(moved))))
    }

    // The next line: its fault, or the step that it makes.
    pub(crate) fn step<M: Measure>(&self, line: &[u8]) -> Result<Step, LineFault>
        ensures { Steps M.Measure.scale (fields line.now) self.now result }
    {
        match (letter(line), self.stage) {
            (Some('c'), stage) => Ok(self.moved_to(stage, None)),
            (Some('p'), Stage::Head) => self.head(line),
            (Some('a'), Stage::Arc(left)) => self.arc::<M>(line, left),
            (Some('a'), Stage::Twin(first, left)) => self.twin::<M>(line, first, left),
            (Some('d'), Stage::Tail) => self.move_line(line),
            // Two arms: in one for both stages the proof does not know which it is (tried).
            (Some('q'), Stage::Tail) => self.ask(line),
            (Some('q'), Stage::Asks) => self.ask(line),
            _ => Err(LineFault {
                field: 1,
                cause: Cause::Letter,
            }),
        }
    }
}
