// Drawing a text that has no fault.
ghost use Rattle.roadtext.specs.Drawn.{DrawsEvent, DrawsText};

use super::parts::Room;
use super::steps::Event;
use super::walk::Walk;
use drawing::{Junction, MOST_DISTRICTS, Refusal, Rest, Road};
use measure::Measure;

// Draws what one line adds. (Two tables, as every call of a drawing is lent them.)
fn draw_event<M: Measure>(
    drawing: &mut Rest,
    event: Option<Event>,
    junctions: &mut [Junction],
    roads: &mut [Road],
) -> Result<(), Refusal>
    ensures { DrawsEvent M.Measure.scale drawing.old junctions.old roads.old event result drawing.new junctions.new roads.new }
{
    match event {
        Some(Event::Road(arc)) => {
            drawing.add::<M>(roads, arc.from, arc.to, arc.worth)?;
            Ok(())
        }
        Some(Event::Move(moved)) => drawing.assign(junctions, moved.junction, moved.district),
        None | Some(Event::Ask(_)) => Ok(()),
    }
}

// Draws a text without fault, with so many junctions. (Two tables, as every call of a drawing is lent them.)
pub(crate) fn draw<M: Measure>(
    text: &[u8],
    count: u64,
    junctions: &mut [Junction],
    roads: &mut [Road],
) -> Result<Rest, Refusal>
    ensures { DrawsText M.Measure.scale text.now count junctions.old roads.old result junctions.new roads.new }
{
    let room = Room::of(junctions, roads);
    let mut drawing = Rest::start::<M>(count, MOST_DISTRICTS, junctions)?;
    for event in Walk::<M>::over(text, room) {
        let Ok(event) = event else {
            return Ok(drawing);
        };
        draw_event::<M>(&mut drawing, event, junctions, roads)?;
    }
    Ok(drawing)
}
