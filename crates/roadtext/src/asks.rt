// The asks of a text.
ghost use Rattle.std.specs.Prelude.{◌≡◌, Ok, MatchResult};
ghost use Rattle.roadtext.specs.declared.outcome.Unread.TheVariants.{Memory as no_memory};
ghost use Rattle.roadtext.specs.Reading.{State, read_text};
ghost use Rattle.roadtext.specs.Steps.{with_ask};

use super::outcome::Unread;
use super::parts::{Ask, Room};
use super::steps::Event;
use super::walk::Walk;
use measure::Measure;
use std::alloc::Global;

// Keeps an ask; another event is let pass.
fn keep(asks: &mut Vec<Ask>, event: Option<Event>) -> Result<(), Unread>
    ensures { MatchResult result (λ _. asks.new.items ≡ with_ask event asks.old.items) (λ e. e ≡ no_memory) }
{
    if let Some(Event::Ask(ask)) = event {
        asks.push(ask)?;
    }
    Ok(())
}

// The asks of a text without fault, in order. (The loop of `draw`, but for what is done with an event: a closure for that would
// have to hold the list here, and a drawing and two tables there.)
pub(crate) fn asks_in<M: Measure>(heap: Global, text: &[u8], room: Room) -> Result<Vec<Ask>, Unread>
    ensures { MatchResult result (λ v. (st : State) → read_text M.Measure.scale room text.now ≡ Ok st → v.items ≡ st.asks) (λ e. e ≡ no_memory) }
{
    let mut asks = Vec::new(heap);
    for event in Walk::<M>::over(text, room) {
        let Ok(event) = event else {
            return Ok(asks);
        };
        keep(&mut asks, event)?;
    }
    Ok(asks)
}
