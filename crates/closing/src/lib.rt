// Closing an event: document 01, "One event, one store".
#![tactic(auto)]

ghost use Rattle.writer.specs.Answer.{answer};
ghost use Rattle.closing.specs.Closing.{CloseSays};

use refusals::Refusal;
use state::{Phase, State};

// Closes the event: writes its words behind those already there, at their end its scalers if they are asked for. They are
// written all or not at all, so the place tells whether there was room.
pub fn close(
    state: &mut State,
    store: &[u16],
    words: &mut [u32],
    asked: bool,
) -> Result<(), Refusal>
    ensures { CloseSays state.old store.now words.old asked (answer result state.new) words.new }
{
    refusing::close_check(*state, store)?;
    let at = state.words;
    let next = event::put_event(
        words,
        at,
        state.settings,
        state.event,
        state.time,
        &state.posted,
        store,
        asked,
        state.scalers.latched,
    );
    if next == at {
        return Err(Refusal::Room);
    }
    state.phase = Phase::Block;
    state.event = 0;
    state.time = 0;
    state.posted = [false; 16];
    state.closed += 1;
    state.words = next;
    Ok(())
}
