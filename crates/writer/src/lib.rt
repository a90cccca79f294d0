// One event, one store: the calls that change the state of a run, but for `closing::close`. A refused one leaves the state, the
// store and the words as they came in.
#![tactic(auto)]

ghost use Rattle.writer.specs.Answer.{answer, made, finished};
ghost use Rattle.writer.specs.Calls.{SetUpSays, OpenBlockSays, OpenEventSays, PostSays, FinishSays};

use refusals::Refusal;
use settings::Settings;
use state::{Phase, State};

// A state for those settings, idle.
pub fn set_up(settings: Settings) -> Result<State, Refusal>
    ensures { SetUpSays settings (made result) }
{
    if settings::in_range(settings) {
        return Ok(state::idle_state(settings, scalers::none()));
    }
    Err(Refusal::Setting)
}

// Opens a block: writes its header and any parameters word behind the words already counted, which are none.
pub fn open_block(
    state: &mut State,
    words: &mut [u32],
    number: u32,
    events: u32,
) -> Result<(), Refusal>
    ensures { OpenBlockSays state.old words.old number events (answer result state.new) words.new }
{
    refusing::open_block_check(*state, words.len(), number, events)?;
    let next = block::put_block(words, state.words, state.settings, number, events);
    state.phase = Phase::Block;
    state.block = number;
    state.events = events;
    state.event = 0;
    state.time = 0;
    state.posted = [false; 16];
    state.closed = 0;
    state.words = next;
    Ok(())
}

// Opens an event: writes nothing, and counts as one trigger.
pub fn open_event(state: &mut State, number: u32, time: u64) -> Result<(), Refusal>
    ensures { OpenEventSays state.old number time (answer result state.new) }
{
    refusing::open_event_check(*state, number, time)?;
    state.phase = Phase::Event;
    state.event = number;
    state.time = time;
    state.scalers = scalers::trigger(state.scalers);
    Ok(())
}

// Posts a channel: its window is copied into its row of the lent store, and nowhere else.
pub fn post(
    state: &mut State,
    store: &mut [u16],
    channel: usize,
    window: &[u16],
) -> Result<(), Refusal>
    ensures { PostSays state.old store.old channel window.now (answer result state.new) store.new }
{
    refusing::post_check(*state, store.len(), channel, window)?;
    let start = channel * window.len();
    copies::put(store, start, window);
    state.posted[channel] = true;
    Ok(())
}

// Finishes the block: writes the trailer and the fewest fillers, and answers the block's length. What is counted stays.
pub fn finish(state: &mut State, words: &mut [u32]) -> Result<usize, Refusal>
    ensures { FinishSays state.old words.old (finished result state.new) words.new }
{
    refusing::finish_check(*state, words.len())?;
    let length = block::put_end(words, state.words, state.settings);
    *state = state::idle_state(state.settings, state.scalers);
    Ok(length)
}
