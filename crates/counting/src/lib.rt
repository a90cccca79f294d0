// The calls that count, in every phase: frames, latch, reset.
#![tactic(auto)]

ghost use Rattle.std.specs.Prelude.{◌≡◌};
ghost use Rattle.refusals.specs.Refusal.{told};
ghost use Rattle.writer.specs.Answer.{answer};
ghost use Rattle.counting.specs.Counting.{count_number, latch_number, CountSays, LatchSays, ResetSays};

use refusals::Refusal;
use scalers::FRAME;
use state::State;
use state::ranges::state_ok;

fn count_check(s: State, samples: &[u16]) -> Result<(), Refusal>
    ensures { told result ≡ count_number s samples.now }
{
    if !state_ok(s) {
        return Err(Refusal::State);
    }
    if !samples::samples_ok(samples) {
        return Err(Refusal::Sample);
    }
    if samples.len() % FRAME != 0 {
        return Err(Refusal::Frames);
    }
    Ok(())
}

// Latch and reset ask for the state's ranges alone.
fn state_check(s: State) -> Result<(), Refusal>
    ensures { told result ≡ latch_number s }
{
    if state_ok(s) {
        return Ok(());
    }
    Err(Refusal::State)
}

// Counts frames, each channel by its own threshold. Refused, none of them counts.
pub fn count(state: &mut State, samples: &[u16]) -> Result<(), Refusal>
    ensures { CountSays state.old samples.now (answer result state.new) }
{
    count_check(*state, samples)?;
    state.scalers = scalers::count(state.scalers, state.settings.thresholds, samples);
    Ok(())
}

// Copies all eighteen counts at once.
pub fn latch(state: &mut State) -> Result<(), Refusal>
    ensures { LatchSays state.old (answer result state.new) }
{
    state_check(*state)?;
    state.scalers = scalers::latch(state.scalers);
    Ok(())
}

// Zeroes the running counts; the latched ones and the last frame stay.
pub fn reset(state: &mut State) -> Result<(), Refusal>
    ensures { ResetSays state.old (answer result state.new) }
{
    state_check(*state)?;
    state.scalers = scalers::reset(state.scalers);
    Ok(())
}
