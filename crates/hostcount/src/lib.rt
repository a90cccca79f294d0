// What C calls to count: frames, latch and reset over a state's numbers that the host lends. An accepted call stores what is
// counted and nothing else; numbers that are no state are loaded as what stands for none, which the call refuses with 10.
#![tactic(auto)]

ghost use Rattle.std.specs.Prelude.{◌≡◌};
ghost use Rattle.refusals.specs.Refusal.{told};
ghost use Rattle.hostcount.specs.Face.{CountFace, LatchFace, ResetFace, Kept};

use numbers::load::state_or_none;
use numbers::store::put_scalers;
use refusals::Refusal;
use state::State;

// What each call ends with: an accepted one stores the counts, and either answers its number.
fn put_counts(numbers: &mut [u64], answer: Result<(), Refusal>, state: State) -> u32
    ensures { Kept numbers.old (told answer) state.scalers result numbers.new }
{
    match answer {
        Ok(()) => {
            put_scalers(numbers, state.scalers);
            0
        }
        Err(refusal) => refusal.number(),
    }
}

pub fn fadc250_count(state: &mut [u64], frames: &[u16]) -> u32
    ensures { CountFace state.old frames.now result state.new }
{
    let mut loaded = state_or_none(state);
    let answer = counting::count(&mut loaded, frames);
    put_counts(state, answer, loaded)
}

pub fn fadc250_latch(state: &mut [u64]) -> u32
    ensures { LatchFace state.old result state.new }
{
    let mut loaded = state_or_none(state);
    let answer = counting::latch(&mut loaded);
    put_counts(state, answer, loaded)
}

pub fn fadc250_reset(state: &mut [u64]) -> u32
    ensures { ResetFace state.old result state.new }
{
    let mut loaded = state_or_none(state);
    let answer = counting::reset(&mut loaded);
    put_counts(state, answer, loaded)
}
