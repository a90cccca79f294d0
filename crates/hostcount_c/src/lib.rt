// What C links to count: the calls of `hostcount`, under their own names and with the clauses that they have there.
#![tactic(auto)]

ghost use Rattle.hostcount.specs.Face.{CountFace, LatchFace, ResetFace};

#[unsafe(no_mangle)]
pub extern "C" fn fadc250_count(state: &mut [u64], frames: &[u16]) -> u32
    ensures { CountFace state.old frames.now result state.new }
{
    hostcount::fadc250_count(state, frames)
}

#[unsafe(no_mangle)]
pub extern "C" fn fadc250_latch(state: &mut [u64]) -> u32
    ensures { LatchFace state.old result state.new }
{
    hostcount::fadc250_latch(state)
}

#[unsafe(no_mangle)]
pub extern "C" fn fadc250_reset(state: &mut [u64]) -> u32
    ensures { ResetFace state.old result state.new }
{
    hostcount::fadc250_reset(state)
}
