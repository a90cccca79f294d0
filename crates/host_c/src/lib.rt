// What C links to write: the calls of `host`, under their own names and with the clauses that they have there.
#![tactic(auto)]

ghost use Rattle.std.specs.Prelude.{true, false};
ghost use Rattle.host.specs.Face.{SetUpFace, OpenBlockFace, OpenEventFace, PostFace, CloseFace, FinishFace};

#[unsafe(no_mangle)]
pub extern "C" fn fadc250_set_up(settings: &[u64], state: &mut [u64]) -> u32
    ensures { SetUpFace settings.now state.old result state.new }
{
    host::fadc250_set_up(settings, state)
}

#[unsafe(no_mangle)]
pub extern "C" fn fadc250_open_block(
    state: &mut [u64],
    words: &mut [u32],
    number: u32,
    events: u32,
) -> u32
    ensures { OpenBlockFace state.old words.old number events result state.new words.new }
{
    host::fadc250_open_block(state, words, number, events)
}

#[unsafe(no_mangle)]
pub extern "C" fn fadc250_open_event(state: &mut [u64], number: u32, time: u64) -> u32
    ensures { OpenEventFace state.old number time result state.new }
{
    host::fadc250_open_event(state, number, time)
}

#[unsafe(no_mangle)]
pub extern "C" fn fadc250_post(
    state: &mut [u64],
    store: &mut [u16],
    channel: u32,
    window: &[u16],
) -> u32
    ensures { PostFace state.old store.old channel window.now result state.new store.new }
{
    host::fadc250_post(state, store, channel, window)
}

#[unsafe(no_mangle)]
pub extern "C" fn fadc250_close(state: &mut [u64], store: &[u16], words: &mut [u32]) -> u32
    ensures { CloseFace state.old store.now words.old false result state.new words.new }
{
    host::fadc250_close(state, store, words)
}

#[unsafe(no_mangle)]
pub extern "C" fn fadc250_close_with_scalers(
    state: &mut [u64],
    store: &[u16],
    words: &mut [u32],
) -> u32
    ensures { CloseFace state.old store.now words.old true result state.new words.new }
{
    host::fadc250_close_with_scalers(state, store, words)
}

#[unsafe(no_mangle)]
pub extern "C" fn fadc250_finish(state: &mut [u64], words: &mut [u32]) -> u64
    ensures { FinishFace state.old words.old result state.new words.new }
{
    host::fadc250_finish(state, words)
}
