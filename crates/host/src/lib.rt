// What C calls to write: the calls over numbers that the host lends. The numbers are loaded, the call is made, and an accepted
// one stores what it changed. Numbers that are no state are loaded as what stands for none, which the call refuses with 10.
#![tactic(auto)]

ghost use Rattle.std.specs.Prelude.{◌≡◌, ◌≤◌, length, true, false};
ghost use Rattle.refusals.specs.Refusal.{told};
ghost use Rattle.places.specs.Places.{front_count};
ghost use Rattle.host.specs.Face.{SetUpFace, OpenBlockFace, OpenEventFace, PostFace, CloseFace, FinishFace};
ghost use Rattle.host.specs.Inner.{Kept, event_placed, MarkFits, mark_placed};

use numbers::load::{settings_or_none, state_or_none};
use numbers::store::{phase_number, put_head, put_state};
use refusals::Refusal;
use state::{Phase, State};

pub fn fadc250_set_up(settings: &[u64], state: &mut [u64]) -> u32
    ensures { SetUpFace settings.now state.old result state.new }
{
    let answer = writer::set_up(settings_or_none(settings));
    if state.len() != places::STATE {
        return refusals::told_bad_array(answer);
    }
    match answer {
        Ok(new) => {
            put_state(state, new, settings);
            0
        }
        Err(refusal) => {
            // no call takes zeros for a state
            copies::put(state, 0, &[0; places::STATE]);
            refusal.number()
        }
    }
}

// What a call on a state ends with: an accepted one stores the state, and either answers its number.
fn put_back(numbers: &mut [u64], answer: Result<(), Refusal>, state: State) -> u32
    ensures { Kept numbers.old (told answer) state result numbers.new }
{
    match answer {
        Ok(()) => {
            put_head(numbers, state);
            0
        }
        Err(refusal) => refusal.number(),
    }
}

pub fn fadc250_open_block(state: &mut [u64], words: &mut [u32], number: u32, events: u32) -> u32
    ensures { OpenBlockFace state.old words.old number events result state.new words.new }
{
    let mut loaded = state_or_none(state);
    let answer = writer::open_block(&mut loaded, words, number, events);
    put_back(state, answer, loaded)
}

// What an accepted opening changes of a state's numbers: the phase, the event's number and its time, and the triggers.
fn place_event(numbers: &mut [u64], number: u32, time: u64, triggers: u32)
    requires { front_count ≤ length numbers.old }
    ensures { numbers.new ≡ event_placed numbers.old number time triggers }
{
    numbers[places::PHASE] = phase_number(Phase::Event);
    numbers[places::EVENT] = number as u64;
    numbers[places::TIME] = time;
    numbers[places::TRIGGERS] = triggers as u64;
}

pub fn fadc250_open_event(state: &mut [u64], number: u32, time: u64) -> u32
    ensures { OpenEventFace state.old number time result state.new }
{
    let mut loaded = state_or_none(state);
    match writer::open_event(&mut loaded, number, time) {
        Ok(()) => {
            place_event(state, number, time, loaded.scalers.triggers);
            0
        }
        Err(refusal) => refusal.number(),
    }
}

// What an accepted post changes of a state's numbers: the channel's bit, unset before, is set.
fn place_mark(numbers: &mut [u64], channel: u32)
    requires { MarkFits numbers.old channel }
    ensures { numbers.new ≡ mark_placed numbers.old channel }
{
    numbers[places::MARKS] = numbers[places::MARKS] + (1 << channel);
}

pub fn fadc250_post(state: &mut [u64], store: &mut [u16], channel: u32, window: &[u16]) -> u32
    ensures { PostFace state.old store.old channel window.now result state.new store.new }
{
    let mut loaded = state_or_none(state);
    match writer::post(&mut loaded, store, channel as usize, window) {
        Ok(()) => {
            place_mark(state, channel);
            0
        }
        Err(refusal) => refusal.number(),
    }
}

pub fn fadc250_close(state: &mut [u64], store: &[u16], words: &mut [u32]) -> u32
    ensures { CloseFace state.old store.now words.old false result state.new words.new }
{
    let mut loaded = state_or_none(state);
    let answer = closing::close(&mut loaded, store, words, false);
    put_back(state, answer, loaded)
}

pub fn fadc250_close_with_scalers(state: &mut [u64], store: &[u16], words: &mut [u32]) -> u32
    ensures { CloseFace state.old store.now words.old true result state.new words.new }
{
    let mut loaded = state_or_none(state);
    let answer = closing::close(&mut loaded, store, words, true);
    put_back(state, answer, loaded)
}

// The refusal stands above the lower 32 bits, the block's length in them.
pub fn fadc250_finish(state: &mut [u64], words: &mut [u32]) -> u64
    ensures { FinishFace state.old words.old result state.new words.new }
{
    let mut loaded = state_or_none(state);
    match writer::finish(&mut loaded, words) {
        Ok(length) => {
            put_head(state, loaded);
            length as u64
        }
        Err(refusal) => refusal.number() as u64 * 4294967296,
    }
}
