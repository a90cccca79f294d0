// Which refusal a call is given: the rows of its table are asked in the paper's order, and none that an earlier one makes needless.
// The phase alone is asked before the state's ranges: a call in turn then asks only those of any phase and of its own, in
// place.
#![tactic(auto)]

ghost use Rattle.std.specs.Prelude.{◌≡◌, cond, ◌*◌, ltb};
ghost use Rattle.refusals.specs.Refusal.{told};
ghost use Rattle.state.specs.State.{state_ok};
ghost use Rattle.refusing.specs.Tables.{open_block_number, open_event_number, post_number, before_room, finish_number};

use block::end_short;
use items::put::room_short;
use refusals::Refusal;
use state::State;
use state::ranges::{
    between_ok, block_ok, common_ok, during_ok, event_ok, head_words, idle_ok, is_block, is_event,
    is_idle, state_ok,
};

// Fewer than 16 rows of `nw` samples. The quotient cannot wrap, whatever a forged state says.
fn store_short(room: usize, nw: usize) -> bool
    ensures { result ≡ ltb room (16 * nw) }
{
    room / 16 < nw
}

// A call out of turn: 10 for a state that breaks its ranges, which comes first, else 7.
fn out_of_turn(s: State) -> Result<(), Refusal>
    ensures { told result ≡ cond (state_ok s) 7 10 }
{
    if state_ok(s) {
        return Err(Refusal::Turn);
    }
    Err(Refusal::State)
}

pub fn open_block_check(s: State, room: usize, number: u32, events: u32) -> Result<(), Refusal>
    ensures { told result ≡ open_block_number s room number events }
{
    if !is_idle(s.phase) {
        return out_of_turn(s);
    }
    if !common_ok(s) | !idle_ok(s) {
        return Err(Refusal::State);
    }
    if !block_ok(number, events) {
        return Err(Refusal::Number);
    }
    if room_short(room, s.words, head_words(s.settings.parameters)) {
        return Err(Refusal::Room);
    }
    Ok(())
}

pub fn open_event_check(s: State, number: u32, time: u64) -> Result<(), Refusal>
    ensures { told result ≡ open_event_number s number time }
{
    if !is_block(s.phase) {
        return out_of_turn(s);
    }
    if !common_ok(s) | !between_ok(s) {
        return Err(Refusal::State);
    }
    if !(s.closed < s.events) {
        return Err(Refusal::Turn);
    }
    if !event_ok(number, time) {
        return Err(Refusal::Number);
    }
    Ok(())
}

// The window's samples are looked at last.
pub fn post_check(s: State, room: usize, channel: usize, window: &[u16]) -> Result<(), Refusal>
    ensures { told result ≡ post_number s room channel window.now }
{
    if !is_event(s.phase) {
        return out_of_turn(s);
    }
    if !common_ok(s) | !during_ok(s) {
        return Err(Refusal::State);
    }
    if 15 < channel {
        return Err(Refusal::Channel);
    }
    if window.len() != s.settings.nw {
        return Err(Refusal::Length);
    }
    if s.posted[channel] {
        return Err(Refusal::Posted);
    }
    if store_short(room, s.settings.nw) {
        return Err(Refusal::Store);
    }
    if !samples::samples_ok(window) {
        return Err(Refusal::Sample);
    }
    Ok(())
}

// All that a close asks but the room. The rows are looked at only once the store is known to hold them.
pub fn close_check(s: State, store: &[u16]) -> Result<(), Refusal>
    ensures { told result ≡ before_room s store.now }
{
    if !is_event(s.phase) {
        return out_of_turn(s);
    }
    if !common_ok(s) | !during_ok(s) {
        return Err(Refusal::State);
    }
    if store_short(store.len(), s.settings.nw) {
        return Err(Refusal::Store);
    }
    if !rows::rows_ok(s.settings, &s.posted, store) {
        return Err(Refusal::Sample);
    }
    Ok(())
}

pub fn finish_check(s: State, room: usize) -> Result<(), Refusal>
    ensures { told result ≡ finish_number s room }
{
    if !is_block(s.phase) {
        return out_of_turn(s);
    }
    if !common_ok(s) | !between_ok(s) {
        return Err(Refusal::State);
    }
    if s.closed != s.events {
        return Err(Refusal::Turn);
    }
    if end_short(room, s.words, s.settings) {
        return Err(Refusal::Room);
    }
    Ok(())
}
