// The ranges of a state: document 01, "One event, one store".
ghost use Rattle.std.specs.Prelude.{◌≡◌, cond, ◌+◌};
ghost use Rattle.state.specs.declared.Phase.TheVariants.{Idle, Block, Event};
ghost use Rattle.state.specs.State.{block_ok, event_ok, words_ok, no_marks, in_block_ok, phase_ok, common_ok, state_ok, is_idle, is_block, is_event};

use crate::{Phase, State};
use framing::block_header::BlockHeader;
use framing::event_header::EventHeader;
use framing::trigger_time_high::TriggerTimeHigh;
use scalers::GROUP;

// A block's number and events are within refusal 8's ranges.
pub fn block_ok(number: u32, events: u32) -> bool
    ensures { result ≡ block_ok number events }
{
    (number <= BlockHeader::NUMBER_MAX) & (1 <= events) & (events <= BlockHeader::EVENTS_MAX)
}

// So are an event's number and time.
pub fn event_ok(number: u32, time: u64) -> bool
    ensures { result ≡ event_ok number time }
{
    (number <= EventHeader::NUMBER_MAX) & (time <= TriggerTimeHigh::TIME_MAX)
}

// A block's header and any parameters word.
pub fn head_words(parameters: bool) -> usize
    ensures { result ≡ cond parameters 2 1 }
{
    if parameters { 2 } else { 1 }
}

// The words counted are within their range for the events closed. In 64 bits no state, forged or not, makes a sum wrap.
fn words_ok(parameters: bool, times: u32, closed: u32, words: usize) -> bool
    ensures { result ≡ words_ok (cond parameters 2 1) (1 + times) closed words }
{
    let head = head_words(parameters);
    let event = 1 + times as usize;
    let events = closed as usize;
    (head + events * event <= words) & (words <= 2 + events * limits::MOST_EVENT)
}

// No channel is posted.
fn no_marks(posted: &[bool]) -> bool
    ensures { result ≡ no_marks posted.now }
{
    posted.iter().fold(true, |clear, mark| clear & !*mark)
}

// The numbers of an open block are within their ranges.
fn in_block_ok(s: State) -> bool
    ensures { result ≡ in_block_ok s }
{
    block_ok(s.block, s.events)
        & words_ok(s.settings.parameters, s.settings.times, s.closed, s.words)
}

// All but the settings is within the ranges of each phase: no block is open,
pub fn idle_ok(s: State) -> bool
    ensures { result ≡ phase_ok Idle s }
{
    (s.block == 0)
        & (s.events == 0)
        & (s.event == 0)
        & (s.time == 0)
        & no_marks(&s.posted)
        & (s.closed == 0)
        & (s.words == 0)
}

// a block is open and no event of it,
pub fn between_ok(s: State) -> bool
    ensures { result ≡ phase_ok Block s }
{
    in_block_ok(s) & (s.closed <= s.events) & (s.event == 0) & (s.time == 0) & no_marks(&s.posted)
}

// an event is open.
pub fn during_ok(s: State) -> bool
    ensures { result ≡ phase_ok Event s }
{
    in_block_ok(s) & (s.closed < s.events) & event_ok(s.event, s.time)
}

// The same of the state's own phase.
fn phase_ok(s: State) -> bool
    ensures { result ≡ phase_ok s.phase s }
{
    match s.phase {
        Phase::Idle => idle_ok(s),
        Phase::Block => between_ok(s),
        Phase::Event => during_ok(s),
    }
}

// The settings, and what is counted: the ranges that are no matter of the phase.
pub fn common_ok(s: State) -> bool
    ensures { result ≡ common_ok s }
{
    settings::in_range(s.settings) & ((s.scalers.part as usize) < GROUP)
}

// The state keeps its ranges.
pub fn state_ok(s: State) -> bool
    ensures { result ≡ state_ok s }
{
    common_ok(s) & phase_ok(s)
}

pub fn is_idle(phase: Phase) -> bool
    ensures { result ≡ is_idle phase }
{
    phase == Phase::Idle
}

pub fn is_block(phase: Phase) -> bool
    ensures { result ≡ is_block phase }
{
    phase == Phase::Block
}

pub fn is_event(phase: Phase) -> bool
    ensures { result ≡ is_event phase }
{
    phase == Phase::Event
}
