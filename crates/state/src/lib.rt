// The state of a run, its ranges, and what stands for none: document 01, "One event, one store".
#![tactic(auto)]

ghost use Rattle.std.specs.Prelude.{◌≡◌};
ghost use Rattle.state.specs.State.{idle, blank};

pub mod ranges;

use scalers::Scalers;
use settings::Settings;

// No block is open, a block is open, an event of it is open.
#[derive(Clone, Copy, PartialEq, Eq)]
pub enum Phase {
    Idle,
    Block,
    Event,
}

// `events` are those the block is to hold, `closed` those it holds so far, `words` the words written to it so far. What is
// counted stands beside all that, and stays when a block ends.
#[derive(Clone, Copy)]
pub struct State {
    pub settings: Settings,
    pub phase: Phase,
    pub block: u32,
    pub events: u32,
    pub event: u32,
    pub time: u64,
    pub posted: [bool; 16],
    pub closed: u32,
    pub words: usize,
    pub scalers: Scalers,
}

// No block is open: all but the settings and what is counted is zero.
pub fn idle_state(settings: Settings, scalers: Scalers) -> State
    ensures { result ≡ idle settings scalers }
{
    State {
        settings,
        phase: Phase::Idle,
        block: 0,
        events: 0,
        event: 0,
        time: 0,
        posted: [false; 16],
        closed: 0,
        words: 0,
        scalers,
    }
}

// What stands for no state: every call refuses it, since its settings are out of range.
pub fn no_state() -> State
    ensures { result ≡ blank }
{
    let settings = Settings {
        mode: 0,
        nw: 0,
        pl: 0,
        nsb: 0,
        nsa: 0,
        limit: 0,
        thresholds: [0; 16],
        slot: 0,
        parameters: false,
        times: 0,
        multiple: 0,
    };
    idle_state(settings, scalers::none())
}
