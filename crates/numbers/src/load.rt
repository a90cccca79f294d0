// The settings and the state of numbers.
ghost use Rattle.std.specs.Prelude.{◌≡◌, true, ◌%◌, ◌<◌, length, get_or, take, drop};
ghost use Rattle.ground.specs.TestsLaws.{Under};
ghost use Rattle.places.specs.Places.{thresholds_at, most32, is_settings, is_state};
ghost use Rattle.numbers.specs.Numbers.{settings_from, phase_from, marks_from, scalers_from, state_from, settings_or_none, state_or_none};

use places::{is_settings, is_state};
use scalers::Scalers;
use settings::Settings;
use state::{Phase, State};
use std::array;

// The number at a place.
fn at(numbers: &[u64], place: usize) -> u64
    requires { place < length numbers.now }
    ensures { result ≡ get_or numbers.now place 0 }
{
    numbers[place]
}

// The same as a 32-bit field: its low bits.
fn at32(numbers: &[u64], place: usize) -> u32
    requires { place < length numbers.now }
    ensures { result ≡ get_or numbers.now place 0 % 4294967296 }
{
    (at(numbers, place) % 4294967296) as u32
}

// Numbers that 32-bit fields hold.
fn row<const N: usize>(row: &[u64]) -> [u32; N]
    requires { (length row.now ≡ N) × Under most32 row.now }
    ensures { result ≡ row.now }
{
    array::from_fn(|place| (row[place] % 4294967296) as u32)
}

fn settings_from(numbers: &[u64]) -> Settings
    requires { is_settings numbers.now ≡ true }
    ensures { result ≡ settings_from numbers.now }
{
    let thresholds = row(&numbers[places::THRESHOLDS..places::SETTINGS]);
    Settings {
        mode: at32(numbers, places::MODE),
        nw: at(numbers, places::NW) as usize,
        pl: at32(numbers, places::PL),
        nsb: at(numbers, places::NSB) as usize,
        nsa: at(numbers, places::NSA) as usize,
        limit: at(numbers, places::LIMIT) as usize,
        thresholds,
        slot: at32(numbers, places::SLOT),
        parameters: at(numbers, places::PARAMETERS) == 1,
        times: at32(numbers, places::TIMES),
        multiple: at32(numbers, places::MULTIPLE),
    }
}

// Numbers that are no settings give what stands for none.
pub fn settings_or_none(numbers: &[u64]) -> Settings
    ensures { result ≡ settings_or_none numbers.now }
{
    if is_settings(numbers) {
        settings_from(numbers)
    } else {
        state::no_state().settings
    }
}

// 0 idle, 1 in a block, 2 in an event.
fn phase_from(number: u64) -> Phase
    ensures { result ≡ phase_from number }
{
    match number {
        0 => Phase::Idle,
        1 => Phase::Block,
        _ => Phase::Event,
    }
}

// Channel c is posted where bit c is set: what is left of the number by 2 ^ (c + 1) is over what is left by 2 ^ c. Two remainders
// compared become vector code, where a bit shifted down does not.
fn marks_from(number: u64) -> [bool; 16]
    requires { number < 65536 }
    ensures { result ≡ marks_from number }
{
    let low = number as u32;
    let mut marks = [false; 16];
    let mut bit: u32 = 1;
    for channel in 0..16 {
        marks[channel] = low % bit < low % (2 * bit);
        bit = 2 * bit;
    }
    marks
}

#[tactic(auto, using(places::specs::PlacesLaws::state_count_lem))]
fn scalers_from(numbers: &[u64]) -> Scalers
    requires { is_state numbers.now ≡ true }
    ensures { result ≡ scalers_from numbers.now }
{
    let counts = row(&numbers[places::COUNTS..places::TIMER]);
    let latched = row(&numbers[places::LATCHED..places::FRONT]);
    let over = marks_from(at(numbers, places::OVER));
    Scalers {
        counts,
        timer: at32(numbers, places::TIMER),
        triggers: at32(numbers, places::TRIGGERS),
        part: at32(numbers, places::PART),
        over,
        latched,
    }
}

#[tactic(auto, using(places::specs::PlacesLaws::state_count_lem))]
fn state_from(numbers: &[u64]) -> State
    requires { is_state numbers.now ≡ true }
    ensures { result ≡ state_from numbers.now }
{
    let settings = settings_from(&numbers[places::FRONT..]);
    let scalers = scalers_from(numbers);
    let phase = phase_from(at(numbers, places::PHASE));
    let posted = marks_from(at(numbers, places::MARKS));
    State {
        settings,
        phase,
        block: at32(numbers, places::BLOCK),
        events: at32(numbers, places::EVENTS),
        event: at32(numbers, places::EVENT),
        time: at(numbers, places::TIME),
        posted,
        closed: at32(numbers, places::CLOSED),
        words: at(numbers, places::WORDS) as usize,
        scalers,
    }
}

// Numbers that are no state give what stands for none.
pub fn state_or_none(numbers: &[u64]) -> State
    ensures { result ≡ state_or_none numbers.now }
{
    if is_state(numbers) {
        state_from(numbers)
    } else {
        state::no_state()
    }
}
