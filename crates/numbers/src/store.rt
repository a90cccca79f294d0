// The numbers of a state, stored.
ghost use Rattle.std.specs.Prelude.{◌≡◌, ◌≤◌, length};
ghost use Rattle.numbers.specs.Numbers.{phase_number, marks_number, head_of, head_stored, scalers_stored, state_stored};

use limits::{CHANNELS, LATCHED};
use places::{FRONT, HEAD, SETTINGS, STATE};
use scalers::Scalers;
use state::{Phase, State};
use std::array;

pub fn phase_number(phase: Phase) -> u64
    ensures { result ≡ phase_number phase }
{
    match phase {
        Phase::Idle => 0,
        Phase::Block => 1,
        Phase::Event => 2,
    }
}

// Bit c is set where channel c is posted.
fn marks_number(marks: &[bool]) -> u64
    requires { length marks.now ≤ 16 }
    ensures { result ≡ marks_number marks.now }
{
    let mut number: u64 = 0;
    for mark in marks.iter().rev() {
        number = u64::from(*mark) + 2 * number;
    }
    number
}

// The numbers that a call of writing may change.
fn head_of(state: State) -> [u64; HEAD]
    ensures { result ≡ head_of state }
{
    [
        phase_number(state.phase),
        u64::from(state.block),
        u64::from(state.events),
        u64::from(state.event),
        state.time,
        marks_number(&state.posted),
        u64::from(state.closed),
        state.words as u64,
    ]
}

// Stores a state's head; what is behind it stays.
pub fn put_head(numbers: &mut [u64], state: State)
    ensures { numbers.new ≡ head_stored numbers.old state }
{
    let head = head_of(state);
    copies::put(numbers, 0, &head);
}

// Counts as numbers of 64 bits.
fn wide<const N: usize>(counts: &[u32]) -> [u64; N]
    requires { length counts.now ≡ N }
    ensures { result ≡ counts.now }
{
    array::from_fn(|place| u64::from(counts[place]))
}

// Stores what is counted; all else stays.
pub fn put_scalers(numbers: &mut [u64], scalers: Scalers)
    ensures { numbers.new ≡ scalers_stored numbers.old scalers }
{
    if numbers.len() < FRONT {
        return;
    }
    let counts = wide::<CHANNELS>(&scalers.counts);
    let between = [
        u64::from(scalers.timer),
        u64::from(scalers.triggers),
        u64::from(scalers.part),
        marks_number(&scalers.over),
    ];
    let latched = wide::<LATCHED>(&scalers.latched);
    copies::put(numbers, places::COUNTS, &counts);
    copies::put(numbers, places::TIMER, &between);
    copies::put(numbers, places::LATCHED, &latched);
}

// Stores a state whole: its head, what is counted, then the settings as they came.
pub fn put_state(numbers: &mut [u64], state: State, settings: &[u64])
    ensures { numbers.new ≡ state_stored numbers.old state settings.now }
{
    if numbers.len() != STATE {
        return;
    }
    if settings.len() != SETTINGS {
        return;
    }
    copies::put(numbers, FRONT, settings);
    put_scalers(numbers, state.scalers);
    put_head(numbers, state);
}
