// Where each number of settings and of a state stands, which numbers are settings, and which are a state.
#![tactic(auto)]

ghost use Rattle.std.specs.Prelude.{◌≡◌, length, take};
ghost use Rattle.ground.specs.Tests.{all_le};
ghost use Rattle.places.specs.Places.{thresholds_at, most32, settings_limits, head_limits, scaler_limits, held_in, is_settings, is_state};

// Where the settings stand; the sixteen thresholds are the last.
pub const MODE: usize = 0;

pub const NW: usize = 1;

pub const PL: usize = 2;

pub const NSB: usize = 3;

pub const NSA: usize = 4;

pub const LIMIT: usize = 5;

pub const SLOT: usize = 6;

pub const PARAMETERS: usize = 7;

pub const TIMES: usize = 8;

pub const MULTIPLE: usize = 9;

pub const THRESHOLDS: usize = 10;

pub const CHANNELS: usize = 16;

pub const SETTINGS: usize = THRESHOLDS + CHANNELS;

// Where a state's own numbers stand, the head.
pub const PHASE: usize = 0;

pub const BLOCK: usize = 1;

pub const EVENTS: usize = 2;

pub const EVENT: usize = 3;

pub const TIME: usize = 4;

pub const MARKS: usize = 5;

pub const CLOSED: usize = 6;

pub const WORDS: usize = 7;

pub const HEAD: usize = WORDS + 1;

// Where what is counted stands, behind the head: the counts of the channels, timer, triggers, part group, who was over, and the
// latched counts.
pub const COUNTS: usize = HEAD;

pub const TIMER: usize = COUNTS + CHANNELS;

pub const TRIGGERS: usize = TIMER + 1;

pub const PART: usize = TRIGGERS + 1;

pub const OVER: usize = PART + 1;

pub const LATCHED: usize = OVER + 1;

pub const SCALERS: usize = LATCHED + CHANNELS + 2 - HEAD;

// All that stands before the settings.
pub const FRONT: usize = HEAD + SCALERS;

pub const STATE: usize = FRONT + SETTINGS;

// The greatest numbers of a 32-bit and of a 64-bit field.
const MOST_32: u64 = 4294967295;

const MOST_64: u64 = 18446744073709551615;

// The greatest of each settings field before the thresholds, in the order of their places.
const FIELD_LIMITS: [u64; THRESHOLDS] = [
    MOST_32, MOST_64, MOST_32, MOST_64, MOST_64, MOST_64, MOST_32, 1, MOST_32, MOST_32,
];

// Of phase, block number, events to come, event number, time, posted marks, events closed, words written.
const HEAD_LIMITS: [u64; HEAD] = [
    2, MOST_32, MOST_32, MOST_32, MOST_64, 65535, MOST_32, MOST_64,
];

// As many numbers as limits, and each at most its limit.
fn held_in(limits: &[u64], numbers: &[u64]) -> bool
    ensures { result ≡ held_in limits.now numbers.now }
{
    numbers.len() == limits.len()
        && numbers
            .iter()
            .zip(limits)
            .fold(true, |good, (number, limit)| good & (*number <= *limit))
}

// Each is held by a 32-bit field.
fn held_in_32(numbers: &[u64]) -> bool
    ensures { result ≡ all_le most32 numbers.now }
{
    numbers
        .iter()
        .fold(true, |good, number| good & (*number <= MOST_32))
}

// As many as the settings are, each held by its field. The thresholds are taken from the end: at a place that is no constant
// the compiler asks them sixteen bytes at a time, and need not keep them for the load.
pub fn is_settings(numbers: &[u64]) -> bool
    ensures { result ≡ is_settings numbers.now }
{
    if numbers.len() < CHANNELS {
        return false;
    }
    let first = numbers.len() - CHANNELS;
    let thresholds = held_in_32(&numbers[first..]);
    let fields = held_in(&FIELD_LIMITS, &numbers[..first]);
    fields & thresholds
}

// What is counted: 32 bits each, but for who was over, a bit a channel. It is asked in two runs, many at once.
fn held_scalers(numbers: &[u64]) -> bool
    requires { length numbers.now ≡ 38 }
    ensures { result ≡ held_in scaler_limits numbers.now }
{
    let over = OVER - HEAD;
    let latched = LATCHED - HEAD;
    let running = held_in_32(&numbers[..over]);
    let kept = held_in_32(&numbers[latched..]);
    running & ((numbers[over] <= 65535) & kept)
}

// A head that its fields hold, then what is counted, then settings.
pub fn is_state(numbers: &[u64]) -> bool
    ensures { result ≡ is_state numbers.now }
{
    if numbers.len() < FRONT {
        return false;
    }
    let settings = is_settings(&numbers[FRONT..]);
    let scalers = held_scalers(&numbers[HEAD..FRONT]);
    let head = held_in(&HEAD_LIMITS, &numbers[..HEAD]);
    head & (scalers & settings)
}
