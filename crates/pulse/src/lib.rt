// The words of one pulse, put into a lent buffer.
#![tactic(auto)]

mod measure;

ghost use Rattle.std.specs.Prelude.{◌≡◌, cond, [], ◌+◌, ◌≤◌, length};
ghost use Rattle.ground.specs.Splice.{Written, WrittenIf};
ghost use Rattle.limits.specs.Limits.{most_samples};
ghost use Rattle.items.specs.Items.{words_of};
ghost use Rattle.pulse.specs.Pulse.{raw_items, pulse_items, fits_in, set_length, pulse_length};
ghost use Rattle.pulse.specs.Inner.{Fitting, word_if};

use finder::Pulse;
use items::Item;
use items::put::room_short;
use raw::pulse_raw::PulseRaw;

// What a mode writes: the window, and of each pulse its samples, integral, time (high-resolution or TC) and pedestal.
#[derive(Clone, Copy)]
pub struct Parts {
    pub window: bool,
    pub raw: bool,
    pub integral: bool,
    pub time: bool,
    pub high: bool,
    pub pedestal: bool,
}

// The pulse's numbers are of a window of so many samples.
fn fits_in(pulse: Pulse, samples: usize) -> bool
    ensures { result ≡ fits_in samples pulse }
{
    let time = pulse.time;
    (pulse.tc <= samples)
        & (1 <= pulse.first)
        & (pulse.first <= pulse.last)
        & (pulse.last <= samples)
        & (time.coarse <= samples)
        & (samples <= limits::MOST_SAMPLES)
}

// How many words the mode writes of a pulse whose data set has so many samples.
pub fn set_length(parts: Parts, samples: usize) -> usize
    ensures { result ≡ set_length parts samples }
{
    let run = pairs::run_length_if(parts.raw, samples);
    let integral = usize::from(parts.integral);
    let time = usize::from(parts.time);
    let pedestal = usize::from(parts.pedestal);
    run + (integral + (time + pedestal))
}

fn fitting_length(parts: Parts, pulse: Pulse) -> usize
    requires { (pulse.last ≤ most_samples) × (1 ≤ pulse.first) × (pulse.first ≤ pulse.last) }
    ensures { result ≡ pulse_length parts pulse }
{
    set_length(parts, pulse.last + 1 - pulse.first)
}

// A pulse's data set where the mode writes it.
fn put_raw_if(
    words: &mut [u32],
    at: usize,
    on: bool,
    channel: u32,
    row: &[u16],
    i: u32,
    pulse: Pulse,
) -> usize
    requires fitting { Fitting (length row.now) pulse }
    requires pulse_in_bounds { at + length (cond on (raw_items channel row.now i pulse) []) ≤ length words.old }
    ensures { Written words.old at (words_of (cond on (raw_items channel row.now i pulse) [])) result words.new }
{
    if on {
        let tc = pulse.tc as u32;
        let raw = PulseRaw {
            channel,
            pulse: i,
            tc,
        };
        let first = pulse.first - 1;
        let last = pulse.last;
        pairs::put_run(words, at, Item::Raw(raw), &row[first..last])
    } else {
        at
    }
}

// A word where the mode writes it.
fn put_word_if(words: &mut [u32], at: usize, on: bool, word: u32) -> usize
    requires { at + length (word_if on word) ≤ length words.old }
    ensures { Written words.old at (word_if on word) result words.new }
{
    if on {
        words[at] = word;
        at + 1
    } else {
        at
    }
}

// What the mode writes of a pulse that has room.
fn put_fitting(
    words: &mut [u32],
    at: usize,
    parts: Parts,
    channel: u32,
    row: &[u16],
    i: u32,
    pulse: Pulse,
) -> usize
    requires fitting { Fitting (length row.now) pulse }
    requires pulse_in_bounds { at + length (pulse_items parts channel row.now i pulse) ≤ length words.old }
    ensures { Written words.old at (words_of (pulse_items parts channel row.now i pulse)) result words.new }
{
    let samples = put_raw_if(words, at, parts.raw, channel, row, i, pulse);
    let integral = put_word_if(
        words,
        samples,
        parts.integral,
        measure::integral_word(channel, i, pulse),
    );
    let time = put_word_if(
        words,
        integral,
        parts.time,
        measure::time_word(parts.high, channel, i, pulse),
    );
    put_word_if(
        words,
        time,
        parts.pedestal,
        measure::pedestal_word(channel, i, pulse),
    )
}

// What the mode writes of one pulse of the window `row`, the i-th.
pub fn put_pulse(
    words: &mut [u32],
    at: usize,
    parts: Parts,
    channel: u32,
    row: &[u16],
    i: u32,
    pulse: Pulse,
) -> usize
    ensures { WrittenIf (fits_in (length row.now) pulse) words.old at (words_of (pulse_items parts channel row.now i pulse)) result words.new }
{
    if !fits_in(pulse, row.len()) {
        return at;
    }
    if room_short(words.len(), at, fitting_length(parts, pulse)) {
        return at;
    }
    put_fitting(words, at, parts, channel, row, i, pulse)
}

// How many words that is, of a window of so many samples.
pub fn pulse_length(parts: Parts, pulse: Pulse, samples: usize) -> usize
    ensures { result ≡ cond (fits_in samples pulse) (pulse_length parts pulse) 0 }
{
    if fits_in(pulse, samples) {
        fitting_length(parts, pulse)
    } else {
        0
    }
}
