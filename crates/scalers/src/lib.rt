// What is counted of frames and of events: document 02, "Scaler words". Every count wraps at 2^32.
#![tactic(auto)]

ghost use Rattle.std.specs.Prelude.{◌≡◌};
ghost use Rattle.scalers.specs.Scalers.{nothing_counted, frames_of, count_frames, triggered, latched_now, reset_now};

use frames::MOST_SEEN;
use limits::{CHANNELS, LATCHED};

mod frames;

// The samples of a frame.
pub const FRAME: usize = 16;

// The frames of a group, which the timer counts.
pub const GROUP: usize = 512;

// As many numbers as a count can be.
const COUNTS: usize = 4294967296;

// The running counts of the channels, of whole groups of frames and of events opened; the frames of the group that is not
// whole yet; which channels were over in the last frame; the counts as they were latched.
#[derive(Clone, Copy)]
pub struct Scalers {
    pub counts: [u32; 16],
    pub timer: u32,
    pub triggers: u32,
    pub part: u32,
    pub over: [bool; 16],
    pub latched: [u32; 18],
}

// Before the first frame and the first event.
pub fn none() -> Scalers
    ensures { result ≡ nothing_counted }
{
    Scalers {
        counts: [0; 16],
        timer: 0,
        triggers: 0,
        part: 0,
        over: [false; 16],
        latched: [0; 18],
    }
}

// An event was opened.
pub fn trigger(s: Scalers) -> Scalers
    ensures { result ≡ triggered s }
{
    Scalers {
        triggers: s.triggers.wrapping_add(1),
        ..s
    }
}

// Copies the counts, the timer and the triggers, all at once.
pub fn latch(s: Scalers) -> Scalers
    ensures { result ≡ latched_now s }
{
    let behind = [s.timer, s.triggers];
    let mut latched = [0u32; LATCHED];
    copies::put(&mut latched, 0, &s.counts);
    copies::put(&mut latched, CHANNELS, &behind);
    Scalers { latched, ..s }
}

// Zeroes what is running; the latched counts and the last frame stay.
pub fn reset(s: Scalers) -> Scalers
    ensures { result ≡ reset_now s }
{
    let over = s.over;
    let latched = s.latched;
    Scalers {
        over,
        latched,
        ..none()
    }
}

// Counts the whole frames of the samples.
pub fn count(s: Scalers, thresholds: [u32; 16], samples: &[u16]) -> Scalers
    ensures { result ≡ count_frames thresholds s (frames_of samples.now) }
{
    let frames = samples.len() / FRAME;
    if frames == 0 {
        return s;
    }
    let narrow = frames::narrowed(thresholds);
    let mut counts = s.counts;
    let mut over = s.over;
    for part in samples[..frames * FRAME].chunks(MOST_SEEN) {
        let seen = frames::see_frames(&narrow, over, part);
        let sums = frames::added(counts, seen.rises);
        counts = sums;
        over = seen.over;
    }
    let since = (s.part as usize) + frames;
    Scalers {
        counts,
        timer: s.timer.wrapping_add((since / GROUP % COUNTS) as u32),
        part: (since % GROUP) as u32,
        over,
        ..s
    }
}
