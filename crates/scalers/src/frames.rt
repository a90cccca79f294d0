// Frames counted: the sixteen samples of a frame side by side, in numbers as narrow as they are, so that they are compared at
// once. What a channel has seen is added to its count after some frames.
ghost use Rattle.std.specs.Prelude.{◌≡◌, ◌*◌, ◌≤◌, not, ◌&&◌, map, length, replicate, if◌then◌else◌};
ghost use Rattle.ground.specs.TestsLaws.{Under};
ghost use Rattle.scalers.specs.Scalers.{overs_of, rises_of, added_to, frames_of};
ghost use Rattle.scalers.specs.Inner.{narrow_of, plus_of, seen_from, over_from};

use crate::FRAME;
use std::array;

// The samples of 4,096 frames: so many are seen before what they add is added up, which sixteen bits hold.
pub(crate) const MOST_SEEN: usize = 65536;

// How often each channel rose, and whether it is over in the last frame.
#[derive(Clone, Copy)]
pub(crate) struct Seen {
    pub(crate) rises: [u16; 16],
    pub(crate) over: [bool; 16],
}

// A threshold in sixteen bits: no amplitude is over the greatest of them.
fn narrow(threshold: u32) -> u16
    ensures { result ≡ narrow_of threshold }
{
    threshold.min(65535) as u16
}

pub(crate) fn narrowed(thresholds: [u32; 16]) -> [u16; 16]
    ensures { result ≡ map narrow_of thresholds }
{
    thresholds.map(narrow)
}

// Which channels are over in a frame.
fn overs(thresholds: &[u16], frame: &[u16]) -> [bool; 16]
    requires { (length thresholds.now ≡ 16) × (length frame.now ≡ 16) }
    ensures { result ≡ overs_of thresholds.now frame.now }
{
    array::from_fn(|channel| samples::over(u32::from(thresholds[channel]), frame[channel]))
}

// 1 for a channel that is over and was not.
fn rise(before: bool, now: bool) -> u16
    ensures { (result ≡ (if now && not before then 1 else 0)) × (result ≤ 1) }
{
    u16::from(now & !before)
}

// What the frame adds to what each channel has seen.
fn add_rises(rises: &mut [u16], before: &[bool], now: &[bool])
    requires lens { (length rises.old ≡ 16) × (length before.now ≡ 16) × (length now.now ≡ 16) }
    requires under { Under 65534 rises.old }
    ensures { rises.new ≡ plus_of rises.old (rises_of before.now now.now) }
{
    for channel in 0..FRAME {
        rises[channel] += rise(before[channel], now[channel]);
    }
}

// One frame more. Who is over is copied into what is lent: handed on as a value from frame to frame, the array is taken apart into
// its channels, at three times the instructions.
fn see_frame(rises: &mut [u16], over: &mut [bool], thresholds: &[u16], frame: &[u16])
    requires rises_len { (length rises.old ≡ 16) × (length over.old ≡ 16) }
    requires thresholds_len { (length thresholds.now ≡ 16) × (length frame.now ≡ 16) }
    requires under { Under 65534 rises.old }
    ensures rises_after { rises.new ≡ plus_of rises.old (rises_of over.old (overs_of thresholds.now frame.now)) }
    ensures over_after { over.new ≡ overs_of thresholds.now frame.now }
{
    let now = overs(thresholds, frame);
    add_rises(rises, over, &now);
    over.copy_from_slice(&now);
}

// Frames one after the other; what is no whole frame is not looked at. Out of line: in line, the adding up behind it has the
// channels seen four at a time, at twice the instructions.
#[inline(never)]
pub(crate) fn see_frames(thresholds: &[u16], before: [bool; 16], frames: &[u16]) -> Seen
    requires { (length thresholds.now ≡ 16) × (length frames.now ≤ 16 * 4096) }
    ensures rises_value { result.rises ≡ seen_from thresholds.now (replicate 16 0) before (frames_of frames.now) }
    ensures over_value { result.over ≡ over_from thresholds.now before (frames_of frames.now) }
{
    let mut rises = [0u16; 16];
    let mut over = before;
    for frame in frames.chunks_exact(FRAME) {
        see_frame(&mut rises, &mut over, thresholds, frame);
    }
    Seen { rises, over }
}

// What was seen is added to the counts.
pub(crate) fn added(counts: [u32; 16], rises: [u16; 16]) -> [u32; 16]
    ensures { result ≡ added_to counts rises }
{
    array::from_fn(|channel| counts[channel].wrapping_add(u32::from(rises[channel])))
}
