// The line of each record, put on a page.
#![tactic(auto)]

ghost use Rattle.std.specs.Prelude.{◌≡◌};
ghost use Rattle.written.specs.Page.{put};
ghost use Rattle.written.specs.Line.{line_text, text_of};
ghost use Rattle.lines.specs.Lines.{block_line, setup_line, event_line, clock_line, window_line, pulse_line, pair_line, integral_line, time_line, ped_line, end_line, empty_line, refused_line, fill_lines};

use framing::block_header::BlockHeader;
use framing::empty::ModuleEmpty;
use framing::event_header::EventHeader;
use framing::parameters::Parameters;
use framing::trailer::BlockTrailer;
use framing::trigger_time::TriggerTime;
use measures::integral::PulseIntegral;
use measures::pedestal::PulsePedestal;
use measures::time::PulseTime;
use raw::pair::SamplePair;
use raw::pulse_raw::PulseRaw;
use raw::window::WindowRaw;

// A second time word's bits begin at bit 24 of the time.
const BIT_24: u64 = 1 << 24;

pub fn put_block(text: &mut [u8], at: usize, r: BlockHeader) -> usize
    ensures { (text.new, result) ≡ put (text.old, at) (line_text (block_line r)) }
{
    let cells = [u64::from(r.slot), u64::from(r.number), u64::from(r.events)];
    text::put_line(text, at, b"block", &cells, 0)
}

pub fn put_setup(text: &mut [u8], at: usize, r: Parameters) -> usize
    ensures { (text.new, result) ≡ put (text.old, at) (line_text (setup_line r)) }
{
    let cells = [u64::from(r.pl), u64::from(r.nsb), u64::from(r.nsa)];
    text::put_line(text, at, b"setup", &cells, 0)
}

pub fn put_event(text: &mut [u8], at: usize, r: EventHeader) -> usize
    ensures { (text.new, result) ≡ put (text.old, at) (line_text (event_line r)) }
{
    let cells = [u64::from(r.number)];
    text::put_line(text, at, b"event", &cells, 0)
}

// One time word: the low 27 bits. Two, the second with time bits 47-24: the 48-bit time.
pub fn put_clock(text: &mut [u8], at: usize, r: TriggerTime, second: Option<u32>) -> usize
    ensures { (text.new, result) ≡ put (text.old, at) (line_text (clock_line r second)) }
{
    match second {
        None => {
            let cells = [u64::from(r.middle) * BIT_24 + u64::from(r.low)];
            text::put_line(text, at, b"clock27", &cells, 0)
        }
        Some(high) => {
            let cells = [u64::from(high) * BIT_24 + u64::from(r.low)];
            text::put_line(text, at, b"clock", &cells, 0)
        }
    }
}

pub fn put_window(text: &mut [u8], at: usize, r: WindowRaw) -> usize
    ensures { (text.new, result) ≡ put (text.old, at) (line_text (window_line r)) }
{
    let cells = [u64::from(r.channel), u64::from(r.width)];
    text::put_line(text, at, b"window", &cells, 0)
}

pub fn put_pulse(text: &mut [u8], at: usize, r: PulseRaw) -> usize
    ensures { (text.new, result) ≡ put (text.old, at) (line_text (pulse_line r)) }
{
    let cells = [u64::from(r.channel), u64::from(r.pulse), u64::from(r.tc)];
    text::put_line(text, at, b"pulse", &cells, 0)
}

// A dash for each sample that is flagged.
pub fn put_pair(text: &mut [u8], at: usize, r: SamplePair) -> usize
    ensures { (text.new, result) ≡ put (text.old, at) (line_text (pair_line r)) }
{
    let cells = [u64::from(r.first), u64::from(r.second)];
    let dashes = u32::from(r.nofirst == 1) + 2 * u32::from(r.nosecond == 1);
    text::put_line(text, at, b"pair", &cells, dashes)
}

pub fn put_integral(text: &mut [u8], at: usize, r: PulseIntegral) -> usize
    ensures { (text.new, result) ≡ put (text.old, at) (line_text (integral_line r)) }
{
    let cells = [
        u64::from(r.channel),
        u64::from(r.pulse),
        u64::from(r.quality),
        u64::from(r.sum),
    ];
    text::put_line(text, at, b"integral", &cells, 0)
}

pub fn put_time(text: &mut [u8], at: usize, r: PulseTime) -> usize
    ensures { (text.new, result) ≡ put (text.old, at) (line_text (time_line r)) }
{
    let cells = [
        u64::from(r.channel),
        u64::from(r.pulse),
        u64::from(r.quality),
        u64::from(r.coarse),
        u64::from(r.fine),
    ];
    text::put_line(text, at, b"time", &cells, 0)
}

pub fn put_ped(text: &mut [u8], at: usize, r: PulsePedestal) -> usize
    ensures { (text.new, result) ≡ put (text.old, at) (line_text (ped_line r)) }
{
    let cells = [
        u64::from(r.channel),
        u64::from(r.pulse),
        u64::from(r.vmin),
        u64::from(r.vpeak),
    ];
    text::put_line(text, at, b"ped", &cells, 0)
}

pub fn put_end(text: &mut [u8], at: usize, r: BlockTrailer) -> usize
    ensures { (text.new, result) ≡ put (text.old, at) (line_text (end_line r)) }
{
    let cells = [u64::from(r.words)];
    text::put_line(text, at, b"end", &cells, 0)
}

pub fn put_empty(text: &mut [u8], at: usize, r: ModuleEmpty) -> usize
    ensures { (text.new, result) ≡ put (text.old, at) (line_text (empty_line r)) }
{
    let cells = [u64::from(r.slot)];
    text::put_line(text, at, b"empty", &cells, 0)
}

pub fn put_refused(text: &mut [u8], at: usize, number: u32, place: u32) -> usize
    ensures { (text.new, result) ≡ put (text.old, at) (line_text (refused_line number place)) }
{
    let cells = [u64::from(number), u64::from(place)];
    text::put_line(text, at, b"refused", &cells, 0)
}

// No line where there are no fillers.
pub fn put_fill(text: &mut [u8], at: usize, fillers: u64) -> usize
    ensures { (text.new, result) ≡ put (text.old, at) (text_of (fill_lines fillers)) }
{
    if fillers == 0 {
        return at;
    }
    let cells = [fillers];
    text::put_line(text, at, b"fill", &cells, 0)
}
