// The words of one channel, put into a lent buffer.
#![tactic(auto)]

ghost use Rattle.std.specs.Prelude.{◌≡◌, true, cond, None, [], ◌+◌, ◌≤◌, ltb, length};
ghost use Rattle.ground.specs.Splice.{Written, WrittenIf};
ghost use Rattle.limits.specs.Limits.{most_samples};
ghost use Rattle.search.specs.Search.{tc_from};
ghost use Rattle.timing.specs.ByBase.{base_of};
ghost use Rattle.finder.specs.Find.{searchable};
ghost use Rattle.items.specs.Items.{words_of};
ghost use Rattle.modes.specs.Channel.{window_items, pulses_items, pulses_of, channel_items, channel_words};
ghost use Rattle.modes.specs.Inner.{channel_length};

use items::Item;
use items::put::room_short;
use modes::Common;
use pulse::Parts;
use raw::window::WindowRaw;

// The TC that the search from s finds; the first one was found before.
fn tc_after(first: usize, row: &[u16], threshold: u32, s: usize) -> usize
    requires { first ≡ tc_from row.now threshold 0 }
    ensures { result ≡ tc_from row.now threshold s }
{
    if s == 0 {
        first
    } else {
        search::tc_from(row, threshold, s)
    }
}

// The base of the times, where the mode writes one.
fn base_if(on: bool, row: &[u16], threshold: u32) -> Option<u32>
    ensures { result ≡ cond on (base_of row.now threshold) None }
{
    if on {
        timing::base_of(row, threshold)
    } else {
        None
    }
}

// The pulses in order, each written as it is found, with no more of it than the mode writes.
fn put_pulses(
    words: &mut [u32],
    at: usize,
    parts: Parts,
    common: Common,
    threshold: u32,
    channel: u32,
    row: &[u16],
    first: usize,
) -> usize
    requires limit_value { (searchable (length row.now) common.nsa common.limit ≡ true) × (first ≡ tc_from row.now threshold 0) }
    requires limit_in_bounds { at + length (pulses_items parts channel row.now 0 (pulses_of common threshold row.now)) ≤ length words.old }
    ensures { Written words.old at (words_of (pulses_items parts channel row.now 0 (pulses_of common threshold row.now))) result words.new }
{
    let sums = parts.integral;
    let times = parts.high | parts.pedestal;
    let base = base_if(times, row, threshold);
    let mut next = at;
    let mut s = 0;
    for i in 0..common.limit {
        let tc = tc_after(first, row, threshold, s);
        if tc == 0 {
            return next;
        }
        let pulse = finder::pulse_with(row, threshold, common.nsb, common.nsa, tc, sums, base);
        next = pulse::put_pulse(words, next, parts, channel, row, i as u32, pulse);
        s = tc + common.nsa;
    }
    next
}

// The channel's window where it is wanted.
fn put_window_if(words: &mut [u32], at: usize, on: bool, channel: u32, row: &[u16]) -> usize
    requires row_len_bound { length row.now ≤ most_samples }
    requires row_in_bounds { at + length (cond on (window_items channel row.now) []) ≤ length words.old }
    ensures { Written words.old at (words_of (cond on (window_items channel row.now) [])) result words.new }
{
    if on {
        let width = row.len() as u32;
        pairs::put_run(words, at, Item::Window(WindowRaw { channel, width }), row)
    } else {
        at
    }
}

// The words of a channel that has a pulse, and room: the window where the mode writes it, then the pulses.
fn put_found(
    words: &mut [u32],
    at: usize,
    common: Common,
    threshold: u32,
    channel: u32,
    row: &[u16],
    first: usize,
) -> usize
    requires limit_value { (searchable (length row.now) common.nsa common.limit ≡ true) × (first ≡ tc_from row.now threshold 0) × (1 ≤ first) }
    requires row_in_bounds { at + length (channel_items common threshold channel row.now) ≤ length words.old }
    ensures { Written words.old at (channel_words common threshold channel row.now) result words.new }
{
    let parts = modes::parts_of(common.mode);
    let limit = modes::limit_for(parts, common.limit);
    let window = put_window_if(words, at, parts.window, channel, row);
    let written = Common { limit, ..common };
    put_pulses(
        words, window, parts, written, threshold, channel, row, first,
    )
}

// Fewer words are left than the channel takes. Where there is room for the longest in the mode, nothing is counted.
fn channel_short(room: usize, at: usize, common: Common, threshold: u32, row: &[u16]) -> bool
    requires { searchable (length row.now) common.nsa common.limit ≡ true }
    ensures { result ≡ ltb room (at + channel_length common threshold row.now) }
{
    room_short(room, at, modes::most_words(common.mode, row.len()))
        && room_short(room, at, modes::channel_length(common, threshold, row))
}

// The words of a channel: of the common settings, its own threshold, its number and its window. Without a sample over there are none.
pub fn put_channel(
    words: &mut [u32],
    at: usize,
    common: Common,
    threshold: u32,
    channel: u32,
    row: &[u16],
) -> usize
    ensures { WrittenIf (searchable (length row.now) common.nsa common.limit) words.old at (channel_words common threshold channel row.now) result words.new }
{
    if !finder::can_search(row.len(), common.nsa, common.limit) {
        return at;
    }
    let first = search::tc_from(row, threshold, 0);
    if first == 0 {
        return at;
    }
    if channel_short(words.len(), at, common, threshold, row) {
        return at;
    }
    put_found(words, at, common, threshold, channel, row, first)
}
