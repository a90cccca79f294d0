// The words of one event: its header, its time, the posted channels of the store, and its scalers where they are asked for.
#![tactic(auto)]

ghost use Rattle.std.specs.Prelude.{◌≡◌, true, cond, ◌&&◌, [], ◌++◌, ◌+◌, ◌-◌, ◌*◌, ◌^◌, ◌≤◌, leb, ltb, length};
ghost use Rattle.ground.specs.Splice.{Written, WrittenIf};
ghost use Rattle.limits.specs.Limits.{most_samples, tail_words};
ghost use Rattle.settings.specs.Ranges.{settings_ok};
ghost use Rattle.rows.specs.Rows.{lent_ok};
ghost use Rattle.rows.specs.Inner.{Lent};
ghost use Rattle.items.specs.Items.{words_of};
ghost use Rattle.modes.specs.Channel.{common_of, channel_items};
ghost use Rattle.event.specs.Event.{time_items, channels_items, event_items};
ghost use Rattle.tail.specs.Tail.{tail_items};
ghost use Rattle.event.specs.Inner.{event_length};

use framing::event_header::EventHeader;
use framing::trigger_time::TriggerTime;
use framing::trigger_time_high::TriggerTimeHigh;
use items::Item;
use limits::{CHANNELS, LATCHED, TAIL_WORDS};
use modes::Common;
use settings::Settings;

// Where the two time words part a time.
const BIT_24: u64 = 16777216;

// The words of a channel if it is posted.
fn put_posted(
    words: &mut [u32],
    at: usize,
    settings: Settings,
    posted: bool,
    threshold: u32,
    channel: u32,
    row: &[u16],
) -> usize
    requires settings_value { (settings_ok settings ≡ true) × (length row.now ≤ most_samples) }
    requires row_in_bounds { at + length (cond posted (channel_items (common_of settings) threshold channel row.now) []) ≤ length words.old }
    ensures { Written words.old at (words_of (cond posted (channel_items (common_of settings) threshold channel row.now) [])) result words.new }
{
    if posted {
        channel::put_channel(words, at, Common::from(settings), threshold, channel, row)
    } else {
        at
    }
}

// The posted channels, rising.
fn put_channels(
    words: &mut [u32],
    at: usize,
    settings: Settings,
    posted: &[bool],
    store: &[u16],
) -> usize
    requires lent { Lent settings posted.now store.now }
    requires posted_in_bounds { at + length (channels_items settings store.now 0 posted.now) ≤ length words.old }
    ensures { Written words.old at (words_of (channels_items settings store.now 0 posted.now)) result words.new }
{
    let mut next = at;
    for channel in 0..posted.len() {
        let start = channel * settings.nw;
        next = put_posted(
            words,
            next,
            settings,
            posted[channel],
            settings.thresholds[channel],
            channel as u32,
            &store[start..start + settings.nw],
        );
    }
    next
}

// The time words: none, the low 27 bits, or all 48.
fn put_times(words: &mut [u32], at: usize, times: u32, time: u64) -> usize
    requires time_bound { time ≤ 2 ^ 48 - 1 }
    requires time_in_bounds { at + length (time_items times time) ≤ length words.old }
    ensures { Written words.old at (words_of (time_items times time)) result words.new }
{
    let low = TriggerTime {
        middle: (time / BIT_24 % 8) as u32,
        low: (time % BIT_24) as u32,
    };
    let second = items::put::put_if(words, at, 1 <= times, Item::Clock(low));
    let high = TriggerTimeHigh {
        high: (time / BIT_24) as u32,
    };
    items::put::put_if(words, second, 2 <= times, Item::ClockHigh(high))
}

// All words of an event that has room.
fn put_lent(
    words: &mut [u32],
    at: usize,
    settings: Settings,
    number: u32,
    time: u64,
    posted: &[bool],
    store: &[u16],
) -> usize
    requires lent { Lent settings posted.now store.now × (time ≤ 2 ^ 48 - 1) }
    requires store_in_bounds { at + length (event_items settings number time posted.now store.now) ≤ length words.old }
    ensures { Written words.old at (words_of (event_items settings number time posted.now store.now)) result words.new }
{
    let header = EventHeader {
        slot: settings.slot,
        number,
    };
    let times = items::put::put_item(words, at, Item::Event(header));
    let channels = put_times(words, times, settings.times, time);
    put_channels(words, channels, settings, posted, store)
}

fn posted_length(settings: Settings, posted: bool, threshold: u32, row: &[u16]) -> usize
    requires { (settings_ok settings ≡ true) × (length row.now ≤ most_samples) }
    ensures { result ≡ cond posted (length (channel_items (common_of settings) threshold 0 row.now)) 0 }
{
    if posted {
        modes::channel_length(Common::from(settings), threshold, row)
    } else {
        0
    }
}

fn channels_length(settings: Settings, posted: &[bool], store: &[u16]) -> usize
    requires { Lent settings posted.now store.now }
    ensures { result ≡ length (channels_items settings store.now 0 posted.now) }
{
    let mut n = 0;
    for channel in 0..posted.len() {
        let start = channel * settings.nw;
        n += posted_length(
            settings,
            posted[channel],
            settings.thresholds[channel],
            &store[start..start + settings.nw],
        );
    }
    n
}

// How many words an event takes.
fn event_length(settings: Settings, posted: &[bool], store: &[u16]) -> usize
    requires { Lent settings posted.now store.now }
    ensures { result ≡ event_length settings posted.now store.now }
{
    1 + (settings.times as usize) + channels_length(settings, posted, store)
}

// The words of an event's scalers.
fn tail_length(asked: bool) -> usize
    ensures { result ≡ cond asked tail_words 0 }
{
    if asked { TAIL_WORDS } else { 0 }
}

// Fewer words are left than the event takes. Where there is room for the longest in the mode, nothing is counted.
fn event_short(
    room: usize,
    at: usize,
    settings: Settings,
    posted: &[bool],
    store: &[u16],
    asked: bool,
) -> bool
    requires { Lent settings posted.now store.now }
    ensures { result ≡ ltb room (at + (event_length settings posted.now store.now + cond asked tail_words 0)) }
{
    let channel = modes::most_words(settings.mode, settings.nw);
    let tail = tail_length(asked);
    if !items::put::room_short(room, at, 3 + CHANNELS * channel + tail) {
        return false;
    }
    items::put::room_short(room, at, event_length(settings, posted, store) + tail)
}

// The scalers where they are asked for.
fn put_asked(words: &mut [u32], at: usize, asked: bool, latched: [u32; LATCHED]) -> usize
    requires { at + length (tail_items asked latched) ≤ length words.old }
    ensures { Written words.old at (words_of (tail_items asked latched)) result words.new }
{
    if asked {
        tail::put_tail(words, at, latched)
    } else {
        at
    }
}

// All words of an event, or none: an event has a word, so the place tells.
pub fn put_event(
    words: &mut [u32],
    at: usize,
    settings: Settings,
    number: u32,
    time: u64,
    posted: &[bool],
    store: &[u16],
    asked: bool,
    latched: [u32; LATCHED],
) -> usize
    ensures { WrittenIf (lent_ok settings posted.now store.now && leb time (2 ^ 48 - 1)) words.old at (words_of (event_items settings number time posted.now store.now ++ tail_items asked latched)) result words.new }
{
    if !(rows::lent(settings, posted, store) & (time <= TriggerTimeHigh::TIME_MAX)) {
        return at;
    }
    if event_short(words.len(), at, settings, posted, store, asked) {
        return at;
    }
    let next = put_lent(words, at, settings, number, time, posted, store);
    put_asked(words, next, asked, latched)
}
