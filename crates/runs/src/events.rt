// Event by event: an event's head, and its items.
ghost use Rattle.std.specs.Prelude.{◌≡◌, ◌*◌, ◌≤◌, length};
ghost use Rattle.fields.specs.Bytes.{words_of_bytes};
ghost use Rattle.runs.specs.Runs.{head_size, HeadTo, PassedTo};

use fields::record::{Continuation, Defining};
use framing::event_header::EventHeader;
use framing::trigger_time::TriggerTime;
use framing::trigger_time_high::TriggerTimeHigh;

// How far it went, and the event headers still to come.
#[derive(Clone, Copy)]
pub(crate) struct Events {
    pub next: usize,
    pub left: u32,
}

// How many words an event's head has, by the two behind its header: a defining word shows that no more come. 0 where they are
// left to the reader.
#[tactic(auto, unfolding(crate::specs::Runs::head_size))]
fn head_size(low: u32, high: u32) -> usize
    ensures { (result ≤ 3) × (result ≡ head_size low high) }
{
    if TriggerTimeHigh::is(low) {
        return 0;
    }
    if !TriggerTime::is(low) {
        return 1;
    }
    if !TriggerTimeHigh::is(high) {
        return 2;
    }
    let same = fields::take(high, 0, 24) % 8 == fields::take(low, 24, 3);
    if TriggerTimeHigh::fixed(high) & same {
        3
    } else {
        0
    }
}

// Behind the head of an event of that slot that stands here, or here.
fn head_end(bytes: &[u8], k: usize, end: usize, slot: u32) -> usize
    requires { (k ≤ end) × (4 * end ≤ length bytes.now) }
    ensures { (result ≤ end) × HeadTo (words_of_bytes bytes.now) slot k result }
{
    if end - k < 3 {
        return k;
    }
    let head = crate::joined_at(bytes, k);
    if EventHeader::is(head) & (fields::take(head, 22, 5) == slot) {
        let low = crate::joined_at(bytes, k + 1);
        let high = crate::joined_at(bytes, k + 2);
        return k + head_size(low, high);
    }
    k
}

// Past the heads of events that stand here one behind the other: of events without an item.
fn heads_end(bytes: &[u8], from: usize, end: usize, slot: u32, left: u32) -> Events
    requires { (from ≤ end) × (4 * end ≤ length bytes.now) }
    ensures { (result.next ≤ end) × PassedTo (words_of_bytes bytes.now) slot from left result.next result.left }
{
    let mut k = from;
    for passed in 0..left {
        let next = head_end(bytes, k, end, slot);
        if next == k {
            return Events {
                next: k,
                left: left - passed,
            };
        }
        k = next;
    }
    Events { next: k, left: 0 }
}

// The items that stand here, and event by event as long as the head of one is passed. A step is as long as the event, which no
// `for` says.
pub(crate) fn events_end(bytes: &[u8], from: usize, end: usize, slot: u32, left: u32) -> Events
    requires { (from ≤ end) × (4 * end ≤ length bytes.now) }
    ensures { (result.next ≤ end) × PassedTo (words_of_bytes bytes.now) slot from left result.next result.left }
{
    let mut k = crate::items_end(bytes, from, end);
    let mut n = left;
    while k < end {
        let heads = heads_end(bytes, k, end, slot, n);
        if heads.next == k {
            return Events { next: k, left: n };
        }
        k = crate::items_end(bytes, heads.next, end);
        n = heads.left;
    }
    Events { next: k, left: n }
}
