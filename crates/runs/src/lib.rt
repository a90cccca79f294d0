// The check inside events many words at a time: measures, windows, data sets, and the heads of events. Whatever else stands
// there is left to the reader's step of one word, and so is every refusal.
#![tactic(auto)]

ghost use Rattle.std.specs.Prelude.{◌≡◌, true, ◌+◌, ◌*◌, ◌≤◌, ◌<◌, length, get_or};
ghost use Rattle.fields.specs.Bytes.{words_of_bytes};
ghost use Rattle.runs.specs.Runs.{Behind, Passed, Onward};

use fields::record::Defining;
use framing::trailer::BlockTrailer;
use framing::trigger_time::TriggerTime;
use scan::{Scan, Stage};

mod events;
mod sets;

// No word before the trailer may stand here.
const PLACE_MAX: u32 = BlockTrailer::WORDS_MAX;

// A scan, and the number of its next word.
#[derive(Clone, Copy)]
pub struct Place {
    pub scan: Scan,
    pub next: usize,
}

// The length of what is lent is known where it is asked for: no test is left of it.
fn joined_at(bytes: &[u8], k: usize) -> u32
    requires { 4 * k + 4 ≤ length bytes.now }
    ensures { result ≡ get_or (words_of_bytes bytes.now) k 0 }
{
    let from = 4 * k;
    let to = from + 4;
    stretches::word_at(&bytes[from..to], 0)
}

// Behind the item or the measures that stand here, or here.
fn item_end(bytes: &[u8], k: usize, end: usize) -> usize
    requires { (k < end) × (4 * end ≤ length bytes.now) }
    ensures { (result ≤ end) × Passed (words_of_bytes bytes.now) k result }
{
    let word = joined_at(bytes, k);
    if sets::is_window(word) {
        return sets::window_end(bytes, k, end, fields::take(word, 0, 12) as usize);
    }
    if sets::is_raw(word) {
        return sets::raw_end(bytes, k, end);
    }
    let from = 4 * k;
    let to = 4 * end;
    k + stretches::measured_count(&bytes[from..to])
}

// Past the items that stand here. A step is as long as the item, which no `for` says.
fn items_end(bytes: &[u8], from: usize, end: usize) -> usize
    requires { (from ≤ end) × (4 * end ≤ length bytes.now) }
    ensures { (result ≤ end) × Passed (words_of_bytes bytes.now) from result }
{
    let mut k = from;
    while k < end {
        let next = item_end(bytes, k, end);
        if next == k {
            return k;
        }
        k = next;
    }
    k
}

// Whether this word stands as behind an item: so does a defining word where a time word might come.
#[tactic(auto, using(crate::specs::RunsLaws::behind_header))]
fn is_behind(scan: Scan, word: u32) -> bool
    ensures { result ≡ true → Behind scan word }
{
    match scan.stage {
        Stage::Opened => !(fields::is_continuation(word) | TriggerTime::is(word)),
        Stage::Timed(_) => !fields::is_continuation(word),
        Stage::Items => true,
        _ => false,
    }
}

// Past all that is passed at once from this word on, but not past the bytes, nor past the limit.
pub fn past_items(scan: Scan, bytes: &[u8], k: usize) -> Place
    ensures { Onward bytes.now scan k result.scan result.next }
{
    let count = bytes.len() / 4;
    let behind = is_behind(scan, stretches::word_at(bytes, k));
    if behind && k < count && scan.place < PLACE_MAX {
        let room = usize::min(count - k, (PLACE_MAX - scan.place) as usize);
        let run = events::events_end(bytes, k, k + room, scan.slot, scan.left);
        return Place {
            scan: Scan {
                place: scan.place + ((run.next - k) as u32),
                left: run.left,
                stage: Stage::Items,
                ..scan
            },
            next: run.next,
        };
    }
    Place { scan, next: k }
}
