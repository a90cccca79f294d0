// A window and a pulse's data set: a header and its pairs.
ghost use Rattle.std.specs.Prelude.{◌≡◌, true, ◌&&◌, ◌+◌, ◌*◌, ◌≤◌, ◌<◌, length, get_or};
ghost use Rattle.fields.specs.Word.{read};
ghost use Rattle.fields.specs.Tag.{is_defining};
ghost use Rattle.fields.specs.Bytes.{words_of_bytes};
ghost use Rattle.raw.specs.Words.{window_fixed};
ghost use Rattle.raw.specs.Plain.{plain};
ghost use Rattle.stretches.specs.Stretches.{single, All};
ghost use Rattle.runs.specs.Runs.{raw_head, Passed};

use fields::record::Defining;
use raw::pulse_raw::PulseRaw;
use raw::window::WindowRaw;

// But for its width, which is asked for where it is used.
pub(crate) fn is_window(word: u32) -> bool
    ensures { result ≡ (is_defining 4 word && window_fixed word) }
{
    WindowRaw::is(word) & WindowRaw::fixed(word)
}

#[tactic(auto, unfolding(crate::specs::Runs::raw_head))]
pub(crate) fn is_raw(word: u32) -> bool
    ensures { result ≡ raw_head word }
{
    PulseRaw::is(word) & PulseRaw::fixed(word)
}

fn single_at(bytes: &[u8], k: usize) -> bool
    requires { 4 * k + 4 ≤ length bytes.now }
    ensures { result ≡ single (get_or (words_of_bytes bytes.now) k 0) }
{
    let from = 4 * k;
    let to = from + 4;
    stretches::is_single(&bytes[from..to])
}

// Behind the window whose header stands here, or here.
pub(crate) fn window_end(bytes: &[u8], k: usize, end: usize, width: usize) -> usize
    requires { ((k < end) × (4 * end ≤ length bytes.now)) × ((is_defining 4 (get_or (words_of_bytes bytes.now) k 0) && window_fixed (get_or (words_of_bytes bytes.now) k 0) ≡ true) × (width ≡ read 11 0 (get_or (words_of_bytes bytes.now) k 0))) }
    ensures { (result ≤ end) × Passed (words_of_bytes bytes.now) k result }
{
    if width == 0 {
        return k;
    }
    if limits::MOST_SAMPLES < width {
        return k;
    }
    let full = k + 1 + width / 2;
    let stop = full + width % 2;
    if end < stop {
        return k;
    }
    let from = 4 * (k + 1);
    let to = 4 * full;
    if !stretches::all_plain(&bytes[from..to]) {
        return k;
    }
    if width % 2 == 0 {
        return stop;
    }
    if single_at(bytes, full) { stop } else { k }
}

// Behind the plain pairs of a data set: most have few.
fn few_end(bytes: &[u8], k: usize, end: usize) -> usize
    requires { (k ≤ end) × (4 * end ≤ length bytes.now) }
    ensures { (result ≤ end) × All plain (words_of_bytes bytes.now) k result }
{
    let from = 4 * k;
    let to = 4 * end;
    k + stretches::few_plain(&bytes[from..to])
}

// Behind the data set whose header stands here, or here. A defining word ends it.
pub(crate) fn raw_end(bytes: &[u8], k: usize, end: usize) -> usize
    requires { ((k < end) × (4 * end ≤ length bytes.now)) × (raw_head (get_or (words_of_bytes bytes.now) k 0) ≡ true) }
    ensures { (result ≤ end) × Passed (words_of_bytes bytes.now) k result }
{
    let most = usize::min(k + limits::MOST_RAW, end);
    let full = few_end(bytes, k + 1, most);
    if full == end {
        return k;
    }
    if single_at(bytes, full) {
        if full == most {
            return k;
        }
        if full + 1 == end {
            return k;
        }
        if fields::is_continuation(crate::joined_at(bytes, full + 1)) {
            return k;
        }
        return full + 1;
    }
    if full == k + 1 {
        return k;
    }
    if fields::is_continuation(crate::joined_at(bytes, full)) {
        k
    } else {
        full
    }
}
