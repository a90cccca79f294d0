// One record of a listing: its lines, by what follows it.
#![tactic(auto)]

ghost use Rattle.std.specs.Prelude.{◌≡◌, ◌≤◌, get_or};
ghost use Rattle.reader.specs.Reader.{read_from};
ghost use Rattle.fields.specs.Bytes.{words_of_bytes};
ghost use Rattle.written.specs.Page.{put};
ghost use Rattle.written.specs.Line.{line_text, text_of};
ghost use Rattle.lines.specs.Lines.{scalers_line};
ghost use Rattle.entries.specs.Entries.{high_in, second_of, scalers_in, scaler_cells, record_lines, filler_in};

use items::Item;
use scan::Scan;

// The first word of the bytes, 0 for none.
pub fn first_word(bytes: &[u8]) -> u32
    ensures { result ≡ get_or (words_of_bytes bytes.now) 0 0 }
{
    let [a, b, c, d, ..] = bytes else {
        return 0;
    };
    fields::of_bytes(*a, *b, *c, *d)
}

fn high_in(item: Item) -> Option<u32>
    ensures { result ≡ high_in item }
{
    match item {
        Item::ClockHigh(r) => Some(r.high),
        _ => None,
    }
}

// Looks one word ahead: a second time word, if one is accepted there.
#[tactic(auto, using(crate::specs::AheadLaws::second_ahead))]
fn second_in(bytes: &[u8], scan: Scan) -> Option<u32>
    ensures { result ≡ second_of (read_from scan (words_of_bytes bytes.now)).items }
{
    if bytes.len() < 4 {
        return None;
    }
    match reader::judge_at(scan, first_word(bytes)) {
        Ok(Some((item, _))) => high_in(item),
        Ok(None) | Err(_) => None,
    }
}

// The scalers' words that are accepted here, each behind a tab.
#[tactic(auto, using(crate::specs::AheadLaws::cells_ahead))]
fn put_words(text: &mut [u8], from: usize, bytes: &[u8], after: Scan) -> usize
    ensures { (text.new, result) ≡ put (text.old, from) (scaler_cells (read_from after (words_of_bytes bytes.now)).items) }
{
    let mut scan = after;
    let mut rest = bytes;
    let mut at = from;
    while let [a, b, c, d, behind @ ..] = rest {
        let word = fields::of_bytes(*a, *b, *c, *d);
        let Ok(Some((item, after))) = reader::judge_at(scan, word) else {
            return at;
        };
        let Item::Scaler(r) = item else {
            return at;
        };
        at = text::put_cell(text, at, false, u64::from(r.value));
        scan = after;
        rest = behind;
    }
    at
}

// The scalers' line, by the bytes and the scan behind their header.
fn put_scalers(text: &mut [u8], at: usize, behind: &[u8], after: Scan) -> usize
    ensures { (text.new, result) ≡ put (text.old, at) (line_text (scalers_line (scalers_in (read_from after (words_of_bytes behind.now)).items))) }
{
    let name = text::put_bytes(text, at, b"scalers");
    let words = put_words(text, name, behind, after);
    text::put_bytes(text, words, b"\n")
}

// The lines of one record; `behind` and `after` are the bytes and the scan behind it.
#[tactic(auto, using(written::specs::LineLaws::text_one), unfolding(written::specs::Line::text_of, written::specs::Page::put))]
pub fn list_item(text: &mut [u8], at: usize, item: Item, behind: &[u8], after: Scan) -> usize
    ensures { (text.new, result) ≡ put (text.old, at) (text_of (record_lines item (read_from after (words_of_bytes behind.now)).items)) }
{
    match item {
        Item::Block(r) => lines::put_block(text, at, r),
        Item::Parameters(r) => lines::put_setup(text, at, r),
        Item::Trailer(r) => lines::put_end(text, at, r),
        Item::Event(r) => lines::put_event(text, at, r),
        Item::Clock(r) => lines::put_clock(text, at, r, second_in(behind, after)),
        Item::Window(r) => lines::put_window(text, at, r),
        Item::Raw(r) => lines::put_pulse(text, at, r),
        Item::Pair(r) => lines::put_pair(text, at, r),
        Item::Integral(r) => lines::put_integral(text, at, r),
        Item::Time(r) => lines::put_time(text, at, r),
        Item::Pedestal(r) => lines::put_ped(text, at, r),
        Item::Empty(r) => lines::put_empty(text, at, r),
        Item::Scalers(_) => put_scalers(text, at, behind, after),
        Item::ClockHigh(_) | Item::Filler(_) | Item::Scaler(_) => at,
    }
}

// 1 for a filler.
pub fn filler_in(item: Item) -> u64
    ensures { (result ≡ filler_in item) × (result ≤ 1) }
{
    match item {
        Item::Filler(_) => 1,
        _ => 0,
    }
}
