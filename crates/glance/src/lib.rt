// The words that most blocks are full of: pairs of two samples inside a raw item, and measures one after another. They are
// known at a glance, and have one line each; any other word is left to the reader.
#![tactic(auto)]

ghost use Rattle.std.specs.Prelude.{◌≡◌};
ghost use Rattle.written.specs.Page.{put};
ghost use Rattle.written.specs.Line.{line_text};
ghost use Rattle.raw.specs.Plain.{plain};
ghost use Rattle.glance.specs.Quick.{behind_at, measure_of, quick_by, quick_of, quick_line, known_of};

use fields::record::{Defining, Record};
use measures::integral::PulseIntegral;
use measures::pedestal::PulsePedestal;
use measures::time::PulseTime;
use raw::pair::SamplePair;
use scan::{Scan, Stage};

#[derive(Clone, Copy)]
enum Kind {
    Pair,
    Integral,
    Time,
    Pedestal,
}

// A pair without a flag, its zero bits zero.
#[tactic(auto, unfolding(raw::specs::Plain::plain))]
fn is_plain(word: u32) -> bool
    ensures { result ≡ plain word }
{
    (fields::take(word, 29, 3) == 0) & (fields::take(word, 13, 3) == 0)
}

// Behind an item of an event: the word's kind, and the scan behind it.
fn measure(scan: Scan, word: u32) -> Option<(Kind, Scan)>
    ensures { result ≡ measure_of (behind_at scan Stage.Items) word }
{
    let after = scan::after::moved(scan, Stage::Items);
    if PulseIntegral::is(word) {
        return Some((Kind::Integral, after));
    }
    if PulsePedestal::is(word) {
        return Some((Kind::Pedestal, after));
    }
    if PulseTime::is(word) & PulseTime::fixed(word) {
        return Some((Kind::Time, after));
    }
    None
}

// A pair that is a window's last is left to the reader.
fn in_stage(scan: Scan, word: u32) -> Option<(Kind, Scan)>
    ensures { result ≡ quick_by scan scan.stage word }
{
    let after = match scan.stage {
        Stage::Items => return measure(scan, word),
        Stage::Window(n, odd) if (1 < n) & is_plain(word) => Stage::Window(n - 1, odd),
        Stage::Raw(n, _) if (0 < n) & is_plain(word) => Stage::Raw(n - 1, true),
        _ => return None,
    };
    Some((Kind::Pair, scan::after::moved(scan, after)))
}

#[tactic(auto, unfolding(crate::specs::Quick::quick_of))]
fn glance(scan: Scan, word: u32) -> Option<(Kind, Scan)>
    ensures { result ≡ quick_of scan word }
{
    if questions::at_limit(scan) {
        return None;
    }
    in_stage(scan, word)
}

fn put_quick(text: &mut [u8], at: usize, kind: Kind, word: u32) -> usize
    ensures { (text.new, result) ≡ put (text.old, at) (line_text (quick_line kind word)) }
{
    match kind {
        Kind::Pair => lines::put_pair(text, at, SamplePair::take_apart(word)),
        Kind::Integral => lines::put_integral(text, at, PulseIntegral::take_apart(word)),
        Kind::Time => lines::put_time(text, at, PulseTime::take_apart(word)),
        Kind::Pedestal => lines::put_ped(text, at, PulsePedestal::take_apart(word)),
    }
}

// The line of a word that is known: the next place of the text, and the scan behind the word.
pub fn put_known(text: &mut [u8], at: usize, scan: Scan, word: u32) -> Option<(usize, Scan)>
    ensures { (text.new, result) ≡ known_of (text.old, at) (quick_of scan word) word }
{
    let (kind, after) = glance(scan, word)?;
    Some((put_quick(text, at, kind, word), after))
}
