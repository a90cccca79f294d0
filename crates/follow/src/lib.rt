// What follows a record's first word: the second time word, the other fillers.
#![tactic(auto)]

ghost use Rattle.std.specs.Prelude.{◌≡◌};
ghost use Rattle.follow.specs.Follow.{high_of, high_from, fill_from};

use framing::trigger_time_high::TriggerTimeHigh;
use items::Item;
use scan::Scan;

// How many fillers, and the scan behind them.
#[derive(Clone, Copy)]
pub struct Fill {
    pub count: u32,
    pub scan: Scan,
}

fn high_of(item: Item, after: Scan) -> Option<(TriggerTimeHigh, Scan)>
    ensures { result ≡ high_of item after }
{
    match item {
        Item::ClockHigh(high) => Some((high, after)),
        _ => None,
    }
}

// The second time word and the scan behind it, if one stands first in the words.
#[tactic(auto, using(crate::specs::AtLaws::high_first))]
pub fn high_from(words: &[u32], scan: Scan) -> Option<(TriggerTimeHigh, Scan)>
    ensures { result ≡ high_from scan words.now }
{
    let [word, ..] = words else {
        return None;
    };
    match reader::judge_at(scan, *word) {
        Ok(Some((item, after))) => high_of(item, after),
        Ok(None) | Err(_) => None,
    }
}

// A first filler was read.
#[tactic(auto, using(crate::specs::AtLaws::fill_next))]
pub fn fill_from(words: &[u32], scan: Scan) -> Fill
    ensures { result ≡ fill_from 1 scan words.now }
{
    let mut fill = Fill {
        count: 1,
        scan: scan,
    };
    for word in words {
        let Ok(Some((_, after))) = reader::step_at(fill.scan, *word) else {
            return fill;
        };
        fill.count = scan::after::next_place(fill.count);
        fill.scan = after;
    }
    fill
}
