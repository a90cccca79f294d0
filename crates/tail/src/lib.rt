// What an event ends with on request: its scalers, a word that says how many and the latched counts.
#![tactic(auto)]

ghost use Rattle.std.specs.Prelude.{◌≡◌, true, ◌+◌, ◌≤◌, length};
ghost use Rattle.ground.specs.Splice.{Written, WrittenIf};
ghost use Rattle.items.specs.Items.{words_of};
ghost use Rattle.tail.specs.Tail.{word_items, scaler_items};

use framing::scaler::ScalerWord;
use framing::scalers::ScalerHeader;
use items::Item;
use items::put::{put_item, room_short};
use limits::{LATCHED, TAIL_WORDS};

// The counts in their order, a word each.
fn put_words(words: &mut [u32], at: usize, latched: &[u32]) -> usize
    requires { at + length latched.now ≤ length words.old }
    ensures { Written words.old at (words_of (word_items latched.now)) result words.new }
{
    let mut next = at;
    for value in latched {
        let word = ScalerWord { value: *value };
        next = put_item(words, next, Item::Scaler(word));
    }
    next
}

// All words of the scalers, or none: they are more than none, so the place tells.
pub fn put_tail(words: &mut [u32], at: usize, latched: [u32; LATCHED]) -> usize
    ensures { WrittenIf true words.old at (words_of (scaler_items latched)) result words.new }
{
    if room_short(words.len(), at, TAIL_WORDS) {
        return at;
    }
    let header = ScalerHeader {
        count: LATCHED as u32,
    };
    let next = put_item(words, at, Item::Scalers(header));
    put_words(words, next, &latched)
}
