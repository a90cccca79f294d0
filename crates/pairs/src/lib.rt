// Samples as they came, in pairs behind a header: a window, or a pulse's data set.
#![tactic(auto)]

ghost use Rattle.std.specs.Prelude.{◌≡◌, true, cond, [], ◌∷◌, ◌+◌, ◌<◌, ◌≤◌, length};
ghost use Rattle.ground.specs.Splice.{Written, WrittenIf};
ghost use Rattle.limits.specs.Limits.{pairs_of};
ghost use Rattle.items.specs.Items.{word_of, words_of};
ghost use Rattle.pairs.specs.Pairs.{pair_items};

use fields::record::Record;
use items::Item;
use raw::pair::SamplePair;

// The thirteen bits of each sample in a pair's word.
const BOTH: u32 = SamplePair::FIRST_MAX * 65536 + SamplePair::SECOND_MAX;

// As the record's `build`, but what is over is cut off both samples at once: most words of a block are pairs, and so four are made together.
fn pair_word(first: u16, second: u16) -> u32
    ensures { result ≡ word_of (Item.Pair (record { nofirst = 0; first = first; nosecond = 0; second = second })) }
{
    ((first as u32) * 65536 + second as u32) & BOTH
}

// The odd end: bit 13 says that there is no second sample.
fn odd_word(first: u16) -> u32
    ensures { result ≡ word_of (Item.Pair (record { nofirst = 0; first = first; nosecond = 1; second = 0 })) }
{
    let pair = SamplePair {
        nofirst: 0,
        first: first as u32,
        nosecond: 1,
        second: 0,
    };
    pair.build()
}

fn put_word(words: &mut [u32], at: usize, word: u32) -> usize
    requires { at < length words.old }
    ensures { Written words.old at (word ∷ []) result words.new }
{
    words[at] = word;
    at + 1
}

// The samples two by two.
fn put_pairs(words: &mut [u32], at: usize, samples: &[u16]) -> usize
    requires { at + length (pair_items samples.now) ≤ length words.old }
    ensures { Written words.old at (words_of (pair_items samples.now)) result words.new }
{
    let (pairs, odd) = samples.as_chunks::<2>();
    let mut next = at;
    for pair in pairs {
        next = put_word(words, next, pair_word(pair[0], pair[1]));
    }
    if let Some(last) = odd.first() {
        return put_word(words, next, odd_word(*last));
    }
    next
}

// How many words a header and the pairs of so many samples are. No sum can wrap.
fn run_length(samples: usize) -> usize
    ensures { result ≡ 1 + pairs_of samples }
{
    1 + samples.div_ceil(2)
}

// The same where they are wanted.
pub fn run_length_if(on: bool, samples: usize) -> usize
    ensures { result ≡ cond on (1 + pairs_of samples) 0 }
{
    if on { run_length(samples) } else { 0 }
}

// A header, and the samples behind it.
pub fn put_run(words: &mut [u32], at: usize, header: Item, samples: &[u16]) -> usize
    ensures { WrittenIf true words.old at (words_of (header ∷ pair_items samples.now)) result words.new }
{
    if items::put::room_short(words.len(), at, run_length(samples.len())) {
        return at;
    }
    let pairs = items::put::put_item(words, at, header);
    put_pairs(words, pairs, samples)
}
