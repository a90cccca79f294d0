// Words of bytes that are known by their bits alone: whether all are of a kind, how many of it come first. Many are tested at once.
// Each function looks at all the bytes it is lent: who wants a part of them lends that part, and nothing is tested for it.
#![tactic(auto)]

ghost use Rattle.std.specs.Prelude.{◌≡◌, ◌+◌, ◌*◌, ◌≤◌, ℕ, Bool, length, get_or};
ghost use Rattle.fields.specs.Bytes.{words_of_bytes};
ghost use Rattle.raw.specs.Plain.{plain};
ghost use Rattle.stretches.specs.Stretches.{turned_at, single, measure, leading, every};

use measured::Measure;
use plain::Plain;

mod measured;
mod plain;
mod walks;

// So many words are tested at once; of a long row so many.
const CHUNK: usize = 8;

const LONG: usize = 32;

// The flag of the second sample, bit 13, where the last two bytes are joined lowest first.
const FLAG: u32 = 32;

// A kind of word, known by its bits. The walks are compiled for each kind by itself.
trait Kind {
    ghost kind: { ℕ → Bool };

    // Whether the word of that number is of the kind.
    fn is_at(bytes: &[u8], k: usize) -> bool
        requires { 4 * k + 4 ≤ length bytes.now }
        ensures { result ≡ kind (get_or (words_of_bytes bytes.now) k 0) };
}

// The word of that number; past the end 0.
#[tactic(auto, using(crate::specs::WordsLaws::word_none))]
pub fn word_at(bytes: &[u8], k: usize) -> u32
    ensures { result ≡ get_or (words_of_bytes bytes.now) k 0 }
{
    if k < bytes.len() / 4 {
        joined_at(bytes, k)
    } else {
        0
    }
}

#[tactic(auto, using(crate::specs::WordsLaws::word_is))]
fn joined_at(bytes: &[u8], k: usize) -> u32
    requires { 4 * k + 4 ≤ length bytes.now }
    ensures { result ≡ get_or (words_of_bytes bytes.now) k 0 }
{
    let i = 4 * k;
    fields::of_bytes(bytes[i], bytes[i + 1], bytes[i + 2], bytes[i + 3])
}

// The bytes joined lowest first, as the machine joins them: one load, and nothing is turned round.
fn turned_at(bytes: &[u8], k: usize) -> u32
    requires { 4 * k + 4 ≤ length bytes.now }
    ensures { result ≡ turned_at bytes.now k }
{
    let i = 4 * k;
    fields::of_bytes(bytes[i + 3], bytes[i + 2], bytes[i + 1], bytes[i])
}

// Whether the first word is a pair of one sample.
pub fn is_single(bytes: &[u8]) -> bool
    ensures { result ≡ single (get_or (words_of_bytes bytes.now) 0 0) }
{
    if bytes.len() < 4 {
        return false;
    }
    let word = turned_at(bytes, 0);
    (fields::take(word, 5, 3) == 0) & (fields::take(word, 16, 16) == FLAG)
}

// Whether all words are plain pairs: by chunks as large as there are words for.
pub fn all_plain(bytes: &[u8]) -> bool
    ensures { result ≡ every plain (words_of_bytes bytes.now) }
{
    let n = bytes.len() / 4;
    if n < CHUNK {
        return walks::every::<Plain>(bytes, 1);
    }
    if n < LONG {
        return walks::every::<Plain>(bytes, CHUNK);
    }
    walks::every::<Plain>(bytes, LONG)
}

// How many plain pairs come first. Most often they are few: those of the first chunk are asked one by one.
pub fn few_plain(bytes: &[u8]) -> usize
    ensures { result ≡ leading plain (words_of_bytes bytes.now) }
{
    let n = bytes.len() / 4;
    if n < CHUNK {
        return walks::ones::<Plain>(bytes, 0, n);
    }
    let first = walks::ones::<Plain>(bytes, 0, CHUNK);
    if first < CHUNK {
        return first;
    }
    walks::leading::<Plain>(bytes, first)
}

// How many measures come first. Most other words are known by the first test.
#[tactic(auto, using(crate::specs::StretchesLaws::row_stop, crate::specs::StretchesLaws::row_end))]
pub fn measured_count(bytes: &[u8]) -> usize
    ensures { result ≡ leading measure (words_of_bytes bytes.now) }
{
    if bytes.len() < 4 {
        return 0;
    }
    if !Measure::is_at(bytes, 0) {
        return 0;
    }
    walks::leading::<Measure>(bytes, 1)
}
