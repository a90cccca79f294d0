// Words of a kind in a row.
ghost use Rattle.std.specs.Prelude.{◌≡◌, ◌+◌, ◌*◌, ◌/◌, ◌≤◌, ◌<◌, length};
ghost use Rattle.fields.specs.Bytes.{words_of_bytes};
ghost use Rattle.stretches.specs.Stretches.{leading, every, Row, Told};

use crate::Kind;

// Of the n words from k on. No early way out: where n is known, four words are tested at once.
#[tactic(auto, using(crate::specs::StretchesLaws::told_turn))]
fn chunk<K: Kind>(bytes: &[u8], k: usize, n: usize) -> bool
    requires { (4 * (k + n) ≤ length bytes.now) × Row K.kind bytes.now k }
    ensures { Told K.kind bytes.now (k + n) result }
{
    let mut good = true;
    for i in k..k + n {
        good &= K::is_at(bytes, i);
    }
    good
}

// All words, by chunks of that size. The last may overlap the one before it: its step is shorter, which no `for` says.
// One call of the test, so that it is compiled in its place.
#[tactic(auto, using(crate::specs::StretchesLaws::row_all))]
pub(crate) fn every<K: Kind>(bytes: &[u8], size: usize) -> bool
    requires { (1 ≤ size) × (1 ≤ length bytes.now / 4 → size ≤ length bytes.now / 4) }
    ensures { result ≡ every K.kind (words_of_bytes bytes.now) }
{
    let n = bytes.len() / 4;
    let mut k = 0;
    while k < n {
        let at = usize::min(k, n - size);
        if !chunk::<K>(bytes, at, size) {
            return false;
        }
        k = at + size;
    }
    true
}

fn chunks<K: Kind>(bytes: &[u8], from: usize) -> usize
    requires { Row K.kind bytes.now from }
    ensures { Row K.kind bytes.now result }
{
    let n = bytes.len() / 4 - from;
    for i in 0..n / crate::CHUNK {
        let k = from + crate::CHUNK * i;
        if !chunk::<K>(bytes, k, crate::CHUNK) {
            return k;
        }
    }
    from + n / crate::CHUNK * crate::CHUNK
}

// One by one. Where both ends are known, the compiler keeps no counter.
#[tactic(auto, using(crate::specs::StretchesLaws::row_stop, crate::specs::StretchesLaws::row_end))]
pub(crate) fn ones<K: Kind>(bytes: &[u8], from: usize, to: usize) -> usize
    requires { ((from ≤ to) × (4 * to ≤ length bytes.now)) × Row K.kind bytes.now from }
    ensures row { Row K.kind bytes.now result }
    ensures found { result < to → result ≡ leading K.kind (words_of_bytes bytes.now) }
    ensures whole { length bytes.now / 4 ≤ to → result ≡ leading K.kind (words_of_bytes bytes.now) }
{
    for k in from..to {
        if !K::is_at(bytes, k) {
            return k;
        }
    }
    to
}

// By chunks, then one by one up to the end.
pub(crate) fn leading<K: Kind>(bytes: &[u8], from: usize) -> usize
    requires { Row K.kind bytes.now from }
    ensures { result ≡ leading K.kind (words_of_bytes bytes.now) }
{
    let k = chunks::<K>(bytes, from);
    ones::<K>(bytes, k, bytes.len() / 4)
}
