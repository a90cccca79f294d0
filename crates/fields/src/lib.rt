// One 32-bit word: a field put in and taken out by shifts and masks, the tag on top, and a word as four big-endian bytes.
#![tactic(auto)]

ghost use Rattle.std.specs.Prelude.{◌≡◌};
ghost use Rattle.fields.specs.Word.{field_at, put_at};
ghost use Rattle.fields.specs.Tag.{is_defining, is_continuation};
ghost use Rattle.fields.specs.Bytes.{word_of_bytes, bytes_of};

pub mod record;

// The field of `width` bits from bit `place` on. Nothing is out of range: past bit 31 there are zeros.
pub fn take(word: u32, place: u32, width: u32) -> u32
    ensures { result ≡ field_at word place width }
{
    if 32 <= place {
        return 0;
    }
    let from = word >> place;
    if 32 <= width {
        return from;
    }
    from & ((1 << width) - 1)
}

// `value` put on top of the low `place` bits of `word`; what does not fit 32 bits is dropped.
// Fields put in from the lowest up need no width: the next one cuts off what is too large.
pub fn put(word: u32, place: u32, value: u32) -> u32
    ensures { result ≡ put_at word place value }
{
    if 32 <= place {
        return word;
    }
    (word & ((1 << place) - 1)) | (value << place)
}

// A defining word: bit 31 set and the type in bits 30-27, on top of its fields.
pub fn defining(fields: u32, tag: u32) -> u32
    ensures { result ≡ put_at (put_at fields 27 tag) 31 1 }
{
    put(put(fields, 27, tag), 31, 1)
}

// A continuation word: bit 31 clear, on top of its fields.
pub fn continuation(fields: u32) -> u32
    ensures { result ≡ put_at fields 31 0 }
{
    put(fields, 31, 0)
}

#[tactic(auto, unfolding(crate::specs::Tag::is_defining))]
pub fn is_defining(word: u32, tag: u32) -> bool
    ensures { result ≡ is_defining tag word }
{
    (take(word, 31, 1) == 1) & (take(word, 27, 4) == tag)
}

#[tactic(auto, unfolding(crate::specs::Tag::is_continuation))]
pub fn is_continuation(word: u32) -> bool
    ensures { result ≡ is_continuation word }
{
    take(word, 31, 1) == 0
}

// The word of four bytes, the highest first. Not by `u32::from_be_bytes`, which was slower: its sums do not become one load.
pub fn of_bytes(a: u8, b: u8, c: u8, d: u8) -> u32
    ensures { result ≡ word_of_bytes a b c d }
{
    (u32::from(a) << 24) | ((u32::from(b) << 16) | ((u32::from(c) << 8) | u32::from(d)))
}

// The four bytes of a word, the highest first.
#[tactic(auto, unfolding(crate::specs::Word::field_at))]
pub fn to_bytes(word: u32) -> [u8; 4]
    ensures { result ≡ bytes_of word }
{
    word.to_be_bytes()
}
