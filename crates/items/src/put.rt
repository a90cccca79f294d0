// Records put into a lent buffer.
ghost use Rattle.std.specs.Prelude.{◌≡◌, true, [], ◌∷◌, ◌+◌, ltb};
ghost use Rattle.ground.specs.Splice.{WrittenIf};
ghost use Rattle.items.specs.Items.{word_of, words_of, item_if};

use crate::Item;

// Every writer has this contract: its words from place `at`, all else as it was; it answers the next place. One that is public may be lent anything:
// what has no room is not written, and the place stays.
pub fn put_item(words: &mut [u32], at: usize, item: Item) -> usize
    ensures { WrittenIf true words.old at (word_of item ∷ []) result words.new }
{
    if at < words.len() {
        words[at] = item.build();
        return at + 1;
    }
    at
}

// The record where it is wanted, and nothing where it is not.
pub fn put_if(words: &mut [u32], at: usize, on: bool, item: Item) -> usize
    ensures { WrittenIf true words.old at (words_of (item_if on item)) result words.new }
{
    if on { put_item(words, at, item) } else { at }
}

// Fewer than `count` words are left behind place `at`. The difference cannot wrap, whatever the place.
pub fn room_short(room: usize, at: usize, count: usize) -> bool
    ensures { result ≡ ltb room (at + count) }
{
    room < at || room - at < count
}
