// Type 1, the block trailer.
// "1 trailer: 26-22 slot, 21-0 words from header to trailer, both counted"
ghost use Rattle.framing.specs.Words.{trailer, trailer_of};
ghost use Rattle.framing.specs.WordsLaws.{trailer_there};

use fields::record::{Defining, Record};

#[derive(Clone, Copy)]
pub struct BlockTrailer {
    pub slot: u32,
    pub words: u32,
}

impl BlockTrailer {
    pub const SLOT_MAX: u32 = 31;

    pub const WORDS_MAX: u32 = 4194303;
}

impl Record for BlockTrailer {
    ghost row = { trailer };

    ghost held = { trailer_of };

    ghost there = { trailer_there };

    fn fits(self) -> bool {
        (self.slot <= Self::SLOT_MAX) & (self.words <= Self::WORDS_MAX)
    }

    fn build(self) -> u32 {
        let words = fields::put(0, 0, self.words);
        let slot = fields::put(words, 22, self.slot);
        fields::defining(slot, Self::TAG)
    }

    fn take_apart(word: u32) -> Self {
        Self {
            slot: fields::take(word, 22, 5),
            words: fields::take(word, 0, 22),
        }
    }
}

impl Defining for BlockTrailer {
    ghost TAG = { 1 };

    const TAG: u32 = 1;
}
