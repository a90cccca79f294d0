// Type 15, which fills a block up to its multiple.
// "15 filler: 26-22 slot, rest undefined, written 0"
ghost use Rattle.framing.specs.Words.{filler, filler_of};
ghost use Rattle.framing.specs.WordsLaws.{filler_there};

use fields::record::{Defining, Record};

#[derive(Clone, Copy)]
pub struct Filler {
    pub slot: u32,
}

impl Filler {
    pub const SLOT_MAX: u32 = 31;
}

impl Record for Filler {
    ghost row = { filler };

    ghost held = { filler_of };

    ghost there = { filler_there };

    fn fits(self) -> bool {
        self.slot <= Self::SLOT_MAX
    }

    fn build(self) -> u32 {
        let undefined = fields::put(0, 0, 0);
        let slot = fields::put(undefined, 22, self.slot);
        fields::defining(slot, Self::TAG)
    }

    fn take_apart(word: u32) -> Self {
        Self {
            slot: fields::take(word, 22, 5),
        }
    }
}

impl Defining for Filler {
    ghost TAG = { 15 };

    const TAG: u32 = 15;
}
