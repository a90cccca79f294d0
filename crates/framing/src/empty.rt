// Type 14, which stands where a module has no block.
// "14 module empty: 26-22 slot, rest undefined, written 0"
ghost use Rattle.framing.specs.Words.{empty, empty_of};
ghost use Rattle.framing.specs.WordsLaws.{empty_there};

use fields::record::{Defining, Record};

#[derive(Clone, Copy)]
pub struct ModuleEmpty {
    pub slot: u32,
}

impl ModuleEmpty {
    pub const SLOT_MAX: u32 = 31;
}

impl Record for ModuleEmpty {
    ghost row = { empty };

    ghost held = { empty_of };

    ghost there = { empty_there };

    fn fits(self) -> bool {
        self.slot <= Self::SLOT_MAX
    }

    fn build(self) -> u32 {
        let undefined = fields::put(0, 0, 0);
        let slot = fields::put(undefined, 22, self.slot);
        fields::defining(slot, Self::TAG)
    }

    fn take_apart(word: u32) -> Self {
        Self {
            slot: fields::take(word, 22, 5),
        }
    }
}

impl Defining for ModuleEmpty {
    ghost TAG = { 14 };

    const TAG: u32 = 14;
}
