// Type 12, an event's scalers: how many words follow.
// "type 12 (bits 26-6 zero, 5-0 = 18)"
ghost use Rattle.std.specs.Prelude.{◌≡◌};
ghost use Rattle.framing.specs.Words.{scalers, scalers_of, scalers_fixed};
ghost use Rattle.framing.specs.WordsLaws.{scalers_there};

use fields::record::{Defining, Record};

#[derive(Clone, Copy)]
pub struct ScalerHeader {
    pub count: u32,
}

impl ScalerHeader {
    pub const COUNT_MAX: u32 = 63;

    // Whether the bits that are shown zero are zero.
    pub fn fixed(word: u32) -> bool
        ensures { result ≡ scalers_fixed word }
    {
        fields::take(word, 6, 21) == 0
    }
}

impl Record for ScalerHeader {
    ghost row = { scalers };

    ghost held = { scalers_of };

    ghost there = { scalers_there };

    fn fits(self) -> bool {
        self.count <= Self::COUNT_MAX
    }

    fn build(self) -> u32 {
        let count = fields::put(0, 0, self.count);
        let zero26 = fields::put(count, 6, 0);
        fields::defining(zero26, Self::TAG)
    }

    fn take_apart(word: u32) -> Self {
        Self {
            count: fields::take(word, 0, 6),
        }
    }
}

impl Defining for ScalerHeader {
    ghost TAG = { 12 };

    const TAG: u32 = 12;
}
