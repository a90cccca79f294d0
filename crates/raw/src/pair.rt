// Two samples, a continuation of types 4 and 6.
// "Pairs after 4 and 6: bit 30 zero, 29 first not valid, 28-16 first sample, 15-14 zero, 13 second not valid, 12-0 second"
ghost use Rattle.std.specs.Prelude.{◌≡◌};
ghost use Rattle.raw.specs.Words.{pair, pair_of, pair_fixed};
ghost use Rattle.raw.specs.WordsLaws.{pair_there};

use fields::record::{Continuation, Record};

#[derive(Clone, Copy)]
pub struct SamplePair {
    pub nofirst: u32,
    pub first: u32,
    pub nosecond: u32,
    pub second: u32,
}

impl SamplePair {
    pub const NOFIRST_MAX: u32 = 1;

    pub const FIRST_MAX: u32 = 8191;

    pub const NOSECOND_MAX: u32 = 1;

    pub const SECOND_MAX: u32 = 8191;

    // Whether the bits that are shown zero are zero.
    pub fn fixed(word: u32) -> bool
        ensures { result ≡ pair_fixed word }
    {
        (fields::take(word, 30, 1) == 0) & (fields::take(word, 14, 2) == 0)
    }
}

impl Record for SamplePair {
    ghost row = { pair };

    ghost held = { pair_of };

    ghost there = { pair_there };

    fn fits(self) -> bool {
        (self.nofirst <= Self::NOFIRST_MAX)
            & (self.first <= Self::FIRST_MAX)
            & (self.nosecond <= Self::NOSECOND_MAX)
            & (self.second <= Self::SECOND_MAX)
    }

    fn build(self) -> u32 {
        let second = fields::put(0, 0, self.second);
        let nosecond = fields::put(second, 13, self.nosecond);
        let zero15 = fields::put(nosecond, 14, 0);
        let first = fields::put(zero15, 16, self.first);
        let nofirst = fields::put(first, 29, self.nofirst);
        let zero30 = fields::put(nofirst, 30, 0);
        fields::continuation(zero30)
    }

    fn take_apart(word: u32) -> Self {
        Self {
            nofirst: fields::take(word, 29, 1),
            first: fields::take(word, 16, 13),
            nosecond: fields::take(word, 13, 1),
            second: fields::take(word, 0, 13),
        }
    }
}

impl Continuation for SamplePair {}
