// The parameters word, a continuation of type 0.
// "0, parameters (continuation): 30-29 zero, 28-18 PL, 17-9 NSB, 8-0 NSA"
ghost use Rattle.std.specs.Prelude.{◌≡◌};
ghost use Rattle.framing.specs.Words.{parameters, parameters_of, parameters_fixed};
ghost use Rattle.framing.specs.WordsLaws.{parameters_there};

use fields::record::{Continuation, Record};

#[derive(Clone, Copy)]
pub struct Parameters {
    pub pl: u32,
    pub nsb: u32,
    pub nsa: u32,
}

impl Parameters {
    pub const PL_MAX: u32 = 2047;

    pub const NSB_MAX: u32 = 511;

    pub const NSA_MAX: u32 = 511;

    // Whether the bits that are shown zero are zero.
    pub fn fixed(word: u32) -> bool
        ensures { result ≡ parameters_fixed word }
    {
        fields::take(word, 29, 2) == 0
    }
}

impl Record for Parameters {
    ghost row = { parameters };

    ghost held = { parameters_of };

    ghost there = { parameters_there };

    fn fits(self) -> bool {
        (self.pl <= Self::PL_MAX) & (self.nsb <= Self::NSB_MAX) & (self.nsa <= Self::NSA_MAX)
    }

    fn build(self) -> u32 {
        let nsa = fields::put(0, 0, self.nsa);
        let nsb = fields::put(nsa, 9, self.nsb);
        let pl = fields::put(nsb, 18, self.pl);
        let zero30 = fields::put(pl, 29, 0);
        fields::continuation(zero30)
    }

    fn take_apart(word: u32) -> Self {
        Self {
            pl: fields::take(word, 18, 11),
            nsb: fields::take(word, 9, 9),
            nsa: fields::take(word, 0, 9),
        }
    }
}

impl Continuation for Parameters {}
