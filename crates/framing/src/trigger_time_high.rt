// The second word of the trigger time, a continuation of type 3.
// "3, second (continuation): 30-24 zero, 23-0 time bits 47-24"
ghost use Rattle.std.specs.Prelude.{◌≡◌};
ghost use Rattle.framing.specs.Words.{trigger_time_high, trigger_time_high_of, trigger_time_high_fixed};
ghost use Rattle.framing.specs.WordsLaws.{trigger_time_high_there};

use fields::record::{Continuation, Record};

#[derive(Clone, Copy)]
pub struct TriggerTimeHigh {
    pub high: u32,
}

impl TriggerTimeHigh {
    pub const HIGH_MAX: u32 = 16777215;

    // The greatest time: 48 bits, these and the 24 of the word before.
    pub const TIME_MAX: u64 = 281474976710655;

    // Whether the bits that are shown zero are zero.
    pub fn fixed(word: u32) -> bool
        ensures { result ≡ trigger_time_high_fixed word }
    {
        fields::take(word, 24, 7) == 0
    }
}

impl Record for TriggerTimeHigh {
    ghost row = { trigger_time_high };

    ghost held = { trigger_time_high_of };

    ghost there = { trigger_time_high_there };

    fn fits(self) -> bool {
        self.high <= Self::HIGH_MAX
    }

    fn build(self) -> u32 {
        let high = fields::put(0, 0, self.high);
        let zero30 = fields::put(high, 24, 0);
        fields::continuation(zero30)
    }

    fn take_apart(word: u32) -> Self {
        Self {
            high: fields::take(word, 0, 24),
        }
    }
}

impl Continuation for TriggerTimeHigh {}
