// A word of an event's scalers: a count in all of its bits, and no tag.
// "They carry no tag: the reader takes the stated count, 0 to 63."
ghost use Rattle.framing.specs.Words.{scaler, scaler_of};
ghost use Rattle.framing.specs.WordsLaws.{scaler_there};

use fields::record::Record;

#[derive(Clone, Copy)]
pub struct ScalerWord {
    pub value: u32,
}

impl ScalerWord {
    pub const VALUE_MAX: u32 = 4294967295;
}

impl Record for ScalerWord {
    ghost row = { scaler };

    ghost held = { scaler_of };

    ghost there = { scaler_there };

    fn fits(self) -> bool {
        self.value <= Self::VALUE_MAX
    }

    fn build(self) -> u32 {
        fields::put(0, 0, self.value)
    }

    fn take_apart(word: u32) -> Self {
        Self {
            value: fields::take(word, 0, 32),
        }
    }
}
