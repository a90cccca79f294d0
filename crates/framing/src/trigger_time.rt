// Type 3, the low 27 bits of the trigger time.
// "3 trigger time: 26-24 time bits 26-24, 23-0 time bits 23-0"
ghost use Rattle.framing.specs.Words.{trigger_time, trigger_time_of};
ghost use Rattle.framing.specs.WordsLaws.{trigger_time_there};

use fields::record::{Defining, Record};

#[derive(Clone, Copy)]
pub struct TriggerTime {
    pub middle: u32,
    pub low: u32,
}

impl TriggerTime {
    pub const MIDDLE_MAX: u32 = 7;

    pub const LOW_MAX: u32 = 16777215;
}

impl Record for TriggerTime {
    ghost row = { trigger_time };

    ghost held = { trigger_time_of };

    ghost there = { trigger_time_there };

    fn fits(self) -> bool {
        (self.middle <= Self::MIDDLE_MAX) & (self.low <= Self::LOW_MAX)
    }

    fn build(self) -> u32 {
        let low = fields::put(0, 0, self.low);
        let middle = fields::put(low, 24, self.middle);
        fields::defining(middle, Self::TAG)
    }

    fn take_apart(word: u32) -> Self {
        Self {
            middle: fields::take(word, 24, 3),
            low: fields::take(word, 0, 24),
        }
    }
}

impl Defining for TriggerTime {
    ghost TAG = { 3 };

    const TAG: u32 = 3;
}
