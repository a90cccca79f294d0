// Type 7, a pulse's integral.
// "7 integral: 26-23 channel, 22-21 pulse, 20-19 quality, 18-0"
ghost use Rattle.measures.specs.Words.{integral, integral_of};
ghost use Rattle.measures.specs.WordsLaws.{integral_there};

use fields::record::{Defining, Record};

#[derive(Clone, Copy)]
pub struct PulseIntegral {
    pub channel: u32,
    pub pulse: u32,
    pub quality: u32,
    pub sum: u32,
}

impl PulseIntegral {
    pub const CHANNEL_MAX: u32 = 15;

    pub const PULSE_MAX: u32 = 3;

    pub const QUALITY_MAX: u32 = 3;

    pub const SUM_MAX: u32 = 524287;
}

impl Record for PulseIntegral {
    ghost row = { integral };

    ghost held = { integral_of };

    ghost there = { integral_there };

    fn fits(self) -> bool {
        (self.channel <= Self::CHANNEL_MAX)
            & (self.pulse <= Self::PULSE_MAX)
            & (self.quality <= Self::QUALITY_MAX)
            & (self.sum <= Self::SUM_MAX)
    }

    fn build(self) -> u32 {
        let sum = fields::put(0, 0, self.sum);
        let quality = fields::put(sum, 19, self.quality);
        let pulse = fields::put(quality, 21, self.pulse);
        let channel = fields::put(pulse, 23, self.channel);
        fields::defining(channel, Self::TAG)
    }

    fn take_apart(word: u32) -> Self {
        Self {
            channel: fields::take(word, 23, 4),
            pulse: fields::take(word, 21, 2),
            quality: fields::take(word, 19, 2),
            sum: fields::take(word, 0, 19),
        }
    }
}

impl Defining for PulseIntegral {
    ghost TAG = { 7 };

    const TAG: u32 = 7;
}
