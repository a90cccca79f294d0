// Type 8, a pulse's time.
// "8 time: 26-23, 22-21, 20-19 quality, 18-15 zero, 14-6 coarse, 5-0 fine"
ghost use Rattle.std.specs.Prelude.{◌≡◌};
ghost use Rattle.measures.specs.Words.{time, time_of, time_fixed};
ghost use Rattle.measures.specs.WordsLaws.{time_there};

use fields::record::{Defining, Record};

#[derive(Clone, Copy)]
pub struct PulseTime {
    pub channel: u32,
    pub pulse: u32,
    pub quality: u32,
    pub coarse: u32,
    pub fine: u32,
}

impl PulseTime {
    pub const CHANNEL_MAX: u32 = 15;

    pub const PULSE_MAX: u32 = 3;

    pub const QUALITY_MAX: u32 = 3;

    pub const COARSE_MAX: u32 = 511;

    pub const FINE_MAX: u32 = 63;

    // Whether the bits that are shown zero are zero.
    pub fn fixed(word: u32) -> bool
        ensures { result ≡ time_fixed word }
    {
        fields::take(word, 15, 4) == 0
    }
}

impl Record for PulseTime {
    ghost row = { time };

    ghost held = { time_of };

    ghost there = { time_there };

    fn fits(self) -> bool {
        (self.channel <= Self::CHANNEL_MAX)
            & (self.pulse <= Self::PULSE_MAX)
            & (self.quality <= Self::QUALITY_MAX)
            & (self.coarse <= Self::COARSE_MAX)
            & (self.fine <= Self::FINE_MAX)
    }

    fn build(self) -> u32 {
        let fine = fields::put(0, 0, self.fine);
        let coarse = fields::put(fine, 6, self.coarse);
        let zero18 = fields::put(coarse, 15, 0);
        let quality = fields::put(zero18, 19, self.quality);
        let pulse = fields::put(quality, 21, self.pulse);
        let channel = fields::put(pulse, 23, self.channel);
        fields::defining(channel, Self::TAG)
    }

    fn take_apart(word: u32) -> Self {
        Self {
            channel: fields::take(word, 23, 4),
            pulse: fields::take(word, 21, 2),
            quality: fields::take(word, 19, 2),
            coarse: fields::take(word, 6, 9),
            fine: fields::take(word, 0, 6),
        }
    }
}

impl Defining for PulseTime {
    ghost TAG = { 8 };

    const TAG: u32 = 8;
}
