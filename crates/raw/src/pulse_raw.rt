// Type 6, a pulse's data set; pairs follow.
// "6 pulse raw: 26-23 channel, 22-21 pulse, 20-10 zero, 9-0 TC"
ghost use Rattle.std.specs.Prelude.{◌≡◌};
ghost use Rattle.raw.specs.Words.{pulse_raw, pulse_raw_of, pulse_raw_fixed};
ghost use Rattle.raw.specs.WordsLaws.{pulse_raw_there};

use fields::record::{Defining, Record};

#[derive(Clone, Copy)]
pub struct PulseRaw {
    pub channel: u32,
    pub pulse: u32,
    pub tc: u32,
}

impl PulseRaw {
    pub const CHANNEL_MAX: u32 = 15;

    pub const PULSE_MAX: u32 = 3;

    pub const TC_MAX: u32 = 1023;

    // Whether the bits that are shown zero are zero.
    pub fn fixed(word: u32) -> bool
        ensures { result ≡ pulse_raw_fixed word }
    {
        fields::take(word, 10, 11) == 0
    }
}

impl Record for PulseRaw {
    ghost row = { pulse_raw };

    ghost held = { pulse_raw_of };

    ghost there = { pulse_raw_there };

    fn fits(self) -> bool {
        (self.channel <= Self::CHANNEL_MAX)
            & (self.pulse <= Self::PULSE_MAX)
            & (self.tc <= Self::TC_MAX)
    }

    fn build(self) -> u32 {
        let tc = fields::put(0, 0, self.tc);
        let zero20 = fields::put(tc, 10, 0);
        let pulse = fields::put(zero20, 21, self.pulse);
        let channel = fields::put(pulse, 23, self.channel);
        fields::defining(channel, Self::TAG)
    }

    fn take_apart(word: u32) -> Self {
        Self {
            channel: fields::take(word, 23, 4),
            pulse: fields::take(word, 21, 2),
            tc: fields::take(word, 0, 10),
        }
    }
}

impl Defining for PulseRaw {
    ghost TAG = { 6 };

    const TAG: u32 = 6;
}
