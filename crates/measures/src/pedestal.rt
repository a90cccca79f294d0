// Type 10, a pulse's pedestal and peak.
// "10 pedestal: 26-23, 22-21, 20-12 VMIN, 11-0 VPEAK"
ghost use Rattle.measures.specs.Words.{pedestal, pedestal_of};
ghost use Rattle.measures.specs.WordsLaws.{pedestal_there};

use fields::record::{Defining, Record};

#[derive(Clone, Copy)]
pub struct PulsePedestal {
    pub channel: u32,
    pub pulse: u32,
    pub vmin: u32,
    pub vpeak: u32,
}

impl PulsePedestal {
    pub const CHANNEL_MAX: u32 = 15;

    pub const PULSE_MAX: u32 = 3;

    pub const VMIN_MAX: u32 = 511;

    pub const VPEAK_MAX: u32 = 4095;
}

impl Record for PulsePedestal {
    ghost row = { pedestal };

    ghost held = { pedestal_of };

    ghost there = { pedestal_there };

    fn fits(self) -> bool {
        (self.channel <= Self::CHANNEL_MAX)
            & (self.pulse <= Self::PULSE_MAX)
            & (self.vmin <= Self::VMIN_MAX)
            & (self.vpeak <= Self::VPEAK_MAX)
    }

    fn build(self) -> u32 {
        let vpeak = fields::put(0, 0, self.vpeak);
        let vmin = fields::put(vpeak, 12, self.vmin);
        let pulse = fields::put(vmin, 21, self.pulse);
        let channel = fields::put(pulse, 23, self.channel);
        fields::defining(channel, Self::TAG)
    }

    fn take_apart(word: u32) -> Self {
        Self {
            channel: fields::take(word, 23, 4),
            pulse: fields::take(word, 21, 2),
            vmin: fields::take(word, 12, 9),
            vpeak: fields::take(word, 0, 12),
        }
    }
}

impl Defining for PulsePedestal {
    ghost TAG = { 10 };

    const TAG: u32 = 10;
}
