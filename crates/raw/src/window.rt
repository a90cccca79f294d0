// Type 4, a channel's whole window; pairs follow.
// "4 window: 26-23 channel, 22-12 zero, 11-0 width 1-500"
ghost use Rattle.std.specs.Prelude.{◌≡◌};
ghost use Rattle.raw.specs.Words.{window, window_of, window_fixed, window_within};
ghost use Rattle.raw.specs.WordsLaws.{window_there};

use fields::record::{Defining, Record};

#[derive(Clone, Copy)]
pub struct WindowRaw {
    pub channel: u32,
    pub width: u32,
}

impl WindowRaw {
    pub const CHANNEL_MAX: u32 = 15;

    pub const WIDTH_MAX: u32 = 4095;

    // A window has at most so many samples, fewer than the field can hold.
    pub const SAMPLES_MAX: u32 = limits::MOST_SAMPLES as u32;

    // A limit that is no power of two.
    pub fn within(self) -> bool
        ensures { result ≡ window_within self }
    {
        (1 <= self.width) & (self.width <= Self::SAMPLES_MAX)
    }

    // Whether the bits that are shown zero are zero.
    pub fn fixed(word: u32) -> bool
        ensures { result ≡ window_fixed word }
    {
        fields::take(word, 12, 11) == 0
    }
}

impl Record for WindowRaw {
    ghost row = { window };

    ghost held = { window_of };

    ghost there = { window_there };

    fn fits(self) -> bool {
        (self.channel <= Self::CHANNEL_MAX) & (self.width <= Self::WIDTH_MAX)
    }

    fn build(self) -> u32 {
        let width = fields::put(0, 0, self.width);
        let zero22 = fields::put(width, 12, 0);
        let channel = fields::put(zero22, 23, self.channel);
        fields::defining(channel, Self::TAG)
    }

    fn take_apart(word: u32) -> Self {
        Self {
            channel: fields::take(word, 23, 4),
            width: fields::take(word, 0, 12),
        }
    }
}

impl Defining for WindowRaw {
    ghost TAG = { 4 };

    const TAG: u32 = 4;
}
