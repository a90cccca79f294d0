// Type 0, the block header.
// "0 block header: 26-22 slot, 21-18 module 1, 17-8 block number, 7-0 events 1-255"
ghost use Rattle.std.specs.Prelude.{◌≡◌};
ghost use Rattle.framing.specs.Words.{block_header, block_header_of, block_header_fixed, block_header_within};
ghost use Rattle.framing.specs.WordsLaws.{block_header_there};

use fields::record::{Defining, Record};

#[derive(Clone, Copy)]
pub struct BlockHeader {
    pub slot: u32,
    pub number: u32,
    pub events: u32,
}

impl BlockHeader {
    pub const MODULE: u32 = 1;

    pub const SLOT_MAX: u32 = 31;

    pub const NUMBER_MAX: u32 = 1023;

    pub const EVENTS_MAX: u32 = 255;

    // 1 to 255 events: a limit that is no power of two.
    pub fn within(self) -> bool
        ensures { result ≡ block_header_within self }
    {
        (1 <= self.events) & (self.events <= Self::EVENTS_MAX)
    }

    // Whether the module is 1.
    pub fn fixed(word: u32) -> bool
        ensures { result ≡ block_header_fixed word }
    {
        fields::take(word, 18, 4) == Self::MODULE
    }
}

impl Record for BlockHeader {
    ghost row = { block_header };

    ghost held = { block_header_of };

    ghost there = { block_header_there };

    fn fits(self) -> bool {
        (self.slot <= Self::SLOT_MAX)
            & (self.number <= Self::NUMBER_MAX)
            & (self.events <= Self::EVENTS_MAX)
    }

    fn build(self) -> u32 {
        let events = fields::put(0, 0, self.events);
        let number = fields::put(events, 8, self.number);
        let module = fields::put(number, 18, Self::MODULE);
        let slot = fields::put(module, 22, self.slot);
        fields::defining(slot, Self::TAG)
    }

    fn take_apart(word: u32) -> Self {
        Self {
            slot: fields::take(word, 22, 5),
            number: fields::take(word, 8, 10),
            events: fields::take(word, 0, 8),
        }
    }
}

impl Defining for BlockHeader {
    ghost TAG = { 0 };

    const TAG: u32 = 0;
}
