// Type 2, an event's header.
// "2 event header: 26-22 slot, 21-0 event number"
ghost use Rattle.framing.specs.Words.{event_header, event_header_of};
ghost use Rattle.framing.specs.WordsLaws.{event_header_there};

use fields::record::{Defining, Record};

#[derive(Clone, Copy)]
pub struct EventHeader {
    pub slot: u32,
    pub number: u32,
}

impl EventHeader {
    pub const SLOT_MAX: u32 = 31;

    pub const NUMBER_MAX: u32 = 4194303;
}

impl Record for EventHeader {
    ghost row = { event_header };

    ghost held = { event_header_of };

    ghost there = { event_header_there };

    fn fits(self) -> bool {
        (self.slot <= Self::SLOT_MAX) & (self.number <= Self::NUMBER_MAX)
    }

    fn build(self) -> u32 {
        let number = fields::put(0, 0, self.number);
        let slot = fields::put(number, 22, self.slot);
        fields::defining(slot, Self::TAG)
    }

    fn take_apart(word: u32) -> Self {
        Self {
            slot: fields::take(word, 22, 5),
            number: fields::take(word, 0, 22),
        }
    }
}

impl Defining for EventHeader {
    ghost TAG = { 2 };

    const TAG: u32 = 2;
}
