// The refusals, and the paper's number of each.
#![tactic(auto)]

ghost use Rattle.std.specs.Prelude.{◌≡◌};
ghost use Rattle.refusals.specs.Refusal.{number_of, told, bad_array, or_else};

// Why a call, a word or an input is refused. The paper's numbers are 1 to 16 in this order, and 19.
#[derive(Clone, Copy)]
pub enum Refusal {
    // a setting out of range
    Setting,
    // store shorter than 16 x NW
    Store,
    // a sample over 8,191
    Sample,
    // channel over 15
    Channel,
    // window length is not NW
    Length,
    // channel already posted in this event
    Posted,
    // out of turn
    Turn,
    // block number, events, event number or time over its limit
    Number,
    // word buffer too short
    Room,
    // state breaks its ranges
    State,
    // no word left
    Missing,
    // type not allowed here, pair missing or too many
    Unallowed,
    // a bit shown zero is set, or a field off its limits
    Bits,
    // an event or a trailer that does not fit the counts
    Count,
    // slot differs
    Slot,
    // bytes that are no words
    Bytes,
    // samples that are no whole frames
    Frames,
}

// From C: an array is not as long as the header says, or holds what it cannot hold. It is none of the paper's numbers.
pub const BAD_ARRAY: u32 = 64;

impl Refusal {
    // The paper's number of a refusal.
    pub fn number(self) -> u32
        ensures { result ≡ number_of self }
    {
        match self {
            Refusal::Setting => 1,
            Refusal::Store => 2,
            Refusal::Sample => 3,
            Refusal::Channel => 4,
            Refusal::Length => 5,
            Refusal::Posted => 6,
            Refusal::Turn => 7,
            Refusal::Number => 8,
            Refusal::Room => 9,
            Refusal::State => 10,
            Refusal::Missing => 11,
            Refusal::Unallowed => 12,
            Refusal::Bits => 13,
            Refusal::Count => 14,
            Refusal::Slot => 15,
            Refusal::Bytes => 16,
            Refusal::Frames => 19,
        }
    }
}

// What C is told of a call: the number of its refusal, 0 for none.
pub fn told<T: Copy>(answer: Result<T, Refusal>) -> u32
    ensures { result ≡ told answer }
{
    match answer {
        Ok(_) => 0,
        Err(refusal) => refusal.number(),
    }
}

// What a call from C is told whose array is not as long as the header says: 64, after the paper's numbers.
pub fn told_bad_array<T: Copy>(answer: Result<T, Refusal>) -> u32
    ensures { result ≡ or_else (told answer) bad_array }
{
    if answer.is_ok() {
        return BAD_ARRAY;
    }
    told(answer)
}
