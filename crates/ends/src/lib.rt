// What stands for C where there is no record: a call was refused, or the block has ended.
#![tactic(auto)]

ghost use Rattle.std.specs.Prelude.{◌≡◌};
ghost use Rattle.ends.specs.Ends.{end_numbers, no_numbers};

// How many numbers a record is.
pub const RECORD: usize = 6;

// Kinds that no record has.
const NONE: u64 = 0;

const END: u64 = 16;

// No record: the call was refused.
pub fn no_numbers() -> [u64; RECORD]
    ensures { result ≡ no_numbers }
{
    [NONE, 0, 0, 0, 0, 0]
}

// No record: the block has ended.
pub fn end_numbers() -> [u64; RECORD]
    ensures { result ≡ end_numbers }
{
    [END, 0, 0, 0, 0, 0]
}
