// Reads a block from C, record by record: the scan's numbers are loaded, and an accepted call stores them and fills in the record's.
#![tactic(auto)]

ghost use Rattle.std.specs.Prelude.{◌≡◌};
ghost use Rattle.ends.specs.Ends.{no_numbers};
ghost use Rattle.reading.specs.Reading.{room_for, told_by, record_of, record_stored, NextFace};
ghost use Rattle.records.specs.NextOf.{next_of};
ghost use Rattle.reading.specs.Inner.{Told};

use reader::Refused;
use records::answer::{Next, Record};
use scan::Scan;

// What is answered where an array is not as the header says.
const BAD_ANSWER: u64 = refusals::BAD_ARRAY as u64 * 4294967296;

// No record is left of an older call.
fn clear(out: &mut [u64])
    ensures { out.new ≡ record_stored out.old no_numbers }
{
    let none = ends::no_numbers();
    copies::put(out, 0, &none);
}

// A record: with room for it, the scan moves behind it.
fn took(numbers: &mut [u32], out: &mut [u64], x: Record, after: Scan) -> u64
    ensures { Told numbers.old out.old (next_of (Ok (Next.Took x after))) result numbers.new out.new }
{
    if out.len() < ends::RECORD {
        return BAD_ANSWER;
    }
    let new = cells::record_numbers(x);
    copies::put(out, 0, &new);
    cursors::put_scan(numbers, after);
    u64::from(after.place)
}

// The block's end: the scan stays before it.
fn ended(out: &mut [u64], words: u32) -> u64
    ensures { (result ≡ told_by (next_of (Ok (Next.End words))) (room_for out.old)) × (out.new ≡ record_stored out.old (record_of (next_of (Ok (Next.End words))))) }
{
    if out.len() < ends::RECORD {
        return BAD_ANSWER;
    }
    let end = ends::end_numbers();
    copies::put(out, 0, &end);
    u64::from(words)
}

// A refusal and its place in one number, as the check of bytes answers them.
fn refused(out: &mut [u64], refused: Refused) -> u64
    ensures { (result ≡ told_by (next_of (Err refused)) (room_for out.old)) × (out.new ≡ record_stored out.old (record_of (next_of (Err refused)))) }
{
    clear(out);
    u64::from(refused.refusal.number()) * 4294967296 + u64::from(refused.place)
}

fn tell(numbers: &mut [u32], out: &mut [u64], next: Result<Next, Refused>) -> u64
    ensures { Told numbers.old out.old (next_of next) result numbers.new out.new }
{
    match next {
        Ok(Next::Took(x, after)) => took(numbers, out, x, after),
        Ok(Next::End(words)) => ended(out, words),
        Err(r) => refused(out, r),
    }
}

// The next record of the block whose first word is the first of `words`.
pub fn next(numbers: &mut [u32], words: &[u32], out: &mut [u64]) -> u64
    ensures { NextFace numbers.old words.now out.old result numbers.new out.new }
{
    if !cursors::is_scan(numbers) {
        clear(out);
        return BAD_ANSWER;
    }
    let scan = cursors::scan_from(numbers);
    let next = records::next(words, scan);
    tell(numbers, out, next)
}
