// The check of a block of bytes, big-endian: a refusal and its place, or the words read, in one number.
#![tactic(auto)]

ghost use Rattle.std.specs.Prelude.{◌≡◌, ◌+◌, ◌*◌, ◌^◌};
ghost use Rattle.refusals.specs.Refusal.{told};
ghost use Rattle.bytecheck.specs.Check.{check_number};

use refusals::Refusal;
use scan::Scan;

// A refusal and its place in one number; without a refusal, the words read.
fn numbered(end: Result<(), Refusal>, place: u32) -> u64
    ensures { result ≡ told end * 2 ^ 32 + place }
{
    u64::from(refusals::told(end)) * 4294967296 + u64::from(place)
}

// Walks the bytes once, and makes no record: one word by the reader's step, and the items behind it many at a time.
pub fn check_bytes(bytes: &[u8]) -> u64
    ensures { result ≡ check_number bytes.now }
{
    if bytes.len() % 4 != 0 {
        return numbered(Err(Refusal::Bytes), 0);
    }
    let mut scan = Scan::start();
    let mut k: usize = 0;
    // No `for`: behind a word the next is as far as the items there go.
    while k < bytes.len() / 4 {
        match reader::step_at(scan, stretches::word_at(bytes, k)) {
            Ok(Some((_, after))) => {
                let place = runs::past_items(after, bytes, k + 1);
                scan = place.scan;
                k = place.next;
            }
            Ok(None) => return numbered(Ok(()), scan.place),
            Err(r) => return numbered(Err(r.refusal), r.place),
        }
    }
    numbered(reader::at_end(scan), scan.place)
}
