// Integrals, times and pedestals.
ghost use Rattle.std.specs.Prelude.{◌≡◌, ◌+◌, ◌*◌, ◌≤◌, length, get_or};
ghost use Rattle.fields.specs.Bytes.{words_of_bytes};
ghost use Rattle.stretches.specs.Stretches.{measure};

use crate::Kind;
use fields::record::Defining;
use measures::integral::PulseIntegral;
use measures::pedestal::PulsePedestal;
use measures::time::PulseTime;

// Bit 31 and the type: the high bits of the first byte.
const INTEGRAL: u32 = 8 * (16 + PulseIntegral::TAG);

const PEDESTAL: u32 = 8 * (16 + PulsePedestal::TAG);

// The same, taken out of the byte.
const TIME: u32 = 16 + PulseTime::TAG;

// A measure whose bits shown zero are zero.
pub(crate) struct Measure;

impl Kind for Measure {
    ghost kind = { measure };

    // The first byte's high bits are left in their place: no shift is made of them. A time's zero bits are the low bits of the
    // second byte, which stand beside its type here, and the high bit of the third.
    fn is_at(bytes: &[u8], k: usize) -> bool {
        let word = crate::turned_at(bytes, k);
        let first = fields::put(0, 3, fields::take(word, 3, 5));
        let time = (fields::take(word, 3, 8) == TIME) & (fields::take(word, 23, 1) == 0);
        (first == INTEGRAL) | (first == PEDESTAL) | time
    }
}
