// Pairs of two samples: most words of a block with windows are such.
ghost use Rattle.std.specs.Prelude.{◌≡◌, ◌+◌, ◌*◌, ◌≤◌, length, get_or};
ghost use Rattle.fields.specs.Bytes.{words_of_bytes};
ghost use Rattle.raw.specs.Plain.{plain};

use crate::Kind;

// Two samples without a flag.
pub(crate) struct Plain;

impl Kind for Plain {
    ghost kind = { plain };

    fn is_at(bytes: &[u8], k: usize) -> bool {
        let word = crate::turned_at(bytes, k);
        (fields::take(word, 5, 3) == 0) & (fields::take(word, 21, 3) == 0)
    }
}
