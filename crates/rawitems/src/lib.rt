// A raw item's pairs: type 4 has those of its width, type 6 as many as follow; an event's scalers: as many words as stated; and their part of the
// caller's words.
#![tactic(auto)]

ghost use Rattle.std.specs.Prelude.{[], ◌≡◌};
ghost use Rattle.rawitems.specs.Pairing.{pairing_of};
ghost use Rattle.rawitems.specs.Pairs.{pair_due, pairs_from, part_of};

use fields::record::Continuation;
use raw::pair::SamplePair;
use reader::Refused;
use scan::{Scan, Stage};

// Where a raw item's pairs stand, or the words of an event's scalers: the place of the first, and how many.
#[derive(Clone, Copy)]
pub struct Pairs {
    pub place: u32,
    pub count: u32,
}

// Whether a pair, or a word of the scalers, has to come; `going` says that the next word is a continuation.
fn pair_due(scan: Scan, going: bool) -> bool
    ensures { result ≡ pair_due scan going }
{
    match scan.stage {
        Stage::Window(_, _) => true,
        Stage::Raw(_, some) => !some | going,
        Stage::Scalers(n) => n != 0,
        _ => false,
    }
}

#[tactic(auto, using(crate::specs::AtLaws::pairs_last))]
fn pairs_end(scan: Scan, count: u32) -> Result<(u32, Scan), Refused>
    ensures { pairing_of result ≡ pairs_from scan count [] }
{
    if pair_due(scan, false) {
        reader::at_end(scan).map_err(|refusal| Refused::at(scan, refusal))?;
    }
    Ok((count, scan))
}

// The pairs of a raw item, or the words of an event's scalers, that stand first in the words: how many, and the scan behind
// them.
#[tactic(auto, using(crate::specs::AtLaws::pairs_next))]
pub fn pairs_from(words: &[u32], scan: Scan) -> Result<(u32, Scan), Refused>
    ensures { pairing_of result ≡ pairs_from scan 0 words.now }
{
    let mut behind = scan;
    let mut count: u32 = 0;
    for word in words {
        if !pair_due(behind, SamplePair::is(*word)) {
            return Ok((count, behind));
        }
        let Some((_, after)) = reader::step_at(behind, *word)? else {
            return Ok((count, behind));
        };
        behind = after;
        count = scan::after::next_place(count);
    }
    pairs_end(behind, count)
}

// The words of a raw item's pairs, or of an event's scalers; none where they do not lie in the words.
#[tactic(auto, unfolding(crate::specs::Pairs::part_of))]
pub fn part(words: &[u32], pairs: Pairs) -> &[u32]
    ensures { result.now ≡ part_of words.now pairs }
{
    let place = pairs.place as usize;
    let end = place + pairs.count as usize;
    words.get(place..end).unwrap_or(&[])
}
