// The samples of a raw item, unpacked from its pairs into a lent array. What has no room is counted and not written.
#![tactic(auto)]

ghost use Rattle.std.specs.Prelude.{◌<◌, ◌≡◌};
ghost use Rattle.written.specs.Page.{put};
ghost use Rattle.rawitems.specs.Pairs.{part_of};
ghost use Rattle.rawsamples.specs.RawSamples.{if_valid, samples_of_pair, samples_of};
ghost use Rattle.rawsamples.specs.Says.{SamplesSay};

use fields::record::Record;
use raw::pair::SamplePair;
use rawitems::Pairs;
use text::FARTHEST;

// A sample of thirteen bits, where its flag does not say "not valid".
#[tactic(auto, using(crate::proofs::RawSamplesLaws::one_sample))]
fn put_sample(out: &mut [u16], at: usize, flag: u32, sample: u32) -> usize
    requires { sample < 65536 }
    ensures { (out.new, result) ≡ put (out.old, at) (if_valid flag sample) }
{
    if flag != 0 {
        return at;
    }
    if at < out.len() {
        out[at] = sample as u16;
        return at + 1;
    }
    if at < FARTHEST { at + 1 } else { at }
}

// "29 first not valid, 28-16 first sample, .. 13 second not valid, 12-0 second"
#[tactic(auto, using(crate::proofs::RawSamplesLaws::one_pair))]
fn put_pair(out: &mut [u16], at: usize, word: u32) -> usize
    ensures { (out.new, result) ≡ put (out.old, at) (samples_of_pair word) }
{
    let pair = SamplePair::take_apart(word);
    let second = put_sample(out, at, pair.nofirst, pair.first);
    put_sample(out, second, pair.nosecond, pair.second)
}

#[tactic(auto, using(crate::proofs::RawSamplesLaws::pair_by_pair))]
fn put_pairs(words: &[u32], out: &mut [u16]) -> usize
    ensures { (out.new, result) ≡ put (out.old, 0) (samples_of words.now) }
{
    let mut at: usize = 0;
    for word in words {
        at = put_pair(out, at, *word);
    }
    at
}

// The samples of the pairs that stand there, if they all fit; if not, none. They are counted first, in no array at all.
pub fn samples(words: &[u32], place: u32, pairs: u32, out: &mut [u16]) -> usize
    ensures { SamplesSay (samples_of (part_of words.now (record { place = place; count = pairs }))) out.old result out.new }
{
    let part = rawitems::part(
        words,
        Pairs {
            place: place,
            count: pairs,
        },
    );
    let count = put_pairs(part, &mut out[..0]);
    if out.len() < count {
        return count;
    }
    put_pairs(part, out)
}
