// What C calls to read on in a block: the next record, the samples of a raw item, the lister's text. `hostread_c` is what it
// links.
#![tactic(auto)]

ghost use Rattle.rawitems.specs.Pairs.{part_of};
ghost use Rattle.rawsamples.specs.RawSamples.{samples_of};
ghost use Rattle.rawsamples.specs.Says.{SamplesSay};
ghost use Rattle.reading.specs.Reading.{NextFace};
ghost use Rattle.listing.specs.Listing.{long_listing_of};
ghost use Rattle.listing.specs.Says.{LengthSays};

pub fn fadc250_next(scan: &mut [u32], words: &[u32], out: &mut [u64]) -> u64
    ensures { NextFace scan.old words.now out.old result scan.new out.new }
{
    reading::next(scan, words, out)
}

pub fn fadc250_samples(words: &[u32], place: u32, pairs: u32, samples: &mut [u16]) -> u64
    ensures { SamplesSay (samples_of (part_of words.now (record { place = place; count = pairs }))) samples.old result samples.new }
{
    rawsamples::samples(words, place, pairs, samples) as u64
}

// Whether the text fitted follows from its length.
pub fn fadc250_list(bytes: &[u8], text: &mut [u8]) -> u64
    ensures { LengthSays (long_listing_of bytes.now) text.old result text.new }
{
    match listing::list_long(bytes, text) {
        Ok(length) => length as u64,
        Err(room) => room.needed as u64,
    }
}
