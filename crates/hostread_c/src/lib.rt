// What C links to read on in a block: the calls of `hostread`, under their own names and with the clauses that they have
// there. It is an object of the archive of its own, so that the check's loop stays the one place of its object that steps
// over words: the compiler then builds the step into it, which is worth three times its speed.
#![tactic(auto)]

ghost use Rattle.rawitems.specs.Pairs.{part_of};
ghost use Rattle.rawsamples.specs.RawSamples.{samples_of};
ghost use Rattle.rawsamples.specs.Says.{SamplesSay};
ghost use Rattle.reading.specs.Reading.{NextFace};
ghost use Rattle.listing.specs.Listing.{long_listing_of};
ghost use Rattle.listing.specs.Says.{LengthSays};

#[unsafe(no_mangle)]
pub extern "C" fn fadc250_next(scan: &mut [u32], words: &[u32], out: &mut [u64]) -> u64
    ensures { NextFace scan.old words.now out.old result scan.new out.new }
{
    hostread::fadc250_next(scan, words, out)
}

#[unsafe(no_mangle)]
pub extern "C" fn fadc250_samples(words: &[u32], place: u32, pairs: u32, samples: &mut [u16]) -> u64
    ensures { SamplesSay (samples_of (part_of words.now (record { place = place; count = pairs }))) samples.old result samples.new }
{
    hostread::fadc250_samples(words, place, pairs, samples)
}

#[unsafe(no_mangle)]
pub extern "C" fn fadc250_list(bytes: &[u8], text: &mut [u8]) -> u64
    ensures { LengthSays (long_listing_of bytes.now) text.old result text.new }
{
    hostread::fadc250_list(bytes, text)
}
