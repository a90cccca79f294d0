// What a sample is.
#![tactic(auto)]

ghost use Rattle.std.specs.Prelude.{◌≡◌, ◌≤◌};
ghost use Rattle.samples.specs.Sample.{samples_ok, amp, most_amp, is_over};

// The greatest sample, and the greatest amplitude.
pub const SAMPLE_MAX: u16 = 8191;

pub const AMPLITUDE_MAX: u32 = 4095;

// A sample's amplitude: nothing else knows how it is made.
pub fn amplitude(sample: u16) -> u32
    ensures { (result ≡ amp sample) × (result ≤ most_amp) }
{
    (sample % 4096) as u32
}

// The sample is over the threshold.
pub fn over(threshold: u32, sample: u16) -> bool
    ensures { result ≡ is_over threshold sample }
{
    threshold < amplitude(sample)
}

// The samples that are looked at together.
const CHUNK: usize = 64;

// No sample of the part is over the greatest. No early way out: many are tested at once, most where the length is known. Not a
// fold: that of a chunk is unrolled before it is laid across vectors, and takes a tenth more instructions.
fn part_ok(part: &[u16]) -> bool
    ensures { result ≡ samples_ok part.now }
{
    let mut good = true;
    for sample in part {
        good &= *sample <= SAMPLE_MAX;
    }
    good
}

// No sample of the window is over the greatest. The last chunk may overlap the one before it.
pub fn samples_ok(window: &[u16]) -> bool
    ensures { result ≡ samples_ok window.now }
{
    let n = window.len();
    if n < CHUNK {
        return part_ok(window);
    }
    for chunk in window[..n - 1].chunks_exact(CHUNK) {
        if !part_ok(chunk) {
            return false;
        }
    }
    part_ok(&window[n - CHUNK..])
}
