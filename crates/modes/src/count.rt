// How many words the pulses take, without writing them.
ghost use Rattle.std.specs.Prelude.{◌≡◌, ◌*◌, ◌≤◌};
ghost use Rattle.limits.specs.Limits.{most_samples, most_pulse};
ghost use Rattle.modes.specs.Inner.{listed, InWindow, pulses_length};

use finder::Pulses;
use pulse::Parts;

pub(crate) fn pulses_length(parts: Parts, found: Pulses, samples: usize) -> usize
    requires { InWindow samples found × (samples ≤ most_samples) }
    ensures { (result ≡ pulses_length parts (listed found)) × (result ≤ 3 * most_pulse) }
{
    let mut n = 0;
    for pulse in &found.pulses[..found.count] {
        n += pulse::pulse_length(parts, *pulse, samples);
    }
    n
}
