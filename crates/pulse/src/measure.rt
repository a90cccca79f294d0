// The words of what is measured of a pulse, with the caps that only the words have. No item is made: its record is built at once.
ghost use Rattle.std.specs.Prelude.{◌≡◌, ◌≤◌};
ghost use Rattle.limits.specs.Limits.{most_samples};
ghost use Rattle.items.specs.Items.{word_of};
ghost use Rattle.pulse.specs.Pulse.{integral_item, time_item, pedestal_item};

use fields::record::Record;
use finder::Pulse;
use measures::integral::PulseIntegral;
use measures::pedestal::PulsePedestal;
use measures::time::PulseTime;

// Quality 1 marks a sum that was cut.
pub(crate) fn integral_word(channel: u32, i: u32, pulse: Pulse) -> u32
    ensures { result ≡ word_of (integral_item channel i pulse) }
{
    let integral = PulseIntegral {
        channel,
        pulse: i,
        quality: u32::from(PulseIntegral::SUM_MAX < pulse.sum),
        sum: pulse.sum.min(PulseIntegral::SUM_MAX),
    };
    integral.build()
}

// The high-resolution time, or TC.
pub(crate) fn time_word(high: bool, channel: u32, i: u32, pulse: Pulse) -> u32
    requires { (pulse.tc ≤ most_samples) × (pulse.time.coarse ≤ most_samples) }
    ensures { result ≡ word_of (time_item high channel i pulse) }
{
    let of = pulse.time;
    let (coarse, fine) = if high {
        (of.coarse, of.fine)
    } else {
        (pulse.tc, 0)
    };
    let time = PulseTime {
        channel,
        pulse: i,
        quality: 0,
        coarse: coarse as u32,
        fine,
    };
    time.build()
}

// VMIN is cut in the word alone.
pub(crate) fn pedestal_word(channel: u32, i: u32, pulse: Pulse) -> u32
    ensures { result ≡ word_of (pedestal_item channel i pulse) }
{
    let time = pulse.time;
    let pedestal = PulsePedestal {
        channel,
        pulse: i,
        vmin: time.vmin.min(PulsePedestal::VMIN_MAX),
        vpeak: time.vpeak,
    };
    pedestal.build()
}
