// What a mode writes of a channel, and how many words that is.
#![tactic(auto)]

mod count;

ghost use Rattle.std.specs.Prelude.{◌≡◌, true, cond, ◌≤◌, leb, length};
ghost use Rattle.limits.specs.Limits.{most_samples};
ghost use Rattle.search.specs.Search.{tc_from};
ghost use Rattle.finder.specs.Find.{searchable};
ghost use Rattle.modes.specs.Channel.{parts_of, limit_for, common_of, channel_items, mode_most};
ghost use Rattle.modes.specs.Inner.{channel_length};

use pulse::Parts;
use settings::Settings;

// The settings that all channels share and that decide a channel's words.
#[derive(Clone, Copy)]
pub struct Common {
    pub mode: u32,
    pub nsb: usize,
    pub nsa: usize,
    pub limit: usize,
}

impl From<Settings> for Common {
    ghost from_gives = { λ s c. c ≡ common_of s };

    fn from(settings: Settings) -> Common {
        Common {
            mode: settings.mode,
            nsb: settings.nsb,
            nsa: settings.nsa,
            limit: settings.limit,
        }
    }
}

fn writing(window: bool, raw: bool, integral: bool, time: bool, high: bool, pedestal: bool) -> Parts
    ensures { result ≡ record { window = window; raw = raw; integral = integral; time = time; high = high; pedestal = pedestal } }
{
    Parts {
        window,
        raw,
        integral,
        time,
        high,
        pedestal,
    }
}

// The mode's row.
pub fn parts_of(mode: u32) -> Parts
    ensures { result ≡ parts_of mode }
{
    match mode {
        1 => writing(true, false, false, false, false, false),
        2 => writing(false, true, false, false, false, false),
        3 => writing(false, false, true, true, false, false),
        4 => writing(false, false, false, true, true, true),
        7 => writing(false, false, true, true, true, true),
        8 => writing(true, false, false, true, true, true),
        _ => writing(false, false, false, false, false, false),
    }
}

// The pulses that the mode writes of: where it writes of none, none is searched for.
pub fn limit_for(parts: Parts, limit: usize) -> usize
    ensures { result ≡ limit_for parts limit }
{
    if parts.raw | parts.integral | parts.time | parts.pedestal {
        limit
    } else {
        0
    }
}

// How many words a channel takes that has a pulse.
fn count_found(common: Common, threshold: u32, row: &[u16]) -> usize
    requires { (searchable (length row.now) common.nsa common.limit ≡ true) × (1 ≤ tc_from row.now threshold 0) }
    ensures { result ≡ channel_length common threshold row.now }
{
    let parts = parts_of(common.mode);
    let most = limit_for(parts, common.limit);
    let found = finder::pulses_of(row, threshold, common.nsb, common.nsa, most);
    pairs::run_length_if(parts.window, row.len()) + count::pulses_length(parts, found, row.len())
}

// No channel of so many samples takes more words in the mode; 0 where no window has so many.
pub fn most_words(mode: u32, samples: usize) -> usize
    ensures { result ≡ cond (leb samples most_samples) (mode_most mode samples) 0 }
{
    if samples <= limits::MOST_SAMPLES {
        let parts = parts_of(mode);
        let window = pairs::run_length_if(parts.window, samples);
        let pulse = pulse::set_length(parts, samples);
        window + 3 * pulse
    } else {
        0
    }
}

// How many words a channel takes, whatever its number: none where nothing can be searched.
pub fn channel_length(common: Common, threshold: u32, row: &[u16]) -> usize
    ensures { result ≡ cond (searchable (length row.now) common.nsa common.limit) (length (channel_items common threshold 0 row.now)) 0 }
{
    if !finder::can_search(row.len(), common.nsa, common.limit) {
        return 0;
    }
    if !search::any_over(row, threshold) {
        return 0;
    }
    count_found(common, threshold, row)
}
