// The finder as it is called: document 01, "One event, one store".
#![tactic(auto)]

ghost use Rattle.std.specs.Prelude.{◌≡◌};
ghost use Rattle.refusals.specs.Refusal.{told};
ghost use Rattle.find.specs.Call.{find_number, FindSays};

use finder::Pulses;
use refusals::Refusal;
use settings::Settings;

// Why the finder refuses, in the paper's order.
fn check(settings: Settings, channel: usize, window: &[u16]) -> Result<(), Refusal>
    ensures { told result ≡ find_number settings channel window.now }
{
    if !settings::in_range(settings) {
        return Err(Refusal::Setting);
    }
    if 15 < channel {
        return Err(Refusal::Channel);
    }
    if window.len() != settings.nw {
        return Err(Refusal::Length);
    }
    if !samples::samples_ok(window) {
        return Err(Refusal::Sample);
    }
    Ok(())
}

// The pulses of one channel's window, or why there are none.
pub fn find(settings: Settings, channel: usize, window: &[u16]) -> Result<Pulses, Refusal>
    ensures { FindSays settings channel window.now result }
{
    check(settings, channel, window)?;
    let threshold = settings.thresholds[channel];
    Ok(finder::pulses_of(
        window,
        threshold,
        settings.nsb,
        settings.nsa,
        settings.limit,
    ))
}
