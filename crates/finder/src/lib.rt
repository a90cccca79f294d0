// The pulse finder: document 01, "Finding pulses".
#![tactic(auto)]

ghost use Rattle.std.specs.Prelude.{◌≡◌, cond, ◌&&◌, ◌+◌, ◌≤◌, [], length};
ghost use Rattle.limits.specs.Limits.{most_samples};
ghost use Rattle.settings.specs.Ranges.{most_nsa, most_limit};
ghost use Rattle.search.specs.Asked.{IsOver};
ghost use Rattle.timing.specs.Integral.{integral};
ghost use Rattle.finder.specs.Find.{pulse_at, pulses_from, no_pulse, packed, searchable, find_all};
ghost use Rattle.finder.specs.Wanted.{pulse_of, pulse_from, is_tc};

use settings::{LIMIT_MAX, NSA_MAX};
use timing::{Rule, Time};

// A pulse: its TC, the first and the last sample of its data set, the sum over the set before any cap, its time.
#[derive(Clone, Copy)]
pub struct Pulse {
    pub tc: usize,
    pub first: usize,
    pub last: usize,
    pub sum: u32,
    pub time: Time,
}

// The first `count` are pulses, the others are all zeros.
#[derive(Clone, Copy)]
pub struct Pulses {
    pub count: usize,
    pub pulses: [Pulse; 3],
}

// The sum of the amplitudes from `first` to `last`.
fn integral_of(window: &[u16], first: usize, last: usize) -> u32
    requires { (1 ≤ first) × (first ≤ last + 1) × (last ≤ length window.now) × (length window.now ≤ most_samples) }
    ensures { result ≡ integral window.now first last }
{
    window[first - 1..last]
        .iter()
        .map(|sample| samples::amplitude(*sample))
        .sum()
}

// The pulse at tc, its sum where it is asked. Its time is found by the callers: found in here it would make this too large to be
// compiled in the place of both.
fn pulse_of(window: &[u16], nsb: usize, nsa: usize, tc: usize, sums: bool, time: Time) -> Pulse
    requires { (1 ≤ tc) × (tc ≤ length window.now) × (length window.now ≤ most_samples) × (nsa ≤ most_nsa) }
    ensures { result ≡ pulse_of sums window.now nsb nsa tc time }
{
    let first = tc.saturating_sub(nsb).max(1);
    let last = (tc + nsa - 1).min(window.len());
    let sum = if sums {
        integral_of(window, first, last)
    } else {
        0
    };
    Pulse {
        tc,
        first,
        last,
        sum,
        time,
    }
}

// The pulse at tc, all of it, by the window's own base.
fn pulse_at(window: &[u16], threshold: u32, nsb: usize, nsa: usize, tc: usize) -> Pulse
    requires over { IsOver window.now threshold tc }
    requires window_len_bound { (length window.now ≤ most_samples) × (nsa ≤ most_nsa) }
    ensures { result ≡ pulse_at window.now threshold nsb nsa tc }
{
    let base = timing::base_of(window, threshold);
    let time = timing::time_from(window, base, tc);
    pulse_of(window, nsb, nsa, tc, true, time)
}

// What stands where there is no pulse.
fn no_pulse() -> Pulse
    ensures { result ≡ no_pulse }
{
    let time = timing::tc_only(0, 0, Rule::Early);
    Pulse {
        tc: 0,
        first: 0,
        last: 0,
        sum: 0,
        time,
    }
}

pub fn no_pulses() -> Pulses
    ensures { result ≡ packed [] }
{
    let none = no_pulse();
    Pulses {
        count: 0,
        pulses: [none; 3],
    }
}

// Every pulse of the window, up to the limit. No search begins once the limit is reached.
fn all_pulses(window: &[u16], threshold: u32, nsb: usize, nsa: usize, limit: usize) -> Pulses
    requires { (length window.now ≤ most_samples) × (1 ≤ nsa) × (nsa ≤ most_nsa) × (limit ≤ most_limit) }
    ensures { result ≡ packed (pulses_from window.now threshold nsb nsa limit 0) }
{
    let none = no_pulse();
    let mut pulses = [none; 3];
    let mut s = 0;
    for count in 0..limit {
        let tc = search::tc_from(window, threshold, s);
        if tc == 0 {
            return Pulses { count, pulses };
        }
        pulses[count] = pulse_at(window, threshold, nsb, nsa, tc);
        s = tc + nsa;
    }
    Pulses {
        count: limit,
        pulses,
    }
}

// The numbers can be those of settings in range.
pub fn can_search(samples: usize, nsa: usize, limit: usize) -> bool
    ensures { result ≡ searchable samples nsa limit }
{
    (samples <= limits::MOST_SAMPLES) & (1 <= nsa) & (nsa <= NSA_MAX) & (limit <= LIMIT_MAX)
}

// The pulses alone, for a caller that made the refusals itself. Numbers that no settings in range have give none.
pub fn pulses_of(window: &[u16], threshold: u32, nsb: usize, nsa: usize, limit: usize) -> Pulses
    ensures { result ≡ find_all window.now threshold nsb nsa limit }
{
    if can_search(window.len(), nsa, limit) {
        all_pulses(window, threshold, nsb, nsa, limit)
    } else {
        no_pulses()
    }
}

// Sample tc is one of the window, and over.
fn is_tc(window: &[u16], threshold: u32, tc: usize) -> bool
    ensures { result ≡ is_tc window.now threshold tc }
{
    1 <= tc && tc <= window.len() && samples::over(threshold, window[tc - 1])
}

// One pulse alone, for a caller that found its TC and the base of its window, with no more of it than is asked: its sum, and its
// high-resolution time where a base is given.
pub fn pulse_with(
    window: &[u16],
    threshold: u32,
    nsb: usize,
    nsa: usize,
    tc: usize,
    sums: bool,
    base: Option<u32>,
) -> Pulse
    ensures { result ≡ cond (searchable (length window.now) nsa 0 && is_tc window.now threshold tc) (pulse_from sums window.now base nsb nsa tc) no_pulse }
{
    if !(can_search(window.len(), nsa, 0) & is_tc(window, threshold, tc)) {
        return no_pulse();
    }
    let time = timing::time_from(window, base, tc);
    pulse_of(window, nsb, nsa, tc, sums, time)
}
