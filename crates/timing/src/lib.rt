// The high-resolution time of a pulse: document 01, "Finding pulses", rules 1 to 4.
#![tactic(auto)]

ghost use Rattle.std.specs.Prelude.{◌≡◌, cond, ◌≤◌, length};
ghost use Rattle.samples.specs.Sample.{most_amp};
ghost use Rattle.search.specs.Search.{amp_at};
ghost use Rattle.timing.specs.Time.{vmin, first_fall, n1, tc_only, rule_number};
ghost use Rattle.timing.specs.ByBase.{base_of, edge_from, time_from, in_window};
ghost use Rattle.timing.specs.declared.Rule.TheVariants.{Early};

// Which rule of the high-resolution time gave it: 1, 2, 3 and 4 in the paper's order.
#[derive(Clone, Copy)]
pub enum Rule {
    Early,
    Late,
    Flat,
    Edge,
}

// A high-resolution time. VPEAK 0 marks a time that is only TC.
#[derive(Clone, Copy)]
pub struct Time {
    pub coarse: usize,
    pub fine: u32,
    pub vmin: u32,
    pub vpeak: u32,
    pub rule: Rule,
}

impl Rule {
    // The paper's number of it.
    pub fn number(self) -> u32
        ensures { result ≡ rule_number self }
    {
        match self {
            Rule::Early => 1,
            Rule::Late => 2,
            Rule::Flat => 3,
            Rule::Edge => 4,
        }
    }
}

// The amplitude of sample k.
fn amp_at(window: &[u16], k: usize) -> u32
    requires { (1 ≤ k) × (k ≤ length window.now) }
    ensures { (result ≡ amp_at window.now k) × (result ≤ most_amp) }
{
    samples::amplitude(window[k - 1])
}

// A quarter of the sum of the first four.
fn vmin_of(window: &[u16]) -> u32
    requires { 4 ≤ length window.now }
    ensures { result ≡ vmin window.now }
{
    let first = amp_at(window, 1);
    let second = amp_at(window, 2);
    let third = amp_at(window, 3);
    let fourth = amp_at(window, 4);
    (first + second + third + fourth) / 4
}

// The base of every time in the window, whatever the pulse: VMIN, or None where rule 1 holds.
pub fn base_of(window: &[u16], threshold: u32) -> Option<u32>
    ensures { result ≡ base_of window.now threshold }
{
    if search::is_early(window, threshold) {
        return None;
    }
    let low = vmin_of(window);
    Some(low)
}

// The first sample after TC that is lower than its neighbour. The neighbour is kept, so each sample is read once.
fn first_fall(window: &[u16], tc: usize) -> usize
    requires { (1 ≤ tc) × (tc ≤ length window.now) }
    ensures { result ≡ first_fall window.now tc }
{
    let mut before = amp_at(window, tc);
    for k in tc..window.len() {
        let here = amp_at(window, k + 1);
        if here < before {
            return k + 1;
        }
        before = here;
    }
    0
}

// N1: the last sample before the peak that is at most half way up.
fn n1_of(window: &[u16], vmid: u32, peak: usize) -> usize
    requires { peak ≤ length window.now }
    ensures { result ≡ n1 window.now vmid peak }
{
    for k in (1..peak).rev() {
        if amp_at(window, k) <= vmid {
            return k;
        }
    }
    0
}

// Rules 1 to 3: the time is TC.
pub fn tc_only(tc: usize, low: u32, rule: Rule) -> Time
    ensures { result ≡ tc_only tc low rule }
{
    Time {
        coarse: tc,
        fine: 0,
        vmin: low,
        vpeak: 0,
        rule,
    }
}

// Rule 4: the time at which the edge before the peak is half way up. By a base of another window there may be none: as in rule 3.
fn edge_time(window: &[u16], low: u32, tc: usize, peak: usize) -> Time
    requires { (1 ≤ peak) × (peak ≤ length window.now) }
    ensures { result ≡ edge_from window.now low tc peak }
{
    let vpeak = amp_at(window, peak);
    if vpeak <= low {
        return tc_only(tc, low, Rule::Flat);
    }
    let vmid = (vpeak + low) / 2;
    let n1 = n1_of(window, vmid, peak);
    if n1 == 0 {
        return tc_only(tc, low, Rule::Flat);
    }
    let from = amp_at(window, n1);
    let to = amp_at(window, n1 + 1);
    Time {
        coarse: n1,
        fine: 64 * (vmid - from) / (to - from),
        vmin: low,
        vpeak,
        rule: Rule::Edge,
    }
}

// The high-resolution time of the pulse at tc, a sample of the window, by a base.
fn time_in(window: &[u16], base: Option<u32>, tc: usize) -> Time
    requires { (1 ≤ tc) × (tc ≤ length window.now) }
    ensures { result ≡ time_from window.now base tc }
{
    let Some(low) = base else {
        return tc_only(tc, 0, Rule::Early);
    };
    if window.len() - tc < 5 {
        return tc_only(tc, low, Rule::Late);
    }
    let fall = first_fall(window, tc);
    if fall == 0 {
        return tc_only(tc, low, Rule::Flat);
    }
    edge_time(window, low, tc, fall - 1)
}

// The same for any tc: where the window has no such sample, as in rule 1.
pub fn time_from(window: &[u16], base: Option<u32>, tc: usize) -> Time
    ensures { result ≡ cond (in_window window.now tc) (time_from window.now base tc) (tc_only tc 0 Early) }
{
    if (1 <= tc) & (tc <= window.len()) {
        time_in(window, base, tc)
    } else {
        tc_only(tc, 0, Rule::Early)
    }
}
