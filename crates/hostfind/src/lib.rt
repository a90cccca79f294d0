// What C calls to find pulses: those of one window, as numbers that the host lends.
#![tactic(auto)]

ghost use Rattle.std.specs.Prelude.{◌≡◌, ◌<◌, ◌≤◌, length, replicate};
ghost use Rattle.ground.specs.Splice.{splice};
ghost use Rattle.copies.specs.Copies.{pasted};
ghost use Rattle.hostfind.specs.Found.{pulse_numbers, pulse_row, found_count, found_numbers, FindFace};
ghost use Rattle.hostfind.specs.Inner.{Small, AllSmall};

use finder::{Pulse, Pulses};
use numbers::load::settings_or_none;
use places::is_settings;
use refusals::Refusal;

// How many numbers a pulse has, where those of each place stand, behind the count, and how many are written.
const PULSE: usize = 9;

const FIRST: usize = 1;

const SECOND: usize = FIRST + PULSE;

const THIRD: usize = SECOND + PULSE;

const FOUND: usize = THIRD + PULSE;

// TC, first, last, sum before the cap, coarse, fine, VMIN, VPEAK, rule.
fn pulse_numbers(pulse: Pulse) -> [u32; PULSE]
    requires { Small pulse }
    ensures { result ≡ pulse_numbers pulse }
{
    let time = pulse.time;
    let rule = time.rule;
    let rule_is = rule.number();
    [
        pulse.tc as u32,
        pulse.first as u32,
        pulse.last as u32,
        pulse.sum,
        time.coarse as u32,
        time.fine,
        time.vmin,
        time.vpeak,
        rule_is,
    ]
}

// The numbers of a place, zeros past the count.
fn pulse_row(found: Pulses, place: usize) -> [u32; PULSE]
    requires { (place < 3) × AllSmall found }
    ensures { result ≡ pulse_row found place }
{
    if place < found.count {
        let pulses = found.pulses;
        return pulse_numbers(pulses[place]);
    }
    [0; PULSE]
}

// The count, then the numbers of each place.
fn put_found(out: &mut [u32], found: Pulses)
    requires { (found_count ≤ length out.old) × AllSmall found }
    ensures { out.new ≡ splice out.old 0 (found_numbers found) }
{
    let count = [found.count as u32];
    let first = pulse_row(found, 0);
    let second = pulse_row(found, 1);
    let third = pulse_row(found, 2);
    copies::put(out, 0, &count);
    copies::put(out, FIRST, &first);
    copies::put(out, SECOND, &second);
    copies::put(out, THIRD, &third);
}

// No pulses are left of an older window.
fn clear(out: &mut [u32])
    ensures { out.new ≡ pasted out.old 0 (replicate found_count 0) }
{
    copies::put(out, 0, &[0; FOUND]);
}

pub fn fadc250_find(settings: &[u64], channel: u32, window: &[u16], out: &mut [u32]) -> u32
    ensures { FindFace settings.now channel window.now out.old result out.new }
{
    // Asked before they are loaded, which asks again: the compiler then keeps no number for both ways, and asks once.
    if !is_settings(settings) {
        clear(out);
        return Refusal::Setting.number();
    }
    let loaded = settings_or_none(settings);
    let answer = find::find(loaded, channel as usize, window);
    if out.len() < FOUND {
        return refusals::told_bad_array(answer);
    }
    match answer {
        Ok(found) => {
            put_found(out, found);
            0
        }
        Err(refusal) => {
            clear(out);
            refusal.number()
        }
    }
}
