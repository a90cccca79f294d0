// What C links to find pulses: the call of `hostfind`, under its own name and with the clause that it has there.
#![tactic(auto)]

ghost use Rattle.hostfind.specs.Found.{FindFace};

#[unsafe(no_mangle)]
pub extern "C" fn fadc250_find(
    settings: &[u64],
    channel: u32,
    window: &[u16],
    out: &mut [u32],
) -> u32
    ensures { FindFace settings.now channel window.now out.old result out.new }
{
    hostfind::fadc250_find(settings, channel, window, out)
}
