// The store that is lent: a row of samples for each channel, and the marks of those posted.
#![tactic(auto)]

ghost use Rattle.std.specs.Prelude.{◌≡◌, not, ◌&&◌, ◌||◌};
ghost use Rattle.samples.specs.Sample.{samples_ok};
ghost use Rattle.rows.specs.Rows.{lent_ok, rows_ok};
ghost use Rattle.rows.specs.Inner.{Lent};

use limits::CHANNELS;
use settings::Settings;

// What is lent is enough for an event: settings in range, at most sixteen marks, sixteen rows. The quotient cannot wrap, whatever NW says.
pub fn lent(settings: Settings, posted: &[bool], store: &[u16]) -> bool
    ensures { result ≡ lent_ok settings posted.now store.now }
{
    settings::in_range(settings)
        & (posted.len() <= CHANNELS)
        & (settings.nw <= store.len() / CHANNELS)
}

// A posted channel's row has no sample over the greatest; no other row is looked at.
fn row_ok(posted: bool, row: &[u16]) -> bool
    ensures { result ≡ (not posted || samples_ok row.now) }
{
    !posted || samples::samples_ok(row)
}

// The same of every posted channel.
fn posted_ok(settings: Settings, posted: &[bool], store: &[u16]) -> bool
    requires { Lent settings posted.now store.now }
    ensures { result ≡ rows_ok settings.nw store.now 0 posted.now }
{
    posted
        .iter()
        .zip(store.chunks_exact(settings.nw))
        .fold(true, |good, (posted, row)| good & row_ok(*posted, row))
}

// What is lent is enough for an event, and no posted row has a sample over the greatest.
pub fn rows_ok(settings: Settings, posted: &[bool], store: &[u16]) -> bool
    ensures { result ≡ (lent_ok settings posted.now store.now && rows_ok settings.nw store.now 0 posted.now) }
{
    lent(settings, posted, store) && posted_ok(settings, posted, store)
}
