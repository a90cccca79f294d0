// What a word is: by where it stands, bit 31 and its type.
#![tactic(auto)]

ghost use Rattle.std.specs.Prelude.{◌≡◌, cond, [], ◌∷◌, eqb};
ghost use Rattle.meaning.specs.Meaning.{scaler_or, more_in, edges, inner, opening, allowed_in, other_in, meaning_in, meaning_at, unfinished};

use fields::record::Defining;
use framing::block_header::BlockHeader;
use framing::empty::ModuleEmpty;
use framing::event_header::EventHeader;
use framing::filler::Filler;
use framing::scalers::ScalerHeader;
use framing::trailer::BlockTrailer;
use framing::trigger_time::TriggerTime;
use items::Form;
use measures::integral::PulseIntegral;
use measures::pedestal::PulsePedestal;
use measures::time::PulseTime;
use raw::pulse_raw::PulseRaw;
use raw::window::WindowRaw;
use scan::{Scan, Stage};

// What a word is at a place: a record of that form, one that may not stand here, or the block ends before it.
#[derive(Clone, Copy)]
pub enum Meaning {
    Form(Form),
    Unallowed,
    End,
}

// Where n of a form may still come: in a type 6 pairs, among an event's scalers whatever the word's bits.
fn while_some(n: u32, form: Form) -> Meaning
    ensures { result ≡ cond (eqb n 0) Meaning.Unallowed (Meaning.Form form) }
{
    if n == 0 {
        Meaning::Unallowed
    } else {
        Meaning::Form(form)
    }
}

// A continuation.
fn more_meaning(scan: Scan) -> Meaning
    ensures { result ≡ more_in scan }
{
    match scan.stage {
        Stage::Head => Meaning::Form(Form::Parameters),
        Stage::Timed(_) => Meaning::Form(Form::ClockHigh),
        Stage::Window(_, _) => Meaning::Form(Form::Pair),
        Stage::Raw(n, _) => while_some(n, Form::Pair),
        Stage::Tail(_) => Meaning::End,
        Stage::Scalers(n) => while_some(n, Form::Scaler),
        Stage::Start | Stage::Front | Stage::Opened | Stage::Items => Meaning::Unallowed,
    }
}

fn start_meaning(tag: u32) -> Meaning
    ensures { result ≡ meaning_in Meaning.Unallowed opening tag }
{
    match tag {
        BlockHeader::TAG => Meaning::Form(Form::Block),
        ModuleEmpty::TAG => Meaning::Form(Form::Empty),
        _ => Meaning::Unallowed,
    }
}

fn edge_meaning(tag: u32) -> Meaning
    ensures { result ≡ meaning_in Meaning.Unallowed edges tag }
{
    match tag {
        EventHeader::TAG => Meaning::Form(Form::Event),
        BlockTrailer::TAG => Meaning::Form(Form::Trailer),
        _ => Meaning::Unallowed,
    }
}

fn inner_meaning(tag: u32) -> Meaning
    ensures { result ≡ meaning_in Meaning.Unallowed inner tag }
{
    match tag {
        WindowRaw::TAG => Meaning::Form(Form::Window),
        PulseRaw::TAG => Meaning::Form(Form::Raw),
        PulseIntegral::TAG => Meaning::Form(Form::Integral),
        PulseTime::TAG => Meaning::Form(Form::Time),
        PulsePedestal::TAG => Meaning::Form(Form::Pedestal),
        ScalerHeader::TAG => Meaning::Form(Form::Scalers),
        EventHeader::TAG => Meaning::Form(Form::Event),
        BlockTrailer::TAG => Meaning::Form(Form::Trailer),
        _ => Meaning::Unallowed,
    }
}

fn opened_meaning(tag: u32) -> Meaning
    ensures { result ≡ meaning_in Meaning.Unallowed (Form.Clock ∷ inner) tag }
{
    if tag == TriggerTime::TAG {
        Meaning::Form(Form::Clock)
    } else {
        inner_meaning(tag)
    }
}

// Behind a type 6 at least one pair must have come.
fn raw_meaning(some: bool, tag: u32) -> Meaning
    ensures { result ≡ meaning_in Meaning.Unallowed (cond some inner []) tag }
{
    if some {
        inner_meaning(tag)
    } else {
        Meaning::Unallowed
    }
}

fn tail_meaning(n: u32, tag: u32) -> Meaning
    ensures { result ≡ meaning_in Meaning.End (cond (eqb n 0) [] (Form.Filler ∷ [])) tag }
{
    if n == 0 {
        return Meaning::End;
    }
    if tag == Filler::TAG {
        Meaning::Form(Form::Filler)
    } else {
        Meaning::End
    }
}

// Behind the scalers an event ends.
fn scalers_meaning(n: u32, tag: u32) -> Meaning
    ensures { result ≡ meaning_in (scaler_or n) (cond (eqb n 0) edges []) tag }
{
    if n == 0 {
        edge_meaning(tag)
    } else {
        Meaning::Form(Form::Scaler)
    }
}

// A defining word of that type.
fn type_meaning(scan: Scan, tag: u32) -> Meaning
    ensures { result ≡ meaning_in (other_in scan) (allowed_in scan) tag }
{
    match scan.stage {
        Stage::Start => start_meaning(tag),
        Stage::Head | Stage::Front => edge_meaning(tag),
        Stage::Opened => opened_meaning(tag),
        Stage::Timed(_) | Stage::Items => inner_meaning(tag),
        Stage::Window(_, _) => Meaning::Unallowed,
        Stage::Raw(_, some) => raw_meaning(some, tag),
        Stage::Tail(n) => tail_meaning(n, tag),
        Stage::Scalers(n) => scalers_meaning(n, tag),
    }
}

#[tactic(auto, unfolding(crate::specs::Meaning::meaning_at, fields::specs::Tag::is_continuation))]
pub fn meaning_at(scan: Scan, word: u32) -> Meaning
    ensures { result ≡ meaning_at scan word }
{
    if fields::is_continuation(word) {
        more_meaning(scan)
    } else {
        type_meaning(scan, fields::take(word, 27, 4))
    }
}

// Whether the trailer is still to come.
pub fn is_unfinished(scan: Scan) -> bool
    ensures { result ≡ unfinished scan }
{
    !matches!(scan.stage, Stage::Tail(_))
}
