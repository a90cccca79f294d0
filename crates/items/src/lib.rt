// The named records of the format: what a word can be, and the word of each.
#![tactic(auto)]

ghost use Rattle.std.specs.Prelude.{◌≡◌};
ghost use Rattle.items.specs.Items.{word_of, item_from, fixed_in};

pub mod put;

use fields::record::Record;
use framing::block_header::BlockHeader;
use framing::empty::ModuleEmpty;
use framing::event_header::EventHeader;
use framing::filler::Filler;
use framing::parameters::Parameters;
use framing::scaler::ScalerWord;
use framing::scalers::ScalerHeader;
use framing::trailer::BlockTrailer;
use framing::trigger_time::TriggerTime;
use framing::trigger_time_high::TriggerTimeHigh;
use measures::integral::PulseIntegral;
use measures::pedestal::PulsePedestal;
use measures::time::PulseTime;
use raw::pair::SamplePair;
use raw::pulse_raw::PulseRaw;
use raw::window::WindowRaw;

// Which of the records a word is read as. No record yet: what stands before a word and its tag tell its form, and the form how it is
// taken apart and what is asked of it.
#[derive(Clone, Copy)]
pub enum Form {
    Block,
    Parameters,
    Trailer,
    Event,
    Clock,
    ClockHigh,
    Window,
    Raw,
    Pair,
    Integral,
    Time,
    Pedestal,
    Empty,
    Filler,
    Scalers,
    Scaler,
}

// One record with its fields.
#[derive(Clone, Copy)]
pub enum Item {
    Block(BlockHeader),
    Parameters(Parameters),
    Trailer(BlockTrailer),
    Event(EventHeader),
    Clock(TriggerTime),
    ClockHigh(TriggerTimeHigh),
    Window(WindowRaw),
    Raw(PulseRaw),
    Pair(SamplePair),
    Integral(PulseIntegral),
    Time(PulseTime),
    Pedestal(PulsePedestal),
    Empty(ModuleEmpty),
    Filler(Filler),
    Scalers(ScalerHeader),
    Scaler(ScalerWord),
}

impl Item {
    #[tactic(auto, unfolding(crate::specs::Items::word_of))]
    pub fn build(self) -> u32
        ensures { result ≡ word_of self }
    {
        match self {
            Item::Block(r) => r.build(),
            Item::Parameters(r) => r.build(),
            Item::Trailer(r) => r.build(),
            Item::Event(r) => r.build(),
            Item::Clock(r) => r.build(),
            Item::ClockHigh(r) => r.build(),
            Item::Window(r) => r.build(),
            Item::Raw(r) => r.build(),
            Item::Pair(r) => r.build(),
            Item::Integral(r) => r.build(),
            Item::Time(r) => r.build(),
            Item::Pedestal(r) => r.build(),
            Item::Empty(r) => r.build(),
            Item::Filler(r) => r.build(),
            Item::Scalers(r) => r.build(),
            Item::Scaler(r) => r.build(),
        }
    }

    // The record that a word of that form holds.
    pub fn take_apart(form: Form, word: u32) -> Item
        ensures { result ≡ item_from form word }
    {
        match form {
            Form::Block => Item::Block(BlockHeader::take_apart(word)),
            Form::Parameters => Item::Parameters(Parameters::take_apart(word)),
            Form::Trailer => Item::Trailer(BlockTrailer::take_apart(word)),
            Form::Event => Item::Event(EventHeader::take_apart(word)),
            Form::Clock => Item::Clock(TriggerTime::take_apart(word)),
            Form::ClockHigh => Item::ClockHigh(TriggerTimeHigh::take_apart(word)),
            Form::Window => Item::Window(WindowRaw::take_apart(word)),
            Form::Raw => Item::Raw(PulseRaw::take_apart(word)),
            Form::Pair => Item::Pair(SamplePair::take_apart(word)),
            Form::Integral => Item::Integral(PulseIntegral::take_apart(word)),
            Form::Time => Item::Time(PulseTime::take_apart(word)),
            Form::Pedestal => Item::Pedestal(PulsePedestal::take_apart(word)),
            Form::Empty => Item::Empty(ModuleEmpty::take_apart(word)),
            Form::Filler => Item::Filler(Filler::take_apart(word)),
            Form::Scalers => Item::Scalers(ScalerHeader::take_apart(word)),
            Form::Scaler => Item::Scaler(ScalerWord::take_apart(word)),
        }
    }
}

// Whether the bits that a word of that form shows fixed are as shown: zero, and module 1.
pub fn fixed(form: Form, word: u32) -> bool
    ensures { result ≡ fixed_in form word }
{
    match form {
        Form::Block => BlockHeader::fixed(word),
        Form::Parameters => Parameters::fixed(word),
        Form::ClockHigh => TriggerTimeHigh::fixed(word),
        Form::Window => WindowRaw::fixed(word),
        Form::Raw => PulseRaw::fixed(word),
        Form::Pair => SamplePair::fixed(word),
        Form::Time => PulseTime::fixed(word),
        Form::Scalers => ScalerHeader::fixed(word),
        Form::Trailer
        | Form::Event
        | Form::Clock
        | Form::Integral
        | Form::Pedestal
        | Form::Empty
        | Form::Filler
        | Form::Scaler => true,
    }
}
