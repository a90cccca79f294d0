// What reading on in a block answers: the named records, a raw item with the place of its pairs, an event's scalers with that of their words.
use framing::block_header::BlockHeader;
use framing::empty::ModuleEmpty;
use framing::event_header::EventHeader;
use framing::parameters::Parameters;
use framing::scaler::ScalerWord;
use framing::trailer::BlockTrailer;
use framing::trigger_time::TriggerTime;
use framing::trigger_time_high::TriggerTimeHigh;
use measures::integral::PulseIntegral;
use measures::pedestal::PulsePedestal;
use measures::time::PulseTime;
use raw::pair::SamplePair;
use raw::pulse_raw::PulseRaw;
use raw::window::WindowRaw;
use rawitems::Pairs;
use scan::Scan;

#[derive(Clone, Copy)]
pub enum Record {
    Block(BlockHeader),
    Parameters(Parameters),
    Event(EventHeader),
    // The trigger time of one word, and of two.
    Time27(TriggerTime),
    Time48(TriggerTime, TriggerTimeHigh),
    // A second time word, or a pair, to a scan that stands before it.
    TimeHigh(TriggerTimeHigh),
    Window(WindowRaw, Pairs),
    Raw(PulseRaw, Pairs),
    Pair(SamplePair),
    Integral(PulseIntegral),
    Time(PulseTime),
    Pedestal(PulsePedestal),
    Trailer(BlockTrailer),
    // Fillers that follow each other: their slot, and how many.
    Fillers(u32, u32),
    Empty(ModuleEmpty),
    // An event's scalers: where their words stand, as many as stated.
    Scalers(Pairs),
    // One of those words, to a scan that stands before it.
    Scaler(ScalerWord),
}

// A record and the scan behind it; or the block's end and its words.
#[derive(Clone, Copy)]
pub enum Next {
    Took(Record, Scan),
    End(u32),
}
