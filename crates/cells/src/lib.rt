// A record of a block, as numbers for C: its kind, then its fields.
#![tactic(auto)]

ghost use Rattle.std.specs.Prelude.{◌≡◌};
ghost use Rattle.cells.specs.Cells.{record_numbers};

use ends::RECORD;
use framing::block_header::BlockHeader;
use framing::empty::ModuleEmpty;
use framing::event_header::EventHeader;
use framing::parameters::Parameters;
use framing::scaler::ScalerWord;
use framing::trailer::BlockTrailer;
use framing::trigger_time::TriggerTime;
use framing::trigger_time_high::TriggerTimeHigh;
use measures::integral::PulseIntegral;
use measures::pedestal::PulsePedestal;
use measures::time::PulseTime;
use raw::pair::SamplePair;
use raw::pulse_raw::PulseRaw;
use raw::window::WindowRaw;
use rawitems::Pairs;
use records::answer::Record;

// A second time word's bits begin at bit 24 of the time.
const BIT_24: u64 = 1 << 24;

// The kinds of record; of those that stand for none see `ends`.
const BLOCK: u64 = 1;

const PARAMETERS: u64 = 2;

const EVENT: u64 = 3;

const TIME_27: u64 = 4;

const TIME_48: u64 = 5;

const TIME_HIGH: u64 = 6;

const WINDOW: u64 = 7;

const PULSE_RAW: u64 = 8;

const PAIR: u64 = 9;

const INTEGRAL: u64 = 10;

const TIME: u64 = 11;

const PEDESTAL: u64 = 12;

const TRAILER: u64 = 13;

const FILLERS: u64 = 14;

const EMPTY: u64 = 15;

const SCALERS: u64 = 17;

const SCALER: u64 = 18;

fn block_numbers(r: BlockHeader) -> [u64; RECORD]
    ensures { result ≡ record_numbers (Record.Block r) }
{
    [
        BLOCK,
        u64::from(r.slot),
        u64::from(r.number),
        u64::from(r.events),
        0,
        0,
    ]
}

fn parameters_numbers(r: Parameters) -> [u64; RECORD]
    ensures { result ≡ record_numbers (Record.Parameters r) }
{
    [
        PARAMETERS,
        u64::from(r.pl),
        u64::from(r.nsb),
        u64::from(r.nsa),
        0,
        0,
    ]
}

fn event_numbers(r: EventHeader) -> [u64; RECORD]
    ensures { result ≡ record_numbers (Record.Event r) }
{
    [EVENT, u64::from(r.slot), u64::from(r.number), 0, 0, 0]
}

// One time word: the low 27 bits.
fn time27_numbers(r: TriggerTime) -> [u64; RECORD]
    ensures { result ≡ record_numbers (Record.Time27 r) }
{
    [
        TIME_27,
        u64::from(r.middle) * BIT_24 + u64::from(r.low),
        0,
        0,
        0,
        0,
    ]
}

// Two: the 48-bit time.
fn time48_numbers(r: TriggerTime, second: TriggerTimeHigh) -> [u64; RECORD]
    ensures { result ≡ record_numbers (Record.Time48 r second) }
{
    [
        TIME_48,
        u64::from(second.high) * BIT_24 + u64::from(r.low),
        0,
        0,
        0,
        0,
    ]
}

fn high_numbers(r: TriggerTimeHigh) -> [u64; RECORD]
    ensures { result ≡ record_numbers (Record.TimeHigh r) }
{
    [TIME_HIGH, u64::from(r.high), 0, 0, 0, 0]
}

fn window_numbers(r: WindowRaw, pairs: Pairs) -> [u64; RECORD]
    ensures { result ≡ record_numbers (Record.Window r pairs) }
{
    [
        WINDOW,
        u64::from(r.channel),
        0,
        u64::from(r.width),
        u64::from(pairs.place),
        u64::from(pairs.count),
    ]
}

fn pulse_raw_numbers(r: PulseRaw, part: Pairs) -> [u64; RECORD]
    ensures { result ≡ record_numbers (Record.Raw r part) }
{
    [
        PULSE_RAW,
        u64::from(r.channel),
        u64::from(r.pulse),
        u64::from(r.tc),
        u64::from(part.place),
        u64::from(part.count),
    ]
}

fn pair_numbers(r: SamplePair) -> [u64; RECORD]
    ensures { result ≡ record_numbers (Record.Pair r) }
{
    [
        PAIR,
        u64::from(r.first),
        u64::from(r.second),
        u64::from(r.nofirst),
        u64::from(r.nosecond),
        0,
    ]
}

fn integral_numbers(r: PulseIntegral) -> [u64; RECORD]
    ensures { result ≡ record_numbers (Record.Integral r) }
{
    [
        INTEGRAL,
        u64::from(r.channel),
        u64::from(r.pulse),
        u64::from(r.quality),
        u64::from(r.sum),
        0,
    ]
}

fn time_numbers(r: PulseTime) -> [u64; RECORD]
    ensures { result ≡ record_numbers (Record.Time r) }
{
    [
        TIME,
        u64::from(r.channel),
        u64::from(r.pulse),
        u64::from(r.quality),
        u64::from(r.coarse),
        u64::from(r.fine),
    ]
}

fn pedestal_numbers(r: PulsePedestal) -> [u64; RECORD]
    ensures { result ≡ record_numbers (Record.Pedestal r) }
{
    [
        PEDESTAL,
        u64::from(r.channel),
        u64::from(r.pulse),
        0,
        u64::from(r.vmin),
        u64::from(r.vpeak),
    ]
}

fn trailer_numbers(r: BlockTrailer) -> [u64; RECORD]
    ensures { result ≡ record_numbers (Record.Trailer r) }
{
    [TRAILER, u64::from(r.slot), u64::from(r.words), 0, 0, 0]
}

fn fillers_numbers(slot: u32, count: u32) -> [u64; RECORD]
    ensures { result ≡ record_numbers (Record.Fillers slot count) }
{
    [FILLERS, u64::from(slot), u64::from(count), 0, 0, 0]
}

fn empty_numbers(r: ModuleEmpty) -> [u64; RECORD]
    ensures { result ≡ record_numbers (Record.Empty r) }
{
    [EMPTY, u64::from(r.slot), 0, 0, 0, 0]
}

// An event's scalers: how many words they have, and the place of the first.
fn scalers_numbers(scalers: Pairs) -> [u64; RECORD]
    ensures { result ≡ record_numbers (Record.Scalers scalers) }
{
    [
        SCALERS,
        0,
        u64::from(scalers.count),
        0,
        u64::from(scalers.place),
        0,
    ]
}

fn scaler_numbers(r: ScalerWord) -> [u64; RECORD]
    ensures { result ≡ record_numbers (Record.Scaler r) }
{
    [SCALER, u64::from(r.value), 0, 0, 0, 0]
}

// The numbers of a record.
pub fn record_numbers(x: Record) -> [u64; RECORD]
    ensures { result ≡ record_numbers x }
{
    match x {
        Record::Block(r) => block_numbers(r),
        Record::Parameters(r) => parameters_numbers(r),
        Record::Event(r) => event_numbers(r),
        Record::Time27(r) => time27_numbers(r),
        Record::Time48(r, high) => time48_numbers(r, high),
        Record::TimeHigh(r) => high_numbers(r),
        Record::Window(r, pairs) => window_numbers(r, pairs),
        Record::Raw(r, part) => pulse_raw_numbers(r, part),
        Record::Pair(r) => pair_numbers(r),
        Record::Integral(r) => integral_numbers(r),
        Record::Time(r) => time_numbers(r),
        Record::Pedestal(r) => pedestal_numbers(r),
        Record::Trailer(r) => trailer_numbers(r),
        Record::Fillers(slot, count) => fillers_numbers(slot, count),
        Record::Empty(r) => empty_numbers(r),
        Record::Scalers(scalers) => scalers_numbers(scalers),
        Record::Scaler(r) => scaler_numbers(r),
    }
}
