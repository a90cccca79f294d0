// What is asked of a word, in the paper's order: the limit, whether it may stand here, its slot, its bits, its count.
#![tactic(auto)]

ghost use Rattle.std.specs.Prelude.{◌≡◌, not, cond, ◌&&◌, ◌||◌, [], ◌∷◌, eqb, drop};
ghost use Rattle.ground.specs.Tests.{first_of};
ghost use Rattle.fields.specs.Word.{read};
ghost use Rattle.refusals.specs.Refusal.{told};
ghost use Rattle.framing.specs.Words.{block_header_of, block_header_fixed, block_header_within};
ghost use Rattle.raw.specs.Words.{window_of, window_fixed, window_within, pair_fixed};
ghost use Rattle.items.specs.Items.{item_from, fixed_in};
ghost use Rattle.questions.specs.Questions.{at_limit, time_wrong, flag_wrong, item_wrong, count_wrong, refusals};

use fields::record::Record;
use framing::block_header::BlockHeader;
use framing::parameters::Parameters;
use framing::scalers::ScalerHeader;
use framing::trailer::BlockTrailer;
use framing::trigger_time_high::TriggerTimeHigh;
use items::Form;
use meaning::Meaning;
use measures::time::PulseTime;
use raw::pair::SamplePair;
use raw::pulse_raw::PulseRaw;
use raw::window::WindowRaw;
use refusals::Refusal;
use scan::{Scan, Stage};

// No word before the trailer may stand here: the trailer's count would not hold it.
const PLACE_MAX: u32 = BlockTrailer::WORDS_MAX;

#[tactic(auto, unfolding(crate::specs::Questions::at_limit))]
pub fn at_limit(scan: Scan) -> bool
    ensures { result ≡ at_limit scan }
{
    scan.place == PLACE_MAX && meaning::is_unfinished(scan)
}

fn slot_wrong(scan: Scan, word: u32) -> bool
    ensures { result ≡ not (eqb (read 26 22 word) scan.slot) }
{
    fields::take(word, 22, 5) != scan.slot
}

fn block_wrong(word: u32) -> bool
    ensures { result ≡ not (block_header_fixed word) || not (block_header_within (block_header_of word)) }
{
    let block = BlockHeader::take_apart(word);
    !BlockHeader::fixed(word) | !block.within()
}

fn time_wrong(scan: Scan, high: u32) -> bool
    ensures { result ≡ time_wrong scan high }
{
    match scan.stage {
        Stage::Timed(middle) => high % 8 != middle,
        _ => false,
    }
}

fn high_wrong(scan: Scan, word: u32) -> bool
    ensures { result ≡ not (fixed_in Form.ClockHigh word) || item_wrong scan (item_from Form.ClockHigh word) }
{
    let time = TriggerTimeHigh::take_apart(word);
    !TriggerTimeHigh::fixed(word) | time_wrong(scan, time.high)
}

fn window_wrong(word: u32) -> bool
    ensures { result ≡ not (window_fixed word) || not (window_within (window_of word)) }
{
    let window = WindowRaw::take_apart(word);
    !WindowRaw::fixed(word) | !window.within()
}

// The flag that a window's pair must have: only the last of an odd width has it.
pub fn window_flag_wrong(n: u32, odd: bool, flag: u32) -> bool
    ensures { result ≡ not (eqb flag (cond (eqb n 1 && odd) 1 0)) }
{
    if (n == 1) & odd { flag != 1 } else { flag != 0 }
}

fn flag_wrong(scan: Scan, flag: u32) -> bool
    ensures { result ≡ flag_wrong scan flag }
{
    match scan.stage {
        Stage::Window(n, odd) => window_flag_wrong(n, odd, flag),
        _ => false,
    }
}

// A pair's bits, where its second flag was compared.
#[tactic(auto, unfolding(raw::specs::Words::pair_of))]
pub fn pair_bits_wrong(word: u32, flag: bool) -> bool
    ensures { result ≡ not (pair_fixed word) || (not (eqb (read 29 29 word) 0) || ((eqb (read 13 13 word) 1 && not (eqb (read 12 0 word) 0)) || flag)) }
{
    let pair = SamplePair::take_apart(word);
    let unheld = (pair.nosecond == 1) & (pair.second != 0);
    !SamplePair::fixed(word) | ((pair.nofirst != 0) | (unheld | flag))
}

#[tactic(auto, unfolding(raw::specs::Words::pair_of))]
fn pair_wrong(scan: Scan, word: u32) -> bool
    ensures { result ≡ not (fixed_in Form.Pair word) || item_wrong scan (item_from Form.Pair word) }
{
    pair_bits_wrong(word, flag_wrong(scan, fields::take(word, 13, 1)))
}

// The trailer's count is of the words from the header to itself.
#[tactic(auto, unfolding(framing::specs::Words::trailer_of))]
fn trailer_wrong(scan: Scan, word: u32) -> bool
    ensures { result ≡ count_wrong scan (item_from Form.Trailer word) }
{
    let here = u64::from(scan.place) + 1;
    (scan.left != 0) | (u64::from(fields::take(word, 0, 22)) != here)
}

// The last three questions, in their order.
#[tactic(auto, unfolding(ground::specs::Tests::first_of))]
fn first_wrong(slot: bool, bits: bool, count: bool) -> Result<(), Refusal>
    ensures { told result ≡ first_of ((15, slot) ∷ (13, bits) ∷ (14, count) ∷ []) }
{
    if slot {
        return Err(Refusal::Slot);
    }
    if bits {
        return Err(Refusal::Bits);
    }
    if count {
        return Err(Refusal::Count);
    }
    Ok(())
}

// What is asked of a word that may stand here: the first question that refuses it. A form is asked only what it can answer
// wrong.
#[tactic(auto, unfolding(ground::specs::Tests::first_of, framing::specs::Words::all_open))]
pub fn refusal(scan: Scan, form: Form, word: u32) -> Result<(), Refusal>
    ensures { told result ≡ first_of (drop 2 (refusals scan (Meaning.Form form) word)) }
{
    match form {
        Form::Block => first_wrong(false, block_wrong(word), false),
        Form::Parameters => first_wrong(false, !Parameters::fixed(word), false),
        Form::Trailer => first_wrong(slot_wrong(scan, word), false, trailer_wrong(scan, word)),
        Form::Event => first_wrong(slot_wrong(scan, word), false, scan.left == 0),
        Form::ClockHigh => first_wrong(false, high_wrong(scan, word), false),
        Form::Window => first_wrong(false, window_wrong(word), false),
        Form::Raw => first_wrong(false, !PulseRaw::fixed(word), false),
        Form::Pair => first_wrong(false, pair_wrong(scan, word), false),
        Form::Time => first_wrong(false, !PulseTime::fixed(word), false),
        Form::Filler => first_wrong(slot_wrong(scan, word), false, false),
        Form::Scalers => first_wrong(false, !ScalerHeader::fixed(word), false),
        Form::Clock | Form::Integral | Form::Pedestal | Form::Empty | Form::Scaler => Ok(()),
    }
}
