// The scan after a word. Places and counts never wrap, whatever scan is handed in.
ghost use Rattle.std.specs.Prelude.{◌≡◌, true, cond, ◌-◌, ◌%◌, eqb, leb};
ghost use Rattle.limits.specs.Limits.{pairs_of};
ghost use Rattle.items.specs.Items.{item_from};
ghost use Rattle.scan.specs.After.{onward, paired, filled, scaled, after};

use crate::{Scan, Stage};
use fields::record::Record;
use framing::block_header::BlockHeader;
use items::Form;

// So many pairs may follow a type 6.
const PAIRS_MAX: u32 = limits::MOST_PAIRS as u32;

// So many fillers may follow the trailer.
const FILLERS_MAX: u32 = 3;

// The next place, or one more of a count; the largest stays.
#[tactic(auto, unfolding(crate::specs::After::onward))]
pub fn next_place(place: u32) -> u32
    ensures { result ≡ onward place }
{
    place.saturating_add(1)
}

// Behind a type 4: half as many pairs as samples, rounded up.
#[tactic(auto, unfolding(limits::specs::Limits::pairs_of))]
fn window_stage(width: u32) -> Stage
    ensures { result ≡ Stage.Window (pairs_of width) (eqb (width % 2) 1) }
{
    Stage::Window(width.div_ceil(2), width % 2 == 1)
}

// Behind a pair of a window with n pairs to come.
pub fn window_paired(n: u32, odd: bool) -> Stage
    ensures { result ≡ cond (leb n 1) Stage.Items (Stage.Window (n - 1) odd) }
{
    if n <= 1 {
        Stage::Items
    } else {
        Stage::Window(n - 1, odd)
    }
}

fn raw_paired(n: u32, flag: u32) -> Stage
    ensures { result ≡ Stage.Raw (cond (eqb flag 1) 0 (n - 1)) true }
{
    if flag == 1 {
        Stage::Raw(0, true)
    } else {
        Stage::Raw(n.saturating_sub(1), true)
    }
}

fn pair_stage(scan: Scan, flag: u32) -> Stage
    ensures { result ≡ paired scan flag }
{
    match scan.stage {
        Stage::Window(n, odd) => window_paired(n, odd),
        Stage::Raw(n, _) => raw_paired(n, flag),
        other => other,
    }
}

fn filler_stage(scan: Scan) -> Stage
    ensures { result ≡ filled scan }
{
    match scan.stage {
        Stage::Tail(n) => Stage::Tail(n.saturating_sub(1)),
        other => other,
    }
}

fn scaler_stage(scan: Scan) -> Stage
    ensures { result ≡ scaled scan }
{
    match scan.stage {
        Stage::Scalers(n) => Stage::Scalers(n.saturating_sub(1)),
        other => other,
    }
}

// Behind the block header: its slot, and the events that it states.
#[tactic(auto, unfolding(crate::specs::After::after))]
fn begun(scan: Scan, word: u32) -> Scan
    ensures { result ≡ after scan (item_from Form.Block word) }
{
    let block = BlockHeader::take_apart(word);
    Scan {
        place: next_place(scan.place),
        slot: block.slot,
        left: block.events,
        stage: Stage::Head,
    }
}

// Behind an event header: one fewer to come.
fn opened(scan: Scan) -> Scan
    ensures { result ≡ record { place = onward scan.place; slot = scan.slot; left = scan.left - 1; stage = Stage.Opened } }
{
    Scan {
        place: next_place(scan.place),
        left: scan.left.saturating_sub(1),
        stage: Stage::Opened,
        ..scan
    }
}

// Behind any other word: the stage alone changes.
pub fn moved(scan: Scan, stage: Stage) -> Scan
    ensures { result ≡ record { place = onward scan.place; slot = scan.slot; left = scan.left; stage = stage } }
{
    Scan {
        place: next_place(scan.place),
        stage,
        ..scan
    }
}

#[tactic(auto, using(limits::proofs::LimitsLaws::most_pairs_lem), unfolding(crate::specs::After::after, framing::specs::Words::trigger_time_of, framing::specs::Words::scalers_of, raw::specs::Words::pair_of, raw::specs::Words::window_of))]
pub fn scan_after(scan: Scan, form: Form, word: u32) -> Scan
    ensures { result ≡ after scan (item_from form word) }
{
    match form {
        Form::Block => begun(scan, word),
        Form::Parameters => moved(scan, Stage::Front),
        Form::Trailer => moved(scan, Stage::Tail(FILLERS_MAX)),
        Form::Event => opened(scan),
        Form::Clock => moved(scan, Stage::Timed(fields::take(word, 24, 3))),
        Form::ClockHigh | Form::Integral | Form::Time | Form::Pedestal => moved(scan, Stage::Items),
        Form::Window => moved(scan, window_stage(fields::take(word, 0, 12))),
        Form::Raw => moved(scan, Stage::Raw(PAIRS_MAX, false)),
        Form::Pair => moved(scan, pair_stage(scan, fields::take(word, 13, 1))),
        Form::Empty => moved(scan, Stage::Tail(0)),
        Form::Filler => moved(scan, filler_stage(scan)),
        Form::Scalers => moved(scan, Stage::Scalers(fields::take(word, 0, 6))),
        Form::Scaler => moved(scan, scaler_stage(scan)),
    }
}
