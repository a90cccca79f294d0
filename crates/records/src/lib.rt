// Reads a block record by record, over the caller's words.
#![tactic(auto)]

ghost use Rattle.std.specs.Prelude.{◌≡◌};
ghost use Rattle.reader.specs.Reader.{end_number};
ghost use Rattle.rawitems.specs.Pairs.{pairs_from};
ghost use Rattle.records.specs.NextOf.{next_of, part_next};
ghost use Rattle.records.specs.Next.{with_pairs, time_from, fillers_from, record_from, ended};
ghost use Rattle.records.specs.Answers.{NextSays};

use answer::{Next, Record};
use framing::trigger_time::TriggerTime;
use items::Item;
use rawitems::Pairs;
use reader::Refused;
use scan::Scan;

pub mod answer;

// A second time word makes the time one of 48 bits.
fn time_from(words: &[u32], time: TriggerTime, scan: Scan) -> Next
    ensures { next_of (Ok result) ≡ time_from time scan words.now }
{
    match follow::high_from(words, scan) {
        Some((high, after)) => Next::Took(Record::Time48(time, high), after),
        None => Next::Took(Record::Time27(time), scan),
    }
}

fn fillers_from(words: &[u32], slot: u32, scan: Scan) -> Next
    ensures { next_of (Ok result) ≡ fillers_from slot scan words.now }
{
    let fill = follow::fill_from(words, scan);
    Next::Took(Record::Fillers(slot, fill.count), fill.scan)
}

// Where a raw item's pairs stand, or the words of an event's scalers, and the scan behind them.
fn part_from(words: &[u32], scan: Scan) -> Result<(Pairs, Scan), Refused>
    ensures { (make : Pairs → Record) → part_next make result ≡ with_pairs make scan.place (pairs_from scan 0 words.now) }
{
    let (count, after) = rawitems::pairs_from(words, scan)?;
    let part = Pairs {
        place: scan.place,
        count: count,
    };
    Ok((part, after))
}

// The record that starts with that item; `words` are those behind it, and `scan` stands there.
fn record_from(words: &[u32], item: Item, scan: Scan) -> Result<Next, Refused>
    ensures { next_of result ≡ record_from item scan words.now }
{
    let record = match item {
        Item::Block(r) => Record::Block(r),
        Item::Parameters(r) => Record::Parameters(r),
        Item::Trailer(r) => Record::Trailer(r),
        Item::Event(r) => Record::Event(r),
        Item::Clock(r) => return Ok(time_from(words, r, scan)),
        Item::ClockHigh(r) => Record::TimeHigh(r),
        Item::Window(r) => {
            let (part, after) = part_from(words, scan)?;
            return Ok(Next::Took(Record::Window(r, part), after));
        }
        Item::Raw(r) => {
            let (part, after) = part_from(words, scan)?;
            return Ok(Next::Took(Record::Raw(r, part), after));
        }
        Item::Pair(r) => Record::Pair(r),
        Item::Integral(r) => Record::Integral(r),
        Item::Time(r) => Record::Time(r),
        Item::Pedestal(r) => Record::Pedestal(r),
        Item::Empty(r) => Record::Empty(r),
        Item::Filler(r) => return Ok(fillers_from(words, r.slot, scan)),
        Item::Scalers(_) => {
            let (part, after) = part_from(words, scan)?;
            return Ok(Next::Took(Record::Scalers(part), after));
        }
        Item::Scaler(r) => Record::Scaler(r),
    };
    Ok(Next::Took(record, scan))
}

fn end_of(scan: Scan) -> Result<Next, Refused>
    ensures { next_of result ≡ ended (end_number scan) scan.place }
{
    reader::at_end(scan).map_err(|refusal| Refused::at(scan, refusal))?;
    Ok(Next::End(scan.place))
}

// The next record of the block whose first word is the first of `words`.
#[tactic(auto, using(crate::specs::AnswersLaws::next_judged))]
pub fn next(words: &[u32], scan: Scan) -> Result<Next, Refused>
    ensures { NextSays words.now scan (next_of result) }
{
    let place = scan.place as usize;
    if words.len() <= place {
        return end_of(scan);
    }
    match reader::judge_at(scan, words[place])? {
        Some((item, after)) => record_from(&words[place + 1..], item, after),
        None => Ok(Next::End(scan.place)),
    }
}
