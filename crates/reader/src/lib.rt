// Reads a block of the format word by word: what one word does to the scan.
#![tactic(auto)]

ghost use Rattle.std.specs.Prelude.{◌≡◌, drop};
ghost use Rattle.ground.specs.Tests.{first_of};
ghost use Rattle.refusals.specs.Refusal.{told};
ghost use Rattle.questions.specs.Questions.{refusals};
ghost use Rattle.reader.specs.Step.{step_of};
ghost use Rattle.reader.specs.Judged.{judged_of};
ghost use Rattle.reader.specs.Reader.{step_by, end_number};
ghost use Rattle.reader.specs.Answers.{StepSays, JudgedSays};

use items::{Form, Item};
use meaning::Meaning;
use refusals::Refusal;
use scan::{Scan, Stage};

mod window;

// Why a word is refused, and its place.
#[derive(Clone, Copy)]
pub struct Refused {
    pub refusal: Refusal,
    pub place: u32,
}

impl Refused {
    // The word at the scan's place is refused.
    pub fn at(scan: Scan, refusal: Refusal) -> Refused
        ensures { result ≡ record { refusal = refusal; place = scan.place } }
    {
        Refused {
            refusal: refusal,
            place: scan.place,
        }
    }
}

// A word that may stand here: what is asked of its form, and the scan after.
fn form_step(scan: Scan, form: Form, word: u32) -> Result<Option<(Form, Scan)>, Refused>
    ensures { step_of result ≡ step_by scan (Meaning.Form form) word (first_of (drop 2 (refusals scan (Meaning.Form form) word))) }
{
    questions::refusal(scan, form, word).map_err(|refusal| Refused::at(scan, refusal))?;
    Ok(Some((form, scan::after::scan_after(scan, form, word))))
}

// One word; no record is made. Its form and the scan after it, or that the block ends before it.
pub fn step_at(scan: Scan, word: u32) -> Result<Option<(Form, Scan)>, Refused>
    ensures { StepSays scan word (step_of result) }
{
    if questions::at_limit(scan) {
        return Err(Refused::at(scan, Refusal::Count));
    }
    if let Stage::Window(n, odd) = scan.stage {
        return window::window_step(scan, n, odd, word);
    }
    match meaning::meaning_at(scan, word) {
        Meaning::Form(form) => form_step(scan, form, word),
        Meaning::Unallowed => Err(Refused::at(scan, Refusal::Unallowed)),
        Meaning::End => Ok(None),
    }
}

// No word left: the block ends here, or is refused.
#[tactic(auto, unfolding(crate::specs::Reader::end_number, ground::specs::Tests::first_of))]
pub fn at_end(scan: Scan) -> Result<(), Refusal>
    ensures { told result ≡ end_number scan }
{
    if questions::at_limit(scan) {
        return Err(Refusal::Count);
    }
    if meaning::is_unfinished(scan) {
        return Err(Refusal::Missing);
    }
    Ok(())
}

// One word with its record. In line: out of it the record is handed over in memory, and scalers take a third more time to list.
#[inline(always)]
#[tactic(auto, using(crate::specs::AnswersLaws::judged_step))]
pub fn judge_at(scan: Scan, word: u32) -> Result<Option<(Item, Scan)>, Refused>
    ensures { JudgedSays scan word (judged_of result) }
{
    let step = step_at(scan, word)?;
    Ok(step.map(|(form, after)| (Item::take_apart(form, word), after)))
}
