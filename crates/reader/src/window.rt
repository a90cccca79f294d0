// The words of a window: each has to be a pair. The step's fast path, as most words of a block with windows are these.
ghost use Rattle.std.specs.Prelude.{◌≡◌, false};
ghost use Rattle.questions.specs.Questions.{at_limit};
ghost use Rattle.reader.specs.Step.{step_of};
ghost use Rattle.reader.specs.Reader.{step_at};

use crate::Refused;
use fields::record::Continuation;
use items::Form;
use raw::pair::SamplePair;
use refusals::Refusal;
use scan::{Scan, Stage};

// What is asked behind the limit, and the scan after.
pub(crate) fn window_step(
    scan: Scan,
    n: u32,
    odd: bool,
    word: u32,
) -> Result<Option<(Form, Scan)>, Refused>
    requires { (scan.stage ≡ Stage.Window n odd) × (at_limit scan ≡ false) }
    ensures { step_of result ≡ step_at scan word }
{
    if !SamplePair::is(word) {
        return Err(Refused::at(scan, Refusal::Unallowed));
    }
    let flag = questions::window_flag_wrong(n, odd, fields::take(word, 13, 1));
    if questions::pair_bits_wrong(word, flag) {
        return Err(Refused::at(scan, Refusal::Bits));
    }
    let after = scan::after::moved(scan, scan::after::window_paired(n, odd));
    Ok(Some((Form::Pair, after)))
}
