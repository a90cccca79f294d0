// The lines of one block: those of its records, then its fillers, then a refusal.
#![tactic(auto)]

ghost use Rattle.std.specs.Prelude.{◌≡◌, ◌++◌};
ghost use Rattle.scan.specs.After.{start_of};
ghost use Rattle.refusals.specs.Refusal.{told};
ghost use Rattle.reader.specs.Reader.{read_from, out_of};
ghost use Rattle.fields.specs.Bytes.{words_of_bytes};
ghost use Rattle.lines.specs.Lines.{fill_lines};
ghost use Rattle.blocklines.specs.BlockLines.{out_lines, BlockSays, ReadingSays};

use refusals::Refusal;
use scan::Scan;

// What one block leaves: the next place of the text, the bytes that it takes, whether it is whole.
#[derive(Clone, Copy)]
pub struct Block {
    pub at: usize,
    pub bytes: usize,
    pub whole: bool,
}

// The last lines of a block of so many bytes: its fillers, then a refusal at its place.
fn stop(
    text: &mut [u8],
    at: usize,
    fillers: u64,
    end: Result<(), Refusal>,
    place: u32,
    bytes: usize,
) -> Block
    ensures { BlockSays text.old at (fill_lines fillers ++ out_lines (out_of (told end) place)) bytes (out_of (told end) place) result text.new }
{
    let filled = lines::put_fill(text, at, fillers);
    match end {
        Ok(()) => Block {
            at: filled,
            bytes: bytes,
            whole: true,
        },
        Err(refusal) => Block {
            at: lines::put_refused(text, filled, refusal.number(), place),
            bytes: bytes,
            whole: false,
        },
    }
}

// The lines of the first block of the bytes: of each word that is not known at a glance, by the reader.
pub fn list_block(bytes: &[u8], text: &mut [u8], from: usize) -> Block
    ensures { ReadingSays text.old from (read_from start_of (words_of_bytes bytes.now)) result text.new }
{
    let mut scan = Scan::start();
    let mut rest = bytes;
    let mut at = from;
    let mut fillers: u64 = 0;
    while let [a, b, c, d, behind @ ..] = rest {
        let word = fields::of_bytes(*a, *b, *c, *d);
        if let Some((to, after)) = glance::put_known(text, at, scan, word) {
            at = to;
            scan = after;
            rest = behind;
            continue;
        }
        let taken = bytes.len() - rest.len();
        match reader::judge_at(scan, word) {
            Ok(Some((item, after))) => {
                at = entries::list_item(text, at, item, behind, after);
                fillers += entries::filler_in(item);
                scan = after;
                rest = behind;
            }
            Ok(None) => return stop(text, at, fillers, Ok(()), scan.place, taken),
            Err(r) => return stop(text, at, fillers, Err(r.refusal), r.place, taken),
        }
    }
    let taken = bytes.len() - rest.len();
    stop(text, at, fillers, reader::at_end(scan), scan.place, taken)
}
