// The lister: the lines of the records of an input, as text in a lent buffer.
#![tactic(auto)]

ghost use Rattle.std.specs.Prelude.{◌≡◌};
ghost use Rattle.fields.specs.Bytes.{words_of_bytes};
ghost use Rattle.written.specs.Page.{put};
ghost use Rattle.written.specs.Line.{text_of};
ghost use Rattle.listing.specs.Listing.{lines_from, lines_unless, listing_of, long_listing_of};
ghost use Rattle.listing.specs.Says.{ListSays, LongSays};

use refusals::Refusal;

// The most bytes of an input of the lister.
pub const LONGEST: usize = 65536;

// The most bytes of the text of a word; a refusal behind them has at most one fewer.
const WORD_MOST: usize = 23;

// The lent buffer is too short for a text of so many bytes.
#[derive(Clone, Copy)]
pub struct NoRoom {
    pub needed: usize,
}

// The lines of all blocks of the bytes, up to the first refusal.
fn list_blocks(bytes: &[u8], text: &mut [u8]) -> usize
    ensures { (text.new, result) ≡ put (text.old, 0) (text_of (lines_from 0 (words_of_bytes bytes.now))) }
{
    let mut rest = bytes;
    let mut at: usize = 0;
    // No step of a `for`: each is as long as the block.
    while 4 <= rest.len() {
        let block = blocklines::list_block(rest, text, at);
        at = block.at;
        if !block.whole {
            return at;
        }
        rest = &rest[block.bytes..];
    }
    at
}

// The whole text of bytes, whose length may be wrong.
#[tactic(auto, unfolding(crate::specs::Listing::lines_unless))]
fn put_listing(wrong: bool, bytes: &[u8], text: &mut [u8]) -> usize
    ensures { (text.new, result) ≡ put (text.old, 0) (text_of (lines_unless wrong bytes.now)) }
{
    if wrong {
        return lines::put_refused(text, 0, Refusal::Bytes.number(), 0);
    }
    list_blocks(bytes, text)
}

// The text and its length where it fits; where it does not, the buffer stays as it was. Unless every text has room, it is
// counted first, on no page at all.
fn list_unless(wrong: bool, bytes: &[u8], text: &mut [u8]) -> Result<usize, NoRoom>
    ensures { LongSays (text_of (lines_unless wrong bytes.now)) text.old result text.new }
{
    if bytes.len() / 4 < (text.len() + 1) / WORD_MOST {
        return Ok(put_listing(wrong, bytes, text));
    }
    let needed = put_listing(wrong, bytes, &mut text[..0]);
    if text.len() < needed {
        return Err(NoRoom { needed });
    }
    Ok(put_listing(wrong, bytes, text))
}

// The text of an input of the lister.
#[tactic(auto, using(crate::specs::RoomLaws::all_counted, crate::specs::MostLaws::listing_le), unfolding(crate::specs::Listing::listing_of))]
pub fn list(bytes: &[u8], text: &mut [u8]) -> Result<usize, NoRoom>
    ensures { ListSays (listing_of bytes.now) text.old result text.new }
{
    list_unless(
        (bytes.len() % 4 != 0) | (LONGEST < bytes.len()),
        bytes,
        text,
    )
}

// The text of any number of bytes.
#[tactic(auto, unfolding(crate::specs::Listing::long_listing_of))]
pub fn list_long(bytes: &[u8], text: &mut [u8]) -> Result<usize, NoRoom>
    ensures { LongSays (long_listing_of bytes.now) text.old result text.new }
{
    list_unless(bytes.len() % 4 != 0, bytes, text)
}
