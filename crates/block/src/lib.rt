// The words around a block's events: its header and any parameters word before them, the trailer and the fillers behind.
#![tactic(auto)]

ghost use Rattle.std.specs.Prelude.{◌≡◌, true, ◌+◌, ◌-◌, ◌≤◌, ◌<◌, ◌^◌, ltb, length, replicate};
ghost use Rattle.ground.specs.Splice.{Written, WrittenIf};
ghost use Rattle.settings.specs.Ranges.{settings_ok};
ghost use Rattle.items.specs.Items.{words_of};
ghost use Rattle.items.specs.declared.Item.TheVariants as I;
ghost use Rattle.block.specs.Block.{block_items, fillers_to, end_items};

use framing::block_header::BlockHeader;
use framing::filler::Filler;
use framing::parameters::Parameters;
use framing::trailer::BlockTrailer;
use items::Item;
use items::put::{put_if, put_item, room_short};
use settings::Settings;
use state::ranges::head_words;

fn put_head(words: &mut [u32], at: usize, settings: Settings, number: u32, events: u32) -> usize
    requires { (settings_ok settings ≡ true) × (at + length (block_items settings number events) ≤ length words.old) }
    ensures { Written words.old at (words_of (block_items settings number events)) result words.new }
{
    let header = BlockHeader {
        slot: settings.slot,
        number,
        events,
    };
    let next = put_item(words, at, Item::Block(header));
    let parameters = Parameters {
        pl: settings.pl,
        nsb: settings.nsb as u32,
        nsa: settings.nsa as u32,
    };
    put_if(
        words,
        next,
        settings.parameters,
        Item::Parameters(parameters),
    )
}

// A block's header and any parameters word, all or none.
pub fn put_block(
    words: &mut [u32],
    at: usize,
    settings: Settings,
    number: u32,
    events: u32,
) -> usize
    ensures { WrittenIf (settings_ok settings) words.old at (words_of (block_items settings number events)) result words.new }
{
    if !settings::in_range(settings) {
        return at;
    }
    if room_short(words.len(), at, head_words(settings.parameters)) {
        return at;
    }
    put_head(words, at, settings, number, events)
}

// The fewest words that bring `count` of them to a multiple; nothing is brought to a multiple of 0.
fn fillers_to(multiple: u32, count: usize) -> usize
    ensures { result ≡ fillers_to multiple count }
{
    let m = multiple as usize;
    if m == 0 {
        return 0;
    }
    (m - count % m) % m
}

// Fewer words are left than the trailer and the fillers take. Behind a place in the buffer no sum can wrap.
pub fn end_short(room: usize, at: usize, settings: Settings) -> bool
    ensures { result ≡ ltb room (at + length (end_items settings at)) }
{
    if room <= at {
        return true;
    }
    let fillers = fillers_to(settings.multiple, at + 1);
    room_short(room, at, 1 + fillers)
}

fn put_fillers(words: &mut [u32], at: usize, slot: u32, count: usize) -> usize
    requires { at + count ≤ length words.old }
    ensures { Written words.old at (words_of (replicate count (I.Filler (record { slot = slot })))) result words.new }
{
    let end = at + count;
    let filler = Item::Filler(Filler { slot });
    words[at..end].fill(filler.build());
    end
}

fn put_last(words: &mut [u32], at: usize, settings: Settings) -> usize
    requires { (at + 1 < 2 ^ 32) × (at + length (end_items settings at) ≤ length words.old) }
    ensures { Written words.old at (words_of (end_items settings at)) result words.new }
{
    let trailer = BlockTrailer {
        slot: settings.slot,
        words: (at + 1) as u32,
    };
    let next = put_item(words, at, Item::Trailer(trailer));
    let fillers = fillers_to(settings.multiple, next);
    put_fillers(words, next, settings.slot, fillers)
}

// The trailer, with the words from header to trailer, and the fillers, all or none; none where a trailer cannot count so many.
pub fn put_end(words: &mut [u32], at: usize, settings: Settings) -> usize
    ensures { WrittenIf (ltb at (2 ^ 22 - 1)) words.old at (words_of (end_items settings at)) result words.new }
{
    if BlockTrailer::WORDS_MAX as usize <= at {
        return at;
    }
    if end_short(words.len(), at, settings) {
        return at;
    }
    put_last(words, at, settings)
}
