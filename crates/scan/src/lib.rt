// Where the reading of a block stands, and where it stands behind a word.
#![tactic(auto)]

ghost use Rattle.std.specs.Prelude.{◌≡◌};
ghost use Rattle.scan.specs.After.{start_of};

pub mod after;

// Where in a block the next word stands.
#[derive(Clone, Copy)]
pub enum Stage {
    // Before the block's first word.
    Start,
    // Behind the block header, and behind the parameters.
    Head,
    Front,
    // Behind an event header, and behind its first time word with time bits 26-24.
    Opened,
    Timed(u32),
    // Behind an item of an event.
    Items,
    // In a type 4: pairs to come, and whether the last holds one sample.
    Window(u32, bool),
    // In a type 6: pairs that may still come, and whether one was read.
    Raw(u32, bool),
    // Behind the trailer, or a module empty: fillers that may come.
    Tail(u32),
    // In an event's scalers: words to come.
    Scalers(u32),
}

// The place of the next word, from 0 at the block's first; the block's slot; the event headers to come; the stage.
#[derive(Clone, Copy)]
pub struct Scan {
    pub place: u32,
    pub slot: u32,
    pub left: u32,
    pub stage: Stage,
}

impl Scan {
    // Before a block's first word.
    pub fn start() -> Scan
        ensures { result ≡ start_of }
    {
        Scan {
            place: 0,
            slot: 0,
            left: 0,
            stage: Stage::Start,
        }
    }
}
