// Where the reading of a block stands, as numbers that C lends: asked for, loaded, stored.
#![tactic(auto)]

ghost use Rattle.std.specs.Prelude.{◌≡◌, get_or, [], ◌∷◌};
ghost use Rattle.cursors.specs.Cursors.{stage_number, stage_first, stage_second, cursor_of, is_scan, stage_from, scan_from, scan_stored};

use scan::{Scan, Stage};

// Where the numbers of a scan stand: the last three are the stage's.
const PLACE: usize = 0;

const SLOT: usize = 1;

const LEFT: usize = 2;

const STAGE: usize = 3;

const FIRST: usize = 4;

const SECOND: usize = 5;

pub const SCAN: usize = SECOND + 1;

// The greatest number of a stage.
const LAST_STAGE: u32 = 9;

// The number at a place, 0 past the end.
fn at(numbers: &[u32], place: usize) -> u32
    ensures { result ≡ get_or numbers.now place 0 }
{
    numbers.get(place).copied().unwrap_or(0)
}

// As many numbers as a scan has, a stage, and a second number of 0 or 1.
#[tactic(auto, unfolding(crate::specs::Cursors::is_scan))]
pub fn is_scan(numbers: &[u32]) -> bool
    ensures { result ≡ is_scan numbers.now }
{
    let all = numbers.len() == SCAN;
    let stage = at(numbers, STAGE) <= LAST_STAGE;
    let second = at(numbers, SECOND) <= 1;
    all & stage & second
}

// A stage of its number; it takes of the other two what it has.
fn stage_from(number: u32, first: u32, second: bool) -> Stage
    ensures { result ≡ stage_from number first second }
{
    match number {
        0 => Stage::Start,
        1 => Stage::Head,
        2 => Stage::Front,
        3 => Stage::Opened,
        4 => Stage::Timed(first),
        5 => Stage::Items,
        6 => Stage::Window(first, second),
        7 => Stage::Raw(first, second),
        8 => Stage::Tail(first),
        _ => Stage::Scalers(first),
    }
}

#[tactic(auto, unfolding(crate::specs::Cursors::scan_from))]
pub fn scan_from(numbers: &[u32]) -> Scan
    ensures { result ≡ scan_from numbers.now }
{
    let second = at(numbers, SECOND) == 1;
    let stage = stage_from(at(numbers, STAGE), at(numbers, FIRST), second);
    Scan {
        place: at(numbers, PLACE),
        slot: at(numbers, SLOT),
        left: at(numbers, LEFT),
        stage,
    }
}

// A stage's number, and the two that go with it: 0 where none does.
fn stage_numbers(stage: Stage) -> [u32; 3]
    ensures { result ≡ stage_number stage ∷ stage_first stage ∷ stage_second stage ∷ [] }
{
    match stage {
        Stage::Start => [0, 0, 0],
        Stage::Head => [1, 0, 0],
        Stage::Front => [2, 0, 0],
        Stage::Opened => [3, 0, 0],
        Stage::Timed(bits) => [4, bits, 0],
        Stage::Items => [5, 0, 0],
        Stage::Window(pairs, odd) => [6, pairs, u32::from(odd)],
        Stage::Raw(pairs, some) => [7, pairs, u32::from(some)],
        Stage::Tail(fillers) => [8, fillers, 0],
        Stage::Scalers(words) => [9, words, 0],
    }
}

#[tactic(auto, unfolding(crate::specs::Cursors::cursor_of))]
fn cursor_of(scan: Scan) -> [u32; SCAN]
    ensures { result ≡ cursor_of scan }
{
    let [number, first, second] = stage_numbers(scan.stage);
    [scan.place, scan.slot, scan.left, number, first, second]
}

// Stores a scan; fewer numbers than it has stay, and so do those past them.
pub fn put_scan(numbers: &mut [u32], scan: Scan)
    ensures { numbers.new ≡ scan_stored numbers.old scan }
{
    let cursor = cursor_of(scan);
    copies::put(numbers, 0, &cursor);
}
