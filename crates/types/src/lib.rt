// The published list of types in one table, a row a type: what the word check asks of a type by its number alone.
// What is no row's:
// - where in a block an allowed type may stand (`meaning`);
// - that a first word, type 0 or 14, states the slot, which is then compared with nothing (`questions`);
// - limits, which are no zero bits: module and events of type 0 (`BlockHeader`), the width of type 4 (`WindowRaw`);
// - continuation words, which have no type: `fixed` of `Parameters`, `TriggerTimeHigh` and `SamplePair` has their zero bits, and a
//   word of the scalers has none.
#![tactic(auto)]

ghost use Rattle.std.specs.Prelude.{◌≡◌, not, ◌&&◌, eqb};
ghost use Rattle.fields.specs.Word.{read};
ghost use Rattle.types.specs.Types.{is_allowed, has_slot, zeros_clear, RowSays};

// Whether a word of the type may stand in a block, whether its bits 26-22 are a slot, and which bits must be zero.
#[derive(Clone, Copy)]
struct Row(bool, bool, u32);

const TYPES: [Row; 16] = [
    Row(true, true, 0x00000000), // "0 block header: 26-22 slot, 21-18 module 1, 17-8 block number, 7-0 events 1-255"
    Row(true, true, 0x00000000), // "1 trailer: 26-22 slot, 21-0 words from header to trailer, both counted"
    Row(true, true, 0x00000000), // "2 event header: 26-22 slot, 21-0 event number"
    Row(true, false, 0x00000000), // "3 trigger time: 26-24 time bits 26-24, 23-0 time bits 23-0"
    Row(true, false, 0x007ff000), // "4 window: 26-23 channel, 22-12 zero, 11-0 width 1-500"
    Row(false, false, 0x00000000), // 5 is not allowed
    Row(true, false, 0x001ffc00), // "6 pulse raw: 26-23 channel, 22-21 pulse, 20-10 zero, 9-0 TC"
    Row(true, false, 0x00000000), // "7 integral: 26-23 channel, 22-21 pulse, 20-19 quality, 18-0"
    Row(true, false, 0x00078000), // "8 time: 26-23, 22-21, 20-19 quality, 18-15 zero, 14-6 coarse, 5-0 fine"
    Row(false, false, 0x00000000), // 9 is not allowed
    Row(true, false, 0x00000000), // "10 pedestal: 26-23, 22-21, 20-12 VMIN, 11-0 VPEAK"
    Row(false, false, 0x00000000), // 11 is not allowed
    Row(true, false, 0x07ffffc0), // scalers, "type 12 (bits 26-6 zero, 5-0 = 18)"; in a block that is read, 0 to 63
    Row(false, false, 0x00000000), // 13 is not allowed
    Row(true, true, 0x00000000), // "14 module empty: 26-22 slot, rest undefined, written 0"
    Row(true, true, 0x00000000), // "15 filler: 26-22 slot, rest undefined, written 0"
];

// The row of that type; a number over 15 is no type, and not allowed. The rows are read at written numbers, where the compiler knows
// what stands there: at any other it would build the whole table anew at each read.
fn row_of(tag: u32) -> Row
    ensures { RowSays tag result }
{
    let rows = TYPES;
    match tag {
        0 => rows[0],
        1 => rows[1],
        2 => rows[2],
        3 => rows[3],
        4 => rows[4],
        5 => rows[5],
        6 => rows[6],
        7 => rows[7],
        8 => rows[8],
        9 => rows[9],
        10 => rows[10],
        11 => rows[11],
        12 => rows[12],
        13 => rows[13],
        14 => rows[14],
        15 => rows[15],
        _ => Row(false, false, 0),
    }
}

// Whether the list has the type.
pub fn is_allowed(tag: u32) -> bool
    ensures { result ≡ is_allowed tag }
{
    let row = row_of(tag);
    row.0
}

// Whether a word of that type has a slot, and it is another one.
pub fn slot_differs(tag: u32, word: u32, slot: u32) -> bool
    ensures { result ≡ (has_slot tag && not (eqb (read 26 22 word) slot)) }
{
    let row = row_of(tag);
    row.1 & (fields::take(word, 22, 5) != slot)
}

// Whether the bits that must be zero in a word of that type are zero.
pub fn zeros_clear(tag: u32, word: u32) -> bool
    ensures { result ≡ zeros_clear tag word }
{
    let row = row_of(tag);
    word & row.2 == 0
}
