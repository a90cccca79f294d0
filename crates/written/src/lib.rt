// Lines and cells written on a lent page where they have room, without a test at each byte.
#![tactic(auto)]

ghost use Rattle.std.specs.Prelude.{◌+◌, ◌*◌, ◌≤◌, ◌<◌, ◌≡◌, [], ◌∷◌, length};
ghost use Rattle.io.specs.Digits.{last_digits};
ghost use Rattle.written.specs.Page.{put};
ghost use Rattle.written.specs.Line.{decimal, cell_of, cell_text, cells_of, cells_text, line_of, line_text};
ghost use Rattle.written.specs.Room.{has_room, written_of, aside_page};

const TAB: u8 = 9;

const LINE_FEED: u8 = 10;

const DASH: u8 = 45;

const ZERO: u8 = 48;

// A cell behind its tab, on a page of its own, and its length. It stays an array and a count: text of the library would be
// looked through as UTF-8 at each cell, and a `Vec` wants a heap.
#[derive(Clone, Copy)]
pub struct Aside {
    pub bytes: [u8; 21],
    pub count: usize,
}

// Every writer has this contract: the page before, the bytes put, the page after. One that is named write_ asks for room, and
// tells how far it came; it tests nothing.
fn write_byte(text: &mut [u8], at: usize, b: u8) -> usize
    requires { at < length text.old }
    ensures { ((text.new, result) ≡ put (text.old, at) (b ∷ [])) × (result ≡ at + 1) }
{
    text[at] = b;
    at + 1
}

fn write_bytes(text: &mut [u8], at: usize, s: &[u8]) -> usize
    requires { at + length s.now ≤ length text.old }
    ensures { ((text.new, result) ≡ put (text.old, at) s.now) × (result ≡ at + length s.now) }
{
    let mut end = at;
    // Byte by byte: the library's copy is C's `memmove`, which no archive for C may need.
    for b in s {
        end = write_byte(text, end, *b);
    }
    end
}

// The last digit of n, the last two, the last three.
fn write_digit(text: &mut [u8], at: usize, n: u64) -> usize
    requires { at < length text.old }
    ensures { ((text.new, result) ≡ put (text.old, at) (last_digits 10 1 n)) × (result ≡ at + 1) }
{
    write_byte(text, at, ZERO + (n % 10) as u8)
}

fn write_two(text: &mut [u8], at: usize, n: u64) -> usize
    requires { at + 2 ≤ length text.old }
    ensures { ((text.new, result) ≡ put (text.old, at) (last_digits 10 2 n)) × (result ≡ at + 2) }
{
    let k = write_digit(text, at, n / 10);
    write_digit(text, k, n)
}

fn write_three(text: &mut [u8], at: usize, n: u64) -> usize
    requires { at + 3 ≤ length text.old }
    ensures { ((text.new, result) ≡ put (text.old, at) (last_digits 10 3 n)) × (result ≡ at + 3) }
{
    let k = write_two(text, at, n / 10);
    write_digit(text, k, n)
}

// Most numbers are short, and need no loop.
fn write_number(text: &mut [u8], at: usize, n: u64) -> usize
    requires { at + 20 ≤ length text.old }
    ensures { ((text.new, result) ≡ put (text.old, at) (decimal n)) × (result ≤ at + 20) }
{
    if n < 10 {
        return write_digit(text, at, n);
    }
    if n < 100 {
        return write_two(text, at, n);
    }
    if n < 1000 {
        return write_three(text, at, n);
    }
    let mut digits = [0u8; 20];
    let count = io::decimal(n, &mut digits);
    write_bytes(text, at, &digits[..count])
}

// A tab, then the number or a dash.
fn write_cell(text: &mut [u8], at: usize, dash: bool, n: u64) -> usize
    requires { at + 21 ≤ length text.old }
    ensures { ((text.new, result) ≡ put (text.old, at) (9 ∷ cell_text (cell_of dash n))) × (result ≤ at + 21) }
{
    let k = write_byte(text, at, TAB);
    if dash {
        return write_byte(text, k, DASH);
    }
    write_number(text, k, n)
}

fn write_cells(text: &mut [u8], at: usize, cells: &[u64], dashes: u32) -> usize
    requires { at + 21 * length cells.now ≤ length text.old }
    ensures { ((text.new, result) ≡ put (text.old, at) (cells_text (cells_of dashes cells.now))) × (result ≤ at + 21 * length cells.now) }
{
    let mut end = at;
    let mut marks = dashes;
    for n in cells {
        end = write_cell(text, end, marks % 2 == 1, *n);
        marks /= 2;
    }
    end
}

fn write_line(text: &mut [u8], at: usize, name: &[u8], cells: &[u64], dashes: u32) -> usize
    requires { at + length name.now + 21 * length cells.now < length text.old }
    ensures { (text.new, result) ≡ put (text.old, at) (line_text (line_of name.now (cells_of dashes cells.now))) }
{
    let k = write_bytes(text, at, name);
    let m = write_cells(text, k, cells, dashes);
    write_byte(text, m, LINE_FEED)
}

// Whether a line of a name of 8 bytes and five cells has room, and this one is no longer.
fn has_room(room: usize, at: usize, name: usize, cells: usize) -> bool
    ensures { result ≡ has_room room at name cells }
{
    (name <= 8) & (cells <= 5) & (114 <= room.saturating_sub(at))
}

// A name, its cells, a line feed: the next place, or nothing is written where the longest line has no room. Bit i of
// `dashes` is set where cell i is a dash.
pub fn line(text: &mut [u8], at: usize, name: &[u8], cells: &[u64], dashes: u32) -> Option<usize>
    ensures { (text.new, result) ≡ written_of (text.old, at) name.now cells.now dashes }
{
    if has_room(text.len(), at, name.len(), cells.len()) {
        Some(write_line(text, at, name, cells, dashes))
    } else {
        None
    }
}

pub fn cell(dash: bool, n: u64) -> Aside
    ensures { ((result.bytes, result.count) ≡ put aside_page (9 ∷ cell_text (cell_of dash n))) × (result.count ≤ 21) }
{
    let mut bytes = [0u8; 21];
    let count = write_cell(&mut bytes, 0, dash, n);
    Aside { bytes, count }
}
