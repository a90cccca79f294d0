// Lines of text put on a lent page. What has no room is counted and not written.
#![tactic(auto)]

ghost use Rattle.std.specs.Prelude.{◌≡◌, [], ◌∷◌};
ghost use Rattle.written.specs.Page.{put};
ghost use Rattle.written.specs.Line.{cell_of, cell_text, cells_of, cells_text, line_of, line_text};

const LINE_FEED: u8 = 10;

// Past the page's end the place grows up to this number and stays; no page is so long.
pub const FARTHEST: usize = 9223372036854775808;

// Every writer has this contract: the page before, the bytes put, the page after.
fn put_byte(text: &mut [u8], at: usize, b: u8) -> usize
    ensures { (text.new, result) ≡ put (text.old, at) (b ∷ []) }
{
    if at < text.len() {
        text[at] = b;
        return at + 1;
    }
    if at < FARTHEST { at + 1 } else { at }
}

// Bytes as they are: a line's name, or its end.
pub fn put_bytes(text: &mut [u8], at: usize, s: &[u8]) -> usize
    ensures { (text.new, result) ≡ put (text.old, at) s.now }
{
    let mut end = at;
    for b in s {
        end = put_byte(text, end, *b);
    }
    end
}

// A cell behind its tab, written aside, where it has room.
pub fn put_cell(text: &mut [u8], at: usize, dash: bool, n: u64) -> usize
    ensures { (text.new, result) ≡ put (text.old, at) (9 ∷ cell_text (cell_of dash n)) }
{
    let cell = written::cell(dash, n);
    put_bytes(text, at, &cell.bytes[..cell.count])
}

fn put_cells(text: &mut [u8], at: usize, cells: &[u64], dashes: u32) -> usize
    ensures { (text.new, result) ≡ put (text.old, at) (cells_text (cells_of dashes cells.now)) }
{
    let mut end = at;
    let mut marks = dashes;
    for n in cells {
        end = put_cell(text, end, marks % 2 == 1, *n);
        marks /= 2;
    }
    end
}

// A line that may have no room.
fn put_parts(text: &mut [u8], at: usize, name: &[u8], cells: &[u64], dashes: u32) -> usize
    ensures { (text.new, result) ≡ put (text.old, at) (line_text (line_of name.now (cells_of dashes cells.now))) }
{
    let k = put_bytes(text, at, name);
    let m = put_cells(text, k, cells, dashes);
    put_byte(text, m, LINE_FEED)
}

// A name, its cells, a line feed. Bit i of `dashes` is set where cell i is a dash.
pub fn put_line(text: &mut [u8], at: usize, name: &[u8], cells: &[u64], dashes: u32) -> usize
    ensures { (text.new, result) ≡ put (text.old, at) (line_text (line_of name.now (cells_of dashes cells.now))) }
{
    match written::line(text, at, name, cells, dashes) {
        Some(end) => end,
        None => put_parts(text, at, name, cells, dashes),
    }
}
