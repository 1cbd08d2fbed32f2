// "The frames", printing, part by part: a number in digits, a line of cells, a sheet of lines, each stored in a lent buffer from a place
// on, with the next place handed on. The contract of each says which run of bytes is stored (`Put`), so a line is the join of its cells
// and a sheet the join of its lines, as in the definition of the text. What a cell is printed as, and in how many digits, its kind says.
#![tactic(auto)]

ghost use Rattle.std.specs.Prelude.{◌≡◌, [], ◌∷◌, ◌++◌, ℕ, ◌+◌, ◌*◌, ◌<◌, ◌≤◌, length, get_or, EachIndex};
ghost use Rattle.grid.specs.Sheet.{size, void, IsElevation};
ghost use Rattle.grid.specs.Frames.{line_feed, upper_digit, to_twos, hex_text, sheet_text};
ghost use Rattle.text_laws.proofs.Digits.{cells_text};
ghost use Rattle.text_lines.specs.Put.{Put};

use grid::Grid;

// an upper-case digit
#[tactic(auto, unfolding(grid::specs::Frames::upper_digit))]
fn upper_digit(v: u32) -> u8
    requires { v < 16 }
    ensures { result ≡ upper_digit v }
{
    if v < 10 {
        return (48 + v) as u8;
    }
    (55 + v) as u8
}

// v in k digits, the last one first
pub fn put_hex(out: &mut [u8], from: usize, k: usize, v: u32) -> usize
    requires { from + k ≤ length out.old }
    ensures { Put (hex_text k v) k from out.old out.new result }
{
    let mut rest = v;
    for left in (0..k).rev() {
        out[from + left] = upper_digit(rest % 16);
        rest /= 16;
    }
    from + k
}

// What stands in a cell of a sheet: an elevation, a code, a count or a label.
pub trait Cell: Copy {
    ghost DIGITS: { ℕ };

    // the number that it is printed as
    ghost number: { Self → ℕ };

    // what lies off the sheet reads as
    ghost off: { Self };

    // what is known of a cell that was read
    ghost Known: { Self → Type 0 };

    const DIGITS: usize;

    fn number(self) -> u32
        ensures value { result ≡ number self }
        ensures known { Known self };
}

// "elevations as two's complement"
impl Cell for i16 {
    ghost DIGITS = { 4 };

    ghost number = { to_twos };

    ghost off = { void };

    ghost Known = { IsElevation };

    const DIGITS: usize = 4;

    fn number(self) -> u32 {
        u32::from(self.cast_unsigned())
    }
}

impl Cell for u8 {
    ghost DIGITS = { 2 };

    ghost number = { λ code. code };

    ghost off = { 0 };

    ghost Known = { λ _. Unit {0} };

    const DIGITS: usize = 2;

    fn number(self) -> u32 {
        u32::from(self)
    }
}

impl Cell for u32 {
    ghost DIGITS = { 8 };

    ghost number = { λ n. n };

    ghost off = { 0 };

    ghost Known = { λ _. Unit {0} };

    const DIGITS: usize = 8;

    fn number(self) -> u32 {
        self
    }
}

fn line<T: Cell>(row: &[T], out: &mut [u8], from: usize) -> usize
    requires { from + (length row.now * T.DIGITS + 1) ≤ length out.old }
    ensures put { Put (cells_text T.DIGITS (λ i. T.number (get_or row.now i T.off)) (length row.now) ++ line_feed ∷ [])
        (length row.now * T.DIGITS + 1) from out.old out.new result }
    ensures known { EachIndex row.now (λ i. T.Known (get_or row.now i T.off)) }
{
    let mut next = from;
    for cell in row {
        next = put_hex(out, next, T::DIGITS, cell.number());
    }
    out[next] = b'\n';
    next + 1
}

pub fn sheet<T: Cell>(g: Grid, cells: &[T], out: &mut [u8], from: usize) -> usize
    requires { (length cells.now ≡ size g) × (from + g.rows * (g.cols * T.DIGITS + 1) ≤ length out.old) }
    ensures put { Put (sheet_text g T.DIGITS (λ c. T.number (get_or cells.now c T.off)))
        (g.rows * (g.cols * T.DIGITS + 1)) from out.old out.new result }
    ensures known { EachIndex cells.now (λ c. T.Known (get_or cells.now c T.off)) }
{
    let mut next = from;
    for r in 0..g.rows {
        next = line(&cells[r * g.cols..(r + 1) * g.cols], out, next);
    }
    next
}
