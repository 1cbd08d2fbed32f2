// Questions 2 and 3 about a text: "Is every byte a digit 0–9, A–F, a–f or a line feed?", with the place of the first that isn't, and "Is
// it a line of 4 digits for rows and 4 for columns, then exactly that many lines of 4 digits for each column, each line ended by one line
// feed, and nothing more?". Each is one loop of the cursor over the bytes, with a test of each.
#![tactic(auto)]

ghost use Rattle.std.specs.Prelude.{◌≡◌, ◌≤◌, length};
ghost use Rattle.grid.specs.Frames.{is_text_byte, first_bad_byte, ends_line, is_shaped};
ghost use Rattle.text_checks.specs.Shape.{feeds_end_lines, HeaderRead};

use cursor::Cursor;
use grid::Grid;

// "a digit 0–9, A–F, a–f or a line feed"
#[tactic(auto, unfolding(grid::specs::Frames::is_text_byte))]
fn is_text_byte(b: u8) -> bool
    ensures { result ≡ is_text_byte b }
{
    cursor::hex_value(b).is_some() || b == b'\n'
}

// "Place: the first that isn't, from 0"; the length where there is none, as in the definition
pub fn first_bad_byte(text: &[u8]) -> usize
    ensures { (result ≡ first_bad_byte text.now) × (result ≤ length text.now) }
{
    let mut next = Cursor { at: 0 };
    for at in 0..text.len() {
        let (byte, past) = next.byte(text);
        if !is_text_byte(byte) {
            return at;
        }
        next = past;
    }
    text.len()
}

// "a line of 4 digits for rows and 4 for columns"
pub fn header(text: &[u8]) -> Grid
    requires { 8 ≤ length text.now }
    ensures { HeaderRead text.now result }
{
    let (rows, next) = Cursor { at: 0 }.number(text);
    let (cols, _) = next.number(text);
    Grid {
        rows: rows as usize,
        cols: cols as usize,
        sides: 0,
        width: 1,
        height: 1,
    }
}

// a line feed is due at place i
#[tactic(auto, unfolding(grid::specs::Frames::ends_line))]
fn ends_line(cols: usize, i: usize) -> bool
    requires { cols ≤ 69904 }
    ensures { result ≡ ends_line cols i }
{
    i == 8 || 9 <= i && (i - 9) % (4 * cols + 1) == 4 * cols
}

fn feeds_end_lines(text: &[u8], cols: usize) -> bool
    requires { cols ≤ 69904 }
    ensures { result ≡ feeds_end_lines text.now cols }
{
    let mut here = Cursor { at: 0 };
    for at in 0..text.len() {
        let (byte, next) = here.byte(text);
        if (byte == b'\n') != ends_line(cols, at) {
            return false;
        }
        here = next;
    }
    true
}

pub fn is_shaped(text: &[u8]) -> bool
    ensures { result ≡ is_shaped text.now }
{
    if text.len() < 9 {
        return false;
    }
    let g = header(text);
    text.len() == 9 + g.rows * (4 * g.cols + 1) && feeds_end_lines(text, g.cols)
}
