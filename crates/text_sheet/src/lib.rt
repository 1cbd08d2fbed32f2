// The elevations of a text that has passed question 3, stored at the front of a lent sheet: "a sheet read from text: at least as many,
// places past them untouched". The cursor goes from number to number and from line to line; a line stores a run of elevations, and the
// runs of the lines are the definition's sheet.
#![tactic(auto)]

ghost use Rattle.std.specs.Prelude.{◌≡◌, ◌++◌, ◌+◌, ◌*◌, ◌≤◌, length, drop};
ghost use Rattle.grid.specs.Sheet.{size};
ghost use Rattle.grid.specs.Frames.{text_grid, text_length, text_sheet};
ghost use Rattle.text_sheet.specs.Rows.{elevations_from};

use cursor::Cursor;
use grid::Grid;

fn read_line(start: Cursor, text: &[u8], line: &mut [i16]) -> Cursor
    requires { start.at + (4 * length line.old + 1) ≤ length text.now }
    ensures place { result.at ≡ start.at + (4 * length line.old + 1) }
    ensures stored { line.new ≡ elevations_from text.now start.at (length line.old) }
{
    let mut next = start;
    for elevation in line.iter_mut() {
        let (number, past) = next.number(text);
        *elevation = cursor::elevation_of(number);
        next = past;
    }
    next.past_line_feed(text)
}

pub fn read_lines(g: Grid, text: &[u8], elevations: &mut [i16])
    requires { (g ≡ text_grid text.now) × (length text.now ≡ text_length g) × (size g ≤ length elevations.old) }
    ensures { elevations.new ≡ text_sheet text.now ++ drop (size g) elevations.old }
{
    let mut next = Cursor { at: 9 };
    for r in 0..g.rows {
        next = read_line(next, text, &mut elevations[r * g.cols..(r + 1) * g.cols]);
    }
}
