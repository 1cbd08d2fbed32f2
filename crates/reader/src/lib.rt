// The call `read`: a text of any bytes into rows, columns and a lent sheet of elevations. Questions 1, 2, 3, 4, 5, 6 and 8 are asked in
// that order, each with its place; "A no changes no result buffer". Once all are answered, the
// elevations are stored by `text_sheet`.
#![tactic(auto)]

ghost use Rattle.std.specs.Prelude.{◌≡◌, ◌≤◌};
ghost use Rattle.grid.specs.Promises.{ReadPromise};
ghost use Rattle.refusals.specs.Answers.{answer_of, dimensions_of};
ghost use Rattle.reader.specs.Parts.{text_check, size_check};

use grid::Grid;
use refusals::{Question, Refusal, Size};

// "1. Is the text at most 11,529 bytes?" "2. Is every byte a digit 0–9, A–F, a–f or a line feed?" "3. Is it a line of 4 digits for rows
// and 4 for columns, then exactly that many lines .. and nothing more?"
fn check_text(text: &[u8]) -> Result<(), Refusal<u32>>
    ensures { answer_of result ≡ text_check text.now }
{
    if 11529 < text.len() {
        return Err(Question::TextLength.into());
    }
    let place = text_checks::first_bad_byte(text);
    if place < text.len() {
        return Err(Question::TextBytes.at(place as u32));
    }
    if !text_checks::is_shaped(text) {
        return Err(Question::TextForm.into());
    }
    Ok(())
}

// "4. In a call with text: is rows × columns at most 2,304?" "5. Rows from 1 to 4,000?" "6. Columns from 1 to 4,000?" "8. Has each result
// sheet rows × columns elements (a sheet read from text: at least as many, places past them untouched)"
fn check_size(g: Grid, room: usize) -> Result<(), Refusal<u32>>
    requires { (g.rows ≤ 69904) × (g.cols ≤ 69904) }
    ensures { answer_of result ≡ size_check g room }
{
    let rows = g.rows;
    let cols = g.cols;
    let size = rows * cols;
    if 2304 < size {
        return Err(Question::TextCells.into());
    }
    if !checks::in_range(rows) {
        return Err(Question::Rows.into());
    }
    if !checks::in_range(cols) {
        return Err(Question::Cols.into());
    }
    if room < size {
        return Err(Question::Results.into());
    }
    Ok(())
}

pub fn read(text: &[u8], elevations: &mut [i16]) -> Result<Size, Refusal<u32>>
    ensures { ReadPromise text.now elevations.old elevations.new (dimensions_of result) }
{
    check_text(text)?;
    let g = text_checks::header(text);
    check_size(g, elevations.len())?;
    text_sheet::read_lines(g, text, elevations);
    Ok(Size {
        rows: g.rows as u32,
        cols: g.cols as u32,
    })
}
