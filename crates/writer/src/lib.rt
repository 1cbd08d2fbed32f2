// The call `write` (document 02, Wish 5): "a writer that gives the frames of an elevation sheet". Questions 4, 5, 6, 7 and 8 are asked in
// that order; "A no changes no result buffer". After a yes to all of them `frames` stores the
// text. The promise has it that what is stored reads back: the law about texts (`writing_laws`) asks for elevations of 16 bits, which the
// printing has seen each of them to be.
#![tactic(auto)]

ghost use Rattle.std.specs.Prelude.{◌≡◌, [], ◌∷◌, ◌≤◌, leb};
ghost use Rattle.grid.specs.Sheet.{size};
ghost use Rattle.grid.specs.Checks.{refusal, accepted, ask, ask_sheets};
ghost use Rattle.grid.specs.Frames.{text_length};
ghost use Rattle.grid.specs.Writing.{write_check};
ghost use Rattle.grid.specs.Promises.{WritePromise};
ghost use Rattle.refusals.specs.Answers.{answer_of, counted_of};

use grid::Grid;
use refusals::{Question, Refusal};

// "a sheet above 2,304 cells gets 4". It is asked before 5 and 6, so rows × columns may not fit a word: a quotient is compared instead.
fn few_cells(g: Grid) -> bool
    ensures { result ≡ leb (size g) 2304 }
{
    let rows = g.rows;
    let cols = g.cols;
    if rows == 0 {
        return true;
    }
    cols <= 2304 / rows
}

// The bytes of the header's line and of rows lines.
fn text_length(g: Grid) -> usize
    requires { (g.rows ≤ 4000) × (g.cols ≤ 4000) }
    ensures { result ≡ text_length g }
{
    let rows = g.rows;
    let cols = g.cols;
    9 + rows * (4 * cols + 1)
}

// 5 to 8. `inputs` asks 7 of two sheets: the one is named twice.
fn check_sizes(g: Grid, given: usize, room: usize) -> Result<(), Refusal<u32>>
    ensures { answer_of result ≡ ask_sheets g (given ∷ []) [] (ask (leb (text_length g) room) (refusal 8 0) accepted) }
{
    checks::inputs(g, given, given)?;
    if room < text_length(g) {
        return Err(Question::Results.into());
    }
    Ok(())
}

// 4 to 8
fn check(g: Grid, given: usize, room: usize) -> Result<(), Refusal<u32>>
    ensures { answer_of result ≡ write_check g given room }
{
    if !few_cells(g) {
        return Err(Question::TextCells.into());
    }
    check_sizes(g, given, room)
}

// Rows, columns and elevations to a text.
pub fn write(g: Grid, elevations: &[i16], text: &mut [u8]) -> Result<u32, Refusal<u32>>
    ensures { WritePromise g elevations.now text.old text.new (counted_of result) }
{
    check(g, elevations.len(), text.len())?;
    let length = frames::write_elevations(g, elevations, text);
    Ok(length as u32)
}
