// The questions that every call with sheets asks first, 5 to 9 of "Questions at the gate", answered on the lengths of its lists by a few
// functions, each one question longer than the one before; and the same with 17 after 6, for calls that work out outlets, and with 17 and
// 20, for calls that work out codes, 5, 6, 17 and 20 alone too. A no is an error, which `?` hands on (crate `refusals`).
// `proofs/Gate.antt` carries an answer to each call's own definition in `grid`: what is asked after it, and what a yes says.
#![tactic(auto)]

ghost use Rattle.std.specs.Prelude.{◌≡◌, ◌&&◌, [], ◌∷◌, ◌*◌, ◌<◌, ◌^◌, leb};
ghost use Rattle.grid.specs.Sheet.{size};
ghost use Rattle.grid.specs.Checks.{accepted, in_range, in_shape, all_have, ask_size, ask_sides, ask_sheets, ask_outlets, ask_description};
ghost use Rattle.grid.specs.Checks.{ask_flow, ask_work};
ghost use Rattle.refusals.specs.Answers.{answer_of};

use grid::Grid;
use refusals::{Question, Refusal};

// "from 1 to 4,000", in questions 5 and 6, which the reader asks too.
pub fn in_range(k: usize) -> bool
    ensures { result ≡ in_range k }
{
    1 <= k && k <= 4000
}

// "each from 1 to 1,000", in question 20.
fn in_shape(k: usize) -> bool
    ensures { result ≡ in_shape k }
{
    1 <= k && k <= 1000
}

// Whether the cells have a width and a height in range.
fn is_shaped(g: Grid) -> bool
    ensures { result ≡ (in_shape g.width && in_shape g.height) }
{
    in_shape(g.width) && in_shape(g.height)
}

// Whether both have `n` elements.
pub fn both_have(n: usize, a: usize, b: usize) -> bool
    ensures { result ≡ all_have n (a ∷ b ∷ []) }
{
    a == n && b == n
}

// Whether all four have `n` elements.
fn all_have(n: usize, a: usize, b: usize, c: usize, d: usize) -> bool
    ensures { result ≡ all_have n (a ∷ b ∷ c ∷ d ∷ []) }
{
    both_have(n, a, b) && both_have(n, c, d)
}

// "at least 4 × rows × columns", in question 9.
pub fn has_room(g: Grid, work: usize) -> bool
    requires { size g < 2 ^ 24 }
    ensures { result ≡ leb (4 * size g) work }
{
    4 * (g.rows * g.cols) <= work
}

// 5 and 6, which the call about lists asks alone.
pub fn rows_and_cols(g: Grid) -> Result<(), Refusal<u32>>
    ensures { answer_of result ≡ ask_size g accepted }
{
    if !in_range(g.rows) {
        return Err(Question::Rows.into());
    }
    if !in_range(g.cols) {
        return Err(Question::Cols.into());
    }
    Ok(())
}

// 5 to 7, for two input sheets. A call with one names it again.
pub fn inputs(g: Grid, first: usize, second: usize) -> Result<(), Refusal<u32>>
    ensures { answer_of result ≡ ask_sheets g (first ∷ second ∷ []) [] accepted }
{
    rows_and_cols(g)?;
    if !both_have(g.rows * g.cols, first, second) {
        return Err(Question::Inputs.into());
    }
    Ok(())
}

// 5 to 8, for two input sheets and four result sheets. A call with fewer names one of them again.
pub fn sheets(
    g: Grid,
    first: usize,
    second: usize,
    a: usize,
    b: usize,
    c: usize,
    d: usize,
) -> Result<(), Refusal<u32>>
    ensures { answer_of result ≡ ask_sheets g (first ∷ second ∷ []) (a ∷ b ∷ c ∷ d ∷ []) accepted }
{
    inputs(g, first, second)?;
    if !all_have(g.rows * g.cols, a, b, c, d) {
        return Err(Question::Results.into());
    }
    Ok(())
}

// 5 to 9: the same, and a work buffer.
pub fn check(
    g: Grid,
    first: usize,
    second: usize,
    a: usize,
    b: usize,
    c: usize,
    d: usize,
    work: usize,
) -> Result<(), Refusal<u32>>
    ensures { answer_of result ≡ ask_sheets g (first ∷ second ∷ []) (a ∷ b ∷ c ∷ d ∷ []) (ask_work g work accepted) }
{
    sheets(g, first, second, a, b, c, d)?;
    if !has_room(g, work) {
        return Err(Question::WorkBuffer.into());
    }
    Ok(())
}

// 5, 6 and 17, of calls that work out outlets.
fn rows_cols_and_sides(g: Grid) -> Result<(), Refusal<u32>>
    ensures { answer_of result ≡ ask_size g (ask_sides g accepted) }
{
    rows_and_cols(g)?;
    if g.sides > 15 {
        return Err(Question::Sides.into());
    }
    Ok(())
}

// 5, 6, 17, 7 and 8, for elevations and four result sheets, of calls that work out outlets. A call with fewer names one of them again.
// `sheets` asks 5 and 6 once more, and gets a yes.
pub fn outlets(
    g: Grid,
    given: usize,
    a: usize,
    b: usize,
    c: usize,
    d: usize,
) -> Result<(), Refusal<u32>>
    ensures { answer_of result ≡ ask_outlets g (given ∷ []) (a ∷ b ∷ c ∷ d ∷ []) accepted }
{
    rows_cols_and_sides(g)?;
    sheets(g, given, given, a, b, c, d)
}

// The same, and 9.
pub fn check_outlets(
    g: Grid,
    given: usize,
    a: usize,
    b: usize,
    c: usize,
    d: usize,
    work: usize,
) -> Result<(), Refusal<u32>>
    ensures { answer_of result ≡ ask_outlets g (given ∷ []) (a ∷ b ∷ c ∷ d ∷ []) (ask_work g work accepted) }
{
    outlets(g, given, a, b, c, d)?;
    if !has_room(g, work) {
        return Err(Question::WorkBuffer.into());
    }
    Ok(())
}

// 5, 6, 17 and 20, of calls that work out codes.
pub fn description(g: Grid) -> Result<(), Refusal<u32>>
    ensures { answer_of result ≡ ask_description g accepted }
{
    rows_cols_and_sides(g)?;
    if !is_shaped(g) {
        return Err(Question::CellShape.into());
    }
    Ok(())
}

// The same and 7 to 9. `check` asks 5 and 6 once more, and gets a yes.
pub fn check_flow(
    g: Grid,
    given: usize,
    a: usize,
    b: usize,
    c: usize,
    d: usize,
    work: usize,
) -> Result<(), Refusal<u32>>
    ensures { answer_of result ≡ ask_flow g (given ∷ []) (a ∷ b ∷ c ∷ d ∷ []) (ask_work g work accepted) }
{
    description(g)?;
    check(g, given, given, a, b, c, d, work)
}
