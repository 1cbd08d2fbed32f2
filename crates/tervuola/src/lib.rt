// The C interface: "Our planning screen, written in C, calls the program with its own buffers". Thin entry points on numbers and slices
// over the proved calls, each with the promise of the call behind it; `refusals` makes of a call's result the struct that C gets. A slice
// crosses as a pointer and a number of elements; structs come back by value.
#![tactic(auto)]

ghost use Rattle.std.specs.Prelude.{◌≡◌};
ghost use Rattle.grid.specs.Sheet.{grid_of, closed_grid, shaped_grid};
ghost use Rattle.grid.specs.Promises.{CollectPromise, CountsPromise, CulvertsPromise, DirectionsPromise, DrainPromise, FillPromise};
ghost use Rattle.grid.specs.Promises.{HandInPromise, LabelsPromise, ListsPromise, PartPromise, PondsPromise, PourPointsPromise};
ghost use Rattle.grid.specs.Promises.{ReadPromise, RunPromise, StartsPromise, WatershedsPromise, WritePromise};

use grid::{Answer, Collected, Counted, Dimensions, Grid, Located, Part};

// The sheet's description, from numbers as C has them.
fn shaped_grid(rows: u32, cols: u32, sides: u32, width: u32, height: u32) -> Grid
    ensures { result ≡ shaped_grid rows cols sides width height }
{
    Grid {
        rows: rows as usize,
        cols: cols as usize,
        sides: sides as usize,
        width: width as usize,
        height: height as usize,
    }
}

// Of cells of 1 by 1, for calls that work out no codes.
fn closed_grid(rows: u32, cols: u32, sides: u32) -> Grid
    ensures { result ≡ closed_grid rows cols sides }
{
    shaped_grid(rows, cols, sides, 1, 1)
}

// With every side open, for calls that work out no outlets.
fn grid_of(rows: u32, cols: u32) -> Grid
    ensures { result ≡ grid_of rows cols }
{
    closed_grid(rows, cols, 0)
}

// Elevations to the filled sheet.
#[unsafe(no_mangle)]
pub extern "C" fn tervuola_fill(
    rows: u32,
    cols: u32,
    sides: u32,
    elevations: &[i16],
    filled: &mut [i16],
    work: &mut [u32],
) -> Answer
    ensures { FillPromise (closed_grid rows cols sides) elevations.now filled.old filled.new
        work.old work.new result }
{
    let g = closed_grid(rows, cols, sides);
    refusals::answer(fill::fill(g, elevations, filled, work))
}

// Elevations to ponds.
#[unsafe(no_mangle)]
pub extern "C" fn tervuola_ponds(
    rows: u32,
    cols: u32,
    sides: u32,
    elevations: &[i16],
    ponds: &mut [u32],
    level: &mut [i16],
    cells: &mut [u32],
    volume: &mut [u64],
    work: &mut [u32],
) -> Counted
    ensures { PondsPromise (closed_grid rows cols sides) elevations.now ponds.old ponds.new
        level.old level.new cells.old cells.new volume.old volume.new
        work.old work.new result }
{
    let g = closed_grid(rows, cols, sides);
    refusals::counted(ponds::ponds(g, elevations, ponds, level, cells, volume, work))
}

// Any sheet to its flow directions.
#[unsafe(no_mangle)]
pub extern "C" fn tervuola_directions(
    rows: u32,
    cols: u32,
    sides: u32,
    width: u32,
    height: u32,
    elevations: &[i16],
    codes: &mut [u8],
    work: &mut [u32],
) -> Answer
    ensures { DirectionsPromise (shaped_grid rows cols sides width height) elevations.now codes.old
        codes.new work.old work.new result }
{
    let g = shaped_grid(rows, cols, sides, width, height);
    refusals::answer(directions::directions(g, elevations, codes, work))
}

// Codes to flow accumulation counts.
#[unsafe(no_mangle)]
pub extern "C" fn tervuola_counts(
    rows: u32,
    cols: u32,
    codes: &[u8],
    counts: &mut [u32],
    work: &mut [u32],
) -> Answer
    ensures { CountsPromise (grid_of rows cols) codes.now counts.old counts.new work.old
        work.new result }
{
    let g = grid_of(rows, cols);
    refusals::answer(counts::counts(g, codes, counts, work))
}

// Codes to basin labels.
#[unsafe(no_mangle)]
pub extern "C" fn tervuola_labels(
    rows: u32,
    cols: u32,
    codes: &[u8],
    labels: &mut [u32],
    work: &mut [u32],
) -> Answer
    ensures { LabelsPromise (grid_of rows cols) codes.now labels.old labels.new work.old
        work.new result }
{
    let g = grid_of(rows, cols);
    refusals::answer(labels::labels(g, codes, labels, work))
}

// Elevations to filled sheet, codes, counts and labels.
#[unsafe(no_mangle)]
pub extern "C" fn tervuola_drain(
    rows: u32,
    cols: u32,
    sides: u32,
    width: u32,
    height: u32,
    elevations: &[i16],
    filled: &mut [i16],
    codes: &mut [u8],
    counts: &mut [u32],
    labels: &mut [u32],
    work: &mut [u32],
) -> Answer
    ensures { DrainPromise (shaped_grid rows cols sides width height) elevations.now filled.old
        filled.new codes.old codes.new counts.old counts.new labels.old
        labels.new work.old work.new result }
{
    let g = shaped_grid(rows, cols, sides, width, height);
    refusals::answer(drainage::drain(g, elevations, filled, codes, counts, labels, work))
}

// Elevations and lists of cells and levels to the four results of the sheet with each of these cells at its lowest level.
#[unsafe(no_mangle)]
pub extern "C" fn tervuola_culverts(
    rows: u32,
    cols: u32,
    sides: u32,
    width: u32,
    height: u32,
    elevations: &[i16],
    cells: &[u32],
    levels: &[i16],
    filled: &mut [i16],
    codes: &mut [u8],
    counts: &mut [u32],
    labels: &mut [u32],
    work: &mut [u32],
) -> Located
    ensures { CulvertsPromise (shaped_grid rows cols sides width height) elevations.now cells.now
        levels.now filled.old filled.new codes.old codes.new counts.old
        counts.new labels.old labels.new work.old work.new result }
{
    let g = shaped_grid(rows, cols, sides, width, height);
    refusals::located(culverts::culverts(
        g, elevations, cells, levels, filled, codes, counts, labels, work,
    ))
}

// Codes and starts to watersheds.
#[unsafe(no_mangle)]
pub extern "C" fn tervuola_watersheds(
    rows: u32,
    cols: u32,
    codes: &[u8],
    starts: &[u32],
    watersheds: &mut [u32],
    work: &mut [u32],
) -> Answer
    ensures { WatershedsPromise (grid_of rows cols) codes.now starts.now watersheds.old
        watersheds.new work.old work.new result }
{
    let g = grid_of(rows, cols);
    refusals::answer(watersheds::watersheds(g, codes, starts, watersheds, work))
}

// Codes, counts and a threshold to starts (Table 5).
#[unsafe(no_mangle)]
pub extern "C" fn tervuola_starts(
    rows: u32,
    cols: u32,
    codes: &[u8],
    counts: &[u32],
    threshold: u32,
    starts: &mut [u32],
    work: &mut [u32],
) -> Counted
    ensures { StartsPromise (grid_of rows cols) codes.now counts.now threshold starts.old
        starts.new work.old work.new result }
{
    let g = grid_of(rows, cols);
    refusals::counted(starts::starts(g, codes, counts, threshold, starts, work))
}

// Elevations and labels to pour points (Table 6).
#[unsafe(no_mangle)]
pub extern "C" fn tervuola_pour_points(
    rows: u32,
    cols: u32,
    elevations: &[i16],
    labels: &[u32],
    smaller: &mut [u32],
    larger: &mut [u32],
    elevation: &mut [i16],
    cell: &mut [u32],
) -> Counted
    ensures { PourPointsPromise (grid_of rows cols) elevations.now labels.now smaller.old
        smaller.new larger.old larger.new elevation.old elevation.new
        cell.old cell.new result }
{
    let g = grid_of(rows, cols);
    refusals::counted(pour_points::pour_points(
        g, elevations, labels, smaller, larger, elevation, cell,
    ))
}

// Two lists of cells to a number and a place.
#[unsafe(no_mangle)]
pub extern "C" fn tervuola_check_lists(
    rows: u32,
    cols: u32,
    first: &[u32],
    second: &[u32],
) -> Located
    ensures { ListsPromise (grid_of rows cols) first.now second.now result }
{
    let g = grid_of(rows, cols);
    refusals::located(lists::check_lists(g, first, second))
}

// Two lists of cells to the end of the first that both share. No exported function returns a reference, so C gets the part by its place and
// its length.
#[unsafe(no_mangle)]
pub extern "C" fn tervuola_shared_ending(
    rows: u32,
    cols: u32,
    first: &[u32],
    second: &[u32],
) -> Part
    ensures { PartPromise (grid_of rows cols) first.now second.now result }
{
    let g = grid_of(rows, cols);
    let part = ending::shared_ending(g, first, second);
    let count = part.len();
    Part {
        at: first.len() - count,
        count: count,
    }
}

// A crew hands in a cell of a sheet of codes. An array of fixed length crosses as a pointer alone.
#[unsafe(no_mangle)]
pub extern "C" fn tervuola_hand_in(
    rows: u32,
    cols: u32,
    codes: &[u8],
    crew: u32,
    cell: u32,
    crews: &mut [u64; 66],
    work: &mut [u32],
) -> Answer
    ensures { HandInPromise (grid_of rows cols) codes.now crew cell crews.old crews.new
        work.old work.new result }
{
    let g = grid_of(rows, cols);
    refusals::answer(tracing::hand_in(g, codes, crew, cell, crews, work))
}

// Turns of the crews' traces on a sheet of codes.
#[unsafe(no_mangle)]
pub extern "C" fn tervuola_run(
    rows: u32,
    cols: u32,
    codes: &[u8],
    turns: u16,
    crews: &mut [u64; 66],
    work: &mut [u32],
) -> Answer
    ensures { RunPromise (grid_of rows cols) codes.now turns crews.old crews.new work.old
        work.new result }
{
    let g = grid_of(rows, cols);
    refusals::answer(tracing::run(g, codes, turns, crews, work))
}

// A crew asks for its trace.
#[unsafe(no_mangle)]
pub extern "C" fn tervuola_collect(crew: u32, crews: &mut [u64; 66]) -> Collected
    ensures { CollectPromise crew crews.old crews.new result }
{
    refusals::collected(tracing::collect(crew, crews))
}

// A text frame to rows, columns and elevations.
#[unsafe(no_mangle)]
pub extern "C" fn tervuola_read(text: &[u8], elevations: &mut [i16]) -> Dimensions
    ensures { ReadPromise text.now elevations.old elevations.new result }
{
    refusals::dimensions(reader::read(text, elevations))
}

// Rows, columns and elevations to a text frame.
#[unsafe(no_mangle)]
pub extern "C" fn tervuola_write(
    rows: u32,
    cols: u32,
    elevations: &[i16],
    text: &mut [u8],
) -> Counted
    ensures { WritePromise (grid_of rows cols) elevations.now text.old text.new result }
{
    let g = grid_of(rows, cols);
    refusals::counted(writer::write(g, elevations, text))
}
