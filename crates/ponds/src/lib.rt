// The call `ponds` of document 02, "list the ponds": elevations to a sheet of pond numbers and three columns. After the flood 18 is
// asked; then the ponds are numbered in the work buffer and 14 is asked, before a result is written.
#![tactic(auto)]

ghost use Rattle.std.specs.Prelude.{◌≡◌, length};
ghost use Rattle.grid.specs.Sheet.{size, SixteenBits};
ghost use Rattle.grid.specs.Checks.{ask_reach};
ghost use Rattle.grid.specs.Promises.{PondsPromise};
ghost use Rattle.refusals.specs.Answers.{counted_of};
ghost use Rattle.fill.specs.Words.{Words};
ghost use Rattle.pond_numbers.specs.State.{Sizes};
ghost use Rattle.pond_columns.specs.State.{OneLength};
ghost use Rattle.ponds.specs.State.{asked14, Settled};

use cells::Sheet;
use grid::Grid;
use refusals::{Question, Refusal};

// From the flood's words: the ponds, question 14, and the results after a yes.
fn list_found(
    g: Grid,
    elevations: &[i16],
    ponds: &mut [u32],
    level: &mut [i16],
    cells: &mut [u32],
    volume: &mut [u64],
    work: &mut [u32],
) -> Result<u32, Refusal<u32>>
    requires sizes { Sizes g elevations.now (length work.old) }
    requires ponds_len { length ponds.old ≡ size g }
    requires one_length { OneLength level.old cells.old volume.old }
    requires sixteen_bits { SixteenBits elevations.now }
    requires words { Words g elevations.now work.old }
    ensures { Settled g elevations.now ponds.old ponds.new level.old level.new
        cells.old cells.new volume.old volume.new
        (asked14 g elevations.now level.old) (counted_of result) }
{
    let count = pond_numbers::find(g, elevations, work);
    if level.len() < count as usize {
        return Err(Question::Columns.at(count));
    }
    pond_columns::list(g, elevations, count, work, ponds, level, cells, volume);
    Ok(count)
}

// The flood, question 18, and then 14 and the results.
fn settle(
    g: Grid,
    elevations: &[i16],
    ponds: &mut [u32],
    level: &mut [i16],
    cells: &mut [u32],
    volume: &mut [u64],
    work: &mut [u32],
) -> Result<u32, Refusal<u32>>
    requires sizes { Sizes g elevations.now (length work.old) }
    requires ponds_len { length ponds.old ≡ size g }
    requires one_length { OneLength level.old cells.old volume.old }
    ensures { Settled g elevations.now ponds.old ponds.new level.old level.new
        cells.old cells.new volume.old volume.new
        (ask_reach g elevations.now (asked14 g elevations.now level.old)) (counted_of result) }
{
    let sheet = Sheet {
        grid: g,
        elevations,
    };
    let first = fill::fill_sheet(&sheet, work);
    if first < elevations.len() {
        return Err(Question::Chains.at(first as u32));
    }
    list_found(g, elevations, ponds, level, cells, volume, work)
}

// The ponds of a sheet of elevations.
pub fn ponds(
    g: Grid,
    elevations: &[i16],
    ponds: &mut [u32],
    level: &mut [i16],
    cells: &mut [u32],
    volume: &mut [u64],
    work: &mut [u32],
) -> Result<u32, Refusal<u32>>
    ensures { PondsPromise g elevations.now ponds.old ponds.new level.old
        level.new cells.old cells.new volume.old volume.new work.old
        work.new (counted_of result) }
{
    let given = elevations.len();
    let wanted = ponds.len();
    checks::outlets(g, given, wanted, wanted, wanted, wanted)?;
    if !checks::both_have(level.len(), cells.len(), volume.len()) {
        return Err(Question::Results.into());
    }
    if !checks::has_room(g, work.len()) {
        return Err(Question::WorkBuffer.into());
    }
    settle(g, elevations, ponds, level, cells, volume, work)
}
