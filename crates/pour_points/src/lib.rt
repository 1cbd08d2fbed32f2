// Table 6, the call: "Entries rise by smaller, then larger label, in four lent columns; their count is reported; places past it are
// untouched." It asks 5 to 8 and 14. The first scan gives all entries if they are fewer than a batch has room for. Else scans count the
// rest before anything is written ("A no changes no result buffer"), and scans write them all: for p entries one scan, or about 2 p /
// 16,384 of them.
#![tactic(auto)]

ghost use Rattle.std.specs.Prelude.{◌≡◌, false, [], ◌∷◌, ◌<◌, length};
ghost use Rattle.grid.specs.Sheet.{size};
ghost use Rattle.grid.specs.Checks.{all_have};
ghost use Rattle.grid.specs.PourPoints.{pour_points};
ghost use Rattle.grid.specs.Promises.{PourPointsPromise};
ghost use Rattle.pour_laws.specs.Batch.{capacity, Scanned};
ghost use Rattle.pour.specs.Taken.{Holds, candidates, entries};
ghost use Rattle.pour_laws.specs.Columns.{OneLength, Settled};
ghost use Rattle.refusals.specs.Answers.{counted_of};

use grid::Grid;
use pour::{Batch, CAPACITY, Sheets};
use refusals::{Question, Refusal};

// Question 14 and the columns where one batch has all entries.
fn settle_few(
    sheets: &Sheets,
    batch: &Batch,
    smaller: &mut [u32],
    larger: &mut [u32],
    elevation: &mut [i16],
    cell: &mut [u32],
) -> Result<u32, Refusal<u32>>
    requires batch { Holds 0 (candidates sheets.now) batch.now }
    requires not_full { batch.now.count < capacity }
    requires one_length { OneLength smaller.old larger.old elevation.old cell.old }
    ensures { Settled (entries sheets.now) smaller.old smaller.new
        larger.old larger.new elevation.old elevation.new cell.old cell.new
        (counted_of result) }
{
    let k = batch.count;
    if smaller.len() < k {
        return Err(Question::Columns.at(k as u32));
    }
    pour_columns::put_entries(batch, 0, smaller, larger, elevation, cell);
    Ok(k as u32)
}

// The same where the first batch is full.
fn settle_many(
    sheets: &Sheets,
    batch: &mut Batch,
    smaller: &mut [u32],
    larger: &mut [u32],
    elevation: &mut [i16],
    cell: &mut [u32],
) -> Result<u32, Refusal<u32>>
    requires batch { Holds 0 (candidates sheets.now) batch.old }
    requires one_length { OneLength smaller.old larger.old elevation.old cell.old }
    ensures { Settled (entries sheets.now) smaller.old smaller.new
        larger.old larger.new elevation.old elevation.new cell.old cell.new
        (counted_of result) }
{
    let n = pour_columns::count_on(sheets, batch);
    let count = n as u32;
    if smaller.len() < n {
        return Err(Question::Columns.at(count));
    }
    pour_columns::write_all(sheets, batch, smaller, larger, elevation, cell);
    Ok(count)
}

// Question 14 and the columns, for columns of one length. The batch lives here alone, and all else borrows it.
fn settle(
    g: Grid,
    elevations: &[i16],
    labels: &[u32],
    smaller: &mut [u32],
    larger: &mut [u32],
    elevation: &mut [i16],
    cell: &mut [u32],
) -> Result<u32, Refusal<u32>>
    requires scanned { Scanned g labels.now }
    requires elevations_len { length elevations.now ≡ size g }
    requires one_length { OneLength smaller.old larger.old elevation.old cell.old }
    ensures { Settled (pour_points g elevations.now labels.now) smaller.old smaller.new
        larger.old larger.new elevation.old elevation.new cell.old cell.new
        (counted_of result) }
{
    let sheets = Sheets {
        g,
        elevations,
        labels,
    };
    let mut batch = Batch {
        pairs: [0; CAPACITY],
        ranks: [0; CAPACITY],
        count: 0,
    };
    batch.scan(&sheets, 0);
    if batch.count < CAPACITY {
        return settle_few(&sheets, &batch, smaller, larger, elevation, cell);
    }
    settle_many(&sheets, &mut batch, smaller, larger, elevation, cell)
}

// "have the four columns of Table 6 one length?"
fn one_length(smaller: usize, larger: usize, elevation: usize, cell: usize) -> bool
    ensures { result ≡ all_have smaller (larger ∷ elevation ∷ cell ∷ []) }
{
    if larger != smaller {
        return false;
    }
    if elevation != smaller {
        return false;
    }
    cell == smaller
}

// The pour points of a sheet of elevations and a sheet of labels.
pub fn pour_points(
    g: Grid,
    elevations: &[i16],
    labels: &[u32],
    smaller: &mut [u32],
    larger: &mut [u32],
    elevation: &mut [i16],
    cell: &mut [u32],
) -> Result<u32, Refusal<u32>>
    ensures { PourPointsPromise g elevations.now labels.now smaller.old smaller.new
        larger.old larger.new elevation.old elevation.new cell.old cell.new
        (counted_of result) }
{
    checks::inputs(g, elevations.len(), labels.len())?;
    if !one_length(smaller.len(), larger.len(), elevation.len(), cell.len()) {
        return Err(Question::Results.into());
    }
    settle(g, elevations, labels, smaller, larger, elevation, cell)
}
