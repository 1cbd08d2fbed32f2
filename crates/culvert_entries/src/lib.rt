// The entries of the culverts' lists (document 02, "open a culvert under a road bank" and "all culverts of a road"): the first that 15 or
// 16 refuses, and the opened sheet in the work buffer. Every entry is judged on the elevations as lent, before the first is opened. Levels
// go by their keys, as elevations do: the sheet in the work buffer is spelled by keys, so that to open a cell is to keep the lower of two
// keys (proofs/Loaded), and the elevations are only read.
#![tactic(auto)]

ghost use Rattle.std.specs.Prelude.{◌≡◌, ◌≤◌, ◌<◌, length, set};
ghost use Rattle.grid.specs.Culverts.{opened, is_level_for, first_bad_entry};
ghost use Rattle.grid.specs.Checks.{accepted, ask_entries};
ghost use Rattle.refusals.specs.Answers.{answer_of};
ghost use Rattle.cells.specs.Keys.{level_of};
ghost use Rattle.culvert_entries.specs.Loaded.{Loaded};

use refusals::{Question, Refusal};

// Whether the cell may be opened to the level: not "if the level is −32,768 or above the cell's elevation".
fn is_level_for(elevations: &[i16], cell: usize, key: u16) -> bool
    ensures { result ≡ is_level_for elevations.now cell (level_of key) }
{
    let here = cells::key_at(elevations, cell);
    if key == 0 {
        return false;
    }
    key <= here
}

// "the first bad entry", or the number of entries. No level is one for a cell that holds no data, nor off the sheet (proofs/Asked), so that
// one test tells whether 15 or 16 refuses.
fn first_bad_entry(elevations: &[i16], cells: &[u32], levels: &[i16]) -> usize
    requires { length levels.now ≡ length cells.now }
    ensures { result ≡ first_bad_entry elevations.now cells.now levels.now }
{
    for (k, cell) in cells.iter().enumerate() {
        let key = cells::key_at(levels, k);
        if !is_level_for(elevations, *cell as usize, key) {
            return k;
        }
    }
    cells.len()
}

// 15 and 16: "the number is that of the first bad entry, 15 before 16, and the place its position in the list".
pub fn check(elevations: &[i16], cells: &[u32], levels: &[i16]) -> Result<(), Refusal<usize>>
    requires { length levels.now ≡ length cells.now }
    ensures { answer_of result ≡ ask_entries elevations.now cells.now levels.now accepted }
{
    let bad = first_bad_entry(elevations, cells, levels);
    if bad >= cells.len() {
        return Ok(());
    }
    let cell = cells[bad] as usize;
    if cells::key_at(elevations, cell) == 0 {
        return Err(Question::CulvertCell.at(bad));
    }
    Err(Question::CulvertLevel.at(bad))
}

// Opens the cell, in the sheet whose keys stand in the work buffer.
fn open_cell(work: &mut [u32], cell: usize, key: u32)
    requires { cell < length work.old }
    ensures { work.new ≡ set work.old cell key }
{
    work[cell] = key;
}

// Loads the opened sheet: the keys of the elevations first into the work buffer, and then entry by entry; "a cell named twice has the lower of
// its levels".
pub fn load_opened(elevations: &[i16], cells: &[u32], levels: &[i16], work: &mut [u32])
    requires elevations_in_bounds { length elevations.now ≤ length work.old }
    requires levels_len { length levels.now ≡ length cells.now }
    requires levels_value { first_bad_entry elevations.now cells.now levels.now ≡ length cells.now }
    ensures { Loaded (opened elevations.now cells.now levels.now) work.new }
{
    fill::load(elevations, work);
    for (k, cell) in cells.iter().enumerate() {
        let level = cells::key_at(levels, k);
        let cell = *cell as usize;
        let key = work[cell].min(level as u32);
        open_cell(work, cell, key);
    }
}
