// The call `check_lists` (document 02, Wish 6): number and place for two lists of cells. "after 6, 19 if a cell lies outside the sheet or
// is no neighbour of the one before it, first list first, place the cell's position in its list, from 0". Two cells are neighbours exactly
// if they are at most one row and one column apart and not one cell (`proofs/Beside.antt`), so that no place looks at all eight.
#![tactic(auto)]

ghost use Rattle.std.specs.Prelude.{◌≡◌, ◌||◌, ◌<◌, ◌^◌, eqb};
ghost use Rattle.grid.specs.Endings.{first_stray};
ghost use Rattle.grid.specs.Promises.{ListsPromise};
ghost use Rattle.checks.specs.Sizes.{Fits};
ghost use Rattle.refusals.specs.Answers.{located_of};
ghost use Rattle.lists.specs.Beside.{are_close, are_beside};

use grid::Grid;
use refusals::{Question, Refusal};

// Whether two rows, or two columns, are at most one apart.
fn are_close(x: usize, y: usize) -> bool
    requires x_bound { x < 2 ^ 24 }
    requires y_bound { y < 2 ^ 24 }
    ensures { result ≡ are_close x y }
{
    if x > y + 1 {
        return false;
    }
    y <= x + 1
}

// Whether the cells in row `r`, column `q` and in row `s`, column `t` are neighbours.
fn are_neighbours(r: usize, q: usize, s: usize, t: usize) -> bool
    requires r_bound { r < 2 ^ 24 }
    requires q_bound { q < 2 ^ 24 }
    requires s_bound { s < 2 ^ 24 }
    requires t_bound { t < 2 ^ 24 }
    ensures { result ≡ are_beside r q s t }
{
    if !are_close(r, s) {
        return false;
    }
    if !are_close(q, t) {
        return false;
    }
    // the step as a number from 0 to 8; 4 is the one that stays
    3 * (s + 1 - r) + (t + 1 - q) != 4
}

// Whether the cell in row `s`, column `t` may stand at the place `i` of a list, behind the one in row `r`, column `q`; before the first
// place there is none.
fn may_follow(i: usize, r: usize, q: usize, s: usize, t: usize) -> bool
    requires r_bound { r < 2 ^ 24 }
    requires q_bound { q < 2 ^ 24 }
    requires s_bound { s < 2 ^ 24 }
    requires t_bound { t < 2 ^ 24 }
    ensures { result ≡ (eqb i 0 || are_beside r q s t) }
{
    if i == 0 {
        return true;
    }
    are_neighbours(r, q, s, t)
}

// The first place of a list whose cell is off the sheet or no neighbour of the one before it, or the list's length. Row and column of the
// cell before are kept, so that a place costs one division.
fn first_stray(g: Grid, list: &[u32]) -> usize
    requires { Fits g }
    ensures { result ≡ first_stray g list.now }
{
    let cols = g.cols;
    let mut row: usize = 0;
    let mut col: usize = 0;
    for (i, cell) in list.iter().enumerate() {
        let cell = *cell as usize;
        if cell >= g.rows * cols {
            return i;
        }
        let next_row = cell / cols;
        let next_col = cell % cols;
        if !may_follow(i, row, col, next_row, next_col) {
            return i;
        }
        row = next_row;
        col = next_col;
    }
    list.len()
}

// 5, 6 and 19.
pub fn check_lists(g: Grid, first: &[u32], second: &[u32]) -> Result<(), Refusal<usize>>
    ensures { ListsPromise g first.now second.now (located_of result) }
{
    checks::rows_and_cols(g)?;
    let stray = first_stray(g, first);
    if stray < first.len() {
        return Err(Question::ListedCells.at(stray));
    }
    let other = first_stray(g, second);
    if other < second.len() {
        return Err(Question::ListedCells.at(other));
    }
    Ok(())
}
