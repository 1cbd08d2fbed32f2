// The call `directions` of document 01: the code of every cell, from any sheet. The questions 5 to 9 come first, 17 and 20 among them, then
// voids are marked, if there are any, and then come the levels. Where every data cell has one, the codes lead each to an outlet, so that 18
// needs no look of its own. Where one has none, 18 is asked, for the first data cell without a chain to an outlet, and then 10 is the no;
// both leave the codes as they were.
#![tactic(auto)]

ghost use Rattle.std.specs.Prelude.{◌≡◌, ◌+◌, ◌*◌, ◌/◌, ◌<◌, ◌≤◌, ◌^◌, length};
ghost use Rattle.grid.specs.Sheet.{size};
ghost use Rattle.grid.specs.Checks.{refusal, ask_reach};
ghost use Rattle.grid.specs.Promises.{DirectionsPromise};
ghost use Rattle.refusals.specs.Answers.{answer_of, refused};
ghost use Rattle.cells.specs.Marks.{Marked};

use cells::Sheet;
use grid::Grid;
use refusals::{Question, Refusal};

// The no of a sheet whose data cell `first` has no level: 18 is asked before 10.
fn lacking(s: &Sheet, first: usize, work: &mut [u32]) -> Refusal<u32>
    requires g_in_bounds { 4 * size s.now.grid ≤ length work.old }
    requires first_bound { first < size s.now.grid }
    ensures { refused result ≡ ask_reach s.now.grid s.now.elevations.now (refusal 10 first) }
{
    let stranded = fill::first_stranded(s, work);
    if stranded < s.elevations.len() {
        return Question::Chains.at(stranded as u32);
    }
    Question::Levels.at(first as u32)
}

// Marks the voids of the sheet, if it has any.
fn mark_voids(s: &Sheet, work: &mut [u32])
    requires { 4 * size s.now.grid ≤ length work.old }
    ensures { Marked s.now.grid s.now.elevations.now (length work.old / 2 + size s.now.grid) work.new }
{
    if !outside::has_void(s.elevations) {
        return;
    }
    outside::mark(s, work);
}

// Questions 5 to 10, with 17, 18 and 20, and after a yes the codes.
pub fn directions(
    g: Grid,
    elevations: &[i16],
    codes: &mut [u8],
    work: &mut [u32],
) -> Result<(), Refusal<u32>>
    ensures { DirectionsPromise g elevations.now codes.old codes.new work.old
        work.new (answer_of result) }
{
    let given = elevations.len();
    let wanted = codes.len();
    let room = work.len();
    checks::check_flow(g, given, wanted, wanted, wanted, wanted, room)?;
    let sheet = Sheet {
        grid: g,
        elevations,
    };
    mark_voids(&sheet, work);
    let first = flow::directions_into(&sheet, codes, work);
    if first < given {
        return Err(lacking(&sheet, first, work));
    }
    Ok(())
}
