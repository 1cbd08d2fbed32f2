// The call `culverts` of document 02, "open a culvert under a road bank" and "all culverts of a road": elevations and two lists, of cells
// and of levels, to the four results of the opened sheet. Questions 5 to 9 come first, 17 and 20 among them, 7 of the two lists too, then
// 15 and 16, entry by entry on the elevations as lent: "If any entry is refused, none is applied". The elevations are loaded as keys into
// the work buffer and opened there, and what is loaded is drained as in the one call, which asks 18: demand 3 holds with the opened sheet
// as the input.
#![tactic(auto)]

ghost use Rattle.std.specs.Prelude.{◌≡◌, length};
ghost use Rattle.grid.specs.Sheet.{size};
ghost use Rattle.grid.specs.Culverts.{opened, first_bad_entry};
ghost use Rattle.grid.specs.Checks.{accepted, ask_reach};
ghost use Rattle.grid.specs.Promises.{FourResults, CulvertsPromise};
ghost use Rattle.refusals.specs.Answers.{answer_of, located_of};
ghost use Rattle.drainage.specs.Results.{Measured};
ghost use Rattle.culvert_laws.specs.Asked.{asked_to9, asked_to16};

use grid::Grid;
use refusals::{Question, Refusal};

// The lengths of the result sheets and of the work buffer.
#[derive(Clone, Copy)]
struct Lengths {
    filled: usize,
    codes: usize,
    counts: usize,
    labels: usize,
    work: usize,
}

// The questions up to 9, for the lengths of all lists.
fn ask_lengths(
    g: Grid,
    elevations: &[i16],
    cells: &[u32],
    levels: &[i16],
    lent: Lengths,
) -> Result<(), Refusal<u32>>
    ensures { answer_of result ≡ asked_to9 g elevations.now cells.now levels.now lent.filled lent.codes lent.counts
        lent.labels lent.work accepted }
{
    checks::description(g)?;
    if levels.len() != cells.len() {
        return Err(Question::Inputs.into());
    }
    let given = elevations.len();
    checks::check(
        g,
        given,
        given,
        lent.filled,
        lent.codes,
        lent.counts,
        lent.labels,
        lent.work,
    )
}

// And 15 and 16.
fn ask(
    g: Grid,
    elevations: &[i16],
    cells: &[u32],
    levels: &[i16],
    lent: Lengths,
) -> Result<(), Refusal<usize>>
    ensures { answer_of result ≡ asked_to16 g elevations.now cells.now levels.now lent.filled lent.codes lent.counts
        lent.labels lent.work accepted }
{
    ask_lengths(g, elevations, cells, levels, lent)?;
    culvert_entries::check(elevations, cells, levels)
}

// Question 18 of the opened sheet, and after a yes its four results, on buffers of the right lengths.
fn drain_opened(
    g: Grid,
    elevations: &[i16],
    cells: &[u32],
    levels: &[i16],
    filled: &mut [i16],
    codes: &mut [u8],
    counts: &mut [u32],
    labels: &mut [u32],
    work: &mut [u32],
) -> Result<(), Refusal<u32>>
    requires measured { Measured g (length filled.old) (length codes.old) (length counts.old) (length labels.old) (length work.old) }
    requires elevations_len { length elevations.now ≡ size g }
    requires levels_len { length levels.now ≡ length cells.now }
    requires levels_value { first_bad_entry elevations.now cells.now levels.now ≡ length cells.now }
    ensures value { answer_of result ≡ ask_reach g (opened elevations.now cells.now levels.now) accepted }
    ensures four_results { FourResults g (opened elevations.now cells.now levels.now) filled.old
        filled.new codes.old codes.new counts.old counts.new labels.old
        labels.new (answer_of result) }
{
    culvert_entries::load_opened(elevations, cells, levels, work);
    drainage::drain_loaded(g, elevations, filled, codes, counts, labels, work)
}

// The four results of the sheet with each named cell at its lowest level.
pub fn culverts(
    g: Grid,
    elevations: &[i16],
    cells: &[u32],
    levels: &[i16],
    filled: &mut [i16],
    codes: &mut [u8],
    counts: &mut [u32],
    labels: &mut [u32],
    work: &mut [u32],
) -> Result<(), Refusal<usize>>
    ensures { CulvertsPromise g elevations.now cells.now levels.now filled.old
        filled.new codes.old codes.new counts.old counts.new labels.old
        labels.new work.old work.new (located_of result) }
{
    let lent = Lengths {
        filled: filled.len(),
        codes: codes.len(),
        counts: counts.len(),
        labels: labels.len(),
        work: work.len(),
    };
    ask(g, elevations, cells, levels, lent)?;
    drain_opened(
        g, elevations, cells, levels, filled, codes, counts, labels, work,
    )?;
    Ok(())
}
