// The one call of document 01: "One call works filled sheet, codes, counts and labels from elevations". The questions 5 to 9 first, 17
// and 20 among them, then the steps in sequence over the one lent work buffer, each the proved piece of its own crate; the fill answers 18
// before a result is written. Its promise carries demand 3 about the four lists that it leaves: they are those of the definitions, and for
// these demand 3 is a law (`guarantee_laws`, `proofs/OneCall`). `drain_loaded` is a step of its own: 18 and the four results of any sheet
// that the keys in the work buffer spell, as of an opened one.
#![tactic(auto)]

ghost use Rattle.std.specs.Prelude.{◌≡◌, length};
ghost use Rattle.grid.specs.Sheet.{size};
ghost use Rattle.grid.specs.Routes.{counts as counts', labels as labels'};
ghost use Rattle.grid.specs.Checks.{accepted, ask_reach};
ghost use Rattle.grid.specs.Promises.{FourResults, DrainPromise};
ghost use Rattle.refusals.specs.Answers.{answer_of};
ghost use Rattle.key_sort.specs.Order.{AreKeys};
ghost use Rattle.fill.specs.Words.{sheet_in, SameVoids};
ghost use Rattle.drainage.specs.Results.{Measured, Routable};

use cells::Sheet;
use grid::Grid;
use receivers::CodeSheet;
use refusals::{Question, Refusal};

// Counts and labels of the codes, from one list of receivers at the front of the lent tail: the counts leave it as it is, the labels take
// its place.
fn route_results(g: Grid, codes: &[u8], counts: &mut [u32], labels: &mut [u32], tail: &mut [u32])
    requires { Routable g codes.now (length counts.old) (length labels.old) (length tail.old) }
    ensures counts_after { counts.new ≡ counts' g codes.now }
    ensures labels_after { labels.new ≡ labels' g codes.now }
{
    let n = g.rows * g.cols;
    let sheet = CodeSheet { grid: g, codes };
    receivers::receivers_from(&sheet, tail);
    counting::counts_of(n, tail, counts);
    labelling::labels_of(n, tail, labels);
}

// Question 18 of the sheet whose keys stand in the work buffer, and after a yes its four results, on buffers of the right lengths.
// `elevations` has the same voids.
pub fn drain_loaded(
    g: Grid,
    elevations: &[i16],
    filled: &mut [i16],
    codes: &mut [u8],
    counts: &mut [u32],
    labels: &mut [u32],
    work: &mut [u32],
) -> Result<(), Refusal<u32>>
    requires measured { Measured g (length filled.old) (length codes.old) (length counts.old) (length labels.old) (length work.old) }
    requires elevations_len { length elevations.now ≡ size g }
    requires are_keys { AreKeys (size g) work.old }
    requires same_voids { SameVoids g elevations.now work.old }
    ensures value { answer_of result ≡ ask_reach g (sheet_in (size g) work.old) accepted }
    ensures four_results { FourResults g (sheet_in (size g) work.old) filled.old filled.new codes.old
        codes.new counts.old counts.new labels.old labels.new (answer_of result) }
{
    let sheet = Sheet {
        grid: g,
        elevations,
    };
    let first = fill::fill_loaded(&sheet, filled, work);
    if first < filled.len() {
        return Err(Question::Chains.at(first as u32));
    }
    let drained = Sheet {
        grid: g,
        elevations: filled,
    };
    flow::directions_into(&drained, codes, work);
    let half = work.len() / 2;
    route_results(g, codes, counts, labels, &mut work[half..]);
    Ok(())
}

// "One call works filled sheet, codes, counts and labels from elevations."
pub fn drain(
    g: Grid,
    elevations: &[i16],
    filled: &mut [i16],
    codes: &mut [u8],
    counts: &mut [u32],
    labels: &mut [u32],
    work: &mut [u32],
) -> Result<(), Refusal<u32>>
    ensures { DrainPromise g elevations.now filled.old filled.new codes.old
        codes.new counts.old counts.new labels.old labels.new work.old
        work.new (answer_of result) }
{
    checks::check_flow(
        g,
        elevations.len(),
        filled.len(),
        codes.len(),
        counts.len(),
        labels.len(),
        work.len(),
    )?;
    fill::load(elevations, work);
    drain_loaded(g, elevations, filled, codes, counts, labels, work)
}
