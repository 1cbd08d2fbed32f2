// The call `labels` of document 01: from a sheet of codes, of each cell "1 plus the number of the route's last cell". Questions 5 to 9,
// then 11 and 12. The receivers of the codes go into the second half of the work buffer, where one walk down the routes finds their last
// cells (crates `receivers`, `labelling`). The result is written when the last question is answered.
#![tactic(auto)]

ghost use Rattle.std.specs.Prelude.{◌≡◌, cond, ◌<◌, ◌≤◌, eqb, length};
ghost use Rattle.grid.specs.Sheet.{size};
ghost use Rattle.grid.specs.Routes.{labels as labels', first_endless};
ghost use Rattle.grid.specs.Promises.{LabelsPromise};
ghost use Rattle.refusals.specs.Answers.{answer_of};

use grid::Grid;
use receivers::CodeSheet;
use refusals::{Question, Refusal};

// The labels, if every route ends, by way of the lent tail; the result is the first cell whose route does not, or rows * cols.
fn labels_into(codes: &CodeSheet, labels: &mut [u32], tail: &mut [u32]) -> usize
    requires labels_len { length labels.old ≡ size codes.now.grid }
    requires codes_in_bounds { size codes.now.grid ≤ length tail.old }
    ensures value { result ≡ first_endless codes.now.grid codes.now.codes.now }
    ensures labels_after { labels.new
        ≡ cond (eqb result (size codes.now.grid)) (labels' codes.now.grid codes.now.codes.now) labels.old }
{
    let n = codes.grid.rows * codes.grid.cols;
    receivers::receivers_from(codes, tail);
    labelling::labels_of(n, tail, labels)
}

// Codes to labels.
pub fn labels(
    g: Grid,
    codes: &[u8],
    labels: &mut [u32],
    work: &mut [u32],
) -> Result<(), Refusal<u32>>
    ensures { LabelsPromise g codes.now labels.old labels.new work.old work.new
        (answer_of result) }
{
    let given = codes.len();
    let wanted = labels.len();
    let room = work.len();
    checks::check(g, given, given, wanted, wanted, wanted, wanted, room)?;
    let bad = receivers::first_bad_code(g, codes);
    if bad < given {
        return Err(Question::Codes.at(bad as u32));
    }
    let sheet = CodeSheet { grid: g, codes };
    let half = room / 2;
    let first = labels_into(&sheet, labels, &mut work[half..]);
    if first < given {
        return Err(Question::Routes.at(first as u32));
    }
    Ok(())
}
