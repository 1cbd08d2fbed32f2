// The call `counts` of document 01: from a sheet of codes, of each cell "the number of other cells whose routes contain it". Questions 5
// to 9, then 11 and 12. The receivers of the codes go into the second half of the work buffer, where one pass down the routes counts
// (crates `receivers`, `accumulation`); the first half stays as it was lent (request 4). The result is written when the last question is
// answered.
#![tactic(auto)]

ghost use Rattle.std.specs.Prelude.{◌≡◌, cond, ◌+◌, ◌<◌, ◌≤◌, eqb, length};
ghost use Rattle.grid.specs.Sheet.{size};
ghost use Rattle.grid.specs.Routes.{counts as counts', first_endless};
ghost use Rattle.grid.specs.Promises.{CountsPromise};
ghost use Rattle.refusals.specs.Answers.{answer_of};

use grid::Grid;
use receivers::CodeSheet;
use refusals::{Question, Refusal};

// The counts, if every route ends, by way of the lent tail; the result is the first cell whose route does not, or rows * cols.
fn counts_into(codes: &CodeSheet, counts: &mut [u32], tail: &mut [u32]) -> usize
    requires counts_len { length counts.old ≡ size codes.now.grid }
    requires codes_in_bounds { size codes.now.grid + size codes.now.grid ≤ length tail.old }
    ensures value { result ≡ first_endless codes.now.grid codes.now.codes.now }
    ensures counts_after { counts.new
        ≡ cond (eqb result (size codes.now.grid)) (counts' codes.now.grid codes.now.codes.now) counts.old }
{
    let n = codes.grid.rows * codes.grid.cols;
    receivers::receivers_from(codes, tail);
    counting::counts_of(n, tail, counts)
}

// Codes to counts.
pub fn counts(
    g: Grid,
    codes: &[u8],
    counts: &mut [u32],
    work: &mut [u32],
) -> Result<(), Refusal<u32>>
    ensures { CountsPromise g codes.now counts.old counts.new work.old work.new
        (answer_of result) }
{
    let given = codes.len();
    let wanted = counts.len();
    let room = work.len();
    checks::check(g, given, given, wanted, wanted, wanted, wanted, room)?;
    let bad = receivers::first_bad_code(g, codes);
    if bad < given {
        return Err(Question::Codes.at(bad as u32));
    }
    let sheet = CodeSheet { grid: g, codes };
    let half = room / 2;
    let first = counts_into(&sheet, counts, &mut work[half..]);
    if first < given {
        return Err(Question::Routes.at(first as u32));
    }
    Ok(())
}
