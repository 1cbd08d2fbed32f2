// The call `starts` of document 01, Table 5: from codes, any sheet of counts and a threshold, the numbers of the starts. Questions 5 to 9,
// then 11 and 12; the pass of `accumulation` answers 12 and leaves the receivers standing, from which `starting` numbers the cells when
// all is answered.
#![tactic(auto)]

ghost use Rattle.std.specs.Prelude.{◌≡◌, ◌+◌, ◌<◌, ◌≤◌, length};
ghost use Rattle.grid.specs.Sheet.{size};
ghost use Rattle.grid.specs.Promises.{StartsPromise};
ghost use Rattle.refusals.specs.Answers.{counted_of};
ghost use Rattle.starts.specs.Into.{Started};

use grid::Grid;
use receivers::CodeSheet;
use refusals::{Question, Refusal};

// Question 12 and the starts, in the lent tail.
fn starts_into(
    codes: &CodeSheet,
    counts: &[u32],
    threshold: u32,
    starts: &mut [u32],
    tail: &mut [u32],
) -> Result<u32, Refusal<u32>>
    requires counts_len { length counts.now ≡ size codes.now.grid }
    requires starts_len { length starts.old ≡ size codes.now.grid }
    requires codes_in_bounds { size codes.now.grid + size codes.now.grid ≤ length tail.old }
    ensures { Started codes.now.grid codes.now.codes.now counts.now threshold starts.old starts.new
        (counted_of result) }
{
    let n = codes.grid.rows * codes.grid.cols;
    receivers::receivers_from(codes, tail);
    let first = accumulation::count_routes(n, tail);
    if first < n {
        return Err(Question::Routes.at(first as u32));
    }
    let count = starting::number_starts(n, tail, counts, threshold, starts);
    Ok(count)
}

// Codes, counts and a threshold to the numbers of the starts.
pub fn starts(
    g: Grid,
    codes: &[u8],
    counts: &[u32],
    threshold: u32,
    starts: &mut [u32],
    work: &mut [u32],
) -> Result<u32, Refusal<u32>>
    ensures { StartsPromise g codes.now counts.now threshold starts.old starts.new
        work.old work.new (counted_of result) }
{
    let given = codes.len();
    let wanted = starts.len();
    let room = work.len();
    checks::check(g, given, counts.len(), wanted, wanted, wanted, wanted, room)?;
    let bad = receivers::first_bad_code(g, codes);
    if bad < given {
        return Err(Question::Codes.at(bad as u32));
    }
    let sheet = CodeSheet { grid: g, codes };
    let half = room / 2;
    starts_into(&sheet, counts, threshold, starts, &mut work[half..])
}
