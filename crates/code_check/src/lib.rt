// Questions 11 and 12 about a lent sheet of codes, by way of a lent tail, and with them the questions of a call that is lent no sheet but
// codes: 5, 6, 7, 9, 11 and 12.
#![tactic(auto)]

ghost use Rattle.std.specs.Prelude.{◌≡◌, ◌*◌, ◌≤◌, length};
ghost use Rattle.grid.specs.Sheet.{size};
ghost use Rattle.grid.specs.Routes.{first_endless};
ghost use Rattle.grid.specs.Checks.{accepted, ask_codes};
ghost use Rattle.checks.specs.Sizes.{Fits};
ghost use Rattle.refusals.specs.Answers.{answer_of};
ghost use Rattle.code_check.specs.Asked.{CodesAsked};

use grid::Grid;
use receivers::CodeSheet;
use refusals::{Question, Refusal};

// Question 12: the first cell whose route does not end, or rows * cols.
fn first_endless(codes: &CodeSheet, tail: &mut [u32]) -> usize
    requires codes_in_bounds { size codes.now.grid ≤ length tail.old }
    ensures { result ≡ first_endless codes.now.grid codes.now.codes.now }
{
    let n = codes.grid.rows * codes.grid.cols;
    receivers::receivers_from(codes, tail);
    walk::walk(n, tail)
}

// Questions 11 and 12.
pub fn codes_check(g: Grid, codes: &[u8], tail: &mut [u32]) -> Result<(), Refusal<u32>>
    requires fits { Fits g }
    requires codes_len { length codes.now ≡ size g }
    requires g_in_bounds { size g ≤ length tail.old }
    ensures { answer_of result ≡ ask_codes g codes.now accepted }
{
    let given = codes.len();
    let bad = receivers::first_bad_code(g, codes);
    if bad < given {
        return Err(Question::Codes.at(bad as u32));
    }
    let sheet = CodeSheet { grid: g, codes };
    let endless = first_endless(&sheet, tail);
    if endless < given {
        return Err(Question::Routes.at(endless as u32));
    }
    Ok(())
}

// Questions 11 and 12, by way of the second half of the work buffer.
fn codes_within(g: Grid, codes: &[u8], work: &mut [u32]) -> Result<(), Refusal<u32>>
    requires fits { Fits g }
    requires codes_len { length codes.now ≡ size g }
    requires g_in_bounds { 4 * size g ≤ length work.old }
    ensures { answer_of result ≡ ask_codes g codes.now accepted }
{
    let half = work.len() / 2;
    codes_check(g, codes, &mut work[half..])
}

// 5, 6, 7, 9, 11 and 12.
pub fn check(g: Grid, codes: &[u8], work: &mut [u32]) -> Result<(), Refusal<u32>>
    ensures { CodesAsked g codes.now work.old work.new (answer_of result) }
{
    let given = codes.len();
    let room = work.len();
    checks::check(g, given, given, given, given, given, given, room)?;
    codes_within(g, codes, work)
}
