// The call `watersheds` of document 01: from codes and starts, of each cell "the label of the first start on its route, itself included,
// else 0". Questions 5 to 9, then 11 to 13, 24 and the watersheds by way of the second half of the work buffer (crate `watershed_walk`).
// The result is written when the last question is answered.
#![tactic(auto)]

ghost use Rattle.std.specs.Prelude.{◌≡◌, ◌*◌, ◌≤◌, length};
ghost use Rattle.grid.specs.Sheet.{size};
ghost use Rattle.grid.specs.Routes.{watersheds as watersheds'};
ghost use Rattle.grid.specs.Checks.{accepted, ask_codes, ask_starts};
ghost use Rattle.grid.specs.Promises.{result_of, WatershedsPromise};
ghost use Rattle.refusals.specs.Answers.{answer_of};
ghost use Rattle.checks.specs.Sizes.{Fits};

use grid::Grid;
use refusals::Refusal;

// Questions 11 to 13 and 24, and after a yes the watersheds.
fn watersheds_into(
    g: Grid,
    codes: &[u8],
    starts: &[u32],
    watersheds: &mut [u32],
    work: &mut [u32],
) -> Result<(), Refusal<u32>>
    requires fits { Fits g }
    requires codes_len { length codes.now ≡ size g }
    requires starts_len { length starts.now ≡ size g }
    requires watersheds_len { length watersheds.old ≡ size g }
    requires g_in_bounds { 4 * size g ≤ length work.old }
    ensures value { answer_of result ≡ ask_codes g codes.now (ask_starts g codes.now starts.now accepted) }
    ensures watersheds_after { watersheds.new
        ≡ result_of (answer_of result) (watersheds' g codes.now starts.now) watersheds.old }
{
    let half = work.len() / 2;
    watershed_walk::watersheds_of(g, codes, starts, watersheds, &mut work[half..])
}

// Codes and starts to watersheds.
pub fn watersheds(
    g: Grid,
    codes: &[u8],
    starts: &[u32],
    watersheds: &mut [u32],
    work: &mut [u32],
) -> Result<(), Refusal<u32>>
    ensures { WatershedsPromise g codes.now starts.now watersheds.old watersheds.new
        work.old work.new (answer_of result) }
{
    let given = codes.len();
    let marked = starts.len();
    let wanted = watersheds.len();
    let room = work.len();
    checks::check(g, given, marked, wanted, wanted, wanted, wanted, room)?;
    watersheds_into(g, codes, starts, watersheds, work)
}
