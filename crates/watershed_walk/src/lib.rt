// Watersheds from starts: "A cell's watershed is the label of the first start on its route, itself included, else 0". Each start is made
// the end of its route, so that the walk (crate `walk`) finds the first start or, where there is none, the route's last cell; the
// watershed is the start there. That this is the definition is a law (`route_laws`, `proofs/Starts`). Questions 11 to 13 and 24 are
// answered here too, by way of the same tail.
#![tactic(auto)]

ghost use Rattle.std.specs.Prelude.{◌≡◌, cond, ◌&&◌, ◌++◌, ℕ, ◌+◌, ◌-◌, ◌*◌, ◌<◌, ◌≤◌, ◌^◌, eqb, ltb, length, get_or, take, drop, set};
ghost use Rattle.grid.specs.Below.{table};
ghost use Rattle.grid.specs.Sheet.{size};
ghost use Rattle.grid.specs.Routes.{first_endless, first_bad_start, watersheds as watersheds'};
ghost use Rattle.grid.specs.Checks.{accepted, ask_codes, ask_starts};
ghost use Rattle.grid.specs.Promises.{result_of};
ghost use Rattle.route_laws.specs.Starts.{cut, start_of};
ghost use Rattle.refusals.specs.Answers.{answer_of};
ghost use Rattle.checks.specs.Sizes.{Fits};

use grid::Grid;
use receivers::CodeSheet;
use refusals::{Question, Refusal};

// Makes a start the end of its route.
fn cut_at(n: usize, starts: &[u32], tail: &mut [u32], cell: usize)
    requires n_bound { n < 2 ^ 24 }
    requires starts_len { length starts.now ≡ n }
    requires n_in_bounds { n ≤ length tail.old }
    requires cell_lt_n { cell < n }
    ensures { tail.new
        ≡ set tail.old cell (cond (ltb 0 (get_or starts.now cell 0)) n (get_or tail.old cell 0)) }
{
    if starts[cell] == 0 {
        return;
    }
    tail[cell] = n as u32;
}

// Makes every start the end of its route.
#[tactic(auto, using(crate::proofs::Cutting::cut_to_more))]
fn cut_starts(n: usize, starts: &[u32], tail: &mut [u32])
    requires n_bound { n < 2 ^ 24 }
    requires starts_len { length starts.now ≡ n }
    requires n_in_bounds { n ≤ length tail.old }
    ensures { tail.new ≡ cut n starts.now (take n tail.old) ++ drop n tail.old }
{
    for cell in 0..n {
        cut_at(n, starts, tail, cell);
    }
}

// The start at the cell that the walk found, 0 where there is no route.
#[tactic(auto, using(crate::proofs::Cutting::start_zero, crate::proofs::Cutting::start_at))]
fn start_of(n: usize, starts: &[u32], found: u32) -> u32
    requires n_bound { n < 2 ^ 24 }
    requires starts_len { length starts.now ≡ n }
    requires found_above { n + 1 ≤ found }
    requires found_bound { found ≤ n + 1 + n }
    ensures { result ≡ start_of starts.now (found - (n + 1)) }
{
    let mark = found as usize - (n + 1);
    if mark == 0 { 0 } else { starts[mark - 1] }
}

// The watersheds of what the walk found.
fn read_watersheds(n: usize, starts: &[u32], tail: &[u32], watersheds: &mut [u32])
    requires n_bound { n < 2 ^ 24 }
    requires starts_len { length starts.now ≡ n }
    requires n_in_bounds { n ≤ length tail.now }
    requires watersheds_len { length watersheds.old ≡ n }
    requires by_index { (c : ℕ) → c < n → (n + 1 ≤ get_or tail.now c 0) × (get_or tail.now c 0 ≤ n + 1 + n) }
    ensures { watersheds.new
        ≡ table n (λ (c : ℕ). start_of starts.now (get_or tail.now c 0 - (n + 1))) }
{
    for c in 0..n {
        watersheds[c] = start_of(n, starts, tail[c]);
    }
}

// The watersheds, where 11, 12 and 13 are answered by yes.
fn watersheds_in(codes: &CodeSheet, starts: &[u32], watersheds: &mut [u32], tail: &mut [u32])
    requires starts_len { length starts.now ≡ size codes.now.grid }
    requires watersheds_len { length watersheds.old ≡ size codes.now.grid }
    requires codes_in_bounds { size codes.now.grid ≤ length tail.old }
    requires codes_value { first_endless codes.now.grid codes.now.codes.now ≡ size codes.now.grid }
    requires starts_value { first_bad_start codes.now.grid codes.now.codes.now starts.now ≡ size codes.now.grid }
    ensures { watersheds.new ≡ watersheds' codes.now.grid codes.now.codes.now starts.now }
{
    let n = codes.grid.rows * codes.grid.cols;
    receivers::receivers_from(codes, tail);
    cut_starts(n, starts, tail);
    walk::walk(n, tail);
    read_watersheds(n, starts, tail, watersheds);
}

// Whether a start stands where there is no code.
fn is_stray(code: u8, start: u32) -> bool
    ensures { result ≡ (eqb code 0 && ltb 0 start) }
{
    code == 0 && start > 0
}

// "13. Is the start 0 wherever the code is 0? Place: first cell."
#[tactic(auto, using(crate::proofs::Asking::first_stray_is))]
fn first_bad_start(g: Grid, codes: &[u8], starts: &[u32]) -> usize
    requires codes_len { length codes.now ≡ size g }
    requires starts_len { length starts.now ≡ size g }
    ensures { result ≡ first_bad_start g codes.now starts.now }
{
    for (c, code) in codes.iter().enumerate() {
        if is_stray(*code, starts[c]) {
            return c;
        }
    }
    codes.len()
}

// Questions 13 and 24.
fn starts_check(g: Grid, codes: &[u8], starts: &[u32], tail: &mut [u32]) -> Result<(), Refusal<u32>>
    requires fits { Fits g }
    requires codes_len { length codes.now ≡ size g }
    requires starts_len { length starts.now ≡ size g }
    requires g_in_bounds { size g + size g ≤ length tail.old }
    ensures { answer_of result ≡ ask_starts g codes.now starts.now accepted }
{
    let given = codes.len();
    let stray = first_bad_start(g, codes, starts);
    if stray < given {
        return Err(Question::Starts.at(stray as u32));
    }
    let repeat = repeats::first_repeat(g, starts, tail);
    if repeat < given {
        return Err(Question::StartLabels.at(repeat as u32));
    }
    Ok(())
}

// Questions 11 to 13 and 24.
fn routes_check(g: Grid, codes: &[u8], starts: &[u32], tail: &mut [u32]) -> Result<(), Refusal<u32>>
    requires fits { Fits g }
    requires codes_len { length codes.now ≡ size g }
    requires starts_len { length starts.now ≡ size g }
    requires g_in_bounds { size g + size g ≤ length tail.old }
    ensures { answer_of result ≡ ask_codes g codes.now (ask_starts g codes.now starts.now accepted) }
{
    code_check::codes_check(g, codes, tail)?;
    starts_check(g, codes, starts, tail)
}

// Questions 11 to 13 and 24, and after a yes the watersheds.
pub fn watersheds_of(
    g: Grid,
    codes: &[u8],
    starts: &[u32],
    watersheds: &mut [u32],
    tail: &mut [u32],
) -> Result<(), Refusal<u32>>
    requires fits { Fits g }
    requires codes_len { length codes.now ≡ size g }
    requires starts_len { length starts.now ≡ size g }
    requires watersheds_len { length watersheds.old ≡ size g }
    requires g_in_bounds { size g + size g ≤ length tail.old }
    ensures value { answer_of result ≡ ask_codes g codes.now (ask_starts g codes.now starts.now accepted) }
    ensures watersheds_after { watersheds.new
        ≡ result_of (answer_of result) (watersheds' g codes.now starts.now) watersheds.old }
{
    routes_check(g, codes, starts, tail)?;
    let sheet = CodeSheet { grid: g, codes };
    watersheds_in(&sheet, starts, watersheds, tail);
    Ok(())
}
