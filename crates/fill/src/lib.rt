// The call `fill` of document 01: elevations to the filled sheet, "what stands after rows × columns passes". Elevations are read once as
// keys into the work buffer, their cells sorted by key, flooded through that order, and the levels written as elevations. Proved by the
// certificate of fill_laws: what the flood leaves is an outlet's own elevation, no cell above both its own and a neighbour's level, and
// the place in the queue bounds the passes that a cell needs. Before the flood voids are marked, where there are any: the first cell of the
// order tells. What the flood has not come to has no chain to an outlet: question 18 costs one scan, and none where every side is open and
// no cell void. The questions 5 to 9 come first, 17 among them; only the work buffer is written before the last loop. `load`,
// `fill_loaded`, `fill_sheet` and `first_stranded` are steps of their own, for other calls.
#![tactic(auto)]

ghost use Rattle.std.specs.Prelude.{◌≡◌, true, false, cond, ◌&&◌, ℕ, ◌+◌, ◌*◌, ◌/◌, ◌<◌, ◌≤◌, ◌^◌, eqb, ltb, length, get_or};
ghost use Rattle.grid.specs.Below.{first_below};
ghost use Rattle.grid.specs.Sheet.{size, at, is_data, SixteenBits};
ghost use Rattle.grid.specs.Outlet.{first_stranded};
ghost use Rattle.grid.specs.Fill.{filled as filled'};
ghost use Rattle.grid.specs.Promises.{FillPromise};
ghost use Rattle.refusals.specs.Answers.{answer_of};
ghost use Rattle.cells.specs.Keys.{key_of, level_of};
ghost use Rattle.cells.specs.Marks.{Marked};
ghost use Rattle.key_sort.specs.Order.{AreKeys, Sorted};
ghost use Rattle.fill.specs.Words.{sheet_in, SameVoids, Words, is_unreached};

use cells::Sheet;
use grid::Grid;
use refusals::{Question, Refusal};

// Puts the keys of the elevations first into the work buffer.
pub fn load(elevations: &[i16], work: &mut [u32])
    requires { length elevations.now ≤ length work.old }
    ensures by_index { (c : ℕ) → c < length elevations.now →
        get_or work.new c 0 ≡ key_of (at elevations.now c) }
    ensures sixteen_bits { SixteenBits elevations.now }
{
    for i in 0..elevations.len() {
        work[i] = cells::key_at(elevations, i) as u32;
    }
}

// Whether the word of a cell has a key and no level above it.
fn is_unreached(word: u32) -> bool
    ensures { result ≡ (ltb 0 word && ltb word 65536) }
{
    if word == 0 {
        return false;
    }
    word < 65536
}

// The first data cell that the flood has not come to, or `n`.
fn first_unreached(n: usize, work: &[u32]) -> usize
    requires n_in_bounds { n ≤ length work.now }
    requires n_bound { n < 2 ^ 24 }
    ensures { result ≡ first_below n (is_unreached work.now) }
{
    for c in 0..n {
        if is_unreached(work[c]) {
            return c;
        }
    }
    n
}

// Whether some cell is void: the first of the order has the lowest key.
fn lowest_is_void(n: usize, work: &[u32]) -> bool
    requires n_bound { n < 2 ^ 24 }
    requires n_in_bounds { n + n ≤ length work.now }
    requires sorted { Sorted n work.now }
    ensures { result ≡ false → (c : ℕ) → c < n → 0 < get_or work.now c 0 }
{
    if n == 0 {
        return false;
    }
    let lowest = work[n] as usize;
    work[lowest] == 0
}

// Marks the voids of the sheet whose keys stand in order in the work buffer, if it has any; whether it may have. `elevations` has the same
// voids.
fn mark_voids(s: &Sheet, work: &mut [u32]) -> bool
    requires g_in_bounds { 4 * size s.now.grid ≤ length work.old }
    requires sorted { Sorted (size s.now.grid) work.old }
    requires same_voids { SameVoids s.now.grid s.now.elevations.now work.old }
    ensures marked { Marked s.now.grid s.now.elevations.now (length work.old / 2 + size s.now.grid) work.new }
    ensures c_value { result ≡ false → (c : ℕ) → c < size s.now.grid → is_data s.now.elevations.now c ≡ true }
    ensures by_index { (i : ℕ) → i < length work.old / 2 → get_or work.new i 0 ≡ get_or work.old i 0 }
{
    if !lowest_is_void(s.grid.rows * s.grid.cols, work) {
        return false;
    }
    outside::mark(s, work);
    true
}

// Whether every data cell has a chain to an outlet, whatever the elevations: every side is open, and no cell is void.
fn all_drain(g: Grid, voids: bool) -> bool
    ensures { result ≡ true → (g.sides ≡ 0) × (voids ≡ false) }
{
    if g.sides != 0 {
        return false;
    }
    !voids
}

// Floods the sheet whose keys stand in the work buffer: the first stranded cell, or the number of cells, and then each word is the cell's
// key, and above it the filled one. `elevations` has the same voids; their marks stay.
fn fill_words(s: &Sheet, work: &mut [u32]) -> usize
    requires g_in_bounds { 4 * size s.now.grid ≤ length work.old }
    requires are_keys { AreKeys (size s.now.grid) work.old }
    requires same_voids { SameVoids s.now.grid s.now.elevations.now work.old }
    ensures value { result ≡ first_stranded s.now.grid (sheet_in (size s.now.grid) work.old) }
    ensures words { result ≡ size s.now.grid → Words s.now.grid (sheet_in (size s.now.grid) work.old) work.new }
    ensures marked { Marked s.now.grid (sheet_in (size s.now.grid) work.old) (length work.old / 2 + size s.now.grid) work.new }
{
    let n = s.grid.rows * s.grid.cols;
    let half = work.len() / 2;
    key_sort::sort(n, work);
    let voids = mark_voids(s, work);
    flood::flood(s.grid, half, work);
    if all_drain(s.grid, voids) {
        return n;
    }
    first_unreached(n, work)
}

// Puts the levels of the flood, above the keys, as elevations into `filled`.
fn unload(n: usize, work: &[u32], filled: &mut [i16])
    requires n_in_bounds { n ≤ length work.now }
    requires filled_len { length filled.old ≡ n }
    ensures { (c : ℕ) → c < n → at filled.new c ≡ level_of (get_or work.now c 0 / 65536) }
{
    for i in 0..n {
        filled[i] = cells::elevation(work[i] / 65536);
    }
}

// Fills the sheet whose keys stand in the work buffer into `filled`: the first stranded cell, and then nothing is written, or the number of
// cells. `elevations` has the same voids; their marks stay.
pub fn fill_loaded(s: &Sheet, filled: &mut [i16], work: &mut [u32]) -> usize
    requires filled_len { length filled.old ≡ size s.now.grid }
    requires g_in_bounds { 4 * size s.now.grid ≤ length work.old }
    requires are_keys { AreKeys (size s.now.grid) work.old }
    requires same_voids { SameVoids s.now.grid s.now.elevations.now work.old }
    ensures value { result ≡ first_stranded s.now.grid (sheet_in (size s.now.grid) work.old) }
    ensures filled_after { filled.new
        ≡ cond (eqb result (size s.now.grid)) (filled' s.now.grid (sheet_in (size s.now.grid) work.old)) filled.old }
    ensures marked { Marked s.now.grid (sheet_in (size s.now.grid) work.old) (length work.old / 2 + size s.now.grid) work.new }
{
    let n = s.grid.rows * s.grid.cols;
    let first = fill_words(s, work);
    if first < n {
        return first;
    }
    unload(n, work, filled);
    first
}

// Loads a sheet and floods it: the first stranded cell, or the number of cells, and then the words of its filled sheet.
pub fn fill_sheet(s: &Sheet, work: &mut [u32]) -> usize
    requires { 4 * size s.now.grid ≤ length work.old }
    ensures value { result ≡ first_stranded s.now.grid s.now.elevations.now }
    ensures words { result ≡ size s.now.grid → Words s.now.grid s.now.elevations.now work.new }
    ensures sixteen_bits { SixteenBits s.now.elevations.now }
{
    load(s.elevations, work);
    fill_words(s, work)
}

// Question 18: the first data cell that has no chain to an outlet, or the number of cells.
pub fn first_stranded(s: &Sheet, work: &mut [u32]) -> usize
    requires { 4 * size s.now.grid ≤ length work.old }
    ensures { result ≡ first_stranded s.now.grid s.now.elevations.now }
{
    if all_drain(s.grid, outside::has_void(s.elevations)) {
        return s.elevations.len();
    }
    fill_sheet(s, work)
}

// Questions 5 to 9, with 17, then 18, and after a yes the filled sheet.
pub fn fill(
    g: Grid,
    elevations: &[i16],
    filled: &mut [i16],
    work: &mut [u32],
) -> Result<(), Refusal<u32>>
    ensures { FillPromise g elevations.now filled.old filled.new work.old
        work.new (answer_of result) }
{
    let given = elevations.len();
    let wanted = filled.len();
    let room = work.len();
    checks::check_outlets(g, given, wanted, wanted, wanted, wanted, room)?;
    let sheet = Sheet {
        grid: g,
        elevations,
    };
    load(elevations, work);
    let first = fill_loaded(&sheet, filled, work);
    if first < given {
        return Err(Question::Chains.at(first as u32));
    }
    Ok(())
}
