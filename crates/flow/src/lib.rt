// Flow directions (document 01, "Directions"): from any sheet the code of every cell, in linear time, or the first data cell without a
// level. First each cell of level 0, an outlet or a cell with a drop above 0, gets its code as its word in the work buffer, row by row, and
// a void a word of its own; then `levels` finds the other levels; then one scan looks for a cell without a word; and only when there is
// none are codes written, row by row too. Proved by the certificate of `flow_laws`: the words that `levels` leaves hold the levels of the
// definition, so the code of a flat cell is the choice among its equal neighbours one level lower.
#![tactic(auto)]

ghost use Rattle.std.specs.Prelude.{◌≡◌, true, false, cond, List, ℕ, suc, ◌+◌, ◌*◌, ◌/◌, ◌%◌, ◌<◌, ◌≤◌, ◌^◌, eqb, length, get_or, set};
ghost use Rattle.grid.specs.declared.Grid.{Grid};
ghost use Rattle.grid.specs.Below.{table as table', first_below};
ghost use Rattle.grid.specs.Sheet.{size, at, is_data, code_at};
ghost use Rattle.grid.specs.Directions.{direction_at, directions, flat_sum, first_unlevelled};
ghost use Rattle.shape_laws.specs.Shaped.{Shaped};
ghost use Rattle.cells.specs.Keys.{level_of};
ghost use Rattle.cells.specs.Marks.{Marked};
ghost use Rattle.cells.specs.Steps.{Inner};
ghost use Rattle.choice_table.specs.Choices.{choices as choices'};
ghost use Rattle.slopes.specs.Steepest.{inner_sum};
ghost use Rattle.flow_laws.specs.Words.{word_level, levels_in, first_word, VoidsMarked, Seeded, Levelled};
ghost use Rattle.flow.specs.Seeding.{WordsTo, MarksIn};
ghost use Rattle.flow.specs.Coding.{NoneLacks, CodesTo};

use cells::{Raster, Sheet, Terrain};
use grid::Grid;

// What is done to a sheet in runs of cells, for the words and for the codes: cells within the border have runs of their own, since no step
// from them leaves the sheet.
trait Runs<W>: Copy {
    ghost sheet: { Self → Grid };

    // what holds once the cells before one are done
    ghost done: { Self → ℕ → List W → Type 0 };

    // Goes on with the cells from `from` to `to`, which may lie on the border.
    fn border_run(self, from: usize, to: usize, out: &mut [W])
        requires from_le_to { (from ≤ to) × (to ≤ size (sheet self)) }
        requires before { done self from out.old }
        ensures { done self to out.new };

    // The same for cells within the border.
    fn inner_run(self, from: usize, to: usize, out: &mut [W])
        requires from_le_to { (from ≤ to) × (to ≤ size (sheet self)) }
        requires before { done self from out.old }
        requires by_index { (c : ℕ) → from ≤ c → c < to →
            Inner (sheet self) (c / (sheet self).cols) (c % (sheet self).cols) }
        ensures { done self to out.new };
}

// Row by row the run that ends with the row's first cell, and the one within the border; then the rest. A sheet of fewer than three rows or
// columns is all border.
fn walk<W, R: Runs<W>>(g: Grid, runs: R, out: &mut [W])
    requires g_bound { size g < 2 ^ 24 }
    requires sheet { R.sheet runs ≡ g }
    requires before { R.done runs 0 out.old }
    ensures { R.done runs (size g) out.new }
{
    let cols = g.cols;
    let rows = if cols < 3 { 0 } else { g.rows };
    let mut from = 0;
    for row in 2..rows {
        let left = (row - 1) * cols + 1;
        let right = row * cols - 1;
        runs.border_run(from, left, out);
        runs.inner_run(left, right, out);
        from = right;
    }
    runs.border_run(from, g.rows * cols, out);
}

// The word of any cell before the search: an outlet's code, the choice among the largest drops of another data cell, which is 0 for a cell
// of a flat, and 256 for a void, which is no code. The marks of voids stand in the work buffer from `base` on.
fn edge_word(t: &Terrain, table: &[u8; 256], cell: usize, base: usize, work: &[u32]) -> u32
    requires cell_bound { cell < size t.now.raster.grid }
    requires table_value { table.now ≡ choices' }
    requires g_in_bounds { base + size t.now.raster.grid ≤ length work.now }
    requires marked { Marked t.now.raster.grid t.now.elevations.now base work.now }
    ensures { result ≡ first_word t.now.raster.grid t.now.elevations.now cell }
{
    if cells::key_at(t.elevations, cell) == 0 {
        return 256;
    }
    let code = cells::outlet_code(t.raster.grid, t.elevations, cell, base, work);
    if code != 0 {
        return code as u32;
    }
    choice_table::choose(
        table,
        slopes::edge_sum(t.raster.grid, t.elevations, cell) as usize,
    ) as u32
}

// Puts the word of a cell within the border in the place of its sum, which is 256 near a void. The marks are lent on only there, so that the
// loop over cells far from voids keeps its registers.
#[tactic(auto, using(crate::proofs::Seeds::sum_word))]
fn set_inner_word(t: &Terrain, table: &[u8; 256], base: usize, cell: usize, work: &mut [u32])
    requires marks_in { MarksIn t.now.raster.grid t.now.elevations.now base work.old }
    requires cell_bound { cell < size t.now.raster.grid }
    requires table_value { table.now ≡ choices' }
    requires cell_value { get_or work.old cell 0 ≡ inner_sum t.now.raster.grid t.now.elevations.now cell }
    ensures { work.new ≡ set work.old cell (first_word t.now.raster.grid t.now.elevations.now cell) }
{
    let sum = work[cell];
    if sum < 256 {
        work[cell] = choice_table::choose(table, sum as usize) as u32;
        return;
    }
    work[cell] = edge_word(t, table, cell, base, work);
}

// How the cells of a sheet get their words.
#[derive(Clone, Copy)]
struct Words<'a> {
    t: &'a Terrain<'a>,
    table: &'a [u8; 256],
    base: usize,
    ghost table_value: { table.now ≡ choices' },
}

impl Runs<u32> for Words<'_> {
    ghost sheet = { λ s. s.t.now.raster.grid };

    ghost done = { λ s n work. WordsTo s.t.now.raster.grid s.t.now.elevations.now n work
        × MarksIn s.t.now.raster.grid s.t.now.elevations.now s.base work };

    fn border_run(self, from: usize, to: usize, work: &mut [u32]) {
        for cell in from..to {
            work[cell] = edge_word(self.t, self.table, cell, self.base, work);
        }
    }

    fn inner_run(self, from: usize, to: usize, work: &mut [u32]) {
        let Words { t, table, base, .. } = self;
        slopes::row_sums(t, from, to, work);
        for cell in from..to {
            set_inner_word(t, table, base, cell, work);
        }
    }
}

// Puts the first word of every cell into the work buffer.
fn seed(t: &Terrain, base: usize, work: &mut [u32])
    requires { MarksIn t.now.raster.grid t.now.elevations.now base work.old }
    ensures { Seeded t.now.raster.grid t.now.elevations.now work.new }
{
    let table = choice_table::choices();
    let runs = Words {
        t,
        table: &table,
        base,
    };
    walk(t.raster.grid, runs, work);
}

// The first of `n` cells without a word, or `n`: a void has one, so it is the first data cell without a level.
fn first_without(n: usize, work: &[u32]) -> usize
    requires { n ≤ length work.now }
    ensures { result ≡ first_below n (λ c. eqb (get_or work.now c 0) 0) }
{
    work[..n].iter().position(|word| *word == 0).unwrap_or(n)
}

// The lowest word of the level below that of `word`.
fn lowest_below(word: u32) -> u32
    requires { 257 ≤ word }
    ensures value { word ≡ 257 → result ≡ 1 }
    ensures result_value { 257 < word → result + 1 ≡ word }
{
    if word == 257 { 1 } else { word - 1 }
}

// Whether the cell `m` has the elevation of the key `k` and the level below that of `word`, whose lowest word is `low`; a cell of that
// elevation is no void. Both are read before either is tested, so that the compiler can join the tests.
fn is_below(elevations: &[i16], work: &[u32], k: u16, low: u32, word: u32, m: usize) -> bool
    requires elevations_in_bounds { length elevations.now ≤ length work.now }
    requires m_in_bounds { m < length elevations.now }
    requires k_nonzero { 0 < k }
    requires le_word { 257 ≤ word }
    requires low_value { word ≡ 257 → low ≡ 1 }
    requires low_value_2 { 257 < word → low + 1 ≡ word }
    requires fact { is_data elevations.now m ≡ true → get_or work.now m 0 ≡ 256 → ⊥ }
    ensures m_value { result ≡ true → (at elevations.now m ≡ level_of k)
        × ((suc (word_level (get_or work.now m 0)) ≡ word_level word) × (0 < word_level (get_or work.now m 0))) }
    ensures fact_2 { result ≡ false → at elevations.now m ≡ level_of k
        → suc (word_level (get_or work.now m 0)) ≡ word_level word → 0 < word_level (get_or work.now m 0) → ⊥ }
{
    let own = cells::short_key_at(elevations, m);
    let near = work[m];
    if own != k {
        return false;
    }
    if near < low {
        return false;
    }
    near < word
}

// The sum with the code of the position `p`, if it is a member.
#[tactic(auto, using(crate::proofs::Flats::code_doubles))]
fn with_code(sum: usize, p: usize, chosen: bool) -> usize
    requires p_bound { p < 8 }
    requires sum_bound { sum < code_at p }
    ensures value { result ≡ sum + cond chosen (code_at p) 0 }
    ensures upper_bound { result < code_at (p + 1) }
{
    if chosen {
        sum + cells::Direction::code(p) as usize
    } else {
        sum
    }
}

// The sum of the codes of the equal neighbours one level lower; `k` is the cell's key, `word` its word, and `low` the lowest word of the
// level below. INNER says that the cell lies within the border; off the sheet there is no equal neighbour.
fn flat_sum<const INNER: bool>(
    t: &Terrain,
    work: &[u32],
    cell: usize,
    k: u16,
    low: u32,
    word: u32,
) -> usize
    requires g_in_bounds { size t.now.raster.grid ≤ length work.now }
    requires cell_bound { cell < size t.now.raster.grid }
    requires cell_value { at t.now.elevations.now cell ≡ level_of k }
    requires word_value { word ≡ get_or work.now cell 0 }
    requires k_nonzero { 0 < k }
    requires le_word { 257 ≤ word }
    requires low_value { (word ≡ 257 → low ≡ 1) × (257 < word → low + 1 ≡ word) }
    requires voids_marked { VoidsMarked t.now.raster.grid t.now.elevations.now work.now }
    requires inner { INNER ≡ true → Inner t.now.raster.grid (cell / t.now.raster.grid.cols) (cell % t.now.raster.grid.cols) }
    ensures value { result ≡ flat_sum t.now.raster.grid t.now.elevations.now (levels_in t.now.raster.grid work.now) cell }
    ensures upper_bound { result < 256 }
{
    let mut sum: usize = 0;
    for p in 0..8 {
        let below = match t.raster.near(cell, INNER, p) {
            Some(m) => is_below(t.elevations, work, k, low, word, m),
            None => false,
        };
        sum = with_code(sum, p, below);
    }
    sum
}

// The code of a cell of a sheet on which every data cell has a level; INNER says that the cell lies within the border.
fn cell_code<const INNER: bool>(t: &Terrain, table: &[u8; 256], work: &[u32], cell: usize) -> u8
    requires g_in_bounds { size t.now.raster.grid ≤ length work.now }
    requires table_value { table.now ≡ choices' }
    requires cell_bound { cell < size t.now.raster.grid }
    requires levelled { Levelled t.now.raster.grid t.now.elevations.now work.now }
    requires nonzero { 0 < get_or work.now cell 0 }
    requires inner { INNER ≡ true → Inner t.now.raster.grid (cell / t.now.raster.grid.cols) (cell % t.now.raster.grid.cols) }
    ensures { result ≡ direction_at t.now.raster.grid t.now.elevations.now (levels_in t.now.raster.grid work.now) cell }
{
    let word = work[cell];
    if word < 257 {
        return (word % 256) as u8; // 0 for a void
    }
    let k = cells::short_key_at(t.elevations, cell);
    let low = lowest_below(word);
    choice_table::choose(table, flat_sum::<INNER>(t, work, cell, k, low, word))
}

// How the cells of a sheet get their codes, once each has a word.
#[derive(Clone, Copy)]
struct Codes<'a> {
    t: &'a Terrain<'a>,
    table: &'a [u8; 256],
    work: &'a [u32],
    ghost g_in_bounds: { size t.now.raster.grid ≤ length work.now },
    ghost table_value: { table.now ≡ choices' },
    ghost none_lacks: { NoneLacks t.now.raster.grid work.now },
}

impl Codes<'_> {
    // Goes on with codes for the cells from `from` to `to`; INNER says that they lie within the border. Cells within the border and cells on
    // it have loops of their own, since the compiler makes worse code of one loop that chooses at each cell.
    fn run<const INNER: bool>(self, from: usize, to: usize, codes: &mut [u8])
        requires levelled { Levelled self.t.now.raster.grid self.t.now.elevations.now self.work.now }
        requires codes_len { length codes.old ≡ size self.t.now.raster.grid }
        requires from_le_to { (from ≤ to) × (to ≤ size self.t.now.raster.grid) }
        requires codes_to { CodesTo self.t.now.raster.grid self.t.now.elevations.now self.work.now from codes.old }
        requires by_index { INNER ≡ true → (c : ℕ) → from ≤ c → c < to →
            Inner self.t.now.raster.grid (c / self.t.now.raster.grid.cols) (c % self.t.now.raster.grid.cols) }
        ensures { CodesTo self.entry.t.now.raster.grid self.entry.t.now.elevations.now self.entry.work.now to codes.new }
    {
        let Codes { t, table, work, .. } = self;
        let t = *t; // its own copy, so that a store makes nothing be read again
        for cell in from..to {
            codes[cell] = cell_code::<INNER>(&t, table, work, cell);
        }
    }
}

impl Runs<u8> for Codes<'_> {
    ghost sheet = { λ s. s.t.now.raster.grid };

    ghost done = { λ s n codes. Levelled s.t.now.raster.grid s.t.now.elevations.now s.work.now
        × (length codes ≡ size s.t.now.raster.grid)
        × CodesTo s.t.now.raster.grid s.t.now.elevations.now s.work.now n codes };

    fn border_run(self, from: usize, to: usize, codes: &mut [u8]) {
        self.run::<false>(from, to, codes);
    }

    fn inner_run(self, from: usize, to: usize, codes: &mut [u8]) {
        self.run::<true>(from, to, codes);
    }
}

// Writes the code of every cell.
fn write_codes(t: &Terrain, work: &[u32], codes: &mut [u8])
    requires g_in_bounds { size t.now.raster.grid ≤ length work.now }
    requires codes_len { length codes.old ≡ size t.now.raster.grid }
    requires levelled { Levelled t.now.raster.grid t.now.elevations.now work.now }
    requires none_lacks { NoneLacks t.now.raster.grid work.now }
    ensures { codes.new ≡ table' (size t.now.raster.grid)
        (direction_at t.now.raster.grid t.now.elevations.now (levels_in t.now.raster.grid work.now)) }
{
    let table = choice_table::choices();
    let runs = Codes {
        t,
        table: &table,
        work,
    };
    walk(t.raster.grid, runs, codes);
}

// The codes of the sheet, or the first data cell without a level, and then the codes stay as they are. The marks of voids stand in the last
// quarter of the work buffer.
pub fn directions_into(s: &Sheet, codes: &mut [u8], work: &mut [u32]) -> usize
    requires codes_len { length codes.old ≡ size s.now.grid }
    requires g_in_bounds { 4 * size s.now.grid ≤ length work.old }
    requires shaped { Shaped s.now.grid }
    requires marked { Marked s.now.grid s.now.elevations.now (length work.old / 2 + size s.now.grid) work.old }
    ensures value { result ≡ first_unlevelled s.now.grid s.now.elevations.now }
    ensures codes_after { codes.new ≡ cond (eqb result (size s.now.grid)) (directions s.now.grid s.now.elevations.now) codes.old }
{
    let t = Terrain {
        raster: Raster::new(s.grid),
        elevations: s.elevations,
    };
    let base = work.len() / 2 + s.grid.rows * s.grid.cols;
    seed(&t, base, work);
    levels::levels(&t, work);
    let first = first_without(s.elevations.len(), work);
    if first < s.elevations.len() {
        return first;
    }
    write_codes(&t, work, codes);
    first
}
