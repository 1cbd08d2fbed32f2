// Which voids are outside (document 02, "radar gaps over lakes"): "a void counts as outside only if neighbouring voids lead from it, itself
// included, to a void on an open side of the border". Marks stand in the last quarter of the work buffer, `Marked` of cells/specs/Marks.
// Each void gets 1 and each data cell 0; then side by side the voids of the open sides get 2 and are queued; and `join` gives 2 to what
// voids join to them. A sheet without voids needs no marks: `has_void` asks for that in one pass of a fixed few instructions a cell.
#![tactic(auto)]

ghost use Rattle.std.specs.Prelude.{◌≡◌, true, false, cond, ℕ, ◌+◌, ◌*◌, ◌/◌, ◌<◌, ◌≤◌, ◌^◌, length, get_or};
ghost use Rattle.grid.specs.Sheet.{size, is_data, neighbour};
ghost use Rattle.grid.specs.Outlet.{is_open, on_open_side};
ghost use Rattle.cells.specs.Marks.{Marked};
ghost use Rattle.join_laws.specs.Search.{Parts};
ghost use Rattle.outside.specs.Seeds.{SeedsOn, Side};

use cells::Sheet;
use grid::Grid;

// Whether some cell may be void: the lowest key is 0.
pub fn has_void(elevations: &[i16]) -> bool
    ensures { result ≡ false → (c : ℕ) → c < length elevations.now → is_data elevations.now c ≡ true }
{
    let mut low: u16 = 65535;
    for cell in 0..elevations.len() {
        low = low.min(cells::short_key_at(elevations, cell));
    }
    low == 0
}

// The mark of a cell by its key: 1 for a void.
fn void_mark(key: u16) -> u32
    ensures { (key ≡ 0 → result ≡ 1) × ((key ≡ 0 → ⊥) → result ≡ 0) }
{
    if key == 0 { 1 } else { 0 }
}

// Marks every cell as a void that is not outside, or as data.
fn mark_voids(elevations: &[i16], base: usize, work: &mut [u32])
    requires { base + length elevations.now ≤ length work.old }
    ensures by_index { (c : ℕ) → c < length elevations.now →
        get_or work.new (base + c) 0 ≡ cond (is_data elevations.now c) 0 1 }
    ensures by_index_2 { (i : ℕ) → i < base → get_or work.new i 0 ≡ get_or work.old i 0 }
{
    for cell in 0..elevations.len() {
        work[base + cell] = void_mark(cells::short_key_at(elevations, cell));
    }
}

// Queues the voids of a side, whose cells lie `stride` apart from `start` on, if it is open; `p` is the step that crosses it.
fn seed_side(
    g: Grid,
    half: usize,
    base: usize,
    p: usize,
    start: usize,
    stride: usize,
    count: usize,
    len: usize,
    work: &mut [u32],
) -> usize
    requires parts { Parts (size g) base half (length work.old) }
    requires half_le_base { half ≤ base }
    requires p_bound { p < 8 }
    requires side { Side g p start stride count }
    requires seeds_on { SeedsOn g base half work.old work.old len }
    ensures seeds_on_2 { SeedsOn g base half work.old work.new result }
    ensures fact { is_open g p ≡ true → (c : ℕ) → c < size g → neighbour g c p ≡ size g →
        get_or work.new (base + c) 0 ≡ 1 → ⊥ }
{
    if !cells::is_open(g, p) {
        return len;
    }
    let mut tail = len;
    for i in 0..count {
        tail = join::touch(
            g.rows * g.cols,
            half,
            base,
            2,
            tail,
            start + i * stride,
            work,
        );
    }
    tail
}

// Queues the voids of all open sides; how many they are.
fn seed_sides(g: Grid, half: usize, base: usize, work: &mut [u32]) -> usize
    requires parts { Parts (size g) base half (length work.old) }
    requires half_le_base { half ≤ base }
    requires rows_nonzero { (0 < g.rows) × (0 < g.cols) }
    requires seeds_on { SeedsOn g base half work.old work.old 0 }
    ensures seeds_on_2 { SeedsOn g base half work.old work.new result }
    ensures by_index { (c : ℕ) → c < size g → on_open_side g c ≡ true → get_or work.new (base + c) 0 ≡ 1 → ⊥ }
{
    let rows = g.rows;
    let cols = g.cols;
    let west = seed_side(g, half, base, 5, 0, cols, rows, 0, work);
    let east = seed_side(g, half, base, 1, cols - 1, cols, rows, west, work);
    let north = seed_side(g, half, base, 7, 0, 1, cols, east, work);
    seed_side(g, half, base, 3, (rows - 1) * cols, 1, cols, north, work)
}

// Marks every void; what lies in the first half of the work buffer stays.
pub fn mark(s: &Sheet, work: &mut [u32])
    requires { 4 * size s.now.grid ≤ length work.old }
    ensures marked { Marked s.now.grid s.now.elevations.now (length work.old / 2 + size s.now.grid) work.new }
    ensures by_index { (i : ℕ) → i < length work.old / 2 → get_or work.new i 0 ≡ get_or work.old i 0 }
{
    let n = s.grid.rows * s.grid.cols;
    if n == 0 {
        return;
    }
    let half = work.len() / 2;
    let base = half + n;
    mark_voids(s.elevations, base, work);
    let len = seed_sides(s.grid, half, base, work);
    join::join(s.grid, half, base, 2, len, work);
}
