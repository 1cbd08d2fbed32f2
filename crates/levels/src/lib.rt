// Levels (document 01, "Directions"): how far each cell of a flat is from a cell of level 0, in steps to equal neighbours. Given the words
// of the cells of level 0 it finds all others in linear time, breadth first: one look at each cell for level 1, then the queue, whose
// cells stand by rising level, so that a cell is marked by the lowest of its equal neighbours. A void has a word of its own, so what has
// none is a data cell. The queue lies in the second half of the work buffer (`queue`). Within the border neighbours lie at fixed offsets;
// on it steps off the sheet find nothing. To ask at each cell which it is makes slower loops. So the first look takes cells within the
// border (INNER) and on it in runs of their own, and the queue's loop is chosen once for a sheet: with every side open (OPEN) no flat cell
// lies on the border (proofs/Within `flat_within`), and nothing is asked; only with closed sides is each queued cell. Proved by the
// certificate of `flow_laws`: each loop keeps the state `Searching`.
#![tactic(auto)]

ghost use Rattle.std.specs.Prelude.{◌≡◌, true, ℕ, ◌+◌, ◌*◌, ◌/◌, ◌%◌, ◌<◌, ◌≤◌, ◌^◌, length, get_or, Decides};
ghost use Rattle.grid.specs.Below.{any_below};
ghost use Rattle.grid.specs.Sheet.{size, at, is_data};
ghost use Rattle.cells.specs.Keys.{level_of};
ghost use Rattle.cells.specs.Steps.{Inner};
ghost use Rattle.flow_laws.specs.Words.{Seeded, Searching, Joining, Levelled};
ghost use Rattle.levels.specs.Beside.{zero_beside};
ghost use Rattle.levels.specs.Touched.{Touched};
ghost use Rattle.levels.specs.Spreading.{Spreading};

use cells::Terrain;

// Marks and queues the cell `m` if it has no word.
fn touch(half: usize, word: u32, tail: usize, m: usize, work: &mut [u32]) -> usize
    requires m_bound { m < 2 ^ 24 }
    requires m_in_bounds { m < length work.old }
    requires tail_in_bounds { get_or work.old m 0 ≡ 0 → half + tail < length work.old }
    ensures { Touched half work.old work.new word tail m result }
{
    if work[m] == 0 {
        queue::put(half, tail, m, m, word, work)
    } else {
        tail
    }
}

// Gives the next level, as `word`, to the equal neighbours of `cell`, the queue's at `head`, that have none. A data cell without a drop has
// no lower neighbour, so two such neighbours are equal, and a void has a word: no elevation is read, and the elevations stand here for the
// contract. Inlined, since both loops over the queue call it: a call for each queued cell is slower.
#[inline(always)]
fn spread_around<const INNER: bool>(
    t: &Terrain,
    half: usize,
    head: usize,
    tail: usize,
    cell: usize,
    word: u32,
    work: &mut [u32],
) -> usize
    requires g_bound_2 { size t.now.raster.grid ≤ half }
    requires g_in_bounds { half + size t.now.raster.grid ≤ length work.old }
    requires spreading { Spreading t.now.raster.grid t.now.elevations.now half work.old head tail cell word 0 }
    requires inner { INNER ≡ true → Inner t.now.raster.grid (cell / t.now.raster.grid.cols) (cell % t.now.raster.grid.cols) }
    ensures { Searching t.now.raster.grid t.now.elevations.now half work.new (size t.now.raster.grid) (head + 1) result }
{
    let mut end = tail;
    for p in 0..8 {
        if let Some(m) = t.raster.near(cell, INNER, p) {
            end = touch(half, word, end, m, work);
        }
    }
    end
}

// Gives the next level to the equal neighbours of the queue's cell at `head` that have none. OPEN says that every side is open, so that the
// cell lies within the border.
fn spread<const OPEN: bool>(
    t: &Terrain,
    half: usize,
    head: usize,
    tail: usize,
    work: &mut [u32],
) -> usize
    requires g_bound_2 { size t.now.raster.grid ≤ half }
    requires g_in_bounds { half + size t.now.raster.grid ≤ length work.old }
    requires head_lt_tail { head < tail }
    requires searching { Searching t.now.raster.grid t.now.elevations.now half work.old (size t.now.raster.grid) head tail }
    requires sides { OPEN ≡ true → t.now.raster.grid.sides ≡ 0 }
    ensures { Searching t.now.raster.grid t.now.elevations.now half work.new (size t.now.raster.grid) (head + 1) result }
{
    let cell = work[half + head] as usize;
    let word = work[cell] + 1;
    if OPEN
        || cells::is_inner(
            t.raster.grid,
            cell / t.raster.grid.cols,
            cell % t.raster.grid.cols,
        )
    {
        spread_around::<true>(t, half, head, tail, cell, word, work)
    } else {
        spread_around::<false>(t, half, head, tail, cell, word, work)
    }
}

// Empties the queue; its length at the end.
fn empty<const OPEN: bool>(t: &Terrain, half: usize, tail: usize, work: &mut [u32]) -> usize
    requires g_bound_2 { size t.now.raster.grid ≤ half }
    requires g_in_bounds { half + size t.now.raster.grid ≤ length work.old }
    requires searching { Searching t.now.raster.grid t.now.elevations.now half work.old (size t.now.raster.grid) 0 tail }
    requires sides { OPEN ≡ true → t.now.raster.grid.sides ≡ 0 }
    ensures { Searching t.now.raster.grid t.now.elevations.now half work.new (size t.now.raster.grid) result result }
{
    let t = *t; // its own copy, as in `run`
    let mut head: usize = 0;
    let mut end = tail;
    while head < end {
        end = spread::<OPEN>(&t, half, head, end, work);
        head += 1;
    }
    end
}

// The same, for whatever sides are open.
fn empty_queue(t: &Terrain, half: usize, tail: usize, work: &mut [u32]) -> usize
    requires g_bound_2 { size t.now.raster.grid ≤ half }
    requires g_in_bounds { half + size t.now.raster.grid ≤ length work.old }
    requires searching { Searching t.now.raster.grid t.now.elevations.now half work.old (size t.now.raster.grid) 0 tail }
    ensures { Searching t.now.raster.grid t.now.elevations.now half work.new (size t.now.raster.grid) result result }
{
    if t.raster.grid.sides == 0 {
        empty::<true>(t, half, tail, work)
    } else {
        empty::<false>(t, half, tail, work)
    }
}

// Whether the cell `m` has level 0 and the elevation of the key `k`: one number of three tests, so that the loop around it has no branch.
fn is_zero_at(elevations: &[i16], k: u16, m: usize, work: &[u32]) -> bool
    requires elevations_in_bounds { length elevations.now ≤ length work.now }
    requires m_in_bounds { m < length elevations.now }
    ensures { Decides result ((at elevations.now m ≡ level_of k) × ((0 < get_or work.now m 0) × (get_or work.now m 0 < 256))) }
{
    let own = cells::short_key_at(elevations, m);
    let word = work[m];
    (own == k) & (word > 0) & (word < 256)
}

// Whether some equal neighbour of a data cell has level 0. Each of the eight is looked at, for the same reason.
fn has_zero<const INNER: bool>(t: &Terrain, cell: usize, work: &[u32]) -> bool
    requires g_in_bounds { size t.now.raster.grid ≤ length work.now }
    requires cell_bound { cell < size t.now.raster.grid }
    requires inner { INNER ≡ true → Inner t.now.raster.grid (cell / t.now.raster.grid.cols) (cell % t.now.raster.grid.cols) }
    requires data { is_data t.now.elevations.now cell ≡ true }
    ensures { result ≡ any_below 8 (zero_beside t.now.raster.grid t.now.elevations.now work.now cell) }
{
    let k = cells::short_key_at(t.elevations, cell);
    let mut found = false;
    for p in 0..8 {
        if let Some(m) = t.raster.near(cell, INNER, p) {
            found |= is_zero_at(t.elevations, k, m, work);
        }
    }
    found
}

// Gives level 1 to a cell if it has no level and lies beside an equal cell of level 0.
fn join<const INNER: bool>(
    t: &Terrain,
    half: usize,
    cell: usize,
    tail: usize,
    work: &mut [u32],
) -> usize
    requires g_bound_2 { size t.now.raster.grid ≤ half }
    requires g_in_bounds { half + size t.now.raster.grid ≤ length work.old }
    requires cell_bound { cell < size t.now.raster.grid }
    requires inner { INNER ≡ true → Inner t.now.raster.grid (cell / t.now.raster.grid.cols) (cell % t.now.raster.grid.cols) }
    requires joining { Joining t.now.raster.grid t.now.elevations.now half work.old cell tail }
    ensures { Joining t.now.raster.grid t.now.elevations.now half work.new (cell + 1) result }
{
    if work[cell] != 0 {
        return tail;
    }
    if has_zero::<INNER>(t, cell, work) {
        queue::put(half, tail, cell, cell, 257, work)
    } else {
        tail
    }
}

// Goes on from `first` cells of level 1 over the cells from `from` to `to`; how many there are then.
fn run<const INNER: bool>(
    t: &Terrain,
    half: usize,
    from: usize,
    to: usize,
    first: usize,
    work: &mut [u32],
) -> usize
    requires g_bound_2 { size t.now.raster.grid ≤ half }
    requires g_in_bounds { half + size t.now.raster.grid ≤ length work.old }
    requires from_le_to { (from ≤ to) × (to ≤ size t.now.raster.grid) }
    requires by_index { INNER ≡ true → (c : ℕ) → from ≤ c → c < to → Inner t.now.raster.grid (c / t.now.raster.grid.cols) (c % t.now.raster.grid.cols) }
    requires joining { Joining t.now.raster.grid t.now.elevations.now half work.old from first }
    ensures { Joining t.now.raster.grid t.now.elevations.now half work.new to result }
{
    let t = *t; // its own copy, so that a store makes nothing be read again
    let mut tail = first;
    for cell in from..to {
        tail = join::<INNER>(&t, half, cell, tail, work);
    }
    tail
}

// Goes on over a row within the border, from its second cell to the first of the next row. The walk of `flow` hands nothing from run to run;
// here it is the length of the queue, so that this one is plainer by itself.
fn round_row(t: &Terrain, half: usize, row: usize, first: usize, work: &mut [u32]) -> usize
    requires g_bound_2 { size t.now.raster.grid ≤ half }
    requires g_in_bounds { half + size t.now.raster.grid ≤ length work.old }
    requires le_row { (1 ≤ row) × (row + 2 ≤ t.now.raster.grid.rows) × (3 ≤ t.now.raster.grid.cols) }
    requires joining { Joining t.now.raster.grid t.now.elevations.now half work.old (row * t.now.raster.grid.cols + 1) first }
    ensures { Joining t.now.raster.grid t.now.elevations.now half work.new ((row + 1) * t.now.raster.grid.cols + 1) result }
{
    let cols = t.raster.grid.cols;
    let from = row * cols + 1;
    let to = from + (cols - 2);
    let tail = run::<true>(t, half, from, to, first, work);
    run::<false>(t, half, to, to + 2, tail, work)
}

// Goes over a sheet with cells within its border.
fn round_rows(t: &Terrain, half: usize, work: &mut [u32]) -> usize
    requires g_bound_2 { size t.now.raster.grid ≤ half }
    requires g_in_bounds { half + size t.now.raster.grid ≤ length work.old }
    requires le_rows { (3 ≤ t.now.raster.grid.rows) × (3 ≤ t.now.raster.grid.cols) }
    requires joining { Joining t.now.raster.grid t.now.elevations.now half work.old 0 0 }
    ensures { Joining t.now.raster.grid t.now.elevations.now half work.new (size t.now.raster.grid) result }
{
    let last = t.raster.grid.rows - 1;
    let mut tail = run::<false>(t, half, 0, t.raster.grid.cols + 1, 0, work);
    for row in 1..last {
        tail = round_row(t, half, row, tail, work);
    }
    run::<false>(
        t,
        half,
        last * t.raster.grid.cols + 1,
        t.elevations.len(),
        tail,
        work,
    )
}

// Finds the cells of level 1, row by row; how many there are. A sheet of fewer than three rows or columns is all border.
fn first_round(t: &Terrain, half: usize, work: &mut [u32]) -> usize
    requires g_bound_2 { size t.now.raster.grid ≤ half }
    requires g_in_bounds { half + size t.now.raster.grid ≤ length work.old }
    requires seeded { Seeded t.now.raster.grid t.now.elevations.now work.old }
    ensures { Searching t.now.raster.grid t.now.elevations.now half work.new (size t.now.raster.grid) 0 result }
{
    if t.raster.grid.rows < 3 || t.raster.grid.cols < 3 {
        run::<false>(t, half, 0, t.elevations.len(), 0, work)
    } else {
        round_rows(t, half, work)
    }
}

// Finds the level of every cell that has one, from the words of the cells of level 0 in the first half of the work buffer.
pub fn levels(t: &Terrain, work: &mut [u32])
    requires g_in_bounds { 4 * size t.now.raster.grid ≤ length work.old }
    requires seeded { Seeded t.now.raster.grid t.now.elevations.now work.old }
    ensures { Levelled t.now.raster.grid t.now.elevations.now work.new }
{
    let half = work.len() / 2;
    let tail = first_round(t, half, work);
    empty_queue(t, half, tail, work);
}
