// The flood of document 01's "Fill", in linear time: through the cells in order of key; a cell that is not reached, and is an outlet or
// beside a reached cell, is reached at its own key, and so is what lies no higher beside it, and beside that, through the queue of waiting
// cells in the second half of the work buffer (`queue`). Proved by the state in flood_laws: `Between` two cells of the order, `During` the
// emptying of the queue. Each function says what it makes of that state.
#![tactic(auto)]

ghost use Rattle.std.specs.Prelude.{◌≡◌, true, false, ◌⊎◌, ℕ, ◌+◌, ◌*◌, ◌/◌, ◌%◌, ◌<◌, ◌≤◌, ◌^◌, length, get_or, set};
ghost use Rattle.grid.specs.Sheet.{size};
ghost use Rattle.key_sort.specs.Order.{Sorted};
ghost use Rattle.flood_laws.specs.Flood.{CellOf, Between, During, Spread, Wanted, Touched, Room};
ghost use Rattle.flood_laws.specs.Flood.{ReachedAreData, OutsideOrReached, Opening};
ghost use Rattle.flood_laws.specs.Packed.{front_of, back_of};
ghost use Rattle.cells.specs.Steps.{Inner};

use cells::Raster;
use grid::Grid;

// Whether the cell `m` holds data, is not reached and has a key of at most `v`.
fn wanted(n: usize, v: u32, m: usize, work: &[u32], half: usize) -> bool
    requires n_in_bounds { n ≤ length work.now }
    requires v_bound { v < 65536 }
    requires m_lt_n { m < n }
    ensures wanted { result ≡ true → Wanted n (front_of n half work.now) (back_of n half work.now) v m }
    ensures fact { result ≡ false → CellOf n (front_of n half work.now) m → (0 < get_or (back_of n half work.now) (n + m) 0)
        ⊎ (v < get_or (front_of n half work.now) m 0) }
{
    let word = work[m];
    if word == 0 {
        return false;
    }
    if v < word {
        return false;
    }
    true
}

// Reaches the cell `m` at the level `v`, and queues it.
fn reach(n: usize, half: usize, v: u32, len: usize, m: usize, work: &mut [u32]) -> usize
    requires n_bound { n < 2 ^ 24 }
    requires n_bound_2 { n + n ≤ half }
    requires n_in_bounds { half + n ≤ length work.old }
    requires v_bound { v < 65536 }
    requires m_bound { get_or work.old m 0 < 65536 }
    requires m_lt_n { m < n }
    requires len_lt_n { len < n }
    ensures value { result ≡ len + 1 }
    ensures work_after { work.new ≡ set (set work.old m (get_or work.old m 0 + v * 65536)) (half + len) m }
{
    let word = work[m];
    queue::put(half, len, m, m, word + v * 65536, work)
}

// Reaches the cell `m` if it is wanted.
fn touch(n: usize, half: usize, v: u32, len: usize, m: usize, work: &mut [u32]) -> usize
    requires n_bound { n < 2 ^ 24 }
    requires n_bound_2 { n + n ≤ half }
    requires n_in_bounds { half + n ≤ length work.old }
    requires v_bound { v < 65536 }
    requires room { Room n (back_of n half work.old) len }
    requires m_lt_n { m < n }
    ensures front_unchanged { front_of n half work.new ≡ front_of n half work.old }
    ensures touched { Touched n (front_of n half work.old) (back_of n half work.old) (back_of n half work.new) v
        len m result }
{
    if !wanted(n, v, m, work, half) {
        return len;
    }
    reach(n, half, v, len, m, work)
}

// Reaches what is wanted beside `x`, the queue's cell at `head`. INNER says that it lies within the border (`Raster::near`).
fn spread_around<const INNER: bool>(
    r: &Raster,
    half: usize,
    k: usize,
    v: u32,
    head: usize,
    len: usize,
    x: usize,
    work: &mut [u32],
) -> usize
    requires g_bound_2 { size r.now.grid + size r.now.grid ≤ half }
    requires g_in_bounds { half + size r.now.grid ≤ length work.old }
    requires v_bound { v < 65536 }
    requires spread { Spread r.now.grid (front_of (size r.now.grid) half work.old) (back_of (size r.now.grid) half work.old) k v head len x 0 }
    requires x_bound { x < size r.now.grid }
    requires inner { INNER ≡ true → Inner r.now.grid (x / r.now.grid.cols) (x % r.now.grid.cols) }
    ensures front_unchanged { front_of (size r.now.grid) half work.new ≡ front_of (size r.now.grid) half work.old }
    ensures during { During r.now.grid (front_of (size r.now.grid) half work.old) (back_of (size r.now.grid) half work.new) k v (head + 1) result }
{
    let n = r.grid.rows * r.grid.cols;
    let mut tail = len;
    for p in 0..8 {
        if let Some(m) = r.near(x, INNER, p) {
            tail = touch(n, half, v, tail, m, work);
        }
    }
    tail
}

// Reaches what is wanted beside the queue's cell at `head`.
fn spread(
    r: &Raster,
    half: usize,
    k: usize,
    v: u32,
    head: usize,
    len: usize,
    work: &mut [u32],
) -> usize
    requires g_bound_2 { size r.now.grid + size r.now.grid ≤ half }
    requires g_in_bounds { half + size r.now.grid ≤ length work.old }
    requires v_bound { v < 65536 }
    requires head_lt_len { head < len }
    requires during { During r.now.grid (front_of (size r.now.grid) half work.old) (back_of (size r.now.grid) half work.old) k v head len }
    ensures front_unchanged { front_of (size r.now.grid) half work.new ≡ front_of (size r.now.grid) half work.old }
    ensures during_2 { During r.now.grid (front_of (size r.now.grid) half work.old) (back_of (size r.now.grid) half work.new) k v (head + 1) result }
{
    let cols = r.grid.cols;
    let x = work[half + head] as usize;
    if cells::is_inner(r.grid, x / cols, x % cols) {
        spread_around::<true>(r, half, k, v, head, len, x, work)
    } else {
        spread_around::<false>(r, half, k, v, head, len, x, work)
    }
}

// Empties the queue from `start` on.
fn drain(
    r: &Raster,
    half: usize,
    k: usize,
    v: u32,
    start: usize,
    len: usize,
    work: &mut [u32],
) -> usize
    requires g_bound_2 { size r.now.grid + size r.now.grid ≤ half }
    requires g_in_bounds { half + size r.now.grid ≤ length work.old }
    requires v_bound { v < 65536 }
    requires during { During r.now.grid (front_of (size r.now.grid) half work.old) (back_of (size r.now.grid) half work.old) k v start len }
    ensures front_unchanged { front_of (size r.now.grid) half work.new ≡ front_of (size r.now.grid) half work.old }
    ensures during_2 { During r.now.grid (front_of (size r.now.grid) half work.old) (back_of (size r.now.grid) half work.new) k v result result }
{
    let mut head = start;
    let mut tail = len;
    while head < tail {
        tail = spread(r, half, k, v, head, tail, work);
        head += 1;
    }
    tail
}

// Whether the cell `m` is a void that is marked as outside, or is reached. Only the mark of a void is read.
fn opens(n: usize, half: usize, m: usize, work: &[u32]) -> bool
    requires n_in_bounds { half + n + n ≤ length work.now }
    requires m_lt_n { m < n }
    ensures outside_or_reached { result ≡ true → OutsideOrReached n (front_of n half work.now) (back_of n half work.now) m }
    ensures fact { result ≡ false → OutsideOrReached n (front_of n half work.now) (back_of n half work.now) m → ⊥ }
{
    let word = work[m];
    if word == 0 {
        return work[half + n + m] == 2;
    }
    if word < 65536 {
        return false;
    }
    true
}

// `is_opening`, step by step. INNER says that the cell lies within the border, from which no step leads off the sheet; from a cell on it
// such a step leaves only through an open side.
fn opening_around<const INNER: bool>(r: &Raster, half: usize, c: usize, work: &[u32]) -> bool
    requires g_in_bounds { half + size r.now.grid + size r.now.grid ≤ length work.now }
    requires reached_are_data { ReachedAreData (size r.now.grid) (front_of (size r.now.grid) half work.now) (back_of (size r.now.grid) half work.now) }
    requires cell_of { CellOf (size r.now.grid) (front_of (size r.now.grid) half work.now) c }
    requires inner { INNER ≡ true → Inner r.now.grid (c / r.now.grid.cols) (c % r.now.grid.cols) }
    ensures opening { result ≡ true → Opening r.now.grid (front_of (size r.now.grid) half work.now) (back_of (size r.now.grid) half work.now) c }
    ensures fact { result ≡ false → Opening r.now.grid (front_of (size r.now.grid) half work.now) (back_of (size r.now.grid) half work.now) c
        → ⊥ }
{
    let n = r.grid.rows * r.grid.cols;
    for p in 0..8 {
        let open = match r.near(c, INNER, p) {
            Some(m) => opens(n, half, m, work),
            None => cells::is_open(r.grid, p),
        };
        if open {
            return true;
        }
    }
    false
}

// Whether the data cell `c` is an outlet or beside a reached cell. Both are asked step by step: a step leaves, which makes `c` an outlet,
// or leads to a reached cell.
#[tactic(auto, using(crate::proofs::Halves::row_column))]
fn is_opening(r: &Raster, half: usize, c: usize, work: &[u32]) -> bool
    requires g_in_bounds { half + size r.now.grid + size r.now.grid ≤ length work.now }
    requires reached_are_data { ReachedAreData (size r.now.grid) (front_of (size r.now.grid) half work.now) (back_of (size r.now.grid) half work.now) }
    requires cell_of { CellOf (size r.now.grid) (front_of (size r.now.grid) half work.now) c }
    ensures opening { result ≡ true → Opening r.now.grid (front_of (size r.now.grid) half work.now) (back_of (size r.now.grid) half work.now) c }
    ensures fact { result ≡ false → Opening r.now.grid (front_of (size r.now.grid) half work.now) (back_of (size r.now.grid) half work.now) c
        → ⊥ }
{
    let cols = r.grid.cols;
    if cells::is_inner(r.grid, c / cols, c % cols) {
        opening_around::<true>(r, half, c, work)
    } else {
        opening_around::<false>(r, half, c, work)
    }
}

// Reaches the cell at the place `k` of the order, if it is an outlet or beside a reached cell, and what follows from that.
fn visit(r: &Raster, half: usize, k: usize, len: usize, work: &mut [u32]) -> usize
    requires g_bound_2 { size r.now.grid + size r.now.grid ≤ half }
    requires g_in_bounds { half + size r.now.grid + size r.now.grid ≤ length work.old }
    requires k_bound { k < size r.now.grid }
    requires sorted { Sorted (size r.now.grid) (front_of (size r.now.grid) half work.old) }
    requires between { Between r.now.grid (front_of (size r.now.grid) half work.old) (back_of (size r.now.grid) half work.old) k len }
    ensures front_unchanged { front_of (size r.now.grid) half work.new ≡ front_of (size r.now.grid) half work.old }
    ensures between_2 { Between r.now.grid (front_of (size r.now.grid) half work.old) (back_of (size r.now.grid) half work.new) (k + 1) result }
{
    let n = r.grid.rows * r.grid.cols;
    let c = work[n + k] as usize;
    let v = work[c];
    if v == 0 {
        return len;
    }
    if v >= 65536 {
        return len;
    }
    if !is_opening(r, half, c, work) {
        return len;
    }
    let more = reach(n, half, v, len, c, work);
    drain(r, half, k, v, len, more, work)
}

// Floods the sheet, whose cells stand in order of key in the work buffer after their keys, and the marks of its voids after the queue.
pub fn flood(g: Grid, half: usize, work: &mut [u32])
    requires g_bound { size g < 2 ^ 24 }
    requires cols_bound { g.cols < 2 ^ 24 }
    requires g_bound_2 { size g + size g ≤ half }
    requires g_in_bounds { half + size g + size g ≤ length work.old }
    requires sorted { Sorted (size g) (front_of (size g) half work.old) }
    requires by_index { (c : ℕ) → c < size g → get_or (back_of (size g) half work.old) (size g + c) 0 ≡ 0 }
    ensures front_unchanged { front_of (size g) half work.new ≡ front_of (size g) half work.old }
    ensures by_index_2 { (len : ℕ) × Between g (front_of (size g) half work.old) (back_of (size g) half work.new) (size g)
        len }
{
    let n = g.rows * g.cols;
    let r = Raster::new(g);
    let mut len: usize = 0;
    for k in 0..n {
        len = visit(&r, half, k, len, work);
    }
}
