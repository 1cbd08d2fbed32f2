// Joined cells (document 02, "joined as neighbours"): one search in linear time over marks in the work buffer. A mark of 1 says that a
// cell is of the set, `value` that it is joined; from the joined cells, which wait in a queue, each cell of mark 1 beside them is joined
// too. The marks stand from `base` on, the queue from `half` on (`queue`). Proved by the state `Searching` of join_laws: no step changes
// what the search comes to.
#![tactic(auto)]

ghost use Rattle.std.specs.Prelude.{◌≡◌, true, ◌+◌, ◌/◌, ◌%◌, ◌<◌, ◌≤◌, ◌^◌, length, get_or};
ghost use Rattle.grid.specs.Sheet.{size};
ghost use Rattle.cells.specs.Steps.{Inner};
ghost use Rattle.join_laws.specs.Search.{part_of, Parts, joined_marks, Searching, Spreading, GoesOn, Touched};

use cells::Raster;
use grid::Grid;

// Marks the cell `m` and queues it if it is of the set and not joined.
pub fn touch(
    n: usize,
    half: usize,
    base: usize,
    value: u32,
    len: usize,
    m: usize,
    work: &mut [u32],
) -> usize
    requires parts { Parts n base half (length work.old) }
    requires m_lt_n { m < n }
    requires len_lt_n { get_or work.old (base + m) 0 ≡ 1 → len < n }
    ensures { Touched n base half value work.old work.new len m result }
{
    let place = base + m;
    if work[place] != 1 {
        return len; // not of the set, or joined
    }
    queue::put(half, len, m, place, value, work)
}

// Joins what is of the set beside `x`, the queue's cell at `head`. INNER says that it lies within the border (`Raster::near`).
fn spread_around<const INNER: bool>(
    r: &Raster,
    half: usize,
    base: usize,
    value: u32,
    head: usize,
    len: usize,
    x: usize,
    work: &mut [u32],
) -> usize
    requires parts { Parts (size r.now.grid) base half (length work.old) }
    requires le_value { 2 ≤ value }
    requires spreading { Spreading r.now.grid value (part_of (size r.now.grid) base work.old) (part_of (size r.now.grid) half work.old) head len x 0 }
    requires x_bound { x < size r.now.grid }
    requires inner { INNER ≡ true → Inner r.now.grid (x / r.now.grid.cols) (x % r.now.grid.cols) }
    ensures searching { Searching r.now.grid value (part_of (size r.now.grid) base work.new) (part_of (size r.now.grid) half work.new) (head + 1) result }
    ensures goes_on { GoesOn r.now.grid base half value work.old work.new }
{
    let n = r.grid.rows * r.grid.cols;
    let mut tail = len;
    for p in 0..8 {
        if let Some(m) = r.near(x, INNER, p) {
            tail = touch(n, half, base, value, tail, m, work);
        }
    }
    tail
}

// Joins what is of the set beside the queue's cell at `head`.
#[tactic(auto, using(join_laws::proofs::Search::queue_here))]
fn spread(
    r: &Raster,
    half: usize,
    base: usize,
    value: u32,
    head: usize,
    len: usize,
    work: &mut [u32],
) -> usize
    requires parts { Parts (size r.now.grid) base half (length work.old) }
    requires le_value { 2 ≤ value }
    requires searching { Searching r.now.grid value (part_of (size r.now.grid) base work.old) (part_of (size r.now.grid) half work.old) head len }
    requires head_lt_len { head < len }
    ensures searching_2 { Searching r.now.grid value (part_of (size r.now.grid) base work.new) (part_of (size r.now.grid) half work.new) (head + 1) result }
    ensures goes_on { GoesOn r.now.grid base half value work.old work.new }
{
    let cols = r.grid.cols;
    let x = work[half + head] as usize;
    if cells::is_inner(r.grid, x / cols, x % cols) {
        spread_around::<true>(r, half, base, value, head, len, x, work)
    } else {
        spread_around::<false>(r, half, base, value, head, len, x, work)
    }
}

// Joins all that the set joins to the `len` cells of mark `value`, which stand in the queue.
pub fn join(g: Grid, half: usize, base: usize, value: u32, len: usize, work: &mut [u32])
    requires parts { Parts (size g) base half (length work.old) }
    requires le_value { 2 ≤ value }
    requires searching { Searching g value (part_of (size g) base work.old) (part_of (size g) half work.old) 0 len }
    requires cols_bound { g.cols < 2 ^ 24 }
    ensures work_after { part_of (size g) base work.new ≡ joined_marks g value (part_of (size g) base work.old) }
    ensures goes_on { GoesOn g base half value work.old work.new }
{
    let r = Raster::new(g);
    let mut head: usize = 0;
    let mut tail = len;
    while head < tail {
        tail = spread(&r, half, base, value, head, tail, work);
        head += 1;
    }
}
