// The results of the ponds of document 02, out of the marks and the flood's words: the sheet of numbers, and "Three columns of one length"
// that "hold filled elevation, cell count and volume". The first places are cleared, and one scan writes the numbers and adds each cell
// to the place of its pond. No sum wraps, because a pond has fewer than 2^24 cells of a depth below 2^16. Proved by `Gathered` of
// pond_laws. The elevations are handed on for the contracts alone.
#![tactic(auto)]

ghost use Rattle.std.specs.Prelude.{◌≡◌, ℕ, ◌-◌, ◌<◌, ◌≤◌, length, get_or};
ghost use Rattle.grid.specs.Sheet.{size};
ghost use Rattle.grid.specs.Fill.{filled};
ghost use Rattle.grid.specs.Ponds.{ponds as ponds', pond_count};
ghost use Rattle.pond_laws.specs.Gathered.{Gathered};
ghost use Rattle.pond_numbers.specs.State.{Sizes, Numbered};
ghost use Rattle.pond_columns.specs.State.{Cleared, Put, Added, HasRoom, OneLength};

use grid::Grid;
use pond_numbers::mark_at;

// Sets the first places of two columns to 0.
fn clear(count: usize, cells: &mut [u32], volume: &mut [u64])
    requires count_in_bounds { count ≤ length cells.old }
    requires count_in_bounds_2 { count ≤ length volume.old }
    ensures cleared { Cleared count cells.old cells.new }
    ensures cleared_2 { Cleared count volume.old volume.new }
{
    cells[..count].fill(0);
    volume[..count].fill(0);
}

// Adds a cell to the pond at the place `k`.
fn put(k: usize, word: u32, level: &mut [i16], cells: &mut [u32], volume: &mut [u64])
    requires { HasRoom k word level.old cells.old volume.old }
    ensures { Put k word level.old level.new cells.old cells.new volume.old
        volume.new }
{
    level[k] = cells::elevation(word / 65536);
    cells[k] += 1;
    volume[k] += (word / 65536 - word % 65536) as u64;
}

// Adds a cell to the pond of its mark, if it has one.
fn add(mark: u32, word: u32, level: &mut [i16], cells: &mut [u32], volume: &mut [u64])
    requires { 2 ≤ mark → HasRoom (mark - 2) word level.old cells.old volume.old }
    ensures { Added mark word level.old level.new cells.old cells.new
        volume.old volume.new }
{
    if mark >= 2 {
        put((mark - 2) as usize, word, level, cells, volume);
    }
}

// Writes the pond numbers, and adds each cell to the columns, whose first places are 0.
fn gather(
    g: Grid,
    elevations: &[i16],
    count: u32,
    work: &[u32],
    ponds: &mut [u32],
    level: &mut [i16],
    cells: &mut [u32],
    volume: &mut [u64],
)
    requires sizes { Sizes g elevations.now (length work.now) }
    requires numbered { Numbered g elevations.now work.now (size g) count }
    requires ponds_len { length ponds.old ≡ size g }
    requires count_in_bounds { count ≤ length level.old }
    requires one_length { OneLength level.old cells.old volume.old }
    requires by_index { (k : ℕ) → k < count → get_or cells.old k 0 ≡ 0 }
    requires by_index_2 { (k : ℕ) → k < count → get_or volume.old k 0 ≡ 0 }
    ensures ponds_after { ponds.new ≡ ponds' g elevations.now }
    ensures gathered { Gathered elevations.now (filled g elevations.now) (ponds' g elevations.now)
        (pond_count g elevations.now) (size g) level.old level.new cells.old
        cells.new volume.old volume.new }
{
    let n = g.rows * g.cols;
    for c in 0..n {
        // A pond's number is one less than its mark, 0 for no pond.
        let mark = mark_at(g, c, work);
        ponds[c] = mark.saturating_sub(1);
        add(mark, work[c], level, cells, volume);
    }
}

// The numbers and the columns of `count` ponds, for which there is room.
pub fn list(
    g: Grid,
    elevations: &[i16],
    count: u32,
    work: &[u32],
    ponds: &mut [u32],
    level: &mut [i16],
    cells: &mut [u32],
    volume: &mut [u64],
)
    requires sizes { Sizes g elevations.now (length work.now) }
    requires numbered { Numbered g elevations.now work.now (size g) count }
    requires ponds_len { length ponds.old ≡ size g }
    requires count_in_bounds { count ≤ length level.old }
    requires one_length { OneLength level.old cells.old volume.old }
    ensures ponds_after { ponds.new ≡ ponds' g elevations.now }
    ensures gathered { Gathered elevations.now (filled g elevations.now) (ponds' g elevations.now)
        (pond_count g elevations.now) (size g) level.old level.new cells.old
        cells.new volume.old volume.new }
{
    clear(count as usize, cells, volume);
    gather(g, elevations, count, work, ponds, level, cells, volume);
}
