// The ponds of document 02 in the work buffer: "counted from 1 by each pond's lowest cell number". The flood's words say which cells are
// wet, the filled key above the key. In a scan by rising cell number each wet cell without a number is the lowest of its pond, and `join`
// gives the pond its mark, one more than its number. Proved by `specs/State`: at each cell of the scan the marks are those of pond_laws.
// The elevations are handed on for the contracts alone.
#![tactic(auto)]

ghost use Rattle.std.specs.Prelude.{◌≡◌, cond, ◌+◌, ◌*◌, ◌/◌, ◌%◌, ◌<◌, ◌^◌, ltb, length, get_or};
ghost use Rattle.grid.specs.Sheet.{size, SixteenBits};
ghost use Rattle.fill.specs.Words.{Words};
ghost use Rattle.pond_numbers.specs.State.{Sizes, Numbered};

use grid::Grid;

// The mark of a cell by its word: 1 where it is wet.
fn wet_mark(word: u32) -> u32
    ensures { result ≡ cond (ltb (word % 65536) (word / 65536)) 1 0 }
{
    if word % 65536 < word / 65536 { 1 } else { 0 }
}

// Marks the wet cells.
fn mark_wet(g: Grid, elevations: &[i16], work: &mut [u32])
    requires sizes { Sizes g elevations.now (length work.old) }
    requires sixteen_bits { SixteenBits elevations.now }
    requires words { Words g elevations.now work.old }
    ensures { Numbered g elevations.now work.new 0 0 }
{
    let n = g.rows * g.cols;
    for c in 0..n {
        work[n + c] = wet_mark(work[c]);
    }
}

// The mark of the cell `c`.
pub fn mark_at(g: Grid, c: usize, work: &[u32]) -> u32
    requires g_bound { size g < 2 ^ 24 }
    requires c_in_bounds { size g + c < length work.now }
    ensures { result ≡ get_or work.now (size g + c) 0 }
{
    work[g.rows * g.cols + c]
}

// Numbers the pond whose lowest cell is `c`, after `count` others.
#[tactic(auto, using(crate::proofs::Numbering::few_ponds))]
fn number_at(
    g: Grid,
    elevations: &[i16],
    half: usize,
    c: usize,
    count: u32,
    work: &mut [u32],
) -> u32
    requires sizes { Sizes g elevations.now (length work.old) }
    requires half_value { half ≡ length work.old / 2 }
    requires c_bound { c < size g }
    requires c_value { get_or work.old (size g + c) 0 ≡ 1 }
    requires numbered { Numbered g elevations.now work.old c count }
    ensures { Numbered g elevations.now work.new (c + 1) result }
{
    let n = g.rows * g.cols;
    let len = queue::put(half, 0, c, n + c, count + 2, work);
    join::join(g, half, n, count + 2, len, work);
    count + 1
}

// Numbers the ponds; how many they are. The mark is asked here, so that a dry cell costs no call.
fn number(g: Grid, elevations: &[i16], work: &mut [u32]) -> u32
    requires sizes { Sizes g elevations.now (length work.old) }
    requires numbered { Numbered g elevations.now work.old 0 0 }
    ensures { Numbered g elevations.now work.new (size g) result }
{
    let n = g.rows * g.cols;
    let half = work.len() / 2;
    let mut count: u32 = 0;
    for c in 0..n {
        if mark_at(g, c, work) == 1 {
            count = number_at(g, elevations, half, c, count, work);
        }
    }
    count
}

// From the flood's words to numbered ponds in the work buffer.
pub fn find(g: Grid, elevations: &[i16], work: &mut [u32]) -> u32
    requires sizes { Sizes g elevations.now (length work.old) }
    requires sixteen_bits { SixteenBits elevations.now }
    requires words { Words g elevations.now work.old }
    ensures { Numbered g elevations.now work.new (size g) result }
{
    mark_wet(g, elevations, work);
    number(g, elevations, work)
}
