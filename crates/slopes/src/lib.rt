// Drops to the neighbours of a cell ("Directions"): which is the largest when weighted by distance, and the sum of the codes that have it.
// The comparison is one of products of 64 bits. The four corners are equally far, so are east and west, and north and south: the lowest of
// each has its largest drop, and comparisons between these decide, for whole rows without a branch. Square cells, whose four sides are
// equally far, have rows of their own, with one comparison and the distances of 1 by 1.
#![tactic(auto)]

ghost use Rattle.std.specs.Prelude.{◌≡◌, true, cond, ℕ, ◌+◌, ◌-◌, ◌*◌, ◌/◌, ◌%◌, ◌<◌, ◌≤◌, ◌^◌, length};
ghost use Rattle.grid.specs.Sheet.{size, at};
ghost use Rattle.grid.specs.Directions.{steepest_sum};
ghost use Rattle.cells.specs.Around.{KnownTo};
ghost use Rattle.cells.specs.Keys.{key_of};
ghost use Rattle.cells.specs.Steps.{Inner};
ghost use Rattle.shape_laws.specs.Shaped.{Shaped};
ghost use Rattle.slopes.specs.Steepest.{keys_of, key_or, edge_keys, steepest_in, any_void, inner_sum, SumsTo};
ghost use Rattle.slopes.specs.Steepest.{lowest_of, pair_of, members_of, low_side, low_across, low_along, low_corner};
ghost use Rattle.slopes.specs.Steepest.{side_codes, across_codes, along_codes, corner_codes, leads_of, leads_both_of, larger_of, largest_of};

use cells::{Direction, Terrain};
use grid::Grid;

// The square of a drop times a squared distance: below 2 ^ 53. 32 bits would not hold twice the square of 65,534.
fn weight(drop: u16, distance: u32) -> u64
    requires { distance ≤ 2000000 }
    ensures { result ≡ drop * drop * distance }
{
    (drop as u64) * (drop as u64) * (distance as u64)
}

// One of two numbers by a test, without a branch: which neighbours are lower is anyone's guess.
fn pick(test: bool, yes: u16, no: u16) -> u16
    ensures { result ≡ cond test yes no }
{
    if test { yes } else { no }
}

// The lowest of four keys.
fn lowest(a: u16, b: u16, c: u16, d: u16) -> u16
    ensures { result ≡ lowest_of a b c d }
{
    a.min(b).min(c.min(d))
}

// Which of four keys are `low`, as a sum of the codes of the corners; the code of a side is twice that of the corner before it.
fn members(low: u16, a: u16, b: u16, c: u16, d: u16) -> u16
    ensures value { result ≡ members_of low a b c d }
    ensures upper_bound { result ≤ 85 }
{
    pick(a == low, Direction::NORTH_EAST as u16, 0)
        + pick(b == low, Direction::SOUTH_EAST as u16, 0)
        + pick(c == low, Direction::SOUTH_WEST as u16, 0)
        + pick(d == low, Direction::NORTH_WEST as u16, 0)
}

// Which of two keys are `low`, as a sum of the codes of two corners.
fn pair(low: u16, a: u16, b: u16) -> u16
    ensures value { result ≡ pair_of low a b }
    ensures upper_bound { result ≤ 17 }
{
    pick(a == low, Direction::NORTH_EAST as u16, 0)
        + pick(b == low, Direction::SOUTH_WEST as u16, 0)
}

// Whether a drop is above 0, and another is not larger by distance: of a drop a at a squared distance d and one b at f, a / √d ≥ b / √f is
// a a f ≥ b b d. The two products are worked out before, with no branch to either.
fn leads(drop: u16, own: u64, other: u64) -> bool
    ensures { result ≡ leads_of drop own other }
{
    drop > 0 && own >= other
}

// The same for two others: `again` is the drop's own product beside the third.
fn leads_both(drop: u16, own: u64, other: u64, again: u64, third: u64) -> bool
    ensures { result ≡ leads_both_of drop own other again third }
{
    leads(drop, own, other) && again >= third
}

// For square cells, of the codes of the lowest sides, with a drop `a`, and those of the lowest corners, with a drop `b`: those of the
// larger drop. At 1 and √2 they tie at 0 only.
#[tactic(auto, using(crate::proofs::Classes::larger_is))]
fn larger(a: u16, sides: u16, b: u16, corners: u16) -> u16
    requires { (sides ≤ 170) × (corners ≤ 85) }
    ensures { result ≡ larger_of a sides b corners }
{
    let ab = weight(a, 2);
    let ba = weight(b, 1);
    pick(leads(a, ab, ba), sides, 0) + pick(leads(b, ba, ab), corners, 0)
}

// For the squared distances `w` to east and west, `h` to north and south, and `d` to corners, of the codes of the lower of east and west,
// with a drop `a`, of north and south, with a drop `b`, and of the lowest corners, with a drop `c`: those of the largest drop, of two or
// of all three where they tie.
#[tactic(auto, using(crate::proofs::Classes::largest_is))]
fn largest(
    w: u32,
    h: u32,
    d: u32,
    a: u16,
    across: u16,
    b: u16,
    along: u16,
    c: u16,
    corners: u16,
) -> u16
    requires w_bound { (w ≤ 1000000) × (h ≤ 1000000) × (d ≤ 2000000) }
    requires across_bound { (across ≤ 34) × (along ≤ 136) × (corners ≤ 85) }
    ensures { result ≡ largest_of w h d a across b along c corners }
{
    let ab = weight(a, h);
    let ba = weight(b, w);
    let ac = weight(a, d);
    let ca = weight(c, w);
    let bc = weight(b, d);
    let cb = weight(c, h);
    pick(leads_both(a, ac, ca, ab, ba), across, 0)
        + pick(leads_both(b, bc, cb, ba, ab), along, 0)
        + pick(leads_both(c, ca, ac, cb, bc), corners, 0)
}

// Of the keys around a cell, the lowest of the sides, of east and west, of north and south, and of the corners.
fn low_side(keys: &[u16; 8]) -> u16
    ensures { result ≡ low_side keys.now }
{
    lowest(keys[1], keys[3], keys[5], keys[7])
}

fn low_across(keys: &[u16; 8]) -> u16
    ensures { result ≡ low_across keys.now }
{
    keys[1].min(keys[5])
}

fn low_along(keys: &[u16; 8]) -> u16
    ensures { result ≡ low_along keys.now }
{
    keys[3].min(keys[7])
}

fn low_corner(keys: &[u16; 8]) -> u16
    ensures { result ≡ low_corner keys.now }
{
    lowest(keys[0], keys[2], keys[4], keys[6])
}

// The codes of those whose key is `low`. East has twice the code of the corner before it, south eight times that of north-east.
fn side_codes(keys: &[u16; 8], low: u16) -> u16
    ensures value { result ≡ side_codes keys.now low }
    ensures upper_bound { result ≤ 170 }
{
    2 * members(low, keys[1], keys[3], keys[5], keys[7])
}

fn across_codes(keys: &[u16; 8], low: u16) -> u16
    ensures value { result ≡ across_codes keys.now low }
    ensures upper_bound { result ≤ 34 }
{
    2 * pair(low, keys[1], keys[5])
}

fn along_codes(keys: &[u16; 8], low: u16) -> u16
    ensures value { result ≡ along_codes keys.now low }
    ensures upper_bound { result ≤ 136 }
{
    8 * pair(low, keys[3], keys[7])
}

fn corner_codes(keys: &[u16; 8], low: u16) -> u16
    ensures value { result ≡ corner_codes keys.now low }
    ensures upper_bound { result ≤ 85 }
{
    members(low, keys[0], keys[2], keys[4], keys[6])
}

// From a cell's key and the keys around it, the sum of the codes of the largest weighted drop; 0 where none is above 0. For square cells:
#[tactic(auto, using(crate::proofs::Classes::square_by))]
fn steepest_square(own: u16, keys: &[u16; 8]) -> u16
    ensures { result ≡ steepest_in 1 1 own keys.now }
{
    let side = low_side(keys);
    let corner = low_corner(keys);
    let sides = side_codes(keys, side);
    let corners = corner_codes(keys, corner);
    larger(
        own.saturating_sub(side),
        sides,
        own.saturating_sub(corner),
        corners,
    )
}

// And for cells of any shape: "the square root of the sum of their squares for corners".
#[tactic(auto, using(crate::proofs::Classes::oblong_by, crate::proofs::Products::side_small, crate::proofs::Products::side_above))]
fn steepest_oblong(width: u32, height: u32, own: u16, keys: &[u16; 8]) -> u16
    requires le_width { (1 ≤ width) × (width ≤ 1000) }
    requires le_height { (1 ≤ height) × (height ≤ 1000) }
    ensures { result ≡ steepest_in (width * width) (height * height) own keys.now }
{
    let w = width * width;
    let h = height * height;
    let x = low_across(keys);
    let y = low_along(keys);
    let z = low_corner(keys);
    let across = across_codes(keys, x);
    let along = along_codes(keys, y);
    let corners = corner_codes(keys, z);
    largest(
        w,
        h,
        w + h,
        own.saturating_sub(x),
        across,
        own.saturating_sub(y),
        along,
        own.saturating_sub(z),
        corners,
    )
}

// The sum, or 256 where the cell or one around it is void: no drop decides there.
#[tactic(auto, using(crate::proofs::Classes::void_by))]
fn unless_void(own: u16, keys: &[u16; 8], sum: u16) -> u16
    ensures { result ≡ cond (any_void own keys.now) 256 sum }
{
    let low = low_corner(keys).min(low_side(keys)).min(own);
    pick(low == 0, 256, sum)
}

// The keys around a cell within the border.
#[tactic(auto, using(crate::proofs::Drops::keys_all))]
fn keys_of(t: &Terrain, cell: usize) -> [u16; 8]
    requires { Inner t.now.raster.grid (cell / t.now.raster.grid.cols) (cell % t.now.raster.grid.cols) }
    ensures value { result ≡ keys_of t.now.raster.grid t.now.elevations.now cell }
    ensures known_to { KnownTo t.now.raster.grid t.now.elevations.now cell 8 }
{
    let mut keys = [0u16; 8];
    for p in 0..8 {
        keys[p] = cells::key(t.elevations[t.raster.beside(cell, p)]);
    }
    keys
}

// For a cell within the border: "If the largest weighted drop is above 0, add the codes of all neighbours that have it", 0 where it is
// not; 256 near a void, where the rule of outlets is asked for. Square cells, SQUARE, go by the distances of 1 by 1.
fn sum<const SQUARE: bool>(t: &Terrain, cell: usize) -> u16
    requires cell_bound { cell < size t.now.raster.grid }
    requires inner { Inner t.now.raster.grid (cell / t.now.raster.grid.cols) (cell % t.now.raster.grid.cols) }
    requires width_value { SQUARE ≡ true → t.now.raster.grid.width ≡ t.now.raster.grid.height }
    ensures { result ≡ inner_sum t.now.raster.grid t.now.elevations.now cell }
{
    let g = t.raster.grid;
    let keys = keys_of(t, cell);
    let own = cells::short_key_at(t.elevations, cell);
    let sum = if SQUARE {
        steepest_square(own, &keys)
    } else {
        steepest_oblong(g.width as u32, g.height as u32, own, &keys)
    };
    unless_void(own, &keys, sum)
}

// The sums of the cells from `from` to `to`, a part of one row within the border.
fn sums<const SQUARE: bool>(t: &Terrain, from: usize, to: usize, work: &mut [u32])
    requires to_bound { to ≤ size t.now.raster.grid }
    requires to_in_bounds { to ≤ length work.old }
    requires by_index { (c : ℕ) → from ≤ c → c < to →
        Inner t.now.raster.grid (c / t.now.raster.grid.cols) (c % t.now.raster.grid.cols) }
    requires width_value { SQUARE ≡ true → t.now.raster.grid.width ≡ t.now.raster.grid.height }
    ensures { SumsTo t.now.raster.grid t.now.elevations.now from to work.old work.new }
{
    let t = *t; // its own copy, so that a store into `work` makes nothing be read again
    for cell in from..to {
        work[cell] = sum::<SQUARE>(&t, cell) as u32;
    }
}

// The same for the shape at hand: "Square cells give the old codes at any width", so that of theirs the width does not matter.
pub fn row_sums(t: &Terrain, from: usize, to: usize, work: &mut [u32])
    requires to_bound { to ≤ size t.now.raster.grid }
    requires to_in_bounds { to ≤ length work.old }
    requires by_index { (c : ℕ) → from ≤ c → c < to →
        Inner t.now.raster.grid (c / t.now.raster.grid.cols) (c % t.now.raster.grid.cols) }
    ensures { SumsTo t.now.raster.grid t.now.elevations.now from to work.old work.new }
{
    if t.raster.grid.width == t.raster.grid.height {
        sums::<true>(t, from, to, work);
    } else {
        sums::<false>(t, from, to, work);
    }
}

// A neighbour's key, or the cell's own where there is no data cell.
#[tactic(auto, unfolding(crate::specs::Steepest::key_or))]
fn key_or(own: u16, key: u16) -> u16
    ensures { result ≡ key_or own key }
{
    if key == 0 { own } else { key }
}

// The keys around any cell, its own where there is no data cell; `own` is its key.
#[tactic(auto, using(crate::proofs::Drops::edge_all))]
fn edge_keys(g: Grid, elevations: &[i16], cell: usize, own: u16) -> [u16; 8]
    requires g_bound { size g < 2 ^ 24 }
    requires cell_bound { cell < size g }
    requires own_value { own ≡ key_of (at elevations.now cell) }
    ensures value { result ≡ edge_keys g elevations.now cell }
    ensures known_to { KnownTo g elevations.now cell 8 }
{
    let mut keys = [0u16; 8];
    for p in 0..8 {
        let m = cells::neighbour(g, cell, p);
        keys[p] = key_or(own, cells::key_at(elevations, m));
    }
    keys
}

// For any cell, as on a closed side: the sum of the codes of the largest weighted drop, 0 where none is above 0. Elevations of any length
// do: what lies past them reads as void.
#[tactic(auto, using(crate::proofs::Drops::edge_is))]
pub fn edge_sum(g: Grid, elevations: &[i16], cell: usize) -> u16
    requires g_bound { size g < 2 ^ 24 }
    requires cell_bound { cell < size g }
    requires shaped { Shaped g }
    ensures { result ≡ steepest_sum g elevations.now cell }
{
    let own = cells::key_at(elevations, cell);
    let around = edge_keys(g, elevations, cell, own);
    steepest_oblong(g.width as u32, g.height as u32, own, &around)
}
