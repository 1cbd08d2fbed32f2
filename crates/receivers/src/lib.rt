// Question 11, and the list of receivers of a sheet of codes: for each cell the next cell of its route, size where the route ends there,
// size + 1 where there is no code (`route_laws`, `specs/Receivers`). "A route .. ends at the first cell whose code points off the sheet or
// at a cell with code 0." The list is written into the lent tail. Tables by code, made once for a sheet, say what is a code and at which
// offset its neighbour lies in the numbering, so only cells of the border look at rows and columns. Proof: each function gives one element
// of the definition, and a loop collects them.
#![tactic(auto)]

ghost use Rattle.std.specs.Prelude.{◌≡◌, ◌++◌, ◌+◌, ◌*◌, ◌/◌, ◌%◌, ◌<◌, ◌≤◌, ◌^◌, length, drop};
ghost use Rattle.grid.specs.Sheet.{size, position_of, neighbour};
ghost use Rattle.grid.specs.Routes.{first_bad_code};
ghost use Rattle.route_laws.specs.Receivers.{receiver_mark, receivers, AllCodes};
ghost use Rattle.receivers.specs.Yes.{AllCodes-prop};
ghost use Rattle.receivers.specs.Written.{bad_table, FirstBad, ReachTable, RowWritten, WrittenTo};

use cells::Direction;
use grid::Grid;

// 1 for every byte that is neither 0 nor one of the eight codes.
fn bad_table() -> [u8; 256]
    ensures { result ≡ bad_table }
{
    let mut table = [1u8; 256];
    table[0] = 0;
    for p in 0..8 {
        table[Direction::code(p) as usize] = 0;
    }
    table
}

// The first byte that the table has, or their number.
#[tactic(auto, using(crate::proofs::Codes::bad_yes, crate::proofs::Codes::bad_no))]
fn first_in(table: &[u8; 256], codes: &[u8]) -> usize
    requires { table.now ≡ bad_table }
    ensures { FirstBad codes.now result }
{
    for (c, code) in codes.iter().enumerate() {
        if table[*code as usize] == 1 {
            return c;
        }
    }
    codes.len()
}

// "11. Is each code 0 or one of the eight? Place: first cell."
pub fn first_bad_code(g: Grid, codes: &[u8]) -> usize
    requires { length codes.now ≡ size g }
    ensures { result ≡ first_bad_code g codes.now }
{
    let table = bad_table();
    first_in(&table, codes)
}

// For each code the offset of its neighbour.
fn reach_table(cols: usize) -> [usize; 256]
    requires { cols < 2 ^ 24 }
    ensures { ReachTable cols result }
{
    let offsets = cells::offsets(cols);
    let mut table = [0usize; 256];
    for p in 0..8 {
        table[Direction::code(p) as usize] = offsets[p];
    }
    table
}

// A sheet of codes after a yes to question 11: of a size that the gate lets pass, and each of its bytes 0 or a code.
#[derive(Clone, Copy)]
pub struct CodeSheet<'a> {
    pub grid: Grid,
    pub codes: &'a [u8],
    pub ghost size_bound: { size grid < 2 ^ 24 },
    pub ghost rows_bound: { 1 ≤ grid.rows },
    pub ghost codes_len: { length codes.now ≡ size grid },
    pub ghost all_codes: { AllCodes codes.now } by { AllCodes-prop codes.now },
}

// The cell that a code points at from the cell in row `row` and column `col`, or rows * cols.
#[tactic(auto, using(crate::proofs::Codes::reached))]
fn pointed_at(g: Grid, table: &[usize; 256], cell: usize, row: usize, col: usize, code: u8) -> usize
    requires g_bound { size g < 2 ^ 24 }
    requires cell_bound { cell < size g }
    requires row_value { row ≡ cell / g.cols }
    requires col_value { col ≡ cell % g.cols }
    requires code_bound { position_of code < 8 }
    requires reach_table { ReachTable g.cols table.now }
    ensures { result ≡ neighbour g cell (position_of code) }
{
    let cols = g.cols;
    if cells::is_inner(g, row, col) {
        return cell + table[code as usize] - (cols + 1);
    }
    cells::neighbour(g, cell, Direction::position(code))
}

// The mark of a cell.
fn mark(codes: &CodeSheet, table: &[usize; 256], cell: usize, row: usize, col: usize) -> usize
    requires cell_bound { cell < size codes.now.grid }
    requires row_value { row ≡ cell / codes.now.grid.cols }
    requires col_value { col ≡ cell % codes.now.grid.cols }
    requires reach_table { ReachTable codes.now.grid.cols table.now }
    ensures value { result ≡ receiver_mark codes.now.grid codes.now.codes.now cell }
    ensures upper_bound { result ≤ size codes.now.grid + 1 }
{
    let n = codes.grid.rows * codes.grid.cols;
    let code = codes.codes[cell];
    if code == 0 {
        return n + 1;
    }
    let next = pointed_at(codes.grid, table, cell, row, col, code);
    if next >= n {
        return n;
    }
    if codes.codes[next] == 0 {
        return n;
    }
    next
}

// The marks of a row.
#[tactic(auto, using(crate::proofs::Written::in_row, crate::proofs::Written::row_more))]
fn write_row(codes: &CodeSheet, table: &[usize; 256], row: usize, tail: &mut [u32])
    requires reach_table { ReachTable codes.now.grid.cols table.now }
    requires codes_in_bounds { size codes.now.grid ≤ length tail.old }
    requires row_bound { row < codes.now.grid.rows }
    ensures { RowWritten codes.now.grid codes.now.codes.now row codes.now.grid.cols tail.old tail.new }
{
    let cols = codes.grid.cols;
    for col in 0..cols {
        let cell = row * cols + col;
        tail[cell] = mark(codes, table, cell, row, col) as u32;
    }
}

// The marks of all cells.
#[tactic(auto, using(crate::proofs::Written::written_more))]
fn write_marks(codes: &CodeSheet, table: &[usize; 256], tail: &mut [u32])
    requires reach_table { ReachTable codes.now.grid.cols table.now }
    requires codes_in_bounds { size codes.now.grid ≤ length tail.old }
    ensures { WrittenTo codes.now.grid codes.now.codes.now (size codes.now.grid) tail.old tail.new }
{
    for row in 0..codes.grid.rows {
        write_row(codes, table, row, tail);
    }
}

// The list of receivers, at the front of the lent tail.
#[tactic(auto, using(crate::proofs::Written::written_front))]
pub fn receivers_from(codes: &CodeSheet, tail: &mut [u32])
    requires codes_in_bounds { size codes.now.grid ≤ length tail.old }
    ensures { tail.new ≡ receivers codes.now.grid codes.now.codes.now ++ drop (size codes.now.grid) tail.old }
{
    let table = reach_table(codes.grid.cols);
    write_marks(codes, &table, tail);
}
