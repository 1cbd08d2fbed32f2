// "The frames", printing, as upper-case text at the front of a lent buffer: an elevation sheet (header, rows), the four results of a sheet
// (that of the filled sheet, then codes, counts, labels), and the line of a refusal. What is stored is the definition's text, byte for
// byte, and the bytes past it are untouched: one run of stores after the other is one run.
#![tactic(auto)]

ghost use Rattle.std.specs.Prelude.{◌≤◌, length};
ghost use Rattle.grid.specs.Sheet.{SixteenBits};
ghost use Rattle.grid.specs.Frames.{text_length, header_text, elevation_text, result_text, refusal_text};
ghost use Rattle.text_lines.specs.Put.{Put};
ghost use Rattle.frames.specs.Printed.{Printed, ElevationSheet, Sheets};

use grid::{Answer, Grid};
use text_lines::{put_hex, sheet};

fn header(g: Grid, out: &mut [u8]) -> usize
    requires { (g.rows ≤ 4000) × (g.cols ≤ 4000) × (9 ≤ length out.old) }
    ensures { Put (header_text g) 9 0 out.old out.new result }
{
    let middle = put_hex(out, 0, 4, g.rows as u32);
    let next = put_hex(out, middle, 4, g.cols as u32);
    out[next] = b'\n';
    next + 1
}

// "the frames of an elevation sheet"
pub fn write_elevations(g: Grid, elevations: &[i16], out: &mut [u8]) -> usize
    requires { ElevationSheet g elevations.now out.old }
    ensures put { Put (elevation_text g elevations.now) (text_length g) 0 out.old out.new result }
    ensures sixteen_bits { SixteenBits elevations.now }
{
    let rows = header(g, out);
    sheet(g, elevations, out, rows)
}

// "header, filled rows (4 digits a cell), codes (2), counts (8), labels (8)"
pub fn write_results(
    g: Grid,
    filled: &[i16],
    codes: &[u8],
    counts: &[u32],
    labels: &[u32],
    out: &mut [u8],
) -> usize
    requires { Sheets g filled.now codes.now counts.now labels.now out.old }
    ensures { Printed (result_text g filled.now codes.now counts.now labels.now)
        out.old out.new result }
{
    let after_filled = write_elevations(g, filled, out);
    let after_codes = sheet(g, codes, out, after_filled);
    let after_counts = sheet(g, counts, out, after_codes);
    sheet(g, labels, out, after_counts)
}

// "A no prints FF, the number in 2 digits, the place in 8, all on one line"
pub fn write_refusal(answer: Answer, out: &mut [u8]) -> usize
    requires { 13 ≤ length out.old }
    ensures { Printed (refusal_text answer) out.old out.new result }
{
    let after_mark = put_hex(out, 0, 2, 0xFF);
    let after_number = put_hex(out, after_mark, 2, answer.number);
    let next = put_hex(out, after_number, 8, answer.place);
    out[next] = b'\n';
    next + 1
}
