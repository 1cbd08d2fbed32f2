// The program as one call from text to text: what `drain` reads to what it prints. The text is read into a local sheet; a no is printed as
// its line, and an accepted sheet is drained into local sheets, which are printed as frames, or the no to 18 as its line. Each step's
// promise is an equation on lists, and one after the other they are the definition `program_text`.
#![tactic(auto)]

ghost use Rattle.std.specs.Prelude.{◌≤◌, length};
ghost use Rattle.grid.specs.Frames.{drain_text, program_text};
ghost use Rattle.frames.specs.Printed.{Printed};
ghost use Rattle.drain_text.specs.Room.{Small, Lent};

use grid::Grid;

// The four results of a sheet, in lent sheets of its size, and then as text, or the no to 18.
fn drain_into(
    g: Grid,
    elevations: &[i16],
    filled: &mut [i16],
    codes: &mut [u8],
    counts: &mut [u32],
    labels: &mut [u32],
    work: &mut [u32],
    out: &mut [u8],
) -> usize
    requires { Small g elevations.now out.old × Lent g filled.old codes.old counts.old labels.old work.old }
    ensures { Printed (drain_text g elevations.now) out.old out.new result }
{
    match drainage::drain(g, elevations, filled, codes, counts, labels, work) {
        Err(no) => frames::write_refusal(no.into(), out),
        Ok(()) => frames::write_results(g, filled, codes, counts, labels, out),
    }
}

// The same, with local sheets.
fn drain_sheet(g: Grid, elevations: &[i16], out: &mut [u8]) -> usize
    requires { Small g elevations.now out.old }
    ensures { Printed (drain_text g elevations.now) out.old out.new result }
{
    let n = elevations.len();
    let mut filled = [0i16; 2304];
    let mut codes = [0u8; 2304];
    let mut counts = [0u32; 2304];
    let mut labels = [0u32; 2304];
    let mut work = [0u32; 9216];
    drain_into(
        g,
        elevations,
        &mut filled[..n],
        &mut codes[..n],
        &mut counts[..n],
        &mut labels[..n],
        &mut work,
        out,
    )
}

// What the program prints for a text.
pub fn run(text: &[u8], out: &mut [u8]) -> usize
    requires { 59913 ≤ length out.old }
    ensures { Printed (program_text text.now) out.old out.new result }
{
    let mut elevations = [0i16; 2304];
    let size = match reader::read(text, &mut elevations) {
        Err(no) => return frames::write_refusal(no.into(), out),
        Ok(size) => size,
    };
    let rows = size.rows as usize;
    let cols = size.cols as usize;
    let n = rows * cols;
    drain_sheet(
        Grid {
            rows,
            cols,
            sides: 0,
            width: 1,
            height: 1,
        },
        &elevations[..n],
        out,
    )
}
