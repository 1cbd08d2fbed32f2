// The program: standard input to standard output, over one proved call from text to text. It reads one byte more than the longest text
// that is accepted, so that a longer one is noticed.
#![tactic(auto)]

ghost use Rattle.std.specs.Prelude.{◌≡◌, ◌<◌, ◌≤◌, ◌++◌, length, take, drop, IfOk, IfSome, OnOk};
ghost use Rattle.std.specs.Io.KnownBytes.{Appends, Consumes, IsAtEnd};
ghost use Rattle.grid.specs.Frames.{program_text};

use std::io;
use std::io::{Read, Write};

// Reads until the buffer is full or the input ends: the bytes that came stand at its start, and their number is returned.
fn read_full<R: Read>(input: &mut R, text: &mut [u8]) -> io::Result<usize>
    ensures fits { IfOk result (λ n. n ≤ length text.new) }
    ensures bytes { IfOk result (λ n. Consumes (R.remaining input.old) (R.remaining input.new) (take n text.new)) }
    ensures end { IfOk result (λ n. n < length text.new → IsAtEnd (R.remaining input.new)) }
{
    let mut done = 0;
    while done < text.len() {
        let n = input.read(&mut text[done..])?;
        if n == 0 {
            return Ok(done);
        }
        done += n;
    }
    Ok(done)
}

// Prints what is defined for a text, by way of a buffer that is lent: there it stands where the writer fails too.
fn print<W: Write>(text: &[u8], out: &mut [u8], output: &mut W) -> io::Result<()>
    requires { 59913 ≤ length out.old }
    ensures appends { OnOk result (Appends (W.contents output.old) (W.contents output.new) (program_text text.now)) }
    ensures stored { out.new ≡ program_text text.now ++ drop (length (program_text text.now)) out.old }
{
    let n = drain_text::run(text, out);
    output.write_all(&out[..n])
}

// All that the program does, for any reader and any writer: what it prints is what is defined for the text that it reads, of which it
// takes one byte more than the longest that is accepted, so that a longer one is noticed.
fn run<R: Read, W: Write>(input: &mut R, output: &mut W) -> io::Result<()>
    ensures { OnOk result (IfSome (R.remaining input.old) (λ text.
        Appends (W.contents output.old) (W.contents output.new) (program_text (take 11530 text)))) }
{
    let mut text = [0u8; 11530];
    let mut out = [0u8; 59913];
    let n = read_full(input, &mut text)?;
    print(&text[..n], &mut out, output)
}

fn main(rt: HostRuntime) -> io::Result<()> {
    run(&mut rt.reader(), &mut io::writer(&rt))
}
