// The program `section`: a section file on standard input, its answer on standard output.
#![tactic(auto)]

ghost use Rattle.std.specs.Prelude.{◌<◌, ◌≤◌, length, take, IfOk, IfSome, OnOk};
ghost use Rattle.std.specs.Io.KnownBytes.{Appends, Consumes, IsAtEnd};
ghost use Rattle.section_file.specs.Answer.{answer};

use std::io;
use std::io::{Read, Write};

// Reads until `text` is full or the input ends, and gives how many bytes were read.
// A loop over `read`, since `read_exact` does not tell how much a shorter input had.
fn read_full<R: Read>(input: &mut R, text: &mut [u8]) -> io::Result<usize>
    ensures within { IfOk result (λ n. n ≤ length text.new) }
    ensures bytes { IfOk result (λ n. Consumes (R.remaining input.old) (R.remaining input.new) (take n text.new)) }
    ensures ended { IfOk result (λ n. n < length text.new → IsAtEnd (R.remaining input.new)) }
{
    let mut n = 0;
    while n < text.len() {
        let more = input.read(&mut text[n..])?;
        if more == 0 {
            return Ok(n);
        }
        n += more;
    }
    Ok(n)
}

// Writes the answer to all that an input has.
// One byte more than a file may have is read, so that a longer one is noticed.
fn answer_input<R: Read, W: Write>(input: &mut R, output: &mut W) -> io::Result<()>
    ensures { OnOk result (IfSome (R.remaining input.old) (λ xs. Appends (W.contents output.old) (W.contents output.new) (answer xs))) }
{
    let mut text: [u8; 16385] = [0; 16385];
    let n = read_full(input, &mut text)?;
    let page = section_file::answer_text(&text[..n]);
    let answer = page.as_bytes();
    output.write_all(answer)
}

fn main(rt: HostRuntime) -> io::Result<()> {
    answer_input(&mut rt.stdin(), &mut rt.stdout())
}
