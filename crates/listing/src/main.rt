// Prints the listing of the book on standard input. It reads one byte more than the largest book has, and no further.
#![tactic(auto)]

ghost use Rattle.std.specs.Prelude.{◌≤◌, ◌<◌, IfOk, length, take};
ghost use Rattle.std.specs.Io.KnownBytes.{Consumes, IsAtEnd};

use std::io;
use std::io::Read;

// Reads until the bytes are full or the input ends; answers how many came.
fn read_full<R: Read>(input: &mut R, bytes: &mut [u8]) -> io::Result<usize>
    ensures within { IfOk result (λ n. n ≤ length bytes.new) }
    ensures taken { IfOk result (λ n. Consumes (R.remaining input.old) (R.remaining input.new) (take n bytes.new)) }
    ensures ended { IfOk result (λ n. n < length bytes.new → IsAtEnd (R.remaining input.new)) }
{
    // It counts the bytes that came, which no range knows beforehand.
    let mut done = 0;
    while done < bytes.len() {
        let n = input.read(&mut bytes[done..])?;
        if n == 0 {
            return Ok(done);
        }
        done += n;
    }
    Ok(done)
}

// Writes the listing of what came in to standard output.
fn print(rt: &impl Print, input: &[u8], text: &mut [u8]) -> io::Result<()> {
    if let Some(n) = view::list(input, &mut *text) {
        rt.write_all(&text[..n])?;
    }
    Ok(())
}

fn main(rt: HostRuntime) -> io::Result<()> {
    let mut input = [0u8; view::LARGEST + 1];
    let mut text = [0u8; view::ROOM];
    let n = read_full(&mut rt.reader(), &mut input)?;
    print(&rt, &input[..n], &mut text)
}
