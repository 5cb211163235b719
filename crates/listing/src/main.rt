// Prints the best taxa of an outline for a page count: reads the page count, the way and the outline from standard input,
// and writes the selection, or the refusal, to standard output.
#![tactic(auto)]

ghost use Rattle.std.specs.Prelude.{◌<◌, IfOk, length, take};
ghost use Rattle.std.specs.Io.{ReadsAtMost};
ghost use Rattle.std.specs.Io.KnownBytes.{Consumes, IsAtEnd};

mod columns;
mod list;
mod refusal;
mod taxa;

use std::io::{Read, Write};

// Reads until the buffer is full or the input ends, and answers how many bytes it has put at the beginning of the buffer. Each turn
// puts at least one, so that there are no more turns than bytes. A loop, and not `read_to_end`: that fills a `Vec`, and this program
// asks for no memory, so that its axioms are those of reading and printing alone.
fn read_full<R: Read>(reader: &mut R, buffer: &mut [u8]) -> std::io::Result<usize>
    ensures within { ReadsAtMost result buffer.new }
    ensures bytes { IfOk result (λ n. Consumes (R.remaining reader.old) (R.remaining reader.new) (take n buffer.new)) }
    ensures end { IfOk result (λ n. n < length buffer.new → IsAtEnd (R.remaining reader.new)) }
{
    let mut done = 0;
    for _ in 0..buffer.len() {
        if done == buffer.len() {
            break;
        }
        let read = reader.read(&mut buffer[done..])?;
        if read == 0 {
            break;
        }
        done += read;
    }
    Ok(done)
}

fn main(rt: HostRuntime) -> std::io::Result<()> {
    let mut input = [0u8; list::MOST_JUDGED];
    let read = read_full(&mut rt.reader(), &mut input)?;
    // a buffer, and no `String`: it is proved that no listing is longer, and no memory is asked for
    let mut buffer = [0u8; list::MOST_PRINTED];
    let size = list::list(&input[..read], &mut buffer);
    std::io::writer(&rt).write_all(&buffer[..size])
}
