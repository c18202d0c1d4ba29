// Reads one protocol configuration options element from standard input, and prints its units or why it is declined.
#![tactic(auto)]

ghost use Rattle.std.specs.Prelude.{◌≤◌, ◌<◌, length, take, IfOk};
ghost use Rattle.std.specs.Io.KnownBytes.{Consumes, IsAtEnd};

use listing::list;
use std::io;
use std::io::Read;

/// The most octets that are read. They are held in an array, so that a longer input takes no more memory.
const ROOM: usize = 300;

fn main(rt: HostRuntime) -> io::Result<()> {
    let mut buffer = [0u8; ROOM];
    let given = fill(&mut rt.stdin(), &mut buffer)?;
    let text = list(rt.alloc(), &buffer[0..given])?;
    rt.print(text)
}

// Reads into the buffer until it is full or the input ends, and answers how many octets came.
// The buffer is an array of one size, so no library call that lets a buffer grow takes the loop's place. Reads may come in
// pieces: each turn brings an octet or more, or is the last, so as many turns as octets are enough.
fn fill<R: Read>(reader: &mut R, buffer: &mut [u8]) -> io::Result<usize>
    ensures answer { IfOk result (λ n. n ≤ length buffer.old) }
    ensures octets { IfOk result (λ n.
        Consumes (R.remaining reader.old) (R.remaining reader.new) (take n buffer.new)) }
    ensures end { IfOk result (λ n. n < length buffer.old → IsAtEnd (R.remaining reader.new)) }
{
    let mut filled = 0;
    for _turn in 0..buffer.len() {
        let got = reader.read(&mut buffer[filled..])?;
        if got == 0 {
            break;
        }
        filled += got;
    }
    Ok(filled)
}
