// Prints the saved table on standard input. One byte more than the longest is read, so that a longer input shows.
#![tactic(auto)]

ghost use Rattle.std.specs.Prelude.{◌≤◌, length, IfOk};

use std::io;
use std::io::Read;
use table_printer::TEXT_SIZE;

// Reads until the buffer is full or the input ends, and answers how many bytes it put at the buffer's start.
//
// By hand: `read_exact` refuses an input that ends before, and `read_to_end` takes a growing buffer, where the project
// has no heap.
fn read_full<R: Input>(rt: &R, buf: &mut [u8]) -> io::Result<usize>
    ensures { IfOk result (λ n. n ≤ length buf.new) }
{
    let mut reader = rt.reader();
    let mut done = 0;
    while done < buf.len() {
        let n = reader.read(&mut buf[done..])?;
        if n == 0 {
            break;
        }
        done += n;
    }
    Ok(done)
}

fn main(rt: HostRuntime) -> io::Result<()> {
    let mut input = [0u8; 65537];
    let n = read_full(&rt, &mut input)?;
    let mut text = [0u8; TEXT_SIZE];
    let k = table_printer::write_lines(&input[..n], &mut text);
    rt.write_all(&text[..k])
}
