// Lines of standard input.
ghost use Rattle.std.specs.Prelude.{◌≤◌};

use std::io;
use std::io::Read;

// The chunk of the input that was read last, how much of it has been handed out, and where what was read ends.
#[derive(Clone, Copy)]
pub struct Feed {
    chunk: [u8; 65536],
    at: usize,
    end: usize,
    ghost inside: { end ≤ 65536 },
}

// A line with more bytes than there is room for.
#[derive(Clone, Copy)]
pub struct TooLong;

impl Feed {
    // Nothing is read yet.
    pub fn new() -> Feed {
        Feed {
            chunk: [0; 65536],
            at: 0,
            end: 0,
        }
    }

    // The next byte of the input, if there is one.
    fn byte<R: Input>(&mut self, rt: &R) -> io::Result<Option<u8>> {
        if self.end <= self.at {
            self.end = rt.reader().read(&mut self.chunk)?;
            self.at = 0;
        }
        if self.end <= self.at {
            return Ok(None);
        }
        let b = self.chunk[self.at];
        self.at += 1;
        Ok(Some(b))
    }

    // Reads up to the next line's end, and answers how many bytes of `line` it has; none where the input has ended.
    // Nothing says that the input has a line's end, so the loop has a number of turns that no run uses up.
    pub fn next<R: Input>(
        &mut self,
        rt: &R,
        line: &mut [u8],
    ) -> io::Result<Option<Result<usize, TooLong>>> {
        let mut n = Ok(0);
        for _ in 0..u64::MAX {
            match self.byte(rt)? {
                Some(b'\n') => return Ok(Some(n)),
                Some(b) => n = put(line, n, b),
                None => break,
            }
        }
        match n {
            Ok(0) => Ok(None),
            _ => Ok(Some(n)),
        }
    }
}

// Puts a byte at place n of the line, if it has room, and answers the next place.
fn put(line: &mut [u8], n: Result<usize, TooLong>, b: u8) -> Result<usize, TooLong> {
    let at = n?;
    if line.len() <= at {
        return Err(TooLong);
    }
    line[at] = b;
    Ok(at + 1)
}
