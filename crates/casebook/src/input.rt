//! Input line by line, in fixed memory.
ghost use Rattle.std.specs.Prelude.{◌≤◌};

use arrayvec::ArrayVec;
use std::io;
use std::io::{Read, Write};

const CHUNK: usize = 8192;

/// One byte more than a line may have, so that a longer line is refused as it would be whole.
const KEPT: usize = 4097;

/// An input line by line: a chunk that was read, of which the bytes from `at` to `filled` were not looked at yet, and the
/// line so far, of which at most the first 4,097 bytes are kept. The chunk is an array with two numbers beside it, since an
/// input fills a whole slice and says how much; std's buffered reader allocates.
#[derive(Drop)]
pub struct Lines<R> {
    input: R,
    chunk: [u8; CHUNK],
    at: usize,
    filled: usize,
    line: ArrayVec<u8, KEPT>,
    ghost full: { filled ≤ 8192 },
}

impl<R: Read> Lines<R> {
    /// Nothing read yet.
    pub fn new(input: R) -> Lines<R> {
        Lines {
            input,
            chunk: [0; CHUNK],
            at: 0,
            filled: 0,
            line: ArrayVec::new(),
        }
    }

    /// Takes the rest of the line from the chunk; answers whether the line ended.
    fn advance(&mut self) -> bool {
        // By number: where a line ends in the chunk is where the next one begins.
        for at in self.at..self.filled {
            self.at = at + 1;
            let b = self.chunk[at];
            if b == b'\n' {
                return true;
            }
            let _ = self.line.try_push(b);
        }
        false
    }

    /// The next line, if there is one. What was written is flushed before input is waited for.
    pub fn next(&mut self, out: &mut impl Write) -> io::Result<Option<&[u8]>> {
        self.line.clear();
        // Counted, since the program has no leave to wait for ever.
        for _ in 0..u64::MAX {
            if self.advance() {
                return Ok(Some(&self.line));
            }
            out.flush()?;
            self.filled = self.input.read(&mut self.chunk)?;
            self.at = 0;
            if self.filled == 0 {
                break;
            }
        }
        if self.line.is_empty() {
            return Ok(None);
        }
        Ok(Some(&self.line))
    }
}
