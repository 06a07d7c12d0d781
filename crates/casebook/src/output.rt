//! Output in fixed memory.
ghost use Rattle.std.specs.Prelude.{◌≡◌, [], OnOk};

use arrayvec::ArrayVec;
use std::io;
use std::io::Write;

/// What was written and not handed on yet, and the writer to which it goes when there is no more room, or at a flush.
#[derive(Drop)]
pub struct Gathered<W> {
    to: W,
    bytes: ArrayVec<u8, 8192>,
}

impl<W: Write> Gathered<W> {
    /// Nothing written yet.
    pub fn new(to: W) -> Gathered<W>
        ensures to { result.to ≡ to }
        ensures bytes { result.bytes.items ≡ [] }
    {
        Gathered {
            to,
            bytes: ArrayVec::new(),
        }
    }

    /// Hands on what was gathered.
    fn hand_on(&mut self) -> io::Result<()>
        ensures { OnOk result (self.new.bytes.items ≡ []) }
    {
        self.to.write_all(&self.bytes)?;
        self.bytes.clear();
        Ok(())
    }
}

impl<W: Write> Write for Gathered<W> {
    fn write(&mut self, buf: &[u8]) -> io::Result<usize> {
        if self.bytes.is_full() {
            self.hand_on()?;
        }
        self.bytes.write(buf)
    }

    fn flush(&mut self) -> io::Result<()> {
        self.hand_on()?;
        self.to.flush()
    }
}
