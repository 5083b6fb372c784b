//! A reader and a writer that handle one byte at a time and fail at chosen calls.
ghost use Rattle.std.specs.Prelude.{refl};

use calc_base::{SteadyRead, SteadyWrite};
use std::io;
use std::io::{ErrorKind, Read, Write};

/// A reader whose first call gives one byte, whose second call fails, and whose third call gives
/// one byte; then the input has ended.
#[derive(Drop)]
pub struct NarrowReader {
    reads: u8,
}

impl NarrowReader {
    /// A reader before its first call.
    pub fn new() -> NarrowReader {
        NarrowReader { reads: 0 }
    }
}

impl Read for NarrowReader {
    fn read(&mut self, buf: &mut [u8]) -> io::Result<usize> {
        self.reads = self.reads.saturating_add(1);
        if self.reads == 2 {
            return Err(io::Error::from(ErrorKind::Other));
        }
        if self.reads > 3 || buf.is_empty() {
            return Ok(0);
        }
        buf[0] = if self.reads == 1 { b'b' } else { b'd' };
        Ok(1)
    }
}

impl SteadyRead for NarrowReader {
    ghost steady = { λ a b. refl };
}

/// A writer that takes one byte at each write, except that the fifth write fails and the seventh
/// takes nothing. Its second flush fails.
#[derive(Drop)]
pub struct NarrowWriter {
    taken: [u8; 8],
    count: usize,
    writes: u8,
    flushes: u8,
}

impl NarrowWriter {
    /// A writer before its first call.
    pub fn new() -> NarrowWriter {
        NarrowWriter {
            taken: [0; 8],
            count: 0,
            writes: 0,
            flushes: 0,
        }
    }

    /// The bytes that were written to the writer, at most 8.
    pub fn taken(&self) -> &[u8] {
        &self.taken[..self.count.min(8)]
    }
}

impl Write for NarrowWriter {
    fn write(&mut self, buf: &[u8]) -> io::Result<usize> {
        self.writes = self.writes.saturating_add(1);
        if self.writes == 5 {
            return Err(io::Error::from(ErrorKind::Other));
        }
        if self.writes == 7 || buf.is_empty() || self.count >= 8 {
            return Ok(0);
        }
        self.taken[self.count] = buf[0];
        self.count += 1;
        Ok(1)
    }

    fn flush(&mut self) -> io::Result<()> {
        self.flushes = self.flushes.saturating_add(1);
        if self.flushes == 2 {
            return Err(io::Error::from(ErrorKind::Other));
        }
        Ok(())
    }
}

impl SteadyWrite for NarrowWriter {
    ghost steady = { λ a b. refl };
}
