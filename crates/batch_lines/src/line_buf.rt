//! A buffer for one line of a workload.

ghost use Rattle.std.specs.Prelude.{◌≡◌, ◌+◌, ◌<◌, ◌≤◌, [], ◌++◌, length, codes, decimal};

use itoa::Buffer;
use std::marker::Model;

/// The greatest number of bytes of a line of a workload.
const CAPACITY: usize = 64;

/// A buffer of 64 bytes with a length. In contracts, its value is the list of the bytes up to its
/// length.
#[derive(Drop)]
pub struct LineBuf {
    bytes: [u8; CAPACITY],
    len: usize,
}

impl Model for LineBuf {
    ghost use Rattle.std.specs.Prelude.{ℕ, List, ◌≤◌, take};

    ghost Value = { List ℕ };

    ghost view = { λ b. take b.len b.bytes };

    ghost invariant = { λ b. b.len ≤ 64 };
}

impl LineBuf {
    /// An empty buffer. No memory is allocated.
    pub fn new() -> LineBuf
        ensures { result ≡ [] }
    {
        LineBuf {
            bytes: [0; CAPACITY],
            len: 0,
        }
    }

    /// The bytes of the line.
    pub fn as_bytes(&self) -> &[u8]
        ensures { result.now ≡ self.now }
    {
        &self.bytes[..self.len]
    }

    pub(crate) fn clear(&mut self)
        ensures { self.new ≡ [] }
    {
        self.len = 0;
    }

    /// Appends bytes, which must fit.
    pub(crate) fn put(&mut self, text: &[u8])
        requires { length self.old + length text.now ≤ 64 }
        ensures { self.new ≡ self.old ++ text.now }
    {
        let end = self.len + text.len();
        self.bytes[self.len..end].copy_from_slice(text);
        self.len = end;
    }

    /// Appends a digit; the buffer must have fewer than 64 bytes before.
    pub(crate) fn put_digit(&mut self, digit: u8)
        requires room { length self.old < 64 }
        requires one { digit < 10 }
        ensures text { self.new ≡ self.old ++ decimal digit }
        ensures short { length (decimal digit) ≤ 1 }
    {
        let mut buffer = Buffer::new();
        self.put(buffer.format(digit).as_bytes());
    }

    /// Appends a space and a digit; the buffer must have at most 62 bytes before.
    pub(crate) fn put_word(&mut self, digit: u8)
        requires room { length self.old ≤ 62 }
        requires one { digit < 10 }
        ensures text { self.new ≡ self.old ++ (codes " " ++ decimal digit) }
        ensures short { length self.new ≤ length self.old + 2 }
    {
        self.put(b" ");
        self.put_digit(digit);
    }
}
