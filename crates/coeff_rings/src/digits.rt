//! A buffer for the decimal text of one number.
ghost use Rattle.std.specs.Prelude.{◌≡◌, ℕ, ◌+◌, ◌≤◌, List, [], ◌++◌, length, take, codes, decimal};
ghost use Rattle.std.specs.Fmt.{signed_decimal};

use itoa::Buffer;
use std::marker::Model;

/// The greatest length of the text of a scalar: a sign, two numbers of 39 digits and a slash.
const CAPACITY: usize = 80;

/// A buffer of 80 bytes, of which the first `len` are in use. In contracts, it is the list of the
/// bytes in use.
#[derive(Drop)]
pub struct Digits {
    bytes: [u8; CAPACITY],
    len: usize,
}

impl Model for Digits {
    ghost Value = { List ℕ };

    ghost view = { λ d. take d.len d.bytes };

    ghost invariant = { λ d. d.len ≤ 80 };
}

impl Digits {
    /// An empty buffer.
    pub fn new() -> Digits
        ensures { result ≡ [] }
    {
        Digits {
            bytes: [0; CAPACITY],
            len: 0,
        }
    }

    /// The bytes of the buffer that are in use.
    pub fn as_bytes(&self) -> &[u8]
        ensures { result.now ≡ self.now }
    {
        &self.bytes[..self.len]
    }

    pub(crate) fn clear(&mut self)
        ensures { self.new ≡ [] }
    {
        self.len = 0;
    }

    /// Appends the decimal text of the integer `number`. The buffer may have at most 40 bytes in
    /// use before the call, so that there is room for the text of every integer.
    pub(crate) fn put_signed(&mut self, number: i128)
        requires { length self.old ≤ 40 }
        ensures text { self.new ≡ self.old ++ signed_decimal number }
        ensures short { length (signed_decimal number) ≤ 40 }
    {
        let mut buffer = Buffer::new();
        self.put(buffer.format(number).as_bytes());
    }

    /// Appends the decimal text of the natural number `number`. The buffer may have at most 41
    /// bytes in use before the call, so that there is room for the text of every number.
    pub(crate) fn put_unsigned(&mut self, number: u128)
        requires { length self.old ≤ 41 }
        ensures text { self.new ≡ self.old ++ decimal number }
    {
        let mut buffer = Buffer::new();
        self.put(buffer.format(number).as_bytes());
    }

    /// Appends the bytes of `text`. The buffer must have room for them: it holds at most 80 bytes.
    pub(crate) fn put(&mut self, text: &[u8])
        requires { length self.old + length text.now ≤ 80 }
        ensures { self.new ≡ self.old ++ text.now }
    {
        let end = self.len + text.len();
        self.bytes[self.len..end].copy_from_slice(text);
        self.len = end;
    }
}
