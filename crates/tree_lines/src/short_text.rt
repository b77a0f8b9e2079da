//! A text on the stack that grows at its front.
ghost use Rattle.std.specs.Prelude.{◌≡◌, ◌+◌, ◌<◌, ◌≤◌, [], ◌∷◌, ◌++◌, length, decimal};

use std::marker::Model;

/// A text of at most 42 bytes, enough for a space and the digits of two `u64` with a byte between
/// them.
///
/// It grows at its front, since the last digit of a number is computed first.
#[derive(Drop)]
pub struct ShortText {
    bytes: [u8; 42],
    start: usize,
}

impl Model for ShortText {
    ghost use Rattle.std.specs.Prelude.{◌≤◌, ℕ, List, drop};

    ghost Value = { List ℕ };

    ghost view = { λ a. drop a.start a.bytes };

    ghost invariant = { λ a. a.start ≤ 42 };
}

impl ShortText {
    /// Creates an empty text.
    pub fn new() -> Self
        ensures { result ≡ [] }
    {
        ShortText {
            bytes: [0; 42],
            start: 42,
        }
    }

    /// Returns the bytes.
    pub fn as_bytes(&self) -> &[u8]
        ensures { result.now ≡ self.now }
    {
        &self.bytes[self.start..]
    }

    /// Prepends a byte. The caller must leave room for it.
    pub fn push_front(&mut self, byte: u8)
        requires { length self.old < 42 }
        ensures { self.new ≡ byte ∷ self.old }
    {
        self.start -= 1;
        self.bytes[self.start] = byte;
    }

    /// Prepends the decimal digits of a number. The caller must leave room for twenty digits.
    pub fn push_number_front(&mut self, n: u64)
        requires { length self.old + 20 ≤ 42 }
        ensures { self.new ≡ decimal n ++ self.old }
    {
        let mut rest = n;
        while rest >= 10 {
            self.push_front(b'0' + (rest % 10) as u8);
            rest /= 10;
        }
        self.push_front(b'0' + rest as u8);
    }
}
