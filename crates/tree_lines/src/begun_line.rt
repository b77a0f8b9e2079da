//! The line that is being read.
ghost use Rattle.std.specs.Prelude.{◌≡◌, ◌↔◌, IsTrue, ℕ, List, [], ◌∷◌, ◌++◌, Some};
ghost use Rattle.std.specs.Option.{option_map};
ghost use Rattle.tree_lines.specs.Spelling.{clip};

use std::marker::Model;

/// The bytes of a line whose line feed hasn't been read yet.
///
/// It stores up to 256 bytes. Of a longer line it stores only that it is too long.
#[derive(Drop)]
pub struct BegunLine {
    bytes: [u8; 256],
    length: usize,
    is_long: bool,
}

impl Model for BegunLine {
    ghost use Rattle.std.specs.Prelude.{◌≤◌, ℕ, List, Option, Some, None, take, if◌then◌else◌};

    ghost Value = { Option (List ℕ) };

    ghost view = { λ a. if a.is_long then None else Some (take a.length a.bytes) };

    ghost invariant = { λ a. a.length ≤ 256 };
}

impl BegunLine {
    /// Creates an empty line, which has room for 256 bytes. Allocates nothing.
    ///
    /// ```
    /// let mut line = BegunLine::new();
    /// ```
    pub fn new() -> Self
        ensures { result ≡ Some [] }
    {
        BegunLine {
            bytes: [0; 256],
            length: 0,
            is_long: false,
        }
    }

    /// Returns the bytes, or `None` if the line is too long. Runs in constant time.
    ///
    /// ```
    /// let Some(text) = line.text() else {
    ///     return Answer::Unknown;
    /// };
    /// ```
    pub fn text(&self) -> Option<&[u8]>
        ensures { option_map (λ text. text.now) result ≡ self.now }
    {
        if self.is_long {
            return None;
        }
        Some(&self.bytes[..self.length])
    }

    /// Returns whether the line has no byte. Runs in constant time.
    ///
    /// ```
    /// if line.is_empty() {
    ///     return Ok(());
    /// }
    /// ```
    pub fn is_empty(&self) -> bool
        ensures { IsTrue result ↔ (self.now ≡ Some []) }
    {
        self.length == 0 && !self.is_long
    }

    /// Appends a byte. The 257th makes the line too long. Runs in constant time.
    ///
    /// ```
    /// if byte != b'\n' {
    ///     line.push(byte);
    ///     return Ok(());
    /// }
    /// ```
    pub fn push(&mut self, byte: u8)
        ensures { (begun : List ℕ) → self.old ≡ clip begun → self.new ≡ clip (begun ++ byte ∷ []) }
    {
        if self.length < 256 {
            self.bytes[self.length] = byte;
            self.length += 1;
        } else {
            self.is_long = true;
        }
    }

    /// Empties the line, so that the next one can begin. Runs in constant time.
    ///
    /// ```
    /// line.clear();
    /// Ok(())
    /// ```
    pub fn clear(&mut self)
        ensures { self.new ≡ Some [] }
    {
        self.length = 0;
        self.is_long = false;
    }
}
