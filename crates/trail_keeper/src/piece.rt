//! The bytes of one write.
ghost use Rattle.std.specs.Prelude.{◌≡◌, ◌+◌, ◌≤◌, [], ◌∷◌, ◌++◌, length};

use access_guard::MOST_TEXT;
use std::marker::Model;

/// The largest number of bytes in the prefix of a line.
pub const MOST_PREFIX: usize = 32;

/// The largest number of bytes of one write: the prefix of a line, its text, and its newline.
const MOST_PIECE: usize = MOST_PREFIX + MOST_TEXT + 1;

/// The bytes of one write, assembled: at most 161.
#[derive(Drop)]
pub(crate) struct Piece {
    bytes: [u8; MOST_PIECE],
    len: usize,
}

impl Model for Piece {
    ghost use Rattle.std.specs.Prelude.{List, ℕ, take, ◌≤◌};

    ghost Value = { List ℕ };

    ghost view = { λ p. take p.len p.bytes };

    ghost invariant = { λ p. p.len ≤ 161 };
}

impl Piece {
    pub(crate) fn new() -> Self
        ensures { result ≡ [] }
    {
        Piece {
            bytes: [0; MOST_PIECE],
            len: 0,
        }
    }

    pub(crate) fn as_bytes(&self) -> &[u8]
        ensures { result.now ≡ self.now }
    {
        &self.bytes[..self.len]
    }

    pub(crate) fn push(&mut self, bytes: &[u8])
        requires { length self.old + length bytes.now ≤ 161 }
        ensures { self.new ≡ self.old ++ bytes.now }
    {
        let end = self.len + bytes.len();
        self.bytes[self.len..end].copy_from_slice(bytes);
        self.len = end;
    }
    /// Appends a newline.
    pub(crate) fn end(&mut self)
        requires { length self.old + 1 ≤ 161 }
        ensures { self.new ≡ self.old ++ 10 ∷ [] }
    {
        self.push(b"\n");
    }
}
