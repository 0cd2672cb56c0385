//! The text of a user, a group or a principal.
ghost use Rattle.std.specs.Prelude.{◌≡◌, ◌+◌, ◌≤◌, ◌==◌, [], ◌∷◌, ◌++◌, length};

use std::marker::Model;

/// The text of a user, a group or a principal: at most 193 bytes, for a name of 64, an `@` and a domain of 128.
#[derive(Drop)]
pub struct Spelling {
    bytes: [u8; 193],
    len: usize,
}

impl Model for Spelling {
    ghost use Rattle.std.specs.Prelude.{List, ℕ, take, ◌≤◌};

    ghost Value = { List ℕ };

    ghost view = { λ s. take s.len s.bytes };

    ghost invariant = { λ s. s.len ≤ 193 };
}

impl Spelling {
    pub(crate) fn new() -> Self
        ensures { result ≡ [] }
    {
        Spelling {
            bytes: [0; 193],
            len: 0,
        }
    }

    /// Appends bytes.
    pub(crate) fn push(&mut self, piece: &[u8])
        requires { length self.old + length piece.now ≤ 193 }
        ensures { self.new ≡ self.old ++ piece.now }
    {
        let end = self.len + piece.len();
        self.bytes[self.len..end].copy_from_slice(piece);
        self.len = end;
    }

    /// The bytes of the text.
    pub fn as_bytes(&self) -> &[u8]
        ensures bytes { result.now ≡ self.now }
        ensures short { length result.now ≤ 193 }
    {
        &self.bytes[..self.len]
    }

    /// The number of bytes of the text.
    pub fn len(&self) -> usize
        ensures len { result ≡ length self.now }
        ensures short { result ≤ 193 }
    {
        self.as_bytes().len()
    }

    /// Whether the text has no bytes. A book never returns an empty text.
    pub fn is_empty(&self) -> bool
        ensures { result ≡ (length self.now == 0) }
    {
        self.len == 0
    }
}
