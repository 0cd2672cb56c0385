//! A sample of an array with a normal form: a set of numbers, in which zero words at the end mean nothing.
ghost use Rattle.std.specs.Prelude.{◌≡◌, ◌≤◌, ◌<◌, ◌+◌, ◌++◌, ◌∷◌, [], length, Some};
ghost use Rattle.xdr_wire.specs.Reading.{Gives, read_at};
ghost use Rattle.xdr_wire.specs.Wire.{in_normal_form};
ghost use Rattle.form_samples.specs.Forms.{bitmap, trimmed};

use std::marker::Model;
use xdr_wire::{Reader, XdrFault};

/// A set of attribute numbers below 256 (RFC 8881, section 3.3.7, `bitmap4`), by words of 32 bits. Zero words at the
/// end mean nothing: they are read, and not written.
#[derive(Drop)]
pub struct Bitmap {
    words: [u32; 8],
    len: usize,
}

impl Model for Bitmap {
    ghost use Rattle.std.specs.Prelude.{List, ℕ, take, ◌≤◌};

    ghost Value = { List ℕ };

    ghost view = { λ b. take b.len b.words };

    ghost invariant = { λ b. b.len ≤ 8 };
}

impl Bitmap {
    /// The empty set.
    pub fn empty() -> Self
        ensures { result ≡ [] }
    {
        Bitmap {
            words: [0; 8],
            len: 0,
        }
    }

    /// Adds the numbers of one more word.
    pub fn push(&mut self, word: u32)
        requires { length self.old < 8 }
        ensures { self.new ≡ self.old ++ word ∷ [] }
    {
        self.words[self.len] = word;
        self.len += 1;
    }

    /// Drops zero words at the end.
    fn trim(&mut self)
        ensures { self.new ≡ trimmed self.old }
    {
        while self.len > 0 && self.words[self.len - 1] == 0 {
            self.len -= 1;
        }
    }

    fn read_words(reader: &mut Reader<'_>) -> Result<Bitmap, XdrFault>
        ensures { Gives (λ b. b) reader.old reader.new result (read_at bitmap reader.old) }
    {
        let mut ahead = reader.fork();
        let count = ahead.count(8)?;
        let mut words = Bitmap::empty();
        for _ in 0..count {
            let word = ahead.u32()?;
            words.push(word);
        }
        *reader = ahead;
        Ok(words)
    }

    /// Reads a set of at most eight words. `TooLong`: it has more.
    pub fn read(reader: &mut Reader<'_>) -> Result<Bitmap, XdrFault>
        ensures { Gives (λ b. b) reader.old reader.new result
            (in_normal_form (Some trimmed) (read_at bitmap reader.old)) }
    {
        let mut words = Bitmap::read_words(reader)?;
        words.trim();
        Ok(words)
    }

    /// The number of words up to the last one that isn't zero.
    pub fn len(&self) -> usize
        ensures { result ≡ length self.now }
    {
        self.len
    }
}
