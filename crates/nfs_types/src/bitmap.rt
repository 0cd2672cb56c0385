//! A set of attributes, `bitmap4` (RFC 8881, section 3.3).
ghost use Rattle.std.specs.Prelude.{◌≡◌, ◌≤◌, ◌<◌, ◌||◌, ◌==◌, ℕ, [], ◌∷◌, length};
ghost use Rattle.nfs_types.specs.Forms as forms;

use crate::attribute::{ALL_WORDS, SETTABLE, WITHOUT_TIMES};
use std::alloc::Allocator;
use xdr_wire::{Full, Reader, Spell, Wire, Writer, XdrFault};

/// A set of attribute numbers below 256, `bitmap4` (RFC 8881, section 3.3.7), by words of 32 bits. Zero words at the
/// end mean nothing: they are read, and not written.
#[derive(Clone, Copy, Debug, PartialEq, Eq)]
pub struct Bitmap {
    words: [u32; 8],
    ghost whole: { length words ≡ 8 },
}

/// The words without zero words at the end.
fn trimmed(words: &[u32]) -> &[u32]
    ensures { result.now ≡ forms.trimmed words.now }
{
    let mut len = words.len();
    while len > 0 && words[len - 1] == 0 {
        len -= 1;
    }
    &words[..len]
}

impl Bitmap {
    ghost use Rattle.std.specs.Prelude.{not};
    ghost use Rattle.nfs_types.specs.Attributes as specs;
    ghost use Rattle.nfs_types.specs.Common.{common, without};
    ghost use Rattle.nfs_types.specs.Seen.{seen_words};
    ghost use Rattle.nfs_types.specs.Sets.{has_number};
    ghost use Rattle.nfs_types.specs.Views.{bitmap_value};

    /// The empty set.
    pub fn empty() -> Self
        ensures { bitmap_value result ≡ [] }
    {
        Bitmap { words: [0; 8] }
    }

    /// Whether the attribute of this number is in the set.
    pub fn has(&self, number: u32) -> bool
        ensures { result ≡ has_number (bitmap_value self.now) number }
    {
        let index = (number / 32) as usize;
        index < 8 && (self.words[index] >> (number % 32)) & 1 == 1
    }

    /// The set with the attribute of this number, which is below 256.
    pub fn with(self, number: u32) -> Self
        requires { number < 256 }
        ensures { (m : ℕ) → has_number (bitmap_value result) m ≡ has_number (bitmap_value self) m || (m == number) }
    {
        let mut words = self.words;
        words[(number / 32) as usize] |= 1 << (number % 32);
        Bitmap { words }
    }

    /// Whether each number of the set is in the other set.
    pub fn is_within(&self, other: &Bitmap) -> bool
        ensures { result ≡ specs.is_within (bitmap_value self.now) (bitmap_value other.now) }
    {
        for index in 0..8 {
            if self.words[index] & !other.words[index] != 0 {
                return false;
            }
        }
        true
    }

    /// The numbers that both sets have.
    pub fn common(&self, other: &Bitmap) -> Self
        ensures { bitmap_value result ≡ forms.trimmed (common (bitmap_value self.now) (bitmap_value other.now)) }
    {
        let mut words = self.words;
        for index in 0..8 {
            words[index] &= other.words[index];
        }
        Bitmap { words }
    }

    /// The set without these numbers.
    pub fn without(self, numbers: &[u32]) -> Self
        ensures { bitmap_value result ≡ forms.trimmed (without (bitmap_value self) numbers.now) }
    {
        let mut words = self.words;
        for number in numbers {
            let index = (*number / 32) as usize;
            if index < 8 {
                words[index] &= !(1 << (*number % 32));
            }
        }
        Bitmap { words }
    }

    /// The attributes that are supported: with those of times and of space, if times can be set.
    pub fn supported(times: bool) -> Self
        ensures { bitmap_value result ≡ specs.supported_words times }
    {
        if times {
            Bitmap { words: ALL_WORDS }
        } else {
            Bitmap {
                words: WITHOUT_TIMES,
            }
        }
    }

    /// Whether an attribute is in the set that can only be set: time_access_set or time_modify_set (RFC 8881, section
    /// 5.5).
    pub fn has_set_only(&self) -> bool
        ensures { result ≡ specs.has_set_only (bitmap_value self.now) }
    {
        self.has(48) || self.has(54)
    }

    /// The set of these first two words.
    pub(crate) fn of_words(first: u32, second: u32) -> Self
        ensures { bitmap_value result ≡ forms.trimmed (first ∷ second ∷ []) }
    {
        Bitmap {
            words: [first, second, 0, 0, 0, 0, 0, 0],
        }
    }

    /// The attributes that a client requests: 1, 4, 11, 12, 33, 36, 37, 58 and 59.
    pub fn seen() -> Self
        ensures { bitmap_value result ≡ seen_words }
    {
        Bitmap {
            words: [0x0000_1812, 0x0c41_0032, 0, 0, 0, 0, 0, 0],
        }
    }

    /// The attribute size alone.
    pub fn size() -> Self
        ensures { bitmap_value result ≡ 16 ∷ [] }
    {
        Bitmap {
            words: [0x0000_0010, 0, 0, 0, 0, 0, 0, 0],
        }
    }

    /// The attributes that CREATE, OPEN and SETATTR can set.
    pub fn settable() -> Self
        ensures { bitmap_value result ≡ specs.settable_words }
    {
        Bitmap { words: SETTABLE }
    }
}

impl Spell for Bitmap {
    ghost use Rattle.std.specs.Prelude.{Some};
    ghost use Rattle.nfs_types.specs.Forms.{bitmap, trimmed};
    ghost use Rattle.nfs_types.specs.Views.{bitmap_value};

    ghost form = { bitmap };

    ghost view = { bitmap_value };

    ghost normal = { Some trimmed };

    fn write<A: Allocator>(self, writer: &mut Writer<A>) -> Result<(), Full> {
        let start = writer.len();
        let Bitmap { words: all } = self;
        let words = trimmed(&all);
        writer.put_u32(words.len() as u32)?;
        for word in words {
            if word.write(writer).is_err() {
                writer.truncate(start);
                return Err(Full);
            }
        }
        Ok(())
    }
}

impl<'a> Wire<'a> for Bitmap {
    fn read(reader: &mut Reader<'a>) -> Result<Self, XdrFault> {
        let mut ahead = reader.fork();
        let count = ahead.count(8)?;
        let mut words = [0; 8];
        for index in 0..count as usize {
            words[index] = ahead.u32()?;
        }
        *reader = ahead;
        Ok(Bitmap { words })
    }
}
