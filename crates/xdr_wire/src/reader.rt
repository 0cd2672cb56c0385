//! Decoding bytes from left to right.
ghost use Rattle.std.specs.Prelude.{◌≡◌, ◌<◌, ◌≤◌, ◌+◌, ◌↔◌, List, [], length, MatchResult, IfOk, IsTrue};
ghost use Rattle.std.specs.Int.{w32, w64};
ghost use Rattle.xdr_wire.specs.Xdr.{uint, hyper, signed_hyper, boolean, fixed, opaque, padding};
ghost use Rattle.xdr_wire.specs.Reading.{Gives, read_at, padded_at, count_at, are_zero};

use crate::fault::XdrFault;
use std::marker::Model;

/// The bytes that are left to read; contracts see a list. Results borrow from these bytes and are never copied. A call
/// that returns a fault leaves the reader at the beginning of the item.
#[derive(Drop)]
pub struct Reader<'a> {
    rest: &'a [u8],
}

impl<'a> Model for Reader<'a> {
    ghost use Rattle.std.specs.Prelude.{List, ℕ};

    ghost Value = { List ℕ };

    ghost view = { λ r. r.rest.now };
}

/// The number of zero bytes after an item of `len` bytes (RFC 4506, section 3).
pub(crate) fn padding_of(len: usize) -> usize
    ensures { result ≡ padding len }
{
    (4 - len % 4) % 4
}

fn are_zero(bytes: &[u8]) -> bool
    ensures { result ≡ are_zero bytes.now }
{
    bytes.iter().all(|b| *b == 0)
}

/// An item of this length and its padding, and the bytes after them.
#[tactic(auto, unfolding(crate::specs::Reading::padded_at))]
fn split_padded(bytes: &[u8], len: usize) -> Result<(&[u8], &[u8]), XdrFault>
    ensures gives { MatchResult result (λ x. padded_at len bytes.now ≡ Ok (x.0.now, x.1.now))
        (λ e. padded_at len bytes.now ≡ Err e) }
    ensures len { IfOk result (λ x. length x.0.now ≡ len) }
{
    if bytes.len() < len {
        return Err(XdrFault::Short);
    }
    let (item, appended) = bytes.split_at(len);
    let padding = padding_of(len);
    if appended.len() < padding {
        return Err(XdrFault::Short);
    }
    let (zeros, rest) = appended.split_at(padding);
    if are_zero(zeros) {
        Ok((item, rest))
    } else {
        Err(XdrFault::BadPad)
    }
}

impl<'a> Reader<'a> {
    /// A reader of these bytes.
    pub fn new(bytes: &'a [u8]) -> Self
        ensures { result ≡ bytes.now }
    {
        Reader { rest: bytes }
    }

    /// Another reader of the same bytes, for reading ahead.
    pub fn fork(&self) -> Reader<'a>
        ensures { result ≡ self.now }
    {
        Reader { rest: self.rest }
    }

    /// All bytes that are left.
    pub fn rest(&self) -> &'a [u8]
        ensures { result.now ≡ self.now }
    {
        self.rest
    }

    /// The number of bytes that are left.
    pub fn len(&self) -> usize
        ensures { result ≡ length self.now }
    {
        self.rest.len()
    }

    /// Whether nothing is left.
    pub fn is_empty(&self) -> bool
        ensures { IsTrue result ↔ (self.now ≡ []) }
    {
        self.rest.is_empty()
    }

    /// An unsigned int (RFC 4506, section 4.2). `Short`: fewer than 4 bytes are left.
    pub fn u32(&mut self) -> Result<u32, XdrFault>
        ensures { Gives (λ n. n) self.old self.new result (read_at uint self.old) }
    {
        if self.rest.len() < 4 {
            return Err(XdrFault::Short);
        }
        let (item, rest) = self.rest.split_at(4);
        self.rest = rest;
        Ok(u32::from_be_bytes([item[0], item[1], item[2], item[3]]))
    }

    /// An unsigned hyper (section 4.5). `Short`: fewer than 8 bytes are left.
    pub fn u64(&mut self) -> Result<u64, XdrFault>
        ensures { Gives (λ n. n) self.old self.new result (read_at hyper self.old) }
    {
        if self.rest.len() < 8 {
            return Err(XdrFault::Short);
        }
        let (item, rest) = self.rest.split_at(8);
        self.rest = rest;
        Ok(u64::from_be_bytes([
            item[0], item[1], item[2], item[3], item[4], item[5], item[6], item[7],
        ]))
    }

    /// A hyper, in two's complement (section 4.5). `Short`: fewer than 8 bytes are left.
    pub fn i64(&mut self) -> Result<i64, XdrFault>
        ensures { Gives (λ z. z) self.old self.new result (read_at signed_hyper self.old) }
    {
        Ok(self.u64()?.cast_signed())
    }

    /// A boolean (section 4.4). `Short`: fewer than 4 bytes are left. `BadBool`: the number is above 1.
    pub fn boolean(&mut self) -> Result<bool, XdrFault>
        ensures { Gives (λ b. b) self.old self.new result (read_at boolean self.old) }
    {
        let start = self.rest;
        match self.u32()? {
            0 => Ok(false),
            1 => Ok(true),
            _ => {
                self.rest = start;
                Err(XdrFault::BadBool)
            }
        }
    }

    /// The count of an array or the length of an opaque item, at most `max`. `Short`: fewer than 4 bytes are left.
    /// `TooLong`: the number is above `max`.
    pub fn count(&mut self, max: usize) -> Result<u32, XdrFault>
        ensures gives { Gives (λ n. n) self.old self.new result (count_at max self.old) }
        ensures within { IfOk result (λ n. n ≤ max) }
    {
        let start = self.rest;
        let count = self.u32()?;
        if count as usize > max {
            self.rest = start;
            return Err(XdrFault::TooLong);
        }
        Ok(count)
    }

    /// Opaque data of n bytes and its padding (section 4.9). `Short`: bytes or padding are missing. Else `BadPad`: the
    /// padding isn't zero.
    pub fn fixed(&mut self, n: usize) -> Result<&'a [u8], XdrFault>
        ensures gives { Gives (λ x. x.now) self.old self.new result (read_at (fixed n) self.old) }
        ensures len { IfOk result (λ x. length x.now ≡ n) }
    {
        let (item, rest) = split_padded(self.rest, n)?;
        self.rest = rest;
        Ok(item)
    }

    /// Opaque data of at most `max` bytes, after its length (section 4.10). The faults come in this order. `Short`: the
    /// length is missing. `TooLong`: the length is above `max`. `Short`: bytes or padding are missing. `BadPad`: the
    /// padding isn't zero.
    pub fn opaque(&mut self, max: usize) -> Result<&'a [u8], XdrFault>
        ensures gives { Gives (λ x. x.now) self.old self.new result (read_at (opaque max) self.old) }
        ensures within { IfOk result (λ x. length x.now ≤ max) }
    {
        let mut appended = Reader { rest: self.rest };
        let len = appended.count(max)?;
        let item = appended.fixed(len as usize)?;
        self.rest = appended.rest;
        Ok(item)
    }
}
