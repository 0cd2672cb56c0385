//! Opaque data, of fixed and of any length (RFC 4506, sections 4.9 and 4.10).
ghost use Rattle.std.specs.Prelude.{◌≡◌, ◌<◌, ◌≤◌, ◌↔◌, length, IfSome, IsNone};

use crate::fault::XdrFault;
use crate::reader::Reader;
use crate::wire::{Spell, Wire};
use crate::writer::{Full, Writer};
use std::alloc::Allocator;

/// Opaque data or a string of at most `MAX` bytes (RFC 4506, sections 4.10 and 4.11), borrowed. The type carries the
/// bound, which makes each value writable.
#[derive(Clone, Copy, Debug)]
pub struct Opaque<'a, const MAX: u32> {
    pub bytes: &'a [u8],
    ghost within: { length bytes.now ≤ MAX },
}

impl<'a, const MAX: u32> Opaque<'a, MAX> {
    /// The bytes as an item. `None`: they are more than `MAX`.
    pub fn new(bytes: &'a [u8]) -> Option<Self>
        ensures same { IfSome result (λ item. item.bytes.now ≡ bytes.now) }
        ensures none { IsNone result ↔ (MAX < length bytes.now) }
    {
        if bytes.len() > MAX as usize {
            return None;
        }
        Some(Opaque { bytes })
    }
}

impl<'a, const MAX: u32> Spell for Opaque<'a, MAX> {
    ghost use Rattle.std.specs.Prelude.{None};
    ghost use Rattle.xdr_wire.specs.Xdr.{opaque};

    ghost form = { opaque MAX };

    ghost view = { λ item. item.bytes.now };

    ghost normal = { None };

    fn write<A: Allocator>(self, writer: &mut Writer<A>) -> Result<(), Full> {
        let _bound = MAX as usize;
        writer.put_opaque(self.bytes)
    }
}

impl<'a, const MAX: u32> Wire<'a> for Opaque<'a, MAX> {
    fn read(reader: &mut Reader<'a>) -> Result<Self, XdrFault> {
        let bytes = reader.opaque(MAX as usize)?;
        Ok(Opaque { bytes })
    }
}

/// Opaque data of `N` bytes (section 4.9).
impl<const N: usize> Spell for [u8; N] {
    ghost use Rattle.std.specs.Prelude.{None};
    ghost use Rattle.xdr_wire.specs.Xdr.{fixed};

    ghost form = { fixed N };

    ghost view = { λ bytes. bytes };

    ghost normal = { None };

    fn write<A: Allocator>(self, writer: &mut Writer<A>) -> Result<(), Full> {
        writer.put_fixed(&self)
    }
}

impl<'a, const N: usize> Wire<'a> for [u8; N] {
    fn read(reader: &mut Reader<'a>) -> Result<Self, XdrFault> {
        let item = reader.fixed(N)?;
        let mut bytes = [0; N];
        bytes.copy_from_slice(item);
        Ok(bytes)
    }
}
