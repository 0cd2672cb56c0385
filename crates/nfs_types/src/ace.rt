//! An access control entry (ACE), `nfsace4` (RFC 8881, section 6.2.1).
use std::alloc::Allocator;
use xdr_wire::{Full, Opaque, Reader, Spell, Wire, Writer, XdrFault};

/// An ACE as it is sent, `nfsace4` (RFC 8881, section 6.2.1): any numbers, and the who as text.
#[derive(Clone, Copy)]
pub struct Ace<'a> {
    /// The type, `acetype4`.
    pub kind: u32,
    /// The flags, `aceflag4`.
    pub flags: u32,
    /// The mask, `acemask4`.
    pub mask: u32,
    /// The who, as text. Only the record bounds it.
    pub who: Opaque<'a, 0xffff_ffff>,
}

impl<'a> Spell for Ace<'a> {
    ghost use Rattle.std.specs.Prelude.{None};
    ghost use Rattle.nfs_types.specs.Attributes.{ace};
    ghost use Rattle.nfs_types.specs.AceView.{ace_value};

    ghost form = { ace };

    ghost view = { ace_value };

    ghost normal = { None };

    fn write<A: Allocator>(self, writer: &mut Writer<A>) -> Result<(), Full> {
        (self.kind, (self.flags, (self.mask, self.who))).write(writer)
    }
}

impl<'a> Wire<'a> for Ace<'a> {
    fn read(reader: &mut Reader<'a>) -> Result<Self, XdrFault> {
        let (kind, (flags, (mask, who))) = Wire::read(reader)?;
        Ok(Ace {
            kind,
            flags,
            mask,
            who,
        })
    }
}
