//! The implementation of a client or a server, `nfs_impl_id4` (RFC 8881, section 3.3).
use crate::bytes::Bytes;
use std::alloc::Allocator;
use xdr_wire::{Full, Reader, Spell, Wire, Writer, XdrFault};

/// The implementation of a client, and its date (RFC 8881, section 18.35, `nfs_impl_id4`).
#[derive(Clone, Copy)]
pub struct Implementation<'a> {
    /// The implementer's domain.
    pub domain: Bytes<'a>,
    /// The name of the implementation.
    pub name: Bytes<'a>,
    /// Seconds and nanoseconds, which may be any number.
    pub date: (i64, u32),
}

impl<'a> Spell for Implementation<'a> {
    ghost use Rattle.std.specs.Prelude.{None};
    ghost use Rattle.nfs_ops.specs.Forms.{implementation};
    ghost use Rattle.nfs_ops.specs.Views.{implementation_value};

    ghost form = { implementation };

    ghost view = { implementation_value };

    ghost normal = { None };

    fn write<A: Allocator>(self, writer: &mut Writer<A>) -> Result<(), Full> {
        (self.domain, (self.name, self.date)).write(writer)
    }
}

impl<'a> Wire<'a> for Implementation<'a> {
    fn read(reader: &mut Reader<'a>) -> Result<Self, XdrFault> {
        let (domain, (name, date)) = Wire::read(reader)?;
        Ok(Implementation { domain, name, date })
    }
}
