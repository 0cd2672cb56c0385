//! LOOKUP (RFC 8881, section 18.13): its arguments and its result.
use crate::bytes::Bytes;
use std::alloc::Allocator;
use xdr_wire::{Full, Reader, Spell, Wire, Writer, XdrFault};

/// The number of LOOKUP.
pub const OP_LOOKUP: u32 = 15;

/// Moves to a child of the current directory. The arguments of LOOKUP (RFC 8881, section 18.13).
#[derive(Clone, Copy)]
pub struct LookupArgs<'a> {
    /// The child's name.
    pub name: Bytes<'a>,
}

impl<'a> Spell for LookupArgs<'a> {
    ghost use Rattle.std.specs.Prelude.{None};
    ghost use Rattle.nfs_ops.specs.Forms.{lookup_args};
    ghost use Rattle.nfs_ops.specs.Views.{lookup_args_value};

    ghost form = { lookup_args };

    ghost view = { lookup_args_value };

    ghost normal = { None };

    fn write<A: Allocator>(self, writer: &mut Writer<A>) -> Result<(), Full> {
        self.name.write(writer)
    }
}

impl<'a> Wire<'a> for LookupArgs<'a> {
    fn read(reader: &mut Reader<'a>) -> Result<Self, XdrFault> {
        let name = Wire::read(reader)?;
        Ok(LookupArgs { name })
    }
}
