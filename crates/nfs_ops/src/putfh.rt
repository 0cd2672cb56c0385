//! PUTFH (RFC 8881, section 18.19): its arguments and its result.
use nfs_types::Handle;
use std::alloc::Allocator;
use xdr_wire::{Full, Reader, Spell, Wire, Writer, XdrFault};

/// The number of PUTFH.
pub const OP_PUTFH: u32 = 22;

/// Moves to an object by its filehandle. The arguments of PUTFH (RFC 8881, section 18.19).
#[derive(Clone, Copy)]
pub struct PutFhArgs<'a> {
    /// The object's filehandle.
    pub handle: Handle<'a>,
}

impl<'a> Spell for PutFhArgs<'a> {
    ghost use Rattle.std.specs.Prelude.{None};
    ghost use Rattle.nfs_ops.specs.Forms.{putfh_args};
    ghost use Rattle.nfs_ops.specs.Views.{putfh_args_value};

    ghost form = { putfh_args };

    ghost view = { putfh_args_value };

    ghost normal = { None };

    fn write<A: Allocator>(self, writer: &mut Writer<A>) -> Result<(), Full> {
        self.handle.write(writer)
    }
}

impl<'a> Wire<'a> for PutFhArgs<'a> {
    fn read(reader: &mut Reader<'a>) -> Result<Self, XdrFault> {
        let handle = Wire::read(reader)?;
        Ok(PutFhArgs { handle })
    }
}
