//! GETFH (RFC 8881, section 18.8): its arguments and its result.
use nfs_types::Handle;
use std::alloc::Allocator;
use xdr_wire::{Full, Reader, Spell, Wire, Writer, XdrFault};

/// The number of GETFH.
pub const OP_GETFH: u32 = 10;

/// The current filehandle. The result of GETFH (RFC 8881, section 18.8).
#[derive(Clone, Copy)]
pub struct GetFhResult<'a> {
    /// The current filehandle.
    pub handle: Handle<'a>,
}

impl<'a> Spell for GetFhResult<'a> {
    ghost use Rattle.std.specs.Prelude.{None};
    ghost use Rattle.nfs_ops.specs.Forms.{getfh_result};
    ghost use Rattle.nfs_ops.specs.Views.{getfh_result_value};

    ghost form = { getfh_result };

    ghost view = { getfh_result_value };

    ghost normal = { None };

    fn write<A: Allocator>(self, writer: &mut Writer<A>) -> Result<(), Full> {
        self.handle.write(writer)
    }
}

impl<'a> Wire<'a> for GetFhResult<'a> {
    fn read(reader: &mut Reader<'a>) -> Result<Self, XdrFault> {
        let handle = Wire::read(reader)?;
        Ok(GetFhResult { handle })
    }
}
