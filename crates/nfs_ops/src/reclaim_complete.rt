//! RECLAIM_COMPLETE (RFC 8881, section 18.51): its arguments and its result.
use std::alloc::Allocator;
use xdr_wire::{Full, Reader, Spell, Wire, Writer, XdrFault};

/// The number of RECLAIM_COMPLETE.
pub const OP_RECLAIM_COMPLETE: u32 = 58;

/// Reports that a client reclaims no more. The arguments of RECLAIM_COMPLETE (RFC 8881, section 18.51).
#[derive(Clone, Copy)]
pub struct ReclaimCompleteArgs {
    /// Whether the report is only about the file system of the current filehandle.
    pub one_fs: bool,
}

impl Spell for ReclaimCompleteArgs {
    ghost use Rattle.std.specs.Prelude.{None};
    ghost use Rattle.nfs_ops.specs.Forms.{reclaim_complete_args};
    ghost use Rattle.nfs_ops.specs.Views.{reclaim_complete_args_value};

    ghost form = { reclaim_complete_args };

    ghost view = { reclaim_complete_args_value };

    ghost normal = { None };

    fn write<A: Allocator>(self, writer: &mut Writer<A>) -> Result<(), Full> {
        self.one_fs.write(writer)
    }
}

impl<'a> Wire<'a> for ReclaimCompleteArgs {
    fn read(reader: &mut Reader<'a>) -> Result<Self, XdrFault> {
        let one_fs = Wire::read(reader)?;
        Ok(ReclaimCompleteArgs { one_fs })
    }
}
