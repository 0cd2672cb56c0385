//! CLOSE (RFC 8881, section 18.2): its arguments and its result.
use nfs_types::StateId;
use std::alloc::Allocator;
use xdr_wire::{Full, Reader, Spell, Wire, Writer, XdrFault};

/// The number of CLOSE.
pub const OP_CLOSE: u32 = 4;

/// Ends an open. The arguments of CLOSE (RFC 8881, section 18.2).
#[derive(Clone, Copy)]
pub struct CloseArgs {
    /// Ignored.
    pub seqid: u32,
    /// The open.
    pub stateid: StateId,
}

impl Spell for CloseArgs {
    ghost use Rattle.std.specs.Prelude.{None};
    ghost use Rattle.nfs_ops.specs.Forms.{close_args};
    ghost use Rattle.nfs_ops.specs.Views.{close_args_value};

    ghost form = { close_args };

    ghost view = { close_args_value };

    ghost normal = { None };

    fn write<A: Allocator>(self, writer: &mut Writer<A>) -> Result<(), Full> {
        (self.seqid, self.stateid).write(writer)
    }
}

impl<'a> Wire<'a> for CloseArgs {
    fn read(reader: &mut Reader<'a>) -> Result<Self, XdrFault> {
        let (seqid, stateid) = Wire::read(reader)?;
        Ok(CloseArgs { seqid, stateid })
    }
}

/// The open was closed. The result of CLOSE (RFC 8881, section 18.2).
#[derive(Clone, Copy)]
pub struct CloseResult {
    /// The invalid stateid, which no operation accepts.
    pub stateid: StateId,
}

impl Spell for CloseResult {
    ghost use Rattle.std.specs.Prelude.{None};
    ghost use Rattle.nfs_ops.specs.Forms.{close_result};
    ghost use Rattle.nfs_ops.specs.Views.{close_result_value};

    ghost form = { close_result };

    ghost view = { close_result_value };

    ghost normal = { None };

    fn write<A: Allocator>(self, writer: &mut Writer<A>) -> Result<(), Full> {
        self.stateid.write(writer)
    }
}

impl<'a> Wire<'a> for CloseResult {
    fn read(reader: &mut Reader<'a>) -> Result<Self, XdrFault> {
        let stateid = Wire::read(reader)?;
        Ok(CloseResult { stateid })
    }
}
