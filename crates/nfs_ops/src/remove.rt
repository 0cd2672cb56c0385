//! REMOVE (RFC 8881, section 18.25): its arguments and its result.
use crate::bytes::Bytes;
use crate::change_info::ChangeInfo;
use std::alloc::Allocator;
use xdr_wire::{Full, Reader, Spell, Wire, Writer, XdrFault};

/// The number of REMOVE.
pub const OP_REMOVE: u32 = 28;

/// Removes a name. The arguments of REMOVE (RFC 8881, section 18.25).
#[derive(Clone, Copy)]
pub struct RemoveArgs<'a> {
    /// The name in the current directory.
    pub name: Bytes<'a>,
}

impl<'a> Spell for RemoveArgs<'a> {
    ghost use Rattle.std.specs.Prelude.{None};
    ghost use Rattle.nfs_ops.specs.Forms.{remove_args};
    ghost use Rattle.nfs_ops.specs.Views.{remove_args_value};

    ghost form = { remove_args };

    ghost view = { remove_args_value };

    ghost normal = { None };

    fn write<A: Allocator>(self, writer: &mut Writer<A>) -> Result<(), Full> {
        self.name.write(writer)
    }
}

impl<'a> Wire<'a> for RemoveArgs<'a> {
    fn read(reader: &mut Reader<'a>) -> Result<Self, XdrFault> {
        let name = Wire::read(reader)?;
        Ok(RemoveArgs { name })
    }
}

/// The name was removed. The result of REMOVE (RFC 8881, section 18.25).
#[derive(Clone, Copy)]
pub struct RemoveResult {
    /// The change of the directory.
    pub change: ChangeInfo,
}

impl Spell for RemoveResult {
    ghost use Rattle.std.specs.Prelude.{None};
    ghost use Rattle.nfs_ops.specs.Forms.{remove_result};
    ghost use Rattle.nfs_ops.specs.Views.{remove_result_value};

    ghost form = { remove_result };

    ghost view = { remove_result_value };

    ghost normal = { None };

    fn write<A: Allocator>(self, writer: &mut Writer<A>) -> Result<(), Full> {
        self.change.write(writer)
    }
}

impl<'a> Wire<'a> for RemoveResult {
    fn read(reader: &mut Reader<'a>) -> Result<Self, XdrFault> {
        let change = Wire::read(reader)?;
        Ok(RemoveResult { change })
    }
}
