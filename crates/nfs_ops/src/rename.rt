//! RENAME (RFC 8881, section 18.26): its arguments and its result.
use crate::bytes::Bytes;
use crate::change_info::ChangeInfo;
use std::alloc::Allocator;
use xdr_wire::{Full, Reader, Spell, Wire, Writer, XdrFault};

/// The number of RENAME.
pub const OP_RENAME: u32 = 29;

/// Moves a name. The arguments of RENAME (RFC 8881, section 18.26).
#[derive(Clone, Copy)]
pub struct RenameArgs<'a> {
    /// The old name in the saved directory.
    pub old: Bytes<'a>,
    /// The new name in the current directory.
    pub new: Bytes<'a>,
}

impl<'a> Spell for RenameArgs<'a> {
    ghost use Rattle.std.specs.Prelude.{None};
    ghost use Rattle.nfs_ops.specs.Forms.{rename_args};
    ghost use Rattle.nfs_ops.specs.Views.{rename_args_value};

    ghost form = { rename_args };

    ghost view = { rename_args_value };

    ghost normal = { None };

    fn write<A: Allocator>(self, writer: &mut Writer<A>) -> Result<(), Full> {
        (self.old, self.new).write(writer)
    }
}

impl<'a> Wire<'a> for RenameArgs<'a> {
    fn read(reader: &mut Reader<'a>) -> Result<Self, XdrFault> {
        let (old, new) = Wire::read(reader)?;
        Ok(RenameArgs { old, new })
    }
}

/// The name was moved. The result of RENAME (RFC 8881, section 18.26).
#[derive(Clone, Copy)]
pub struct RenameResult {
    /// The change of the saved directory.
    pub source: ChangeInfo,
    /// The change of the current directory.
    pub target: ChangeInfo,
}

impl Spell for RenameResult {
    ghost use Rattle.std.specs.Prelude.{None};
    ghost use Rattle.nfs_ops.specs.Forms.{rename_result};
    ghost use Rattle.nfs_ops.specs.Views.{rename_result_value};

    ghost form = { rename_result };

    ghost view = { rename_result_value };

    ghost normal = { None };

    fn write<A: Allocator>(self, writer: &mut Writer<A>) -> Result<(), Full> {
        (self.source, self.target).write(writer)
    }
}

impl<'a> Wire<'a> for RenameResult {
    fn read(reader: &mut Reader<'a>) -> Result<Self, XdrFault> {
        let (source, target) = Wire::read(reader)?;
        Ok(RenameResult { source, target })
    }
}
