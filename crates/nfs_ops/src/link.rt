//! LINK (RFC 8881, section 18.9): its arguments and its result.
use crate::bytes::Bytes;
use crate::change_info::ChangeInfo;
use std::alloc::Allocator;
use xdr_wire::{Full, Reader, Spell, Wire, Writer, XdrFault};

/// The number of LINK.
pub const OP_LINK: u32 = 11;

/// Adds a name to the saved object. The arguments of LINK (RFC 8881, section 18.9).
#[derive(Clone, Copy)]
pub struct LinkArgs<'a> {
    /// The new name in the current directory.
    pub name: Bytes<'a>,
}

impl<'a> Spell for LinkArgs<'a> {
    ghost use Rattle.std.specs.Prelude.{None};
    ghost use Rattle.nfs_ops.specs.Forms.{link_args};
    ghost use Rattle.nfs_ops.specs.Views.{link_args_value};

    ghost form = { link_args };

    ghost view = { link_args_value };

    ghost normal = { None };

    fn write<A: Allocator>(self, writer: &mut Writer<A>) -> Result<(), Full> {
        self.name.write(writer)
    }
}

impl<'a> Wire<'a> for LinkArgs<'a> {
    fn read(reader: &mut Reader<'a>) -> Result<Self, XdrFault> {
        let name = Wire::read(reader)?;
        Ok(LinkArgs { name })
    }
}

/// The name was added. The result of LINK (RFC 8881, section 18.9).
#[derive(Clone, Copy)]
pub struct LinkResult {
    /// The change of the directory.
    pub change: ChangeInfo,
}

impl Spell for LinkResult {
    ghost use Rattle.std.specs.Prelude.{None};
    ghost use Rattle.nfs_ops.specs.Forms.{link_result};
    ghost use Rattle.nfs_ops.specs.Views.{link_result_value};

    ghost form = { link_result };

    ghost view = { link_result_value };

    ghost normal = { None };

    fn write<A: Allocator>(self, writer: &mut Writer<A>) -> Result<(), Full> {
        self.change.write(writer)
    }
}

impl<'a> Wire<'a> for LinkResult {
    fn read(reader: &mut Reader<'a>) -> Result<Self, XdrFault> {
        let change = Wire::read(reader)?;
        Ok(LinkResult { change })
    }
}
