//! READLINK (RFC 8881, section 18.24): its arguments and its result.
use crate::bytes::Bytes;
use std::alloc::Allocator;
use xdr_wire::{Full, Reader, Spell, Wire, Writer, XdrFault};

/// The number of READLINK.
pub const OP_READLINK: u32 = 27;

/// The text of a symbolic link. The result of READLINK (RFC 8881, section 18.24).
#[derive(Clone, Copy)]
pub struct ReadLinkResult<'a> {
    /// The text.
    pub text: Bytes<'a>,
}

impl<'a> Spell for ReadLinkResult<'a> {
    ghost use Rattle.std.specs.Prelude.{None};
    ghost use Rattle.nfs_ops.specs.Forms.{readlink_result};
    ghost use Rattle.nfs_ops.specs.Views.{readlink_result_value};

    ghost form = { readlink_result };

    ghost view = { readlink_result_value };

    ghost normal = { None };

    fn write<A: Allocator>(self, writer: &mut Writer<A>) -> Result<(), Full> {
        self.text.write(writer)
    }
}

impl<'a> Wire<'a> for ReadLinkResult<'a> {
    fn read(reader: &mut Reader<'a>) -> Result<Self, XdrFault> {
        let text = Wire::read(reader)?;
        Ok(ReadLinkResult { text })
    }
}
