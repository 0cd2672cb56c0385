//! VERIFY (RFC 8881, section 18.31): its arguments and its result.
use nfs_types::Attributes;
use std::alloc::Allocator;
use xdr_wire::{Full, Reader, Spell, Wire, Writer, XdrFault};

/// The number of VERIFY.
pub const OP_VERIFY: u32 = 37;

/// Continues only if attributes have these values. The arguments of VERIFY (RFC 8881, section 18.31).
#[derive(Clone, Copy)]
pub struct VerifyArgs<'a> {
    /// The attributes, with these values.
    pub attributes: Attributes<'a>,
}

impl<'a> Spell for VerifyArgs<'a> {
    ghost use Rattle.std.specs.Prelude.{Some};
    ghost use Rattle.nfs_ops.specs.Forms.{verify_args};
    ghost use Rattle.nfs_types.specs.Forms.{trimmed_set};
    ghost use Rattle.nfs_ops.specs.Views.{verify_args_value};

    ghost form = { verify_args };

    ghost view = { verify_args_value };

    ghost normal = { Some trimmed_set };

    fn write<A: Allocator>(self, writer: &mut Writer<A>) -> Result<(), Full> {
        self.attributes.write(writer)
    }
}

impl<'a> Wire<'a> for VerifyArgs<'a> {
    fn read(reader: &mut Reader<'a>) -> Result<Self, XdrFault> {
        let attributes = Wire::read(reader)?;
        Ok(VerifyArgs { attributes })
    }
}
