//! NVERIFY (RFC 8881, section 18.15): its arguments and its result.
use nfs_types::Attributes;
use std::alloc::Allocator;
use xdr_wire::{Full, Reader, Spell, Wire, Writer, XdrFault};

/// The number of NVERIFY.
pub const OP_NVERIFY: u32 = 17;

/// Continues only if attributes differ. The arguments of NVERIFY (RFC 8881, section 18.15).
#[derive(Clone, Copy)]
pub struct NVerifyArgs<'a> {
    /// The attributes, with the values from which they must differ.
    pub attributes: Attributes<'a>,
}

impl<'a> Spell for NVerifyArgs<'a> {
    ghost use Rattle.std.specs.Prelude.{Some};
    ghost use Rattle.nfs_ops.specs.Forms.{nverify_args};
    ghost use Rattle.nfs_types.specs.Forms.{trimmed_set};
    ghost use Rattle.nfs_ops.specs.Views.{nverify_args_value};

    ghost form = { nverify_args };

    ghost view = { nverify_args_value };

    ghost normal = { Some trimmed_set };

    fn write<A: Allocator>(self, writer: &mut Writer<A>) -> Result<(), Full> {
        self.attributes.write(writer)
    }
}

impl<'a> Wire<'a> for NVerifyArgs<'a> {
    fn read(reader: &mut Reader<'a>) -> Result<Self, XdrFault> {
        let attributes = Wire::read(reader)?;
        Ok(NVerifyArgs { attributes })
    }
}
