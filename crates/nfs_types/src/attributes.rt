//! A set of attributes with their values, `fattr4` (RFC 8881, section 3.3).
use crate::bitmap::Bitmap;
use std::alloc::Allocator;
use xdr_wire::{Full, Opaque, Reader, Spell, Wire, Writer, XdrFault};

/// Attributes as they are sent, `fattr4` (RFC 8881, section 3.3.9): their set, and the bytes of their values in the
/// order of their numbers. The bytes are borrowed, and only the record bounds them.
#[derive(Clone, Copy)]
pub struct Attributes<'a> {
    /// The set of the attributes.
    pub set: Bitmap,
    /// The values, one after the other.
    pub values: Opaque<'a, 0xffff_ffff>,
}

impl<'a> Spell for Attributes<'a> {
    ghost use Rattle.std.specs.Prelude.{Some};
    ghost use Rattle.nfs_types.specs.Forms.{attributes, trimmed_set};
    ghost use Rattle.nfs_types.specs.Views.{attributes_value};

    ghost form = { attributes };

    ghost view = { attributes_value };

    ghost normal = { Some trimmed_set };

    fn write<A: Allocator>(self, writer: &mut Writer<A>) -> Result<(), Full> {
        (self.set, self.values).write(writer)
    }
}

impl<'a> Wire<'a> for Attributes<'a> {
    fn read(reader: &mut Reader<'a>) -> Result<Self, XdrFault> {
        let (set, values) = Wire::read(reader)?;
        Ok(Attributes { set, values })
    }
}
