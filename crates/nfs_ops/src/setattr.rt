//! SETATTR (RFC 8881, section 18.30): its arguments and its result.
use nfs_types::{Attributes, Bitmap, StateId};
use std::alloc::Allocator;
use xdr_wire::{Full, Reader, Spell, Wire, Writer, XdrFault};

/// The number of SETATTR.
pub const OP_SETATTR: u32 = 34;

/// Sets attributes. The arguments of SETATTR (RFC 8881, section 18.30).
#[derive(Clone, Copy)]
pub struct SetAttrArgs<'a> {
    /// The stateid of an open or a special one, checked if the size is set.
    pub stateid: StateId,
    /// The attributes, with their values.
    pub attributes: Attributes<'a>,
}

impl<'a> Spell for SetAttrArgs<'a> {
    ghost use Rattle.std.specs.Prelude.{Some};
    ghost use Rattle.nfs_ops.specs.Forms.{setattr_args, setattr_normal};
    ghost use Rattle.nfs_ops.specs.Views.{setattr_args_value};

    ghost form = { setattr_args };

    ghost view = { setattr_args_value };

    ghost normal = { Some setattr_normal };

    fn write<A: Allocator>(self, writer: &mut Writer<A>) -> Result<(), Full> {
        (self.stateid, self.attributes).write(writer)
    }
}

impl<'a> Wire<'a> for SetAttrArgs<'a> {
    fn read(reader: &mut Reader<'a>) -> Result<Self, XdrFault> {
        let (stateid, attributes) = Wire::read(reader)?;
        Ok(SetAttrArgs {
            stateid,
            attributes,
        })
    }
}

/// The attributes were set. The result of SETATTR (RFC 8881, section 18.30).
#[derive(Clone, Copy)]
pub struct SetAttrResult {
    /// The attributes that were set.
    pub set: Bitmap,
}

impl Spell for SetAttrResult {
    ghost use Rattle.std.specs.Prelude.{Some};
    ghost use Rattle.nfs_ops.specs.Forms.{setattr_result};
    ghost use Rattle.nfs_types.specs.Forms.{trimmed};
    ghost use Rattle.nfs_ops.specs.Views.{setattr_result_value};

    ghost form = { setattr_result };

    ghost view = { setattr_result_value };

    ghost normal = { Some trimmed };

    fn write<A: Allocator>(self, writer: &mut Writer<A>) -> Result<(), Full> {
        self.set.write(writer)
    }
}

impl<'a> Wire<'a> for SetAttrResult {
    fn read(reader: &mut Reader<'a>) -> Result<Self, XdrFault> {
        let set = Wire::read(reader)?;
        Ok(SetAttrResult { set })
    }
}
