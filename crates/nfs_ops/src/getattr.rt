//! GETATTR (RFC 8881, section 18.7): its arguments and its result.
ghost use Rattle.std.specs.Prelude.{◌≤◌, OnOk};
ghost use Rattle.nfs_ops.specs.Given.{PutsWithin, getattr_outcome};
ghost use Rattle.nfs_ops.specs.ItemViews.{given_value};
ghost use Rattle.nfs_ops.specs.Items.{ItemHasSpelling, ItemIsNormal};
ghost use Rattle.nfs_ops.specs.Results.{outcome_item};

use nfs_types::{Attributes, Bitmap, GivenAttributes};
use std::alloc::Allocator;
use xdr_wire::{Full, Reader, Spell, Wire, Writer, XdrFault};

/// The number of GETATTR.
pub const OP_GETATTR: u32 = 9;

/// Requests attributes. The arguments of GETATTR (RFC 8881, section 18.7).
#[derive(Clone, Copy)]
pub struct GetAttrArgs {
    /// The attributes requested.
    pub asked: Bitmap,
}

impl Spell for GetAttrArgs {
    ghost use Rattle.std.specs.Prelude.{Some};
    ghost use Rattle.nfs_ops.specs.Forms.{getattr_args};
    ghost use Rattle.nfs_types.specs.Forms.{trimmed};
    ghost use Rattle.nfs_ops.specs.Views.{getattr_args_value};

    ghost form = { getattr_args };

    ghost view = { getattr_args_value };

    ghost normal = { Some trimmed };

    fn write<A: Allocator>(self, writer: &mut Writer<A>) -> Result<(), Full> {
        self.asked.write(writer)
    }
}

impl<'a> Wire<'a> for GetAttrArgs {
    fn read(reader: &mut Reader<'a>) -> Result<Self, XdrFault> {
        let asked = Wire::read(reader)?;
        Ok(GetAttrArgs { asked })
    }
}

/// Attributes of the object. The result of GETATTR (RFC 8881, section 18.7).
#[derive(Clone, Copy)]
pub struct GetAttrResult<'a> {
    /// The attributes that are requested and supported, with their values.
    pub attributes: Attributes<'a>,
}

impl<'a> Spell for GetAttrResult<'a> {
    ghost use Rattle.std.specs.Prelude.{Some};
    ghost use Rattle.nfs_ops.specs.Forms.{getattr_result};
    ghost use Rattle.nfs_types.specs.Forms.{trimmed_set};
    ghost use Rattle.nfs_ops.specs.Views.{getattr_result_value};

    ghost form = { getattr_result };

    ghost view = { getattr_result_value };

    ghost normal = { Some trimmed_set };

    fn write<A: Allocator>(self, writer: &mut Writer<A>) -> Result<(), Full> {
        self.attributes.write(writer)
    }
}

impl<'a> Wire<'a> for GetAttrResult<'a> {
    fn read(reader: &mut Reader<'a>) -> Result<Self, XdrFault> {
        let attributes = Wire::read(reader)?;
        Ok(GetAttrResult { attributes })
    }
}

/// Writes the result of a GETATTR that is OK straight into the buffer that the reply is sent from, each value once.
/// `Full`: exactly if it takes more than `room` bytes; then nothing is written.
pub fn write_getattr<A: Allocator>(
    given: GivenAttributes<'_>,
    room: usize,
    writer: &mut Writer<A>,
) -> Result<(), Full>
    requires { room ≤ writer.old.room }
    ensures has_spelling { OnOk result (ItemHasSpelling (outcome_item (getattr_outcome (given_value given.entry)))) }
    ensures in_normal_form { OnOk result (ItemIsNormal (outcome_item (getattr_outcome (given_value given.entry)))) }
    ensures puts { PutsWithin room writer.old writer.new (outcome_item (getattr_outcome (given_value given.entry)))
        result }
{
    let start = writer.len();
    (OP_GETATTR, (0u32, given)).write(writer)?;
    if writer.len() - start > room {
        writer.truncate(start);
        return Err(Full);
    }
    Ok(())
}
