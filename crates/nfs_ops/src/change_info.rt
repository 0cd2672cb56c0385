//! The change of a directory, `change_info4` (RFC 8881, section 3.3.9).
use crate::always::Always;
use std::alloc::Allocator;
use xdr_wire::{Full, Reader, Spell, Wire, Writer, XdrFault};

/// The change attribute of a directory before and after an operation (RFC 8881, section 3.3.9, `change_info4`). It is
/// always atomic.
#[derive(Clone, Copy)]
pub struct ChangeInfo {
    pub before: u64,
    pub after: u64,
}

impl Spell for ChangeInfo {
    ghost use Rattle.std.specs.Prelude.{None};
    ghost use Rattle.nfs_ops.specs.Forms.{change_info};
    ghost use Rattle.nfs_ops.specs.Views.{change_info_value};

    ghost form = { change_info };

    ghost view = { change_info_value };

    ghost normal = { None };

    fn write<A: Allocator>(self, writer: &mut Writer<A>) -> Result<(), Full> {
        (Always::<1>, (self.before, self.after)).write(writer)
    }
}

impl<'a> Wire<'a> for ChangeInfo {
    fn read(reader: &mut Reader<'a>) -> Result<Self, XdrFault> {
        let (Always::<1>, (before, after)) = Wire::read(reader)?;
        Ok(ChangeInfo { before, after })
    }
}
