//! ACCESS (RFC 8881, section 18.1): its arguments and its result.
use std::alloc::Allocator;
use xdr_wire::{Full, Reader, Spell, Wire, Writer, XdrFault};

/// The number of ACCESS.
pub const OP_ACCESS: u32 = 3;

/// Checks these access rights of the caller. The arguments of ACCESS (RFC 8881, section 18.1).
#[derive(Clone, Copy)]
pub struct AccessArgs {
    /// ACCESS4 bits: READ 1, LOOKUP 2, MODIFY 4, EXTEND 8, DELETE 0x10, EXECUTE 0x20.
    pub asked: u32,
}

impl Spell for AccessArgs {
    ghost use Rattle.std.specs.Prelude.{None};
    ghost use Rattle.nfs_ops.specs.Forms.{access_args};
    ghost use Rattle.nfs_ops.specs.Views.{access_args_value};

    ghost form = { access_args };

    ghost view = { access_args_value };

    ghost normal = { None };

    fn write<A: Allocator>(self, writer: &mut Writer<A>) -> Result<(), Full> {
        self.asked.write(writer)
    }
}

impl<'a> Wire<'a> for AccessArgs {
    fn read(reader: &mut Reader<'a>) -> Result<Self, XdrFault> {
        let asked = Wire::read(reader)?;
        Ok(AccessArgs { asked })
    }
}

/// The access rights requested that are supported, and those that the caller has. The result of ACCESS (RFC 8881,
/// section 18.1).
#[derive(Clone, Copy)]
pub struct AccessResult {
    /// The rights that the server can check for the object.
    pub supported: u32,
    /// The supported rights that are granted.
    pub granted: u32,
}

impl Spell for AccessResult {
    ghost use Rattle.std.specs.Prelude.{None};
    ghost use Rattle.nfs_ops.specs.Forms.{access_result};
    ghost use Rattle.nfs_ops.specs.Views.{access_result_value};

    ghost form = { access_result };

    ghost view = { access_result_value };

    ghost normal = { None };

    fn write<A: Allocator>(self, writer: &mut Writer<A>) -> Result<(), Full> {
        (self.supported, self.granted).write(writer)
    }
}

impl<'a> Wire<'a> for AccessResult {
    fn read(reader: &mut Reader<'a>) -> Result<Self, XdrFault> {
        let (supported, granted) = Wire::read(reader)?;
        Ok(AccessResult { supported, granted })
    }
}
