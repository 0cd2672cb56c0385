//! DESTROY_SESSION (RFC 8881, section 18.37): its arguments and its result.
use std::alloc::Allocator;
use xdr_wire::{Full, Reader, Spell, Wire, Writer, XdrFault};

/// The number of DESTROY_SESSION.
pub const OP_DESTROY_SESSION: u32 = 44;

/// Destroys a session. The arguments of DESTROY_SESSION (RFC 8881, section 18.37).
#[derive(Clone, Copy)]
pub struct DestroySessionArgs {
    /// The session ID.
    pub session: [u8; 16],
}

impl Spell for DestroySessionArgs {
    ghost use Rattle.std.specs.Prelude.{None};
    ghost use Rattle.nfs_ops.specs.Forms.{destroy_session_args};
    ghost use Rattle.nfs_ops.specs.Views.{destroy_session_args_value};

    ghost form = { destroy_session_args };

    ghost view = { destroy_session_args_value };

    ghost normal = { None };

    fn write<A: Allocator>(self, writer: &mut Writer<A>) -> Result<(), Full> {
        let session = self.session;
        session.write(writer)
    }
}

impl<'a> Wire<'a> for DestroySessionArgs {
    fn read(reader: &mut Reader<'a>) -> Result<Self, XdrFault> {
        let session = Wire::read(reader)?;
        Ok(DestroySessionArgs { session })
    }
}
