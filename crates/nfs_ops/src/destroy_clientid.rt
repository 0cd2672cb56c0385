//! DESTROY_CLIENTID (RFC 8881, section 18.50): its arguments and its result.
use std::alloc::Allocator;
use xdr_wire::{Full, Reader, Spell, Wire, Writer, XdrFault};

/// The number of DESTROY_CLIENTID.
pub const OP_DESTROY_CLIENTID: u32 = 57;

/// Destroys a client ID. The arguments of DESTROY_CLIENTID (RFC 8881, section 18.50).
#[derive(Clone, Copy)]
pub struct DestroyClientIdArgs {
    /// The client ID.
    pub client: u64,
}

impl Spell for DestroyClientIdArgs {
    ghost use Rattle.std.specs.Prelude.{None};
    ghost use Rattle.nfs_ops.specs.Forms.{destroy_clientid_args};
    ghost use Rattle.nfs_ops.specs.Views.{destroy_clientid_args_value};

    ghost form = { destroy_clientid_args };

    ghost view = { destroy_clientid_args_value };

    ghost normal = { None };

    fn write<A: Allocator>(self, writer: &mut Writer<A>) -> Result<(), Full> {
        self.client.write(writer)
    }
}

impl<'a> Wire<'a> for DestroyClientIdArgs {
    fn read(reader: &mut Reader<'a>) -> Result<Self, XdrFault> {
        let client = Wire::read(reader)?;
        Ok(DestroyClientIdArgs { client })
    }
}
