//! EXCHANGE_ID (RFC 8881, section 18.35): its arguments and its result.
use crate::always::{Always, Zeros};
use crate::implementation::Implementation;
use std::alloc::Allocator;
use xdr_wire::{AtMostOne, Full, Opaque, Reader, Spell, Wire, Writer, XdrFault};

/// The number of EXCHANGE_ID.
pub const OP_EXCHANGE_ID: u32 = 42;

/// The number of bytes of the server's name.
pub const MAX_SERVER: u32 = 11;

/// The server's name: the server owner's major ID, and the server scope.
pub const SERVER_NAME: &[u8] = b"nfs41-lists";

/// Registers a client, without protection of its state. The arguments of EXCHANGE_ID (RFC 8881, section 18.35).
#[derive(Clone, Copy)]
pub struct ExchangeIdArgs<'a> {
    /// The verifier of this incarnation of the client.
    pub verifier: [u8; 8],
    /// The client owner's ID.
    pub owner: Opaque<'a, 1024>,
    /// EXCHGID4_FLAG bits.
    pub flags: u32,
    /// The client's implementation.
    pub implementation: Option<Implementation<'a>>,
}

impl<'a> Spell for ExchangeIdArgs<'a> {
    ghost use Rattle.std.specs.Prelude.{None};
    ghost use Rattle.nfs_ops.specs.Forms.{exchange_id_args};
    ghost use Rattle.nfs_ops.specs.Views.{exchange_id_args_value};

    ghost form = { exchange_id_args };

    ghost view = { exchange_id_args_value };

    ghost normal = { None };

    fn write<A: Allocator>(self, writer: &mut Writer<A>) -> Result<(), Full> {
        let verifier = self.verifier;
        let last = (Always::<0>, AtMostOne(self.implementation));
        (verifier, (self.owner, (self.flags, last))).write(writer)
    }
}

impl<'a> Wire<'a> for ExchangeIdArgs<'a> {
    fn read(reader: &mut Reader<'a>) -> Result<Self, XdrFault> {
        let (verifier, (owner, (flags, (Always::<0>, AtMostOne(implementation))))) = Wire::read(
            reader,
        )?;
        Ok(ExchangeIdArgs {
            verifier,
            owner,
            flags,
            implementation,
        })
    }
}

/// The client's record. The result of EXCHANGE_ID (RFC 8881, section 18.35).
#[derive(Clone, Copy)]
pub struct ExchangeIdResult<'a> {
    /// The client ID.
    pub client: u64,
    /// The sequence ID of the next CREATE_SESSION.
    pub sequence: u32,
    /// EXCHGID4_FLAG bits.
    pub flags: u32,
    /// The server owner's major ID.
    pub server: Opaque<'a, MAX_SERVER>,
    /// The server scope.
    pub scope: Opaque<'a, MAX_SERVER>,
}

impl<'a> Spell for ExchangeIdResult<'a> {
    ghost use Rattle.std.specs.Prelude.{None};
    ghost use Rattle.nfs_ops.specs.Forms.{exchange_id_result};
    ghost use Rattle.nfs_ops.specs.Views.{exchange_id_result_value};

    ghost form = { exchange_id_result };

    ghost view = { exchange_id_result_value };

    ghost normal = { None };

    fn write<A: Allocator>(self, writer: &mut Writer<A>) -> Result<(), Full> {
        let names = (self.server, (self.scope, Always::<0>));
        let last = (self.flags, (Always::<0>, (Zeros, names)));
        (self.client, (self.sequence, last)).write(writer)
    }
}

impl<'a> Wire<'a> for ExchangeIdResult<'a> {
    fn read(reader: &mut Reader<'a>) -> Result<Self, XdrFault> {
        let (client, (sequence, (flags, (Always::<0>, (Zeros, (server, (scope, Always::<0>))))))) =
            Wire::read(reader)?;
        Ok(ExchangeIdResult {
            client,
            sequence,
            flags,
            server,
            scope,
        })
    }
}
