//! CREATE_SESSION (RFC 8881, section 18.36): its arguments and its result.
use crate::callback_security::CallbackSecurity;
use crate::channel::Channel;
use std::alloc::Allocator;
use xdr_wire::{Array, Full, Reader, Spell, Wire, Writer, XdrFault};

/// The number of CREATE_SESSION.
pub const OP_CREATE_SESSION: u32 = 43;

/// Creates a session of a client. The arguments of CREATE_SESSION (RFC 8881, section 18.36).
#[derive(Drop)]
pub struct CreateSessionArgs<'a> {
    /// The client ID.
    pub client: u64,
    /// The sequence ID: one more than that of the last CREATE_SESSION.
    pub sequence: u32,
    /// CREATE_SESSION4_FLAG bits.
    pub flags: u32,
    /// The attributes of the fore channel.
    pub fore: Channel,
    /// The attributes of the backchannel.
    pub back: Channel,
    /// The program of callbacks.
    pub program: u32,
    /// The credentials of callbacks.
    pub security: Array<'a, CallbackSecurity<'a>, 8>,
}

impl<'a> Spell for CreateSessionArgs<'a> {
    ghost use Rattle.std.specs.Prelude.{None};
    ghost use Rattle.nfs_ops.specs.Forms.{create_session_args};
    ghost use Rattle.nfs_ops.specs.Views.{create_session_args_value};

    ghost form = { create_session_args };

    ghost view = { create_session_args_value };

    ghost normal = { None };

    fn write<A: Allocator>(self, writer: &mut Writer<A>) -> Result<(), Full> {
        let CreateSessionArgs {
            client,
            sequence,
            flags,
            fore,
            back,
            program,
            security,
        } = self;
        let last = (fore, (back, (program, security)));
        (client, (sequence, (flags, last))).write(writer)
    }
}

impl<'a> Wire<'a> for CreateSessionArgs<'a> {
    fn read(reader: &mut Reader<'a>) -> Result<Self, XdrFault> {
        let (client, (sequence, (flags, (fore, (back, (program, security)))))) = Wire::read(
            reader,
        )?;
        Ok(CreateSessionArgs {
            client,
            sequence,
            flags,
            fore,
            back,
            program,
            security,
        })
    }
}

/// The session was created. The result of CREATE_SESSION (RFC 8881, section 18.36).
#[derive(Clone, Copy)]
pub struct CreateSessionResult {
    /// The session ID.
    pub session: [u8; 16],
    /// The sequence ID of the request.
    pub sequence: u32,
    /// CREATE_SESSION4_FLAG bits.
    pub flags: u32,
    /// The attributes of the fore channel.
    pub fore: Channel,
    /// The attributes of the backchannel.
    pub back: Channel,
}

impl Spell for CreateSessionResult {
    ghost use Rattle.std.specs.Prelude.{None};
    ghost use Rattle.nfs_ops.specs.Forms.{create_session_result};
    ghost use Rattle.nfs_ops.specs.Views.{create_session_result_value};

    ghost form = { create_session_result };

    ghost view = { create_session_result_value };

    ghost normal = { None };

    fn write<A: Allocator>(self, writer: &mut Writer<A>) -> Result<(), Full> {
        let session = self.session;
        let last = (self.flags, (self.fore, self.back));
        (session, (self.sequence, last)).write(writer)
    }
}

impl<'a> Wire<'a> for CreateSessionResult {
    fn read(reader: &mut Reader<'a>) -> Result<Self, XdrFault> {
        let (session, (sequence, (flags, (fore, back)))) = Wire::read(reader)?;
        Ok(CreateSessionResult {
            session,
            sequence,
            flags,
            fore,
            back,
        })
    }
}
