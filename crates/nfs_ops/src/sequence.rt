//! SEQUENCE (RFC 8881, section 18.46): its arguments and its result.
use crate::always::Always;
use std::alloc::Allocator;
use xdr_wire::{Full, Reader, Spell, Wire, Writer, XdrFault};

/// The number of SEQUENCE.
pub const OP_SEQUENCE: u32 = 53;

/// Begins a request of a session. The arguments of SEQUENCE (RFC 8881, section 18.46).
#[derive(Clone, Copy)]
pub struct SequenceArgs {
    /// The session ID.
    pub session: [u8; 16],
    /// The sequence ID: one more than that of the slot's last request, or that of a request that is retried.
    pub number: u32,
    /// The slot ID.
    pub slot: u32,
    /// The highest slot ID that the client uses.
    pub highest: u32,
    /// Whether the reply is to be cached for a retry.
    pub keep: bool,
}

impl Spell for SequenceArgs {
    ghost use Rattle.std.specs.Prelude.{None};
    ghost use Rattle.nfs_ops.specs.Forms.{sequence_args};
    ghost use Rattle.nfs_ops.specs.Views.{sequence_args_value};

    ghost form = { sequence_args };

    ghost view = { sequence_args_value };

    ghost normal = { None };

    fn write<A: Allocator>(self, writer: &mut Writer<A>) -> Result<(), Full> {
        let session = self.session;
        let last = (self.slot, (self.highest, self.keep));
        (session, (self.number, last)).write(writer)
    }
}

impl<'a> Wire<'a> for SequenceArgs {
    fn read(reader: &mut Reader<'a>) -> Result<Self, XdrFault> {
        let (session, (number, (slot, (highest, keep)))) = Wire::read(reader)?;
        Ok(SequenceArgs {
            session,
            number,
            slot,
            highest,
            keep,
        })
    }
}

/// The request continues. The result of SEQUENCE (RFC 8881, section 18.46).
#[derive(Clone, Copy)]
pub struct SequenceResult {
    /// The session ID.
    pub session: [u8; 16],
    /// The sequence ID of the request.
    pub number: u32,
    /// The slot ID.
    pub slot: u32,
    /// The highest slot ID that the client may use.
    pub highest: u32,
    /// The target highest slot ID.
    pub target: u32,
}

impl Spell for SequenceResult {
    ghost use Rattle.std.specs.Prelude.{None};
    ghost use Rattle.nfs_ops.specs.Forms.{sequence_result};
    ghost use Rattle.nfs_ops.specs.Views.{sequence_result_value};

    ghost form = { sequence_result };

    ghost view = { sequence_result_value };

    ghost normal = { None };

    fn write<A: Allocator>(self, writer: &mut Writer<A>) -> Result<(), Full> {
        let session = self.session;
        let last = (self.highest, (self.target, Always::<0>));
        (session, (self.number, (self.slot, last))).write(writer)
    }
}

impl<'a> Wire<'a> for SequenceResult {
    fn read(reader: &mut Reader<'a>) -> Result<Self, XdrFault> {
        let (session, (number, (slot, (highest, (target, Always::<0>))))) = Wire::read(reader)?;
        Ok(SequenceResult {
            session,
            number,
            slot,
            highest,
            target,
        })
    }
}
