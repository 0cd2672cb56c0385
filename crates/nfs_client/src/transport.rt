//! The transport of calls to a server, and of the records after them.
ghost use Rattle.nfs_client.specs.Streams.{TalkGives, directions_of};

use crate::fault::ToolFault;
use crate::stream::{read_record, write_out};
use std::alloc::Allocator;
use std::io::{Read, Write};

/// A transport of calls to a server (RFC 5531, section 5). Each stream of bytes is one, by one
/// record for each call and one for its reply.
pub trait Transport {
    ghost use Rattle.std.specs.Prelude.{IfErr, List, ℕ, Result};
    ghost use Rattle.nfs_client.specs.Talking.{as_read, IsTalkFault};
    ghost use Rattle.nfs_client.specs.declared.fault.ToolFault.{ToolFault};

    // The relation of the transport before, the bytes of a call, the received record or a fault, and the transport
    // after.
    ghost talks: { Self → List ℕ → Result (List ℕ) ToolFault → Self → Type 0 };

    /// Sends a call, and returns the record received after it. `Write`: the call isn't sent. `Read`: no complete
    /// record is received. `Reply`: the received bytes are no record, or more than one. `Memory`: an allocation
    /// failed.
    fn talk<A: Allocator>(&mut self, alloc: A, call: &[u8]) -> Result<Vec<u8, A>, ToolFault>
        ensures gives { talks self.old call.now (as_read (λ v. v.items) result) self.new }
        ensures fault { IfErr result IsTalkFault };
}

impl<S: Read + Write> Transport for S {
    ghost talks = { TalkGives (directions_of S.contents S.remaining) };

    /// Writes a call, and reads the record after it.
    fn talk<A: Allocator>(&mut self, alloc: A, call: &[u8]) -> Result<Vec<u8, A>, ToolFault> {
        match write_out(self, call) {
            Ok(()) => read_record(alloc, self),
            Err(fault) => Err(fault),
        }
    }
}
