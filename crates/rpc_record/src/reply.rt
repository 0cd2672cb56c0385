//! Replies (RFC 5531, section 9).
ghost use Rattle.std.specs.Prelude.{◌≡◌, ◌≤◌, ◌+◌, length};
ghost use Rattle.xdr_wire.specs.Xdr.{Spells};
ghost use Rattle.xdr_wire.specs.Buffer.{Puts};
ghost use Rattle.rpc_record.specs.Reply.{reply_message, view_of_reply, reply_bytes, reply_len};

use std::alloc::Allocator;
use xdr_wire::{Full, Writer};

/// The largest number of bytes of a reply's header: that of PROG_MISMATCH. The results follow a header of SUCCESS.
pub const REPLY_HEADER_LIMIT: usize = 32;

/// Why a credential isn't accepted.
#[derive(Clone, Copy, Debug, PartialEq, Eq)]
pub enum AuthStat {
    /// AUTH_BADCRED, 1: the credential can't be read.
    BadCred,
    /// AUTH_TOOWEAK, 5: a credential of this flavor is too weak.
    TooWeak,
}

impl AuthStat {
    ghost use Rattle.rpc_record.specs.Reply.{auth_stat};

    /// The standard's number.
    pub fn number(self) -> u32
        ensures { result ≡ auth_stat self }
    {
        match self {
            AuthStat::BadCred => 1,
            AuthStat::TooWeak => 5,
        }
    }
}

/// The reply to a call: accepted, or denied in the last two cases.
#[derive(Clone, Copy, Debug, PartialEq, Eq)]
pub enum Reply {
    /// SUCCESS. The results follow the header.
    Success,
    /// PROG_UNAVAIL: this server doesn't have the program.
    ProgUnavail,
    /// PROG_MISMATCH: this server doesn't have this version of the program; the lowest and the highest one are 4.
    ProgMismatch,
    /// PROC_UNAVAIL: the program doesn't have the procedure.
    ProcUnavail,
    /// GARBAGE_ARGS: the procedure can't read its arguments.
    GarbageArgs,
    /// RPC_MISMATCH: this server doesn't support this version of the protocol; the lowest and the highest one are 2.
    RpcMismatch,
    /// AUTH_ERROR: the credential isn't accepted.
    AuthError(AuthStat),
}

impl Reply {
    ghost use Rattle.rpc_record.specs.Reply.{reply_bytes, reply_len};

    /// The number of bytes of the header.
    pub fn header_len(self) -> usize
        ensures len { result ≡ reply_len self }
        ensures limit { result ≤ REPLY_HEADER_LIMIT }
    {
        match self {
            Reply::ProgMismatch => REPLY_HEADER_LIMIT,
            Reply::AuthError(_) => 20,
            _ => 24,
        }
    }

    /// Writes the words of the header.
    fn put<A: Allocator>(self, xid: u32, writer: &mut Writer<A>) -> Result<(), Full>
        ensures { Puts writer.old writer.new (reply_bytes xid self) result }
    {
        match self {
            Reply::Success => writer.put_words(&[xid, 1, 0, 0, 0, 0]),
            Reply::ProgUnavail => writer.put_words(&[xid, 1, 0, 0, 0, 1]),
            Reply::ProgMismatch => writer.put_words(&[xid, 1, 0, 0, 0, 2, 4, 4]),
            Reply::ProcUnavail => writer.put_words(&[xid, 1, 0, 0, 0, 3]),
            Reply::GarbageArgs => writer.put_words(&[xid, 1, 0, 0, 0, 4]),
            Reply::RpcMismatch => writer.put_words(&[xid, 1, 1, 0, 2, 2]),
            Reply::AuthError(why) => writer.put_words(&[xid, 1, 1, 1, why.number()]),
        }
    }
}

/// Writes the header of the reply to the call of this transaction, all of it or nothing. `Full`: exactly if the room is
/// less than the header takes.
pub fn write_reply<A: Allocator>(xid: u32, reply: Reply, writer: &mut Writer<A>) -> Result<(), Full>
    ensures spelled { Spells reply_message (view_of_reply xid reply) (reply_bytes xid reply) }
    ensures len { length (reply_bytes xid reply) ≡ reply_len reply }
    ensures puts { Puts writer.old writer.new (reply_bytes xid reply) result }
{
    reply.put(xid, writer)
}
