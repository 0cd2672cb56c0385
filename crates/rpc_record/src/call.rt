//! Calls (RFC 5531, section 9) of NFS version 4 (RFC 8881, section 16): NULL and COMPOUND.
ghost use Rattle.std.specs.Prelude.{◌≡◌};

use crate::caller::Caller;
use crate::reply::{AuthStat, Reply};
use thiserror::Error;

/// Why a record isn't a call that can be run: its first fault. All but `Header` carry the transaction that the reply
/// names.
#[derive(Clone, Copy, Debug, PartialEq, Eq, Error)]
pub enum CallFault {
    /// The record isn't the header of a call. It gets no reply, and its connection breaks.
    #[error("no header of a call")]
    Header,
    /// The call has another version of the protocol than 2, whatever follows.
    #[error("call {0}: not version 2 of the protocol")]
    RpcVersion(u32),
    /// A COMPOUND has a credential of another flavor than AUTH_SYS.
    #[error("call {0}: a credential of another flavor than AUTH_SYS")]
    Flavor(u32),
    /// A COMPOUND has an AUTH_SYS credential that can't be read, or that has bytes after it.
    #[error("call {0}: a credential that can't be read")]
    BadCred(u32),
    /// The call is of another program than NFS.
    #[error("call {0}: no such program")]
    Program(u32),
    /// The call is of another version of NFS than 4.
    #[error("call {0}: no such version of the program")]
    Version(u32),
    /// The call is of another procedure than NULL and COMPOUND.
    #[error("call {0}: no such procedure")]
    Procedure(u32),
}

impl CallFault {
    ghost use Rattle.rpc_record.specs.Faults.{number_of, reply_to};

    /// The fault's number, from 1 to 7.
    pub fn number(self) -> u32
        ensures { result ≡ number_of self }
    {
        match self {
            CallFault::Header => 1,
            CallFault::RpcVersion(_) => 2,
            CallFault::Flavor(_) => 3,
            CallFault::BadCred(_) => 4,
            CallFault::Program(_) => 5,
            CallFault::Version(_) => 6,
            CallFault::Procedure(_) => 7,
        }
    }

    /// The transaction and its reply. `None`: no reply is sent, and the connection breaks.
    pub fn reply(self) -> Option<(u32, Reply)>
        ensures { result ≡ reply_to self }
    {
        match self {
            CallFault::Header => None,
            CallFault::RpcVersion(xid) => Some((xid, Reply::RpcMismatch)),
            CallFault::Flavor(xid) => Some((xid, Reply::AuthError(AuthStat::TooWeak))),
            CallFault::BadCred(xid) => Some((xid, Reply::AuthError(AuthStat::BadCred))),
            CallFault::Program(xid) => Some((xid, Reply::ProgUnavail)),
            CallFault::Version(xid) => Some((xid, Reply::ProgMismatch)),
            CallFault::Procedure(xid) => Some((xid, Reply::ProcUnavail)),
        }
    }
}

/// The procedures of NFS version 4 (RFC 8881, section 16).
#[derive(Clone, Copy, Debug, PartialEq, Eq)]
pub enum Procedure {
    /// Does nothing, for any credential.
    Null,
    /// Runs operations for its caller.
    Compound,
}

/// A call that can be run.
#[derive(Clone, Copy)]
pub struct Call<'a> {
    /// The transaction, which the reply names.
    pub xid: u32,
    /// The bytes after the header.
    pub arguments: &'a [u8],
    /// The caller of COMPOUND. NULL has no caller.
    pub caller: Option<Caller>,
}

impl Call<'_> {
    ghost use Rattle.rpc_record.specs.CallViews.{procedure_by};

    /// The procedure that is called.
    pub fn procedure(&self) -> Procedure
        ensures { result ≡ procedure_by self.now.caller }
    {
        match self.caller {
            None => Procedure::Null,
            Some(_) => Procedure::Compound,
        }
    }
}
