//! The call in a record (RFC 5531, section 9).
ghost use Rattle.std.specs.Prelude.{◌≡◌, Ok, Err, MatchResult};
ghost use Rattle.rpc_record.specs.declared.call.CallFault.TheVariants.{Header};
ghost use Rattle.xdr_wire.specs.Reading.{read_at};
ghost use Rattle.rpc_record.specs.Call.{target, targeted, asked};
ghost use Rattle.rpc_record.specs.CallViews.{outcome};

use crate::call::{Call, CallFault};
use crate::credential::read_caller;
use xdr_wire::{Reader, XdrFault};

/// The message type of a call.
pub(crate) const CALL: u32 = 0;

/// The version of the protocol.
pub(crate) const RPC_VERSION: u32 = 2;

// the program NFS and its version, and the procedures (RFC 5662)
pub(crate) const NFS_PROGRAM: u32 = 100_003;

pub(crate) const NFS_VERSION: u32 = 4;

pub(crate) const NULL: u32 = 0;

pub(crate) const COMPOUND: u32 = 1;

/// The flavor of a credential that names users and groups by their numbers.
pub(crate) const AUTH_SYS: u32 = 1;

/// The largest number of bytes of a credential's or a verifier's data.
pub(crate) const MOST_AUTH: usize = 400;

/// A record that can't be read isn't a header.
fn header<T>(read: Result<T, XdrFault>) -> Result<T, CallFault>
    ensures { MatchResult read (λ x. result ≡ Ok x) (λ _. result ≡ Err Header) }
{
    match read {
        Ok(x) => Ok(x),
        Err(_) => Err(CallFault::Header),
    }
}

/// The call in a record, or its first fault. The message type and the version of the protocol are read first, and are
/// checked before the rest is read. Program, version and procedure are checked next, and for COMPOUND then the flavor
/// and the data of its credential. The verifier isn't examined. The bytes after the header are the arguments.
pub fn read_call(bytes: &[u8]) -> Result<Call<'_>, CallFault>
    ensures { outcome result ≡ asked bytes.now }
{
    let mut reader = Reader::new(bytes);
    let xid = header(reader.u32())?;
    let message_type = header(reader.u32())?;
    let rpc_version = header(reader.u32())?;
    if message_type != CALL {
        return Err(CallFault::Header);
    }
    if rpc_version != RPC_VERSION {
        return Err(CallFault::RpcVersion(xid));
    }
    read_target(xid, reader.rest())
}

/// Reads the rest of a header, after the version of the protocol, and checks it.
#[tactic(auto, unfolding(crate::specs::Call::targeted))]
fn read_target(xid: u32, bytes: &[u8]) -> Result<Call<'_>, CallFault>
    ensures { outcome result ≡ targeted xid (read_at target bytes.now) }
{
    let mut reader = Reader::new(bytes);
    let program = header(reader.u32())?;
    let version = header(reader.u32())?;
    let procedure = header(reader.u32())?;
    let flavor = header(reader.u32())?;
    let credential = header(reader.opaque(MOST_AUTH))?;
    let _flavor = header(reader.u32())?;
    let _verifier = header(reader.opaque(MOST_AUTH))?;
    if program != NFS_PROGRAM {
        return Err(CallFault::Program(xid));
    }
    if version != NFS_VERSION {
        return Err(CallFault::Version(xid));
    }
    if procedure > COMPOUND {
        return Err(CallFault::Procedure(xid));
    }
    let arguments = reader.rest();
    if procedure == NULL {
        return Ok(Call {
            xid,
            arguments,
            caller: None,
        });
    }
    if flavor != AUTH_SYS {
        return Err(CallFault::Flavor(xid));
    }
    match read_caller(credential) {
        None => Err(CallFault::BadCred(xid)),
        Some(caller) => Ok(Call {
            xid,
            arguments,
            caller: Some(caller),
        }),
    }
}
