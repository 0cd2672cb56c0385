//! Reading a reply to a call (RFC 5531, section 9).
ghost use Rattle.std.specs.Prelude.{◌≡◌, ◌≢◌, ◌++◌, ◌↔◌, ◌<◌, ◌^◌, ℕ, List, [], Ok, Err, MatchResult};
ghost use Rattle.xdr_wire.specs.Xdr.{Value, Begins};
ghost use Rattle.xdr_wire.specs.Reading.{read_at};
ghost use Rattle.rpc_record.specs.Call.{auth};
ghost use Rattle.rpc_record.specs.Reply.{reply_message, accepted_reply, rejected_reply, reply_bytes};
ghost use Rattle.std.proofs.Common.{inl};
ghost use Rattle.rpc_record.specs.Answered.{answered, reply_body, body_result, without_results, accepted_as, denied_as};
ghost use Rattle.rpc_record.specs.AnsweredParts.{accepted_result, denied_result};
ghost use Rattle.rpc_record.specs.AnsweredViews.{results, read_as};
ghost use Rattle.rpc_record.specs.declared.reply.Reply.{Reply};

use crate::reading::MOST_AUTH;
use thiserror::Error;
use xdr_wire::{Reader, XdrFault};

/// The message type of a reply.
const REPLY: u32 = 1;

/// Why a record has no results for a call.
#[derive(Clone, Copy, Debug, PartialEq, Eq, Error)]
pub enum ReplyFault {
    /// The record isn't a reply: its header can't be read, or bytes follow a reply that has no results.
    #[error("no reply")]
    Header,
    /// The reply to another call, with this transaction.
    #[error("a reply to call {0}")]
    Another(u32),
    /// PROG_UNAVAIL: the server doesn't have the program.
    #[error("no such program")]
    ProgUnavail,
    /// PROG_MISMATCH: the server doesn't have this version of the program; the lowest and the highest one that it has.
    #[error("no such version of the program: from {0} to {1}")]
    ProgMismatch(u32, u32),
    /// PROC_UNAVAIL: the program doesn't have the procedure.
    #[error("no such procedure")]
    ProcUnavail,
    /// GARBAGE_ARGS: the procedure can't read its arguments.
    #[error("arguments that can't be read")]
    GarbageArgs,
    /// SYSTEM_ERR: the server failed, for example out of memory.
    #[error("the server failed")]
    SystemErr,
    /// RPC_MISMATCH: the server doesn't support this version of the protocol; the lowest and the highest one that it
    /// supports.
    #[error("no such version of the protocol: from {0} to {1}")]
    RpcMismatch(u32, u32),
    /// AUTH_ERROR: the credential isn't accepted; the number of the standard's `auth_stat`.
    #[error("a credential that isn't taken: {0}")]
    AuthError(u32),
}

/// A record that can't be read isn't a reply.
fn header<T>(read: Result<T, XdrFault>) -> Result<T, ReplyFault>
    ensures { MatchResult read (λ x. result ≡ Ok x) (λ _. result ≡ Err ReplyFault.Header) }
{
    match read {
        Ok(x) => Ok(x),
        Err(_) => Err(ReplyFault::Header),
    }
}

/// A reply without results must end its record.
fn without_results<'a>(fault: ReplyFault, reader: &Reader<'a>) -> Result<&'a [u8], ReplyFault>
    ensures { results (λ x. x.now) result ≡ without_results fault reader.now }
{
    if reader.is_empty() {
        Err(fault)
    } else {
        Err(ReplyFault::Header)
    }
}

/// The outcome by the body of an accepted reply.
#[tactic(auto, unfolding(crate::specs::Answered::body_result))]
fn read_accepted<'a>(reader: &mut Reader<'a>) -> Result<&'a [u8], ReplyFault>
    ensures { results (λ x. x.now) result ≡ accepted_result (read_at accepted_reply reader.old) }
{
    let _flavor = header(reader.u32())?;
    let _verifier = header(reader.opaque(MOST_AUTH))?;
    match header(reader.u32())? {
        0 => Ok(reader.rest()),
        1 => without_results(ReplyFault::ProgUnavail, reader),
        2 => {
            let low = header(reader.u32())?;
            let high = header(reader.u32())?;
            without_results(ReplyFault::ProgMismatch(low, high), reader)
        }
        3 => without_results(ReplyFault::ProcUnavail, reader),
        4 => without_results(ReplyFault::GarbageArgs, reader),
        5 => without_results(ReplyFault::SystemErr, reader),
        _ => Err(ReplyFault::Header),
    }
}

/// The outcome by the body of a denied reply.
#[tactic(auto, unfolding(crate::specs::Answered::body_result))]
fn read_denied<'a>(reader: &mut Reader<'a>) -> Result<&'a [u8], ReplyFault>
    ensures { results (λ x. x.now) result ≡ denied_result (read_at rejected_reply reader.old) }
{
    match header(reader.u32())? {
        0 => {
            let low = header(reader.u32())?;
            let high = header(reader.u32())?;
            without_results(ReplyFault::RpcMismatch(low, high), reader)
        }
        1 => {
            let why = header(reader.u32())?;
            without_results(ReplyFault::AuthError(why), reader)
        }
        _ => Err(ReplyFault::Header),
    }
}

/// The outcome by the body of a reply.
#[tactic(auto, unfolding(crate::specs::Answered::body_result))]
fn read_body<'a>(reader: &mut Reader<'a>) -> Result<&'a [u8], ReplyFault>
    ensures { results (λ x. x.now) result ≡ body_result (read_at reply_body reader.old) }
{
    match header(reader.u32())? {
        0 => read_accepted(reader),
        1 => read_denied(reader),
        _ => Err(ReplyFault::Header),
    }
}

/// The results after the header of the reply to the call of this transaction, or why it has none. The message type and
/// the transaction are checked before the rest is read. Any verifier is accepted.
pub fn read_reply(bytes: &[u8], xid: u32) -> Result<&[u8], ReplyFault>
    ensures { results (λ x. x.now) result ≡ answered xid bytes.now }
{
    let mut reader = Reader::new(bytes);
    let reply = header(reader.u32())?;
    let message_type = header(reader.u32())?;
    if message_type != REPLY {
        return Err(ReplyFault::Header);
    }
    if reply != xid {
        return Err(ReplyFault::Another(reply));
    }
    read_body(&mut reader)
}

/// Results are returned if and only if they follow a reply to this transaction that was accepted and ended by SUCCESS,
/// whatever its verifier.
pub fn results_follow_an_accepted_reply()
    ensures gives { (xid : ℕ) (bytes found : List ℕ) → answered xid bytes ≡ Ok found → (verifier : Value auth) ×
        Begins reply_message (xid, (1, inl (verifier, inl tt))) bytes found }
    ensures given { (xid : ℕ) (verifier : Value auth) (bytes found : List ℕ) →
        Begins reply_message (xid, (1, inl (verifier, inl tt))) bytes found → answered xid bytes ≡ Ok found }
{}

/// A client reads a server's reply as it was written: the results after SUCCESS, else the cause.
pub fn what_is_replied_is_read()
    ensures { (xid : ℕ) (reply : Reply) (found : List ℕ) → xid < 2 ^ 32 →
        answered xid (reply_bytes xid reply ++ found) ≡ read_as reply found }
{}
