//! The operations of a call, and the encoded call.
ghost use Rattle.std.specs.Prelude.{◌≡◌, ◌++◌, ◌∷◌, [], List, map, IsTrue, MatchResult, OnOk, IfOk, Ok};
ghost use Rattle.rpc_record.specs.Identity.{is_member};
ghost use Rattle.nfs_client.specs.declared.fault.ToolFault.TheVariants.{Memory};
ghost use Rattle.nfs_client.specs.Requests.{HeadGives, OneRecordGives};
ghost use Rattle.nfs_ops.specs.Operations.{Operation};
ghost use Rattle.nfs_ops.specs.OpViews.{op_view};

use crate::fault::ToolFault;
use nfs_ops::{Bytes, LookupArgs, Op, write_op};
use rpc_record::{CALL_HEADER_LIMIT, Caller, RECORD_LIMIT, record_mark, write_call};
use std::alloc::Allocator;
use xdr_wire::{Full, Writer};

/// The most bytes before the operations: those of the call's header, and an empty tag, the minor version and the count.
const HEAD_LIMIT: usize = CALL_HEADER_LIMIT + 12;

/// The minor version of NFS version 4.1.
const MINOR_VERSION: u32 = 1;

/// The operations of a COMPOUND, encoded.
#[derive(Drop)]
pub(crate) struct Request<A: Allocator> {
    /// The bytes of the operations, unless they are too large.
    body: Writer<A>,
    /// The number of each operation.
    asked: Vec<u32, A>,
    /// Whether the operations have more bytes than a record. That is answered when the call is encoded.
    is_too_large: bool,
}

/// `Memory` if the head of a call has no room, which it always has.
fn has_room(put: Result<(), Full>) -> Result<(), ToolFault>
    ensures { MatchResult result (λ _. put ≡ Ok tt) (λ fault. fault ≡ Memory) }
{
    match put {
        Ok(()) => Ok(()),
        Err(Full) => Err(ToolFault::Memory),
    }
}

/// Bytes as sent. `Memory`: they are more bytes than a length field can express. No bytes that can be copied into a
/// call are that long.
pub(crate) fn sendable(bytes: &[u8]) -> Result<Bytes<'_>, ToolFault>
    ensures { MatchResult result (λ b. b.bytes.now ≡ bytes.now) (λ fault. fault ≡ Memory) }
{
    match Bytes::new(bytes) {
        Some(bytes) => Ok(bytes),
        None => Err(ToolFault::Memory),
    }
}

/// The bytes before `count` operations.
fn head<A: Allocator>(
    alloc: A,
    xid: u32,
    caller: Caller,
    count: u32,
) -> Result<Writer<A>, ToolFault>
    requires { IsTrue (is_member caller caller.gid) }
    ensures { HeadGives xid caller count result }
{
    let mut head = Writer::new(alloc, HEAD_LIMIT)?;
    has_room(write_call(xid, Some(caller), &mut head))?;
    has_room(head.put_words(&[0, MINOR_VERSION, count]))?;
    Ok(head)
}

/// Two parts as one record. `TooLarge`: the parts have more bytes than a record.
fn one_record<A: Allocator>(alloc: A, head: &[u8], body: &[u8]) -> Result<Vec<u8, A>, ToolFault>
    ensures { OneRecordGives (λ v. v.items) (head.now ++ body.now) result }
{
    let len = head.len().saturating_add(body.len());
    if len > RECORD_LIMIT {
        return Err(ToolFault::TooLarge);
    }
    let mut record = Vec::new(alloc);
    record.extend_from_slice(&record_mark(len))?;
    record.extend_from_slice(head)?;
    record.extend_from_slice(body)?;
    Ok(record)
}

impl<A: Allocator + Copy> Request<A> {
    ghost use Rattle.nfs_client.specs.Requests.{Asks, Holds, PutGives, SpellGives, asked_of};
    ghost use Rattle.nfs_client.specs.Commands.{lookups};

    /// A request of no operations.
    pub(crate) fn new(alloc: A) -> Result<Self, ToolFault>
        ensures asks { IfOk result (λ r. Asks r []) }
        ensures memory { PutGives result }
    {
        Ok(Request {
            body: Writer::new(alloc, RECORD_LIMIT)?,
            asked: Vec::new(alloc),
            is_too_large: false,
        })
    }

    /// The bytes of one more operation, if it fits.
    fn write(&mut self, op: Op<'_>)
        ensures holds { (ops : List Operation) → Holds self.old.is_too_large self.old.body ops →
            Holds self.new.is_too_large self.new.body (ops ++ op_view op.entry ∷ []) }
        ensures asked { self.new.asked ≡ self.old.asked }
    {
        if !self.is_too_large {
            self.is_too_large = write_op(op, &mut self.body).is_err();
        }
    }

    /// Appends one more operation. Operations that are too large are appended too.
    pub(crate) fn put(&mut self, op: Op<'_>) -> Result<(), ToolFault>
        ensures asks { OnOk result ((ops : List Operation) → Asks self.old ops →
            Asks self.new (ops ++ op_view op.entry ∷ [])) }
        ensures memory { PutGives result }
    {
        let number = op.number();
        self.write(op);
        self.asked.push(number)?;
        Ok(())
    }

    /// LOOKUP of each of these names, from the current directory on.
    pub(crate) fn lookups(&mut self, names: &[&[u8]]) -> Result<(), ToolFault>
        ensures asks { OnOk result ((ops : List Operation) → Asks self.old ops →
            Asks self.new (ops ++ lookups (map (λ n. n.now) names.now))) }
        ensures memory { PutGives result }
    {
        for name in names {
            self.put(Op::Lookup(LookupArgs {
                name: sendable(name)?,
            }))?;
        }
        Ok(())
    }

    /// The numbers of the operations.
    pub(crate) fn into_asked(self) -> Vec<u32, A>
        ensures { (ops : List Operation) → Asks self ops → result.items ≡ asked_of ops }
    {
        self.asked
    }

    /// The call of these operations as one record. `TooLarge`: it has more bytes than a record.
    pub(crate) fn spell(&self, alloc: A, xid: u32, caller: Caller) -> Result<Vec<u8, A>, ToolFault>
        requires { IsTrue (is_member caller caller.gid) }
        ensures { (ops : List Operation) → Asks self.now ops →
            SpellGives (λ v. v.items) (record { xid = xid; caller = caller; ops = ops }) result }
    {
        if self.is_too_large {
            return Err(ToolFault::TooLarge);
        }
        let Ok(count) = u32::try_from(self.asked.len()) else {
            return Err(ToolFault::Memory);
        };
        let head = head(alloc, xid, caller, count)?;
        one_record(alloc, head.bytes(), self.body.bytes())
    }
}
