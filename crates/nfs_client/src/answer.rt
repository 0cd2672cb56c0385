//! The answer of a reply to the operations that were sent.
ghost use Rattle.std.specs.Prelude.{◌≡◌, MatchResult, Ok, Err};
ghost use Rattle.nfs_ops.specs.ResultViews.{read_view};
ghost use Rattle.nfs_client.specs.Compound.{ended_by, answer_of, all_of, compound_at, results_to};
ghost use Rattle.nfs_client.specs.CompoundViews.{outcomes, ItemsGive, CompoundGives, Judges, ResultsGive};
ghost use Rattle.nfs_client.specs.declared.fault.ToolFault.TheVariants as fault;

use crate::fault::ToolFault;
use nfs_ops::{OpResult, read_result};
use rpc_record::read_reply;
use std::alloc::Allocator;
use xdr_wire::{Reader, XdrFault};

/// The most bytes of a COMPOUND's tag, which has no bound but that of the record.
const MAX_TAG: usize = 0xffff_ffff;

/// A record that can't be read is no reply.
fn as_reply_fault<T>(read: Result<T, XdrFault>) -> Result<T, ToolFault>
    ensures { MatchResult read (λ x. result ≡ Ok x) (λ _. result ≡ Err fault.Reply) }
{
    match read {
        Ok(x) => Ok(x),
        Err(_) => Err(ToolFault::Reply),
    }
}

/// Reads `count` results.
fn read_results<'a, A: Allocator>(
    alloc: A,
    count: u32,
    reader: &mut Reader<'a>,
) -> Result<Vec<OpResult<'a>, A>, ToolFault>
    ensures { ItemsGive (λ v. outcomes v.items) count reader.old reader.new result }
{
    let mut results = Vec::new(alloc);
    for _i in 0..count {
        match read_result(reader) {
            Ok(outcome) => results.push(outcome)?,
            Err(_) => return Err(ToolFault::Reply),
        }
    }
    Ok(results)
}

/// Reads the results of a COMPOUND, and its status.
fn read_compound<A: Allocator>(
    alloc: A,
    bytes: &[u8],
) -> Result<(u32, Vec<OpResult<'_>, A>), ToolFault>
    ensures { CompoundGives (λ v. outcomes v.items) (all_of (compound_at bytes.now)) result }
{
    let mut reader = Reader::new(bytes);
    let status = as_reply_fault(reader.u32())?;
    let _tag = as_reply_fault(reader.opaque(MAX_TAG))?;
    let count = as_reply_fault(reader.u32())?;
    let results = read_results(alloc, count, &mut reader)?;
    if !reader.is_empty() {
        return Err(ToolFault::Reply);
    }
    Ok((status, results))
}

/// The answer by the last result, with these operations left after it.
fn judge_last(left: &[u32], status: u32, last: &OpResult<'_>) -> Result<(), ToolFault>
    ensures { Judges result (ended_by left.now status (read_view last.now)) }
{
    let as_reply_fault = last.status();
    if as_reply_fault.number() != status {
        return Err(ToolFault::Reply);
    }
    if status != 0 {
        return Err(ToolFault::Refused(last.number(), as_reply_fault));
    }
    if !left.is_empty() {
        return Err(ToolFault::Reply);
    }
    Ok(())
}

/// The answer by results, for the operations of these numbers.
fn judge(asked: &[u32], status: u32, results: &[OpResult<'_>]) -> Result<(), ToolFault>
    ensures { Judges result (answer_of asked.now status (outcomes results.now)) }
{
    let [outcome, others @ ..] = results else {
        return Err(ToolFault::Reply);
    };
    let [number, left @ ..] = asked else {
        return Err(ToolFault::Reply);
    };
    if outcome.number() != *number {
        return Err(ToolFault::Reply);
    }
    if others.is_empty() {
        return judge_last(left, status, outcome);
    }
    if outcome.status().number() != 0 {
        return Err(ToolFault::Reply);
    }
    judge(left, status, others)
}

/// The results in a record for the call of this transaction with the operations of these numbers,
/// if each operation is OK. `Refused`: the last operation that was run has another status.
/// `Reply`: the record is no reply to the call.
pub(crate) fn read_answer<'a, A: Allocator>(
    alloc: A,
    xid: u32,
    asked: &[u32],
    content: &'a [u8],
) -> Result<Vec<OpResult<'a>, A>, ToolFault>
    ensures { ResultsGive (λ v. outcomes v.items) (results_to xid asked.now content.entry.now) result }
{
    let Ok(found) = read_reply(content, xid) else {
        return Err(ToolFault::Reply);
    };
    let (status, results) = read_compound(alloc, found)?;
    judge(asked, status, &results)?;
    Ok(results)
}
