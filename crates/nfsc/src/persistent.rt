//! Calls and replies of sessions that outlive a restart of the server (RFC 8881, section 2.10.6.5).
use nfs_ops::{Op, OpResult, next_op, read_result, write_op};
use rpc_record::{read_call, read_reply};
use std::alloc::{AllocError, Global};
use xdr_wire::{Reader, Writer};

/// CREATE_SESSION4_FLAG_PERSIST: the session and its slots survive a restart (section 18.36).
const PERSIST: u32 = 1;

/// The bytes of a record's mark (RFC 5531, section 11).
const MARK: usize = 4;

/// The most bytes of a COMPOUND's tag, which has no bound but that of the record.
const MOST_OF_TAG: usize = 0xffff_ffff;

/// The operations of a call.
#[derive(Drop)]
struct Operations<'a> {
    xid: u32,
    /// The bytes of the operations.
    reader: Reader<'a>,
}

/// The operations of the call in a record. `None`: it has no COMPOUND.
fn operations_of(record: &[u8]) -> Option<Operations<'_>> {
    let Ok(call) = read_call(record.get(MARK..)?) else {
        return None;
    };
    let (xid, arguments) = (call.xid, call.arguments);
    let mut reader = Reader::new(arguments);
    let Ok(_tag) = reader.opaque(MOST_OF_TAG) else {
        return None;
    };
    let Ok(_minor_version) = reader.u32() else {
        return None;
    };
    let Ok(_count) = reader.u32() else {
        return None;
    };
    Some(Operations { xid, reader })
}

/// The record of a CREATE_SESSION that asks for a persistent session, and is the same else. `None`:
/// the record has another call.
pub(crate) fn asking_to_persist(
    alloc: Global,
    record: &[u8],
) -> Result<Option<Vec<u8>>, AllocError> {
    let Some(mut operations) = operations_of(record) else {
        return Ok(None);
    };
    let start = record.len().saturating_sub(operations.reader.len());
    let Op::CreateSession(mut args) = next_op(&mut operations.reader) else {
        return Ok(None);
    };
    if !operations.reader.is_empty() {
        return Ok(None);
    }
    args.flags |= PERSIST;
    let mut asking = Writer::new(alloc, record.len())?;
    let head = record.get(..start).unwrap_or(record);
    if asking.put_fixed(head).is_err() || write_op(Op::CreateSession(args), &mut asking).is_err() {
        return Ok(None);
    }
    Ok(Some(asking.into_bytes()))
}

/// Whether a reply to the call in a record grants a persistent session.
pub(crate) fn is_granted(record: &[u8], content: &[u8]) -> bool {
    match granted_flags(record, content) {
        Some(flags) => flags & PERSIST != 0,
        None => false,
    }
}

/// The flags of a session that a reply to the call in a record grants. `None`: it grants none.
fn granted_flags(record: &[u8], content: &[u8]) -> Option<u32> {
    let operations = operations_of(record)?;
    let mut reader = Reader::new(read_reply(content, operations.xid).ok()?);
    let _status = reader.u32().ok()?;
    let _tag = reader.opaque(MOST_OF_TAG).ok()?;
    let _count = reader.u32().ok()?;
    match read_result(&mut reader) {
        Ok(OpResult::CreateSession(made)) => Some(made.flags),
        _ => None,
    }
}

/// Whether the call in a record begins with SEQUENCE. If it is sent again, its slot and its sequence
/// ID make it a retry, and the server returns the cached reply (section 2.10.6.1).
pub(crate) fn is_in_session(record: &[u8]) -> bool {
    let Some(mut operations) = operations_of(record) else {
        return false;
    };
    matches!(next_op(&mut operations.reader), Op::Sequence(_))
}
