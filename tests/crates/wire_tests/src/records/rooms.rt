//! The headers of calls and of replies, in buffers of each size.

use crate::given::bytes_of;
use rpc_record::{Caller, MOST_FURTHER, Reply, write_call, write_reply};
use std::alloc::{AllocError, Allocator, Global};
use std::process::Abort;
use xdr_wire::Writer;

/// A header that is written.
#[derive(Clone, Copy, Debug)]
pub enum Header<'a> {
    /// A call by nobody: transaction 1.
    CallByNobody,
    /// A call by uid 1001 with a gid and further groups: transaction 3.
    Call(u32, &'a [u32]),
    /// A reply: transaction 9.
    Reply(Reply),
}

/// The caller of a credential of uid 1001, with no contract, so that the prover doesn't compute on its groups.
fn caller(gid: u32, further: &[u32]) -> Caller {
    let most = further.len().min(MOST_FURTHER);
    Caller::new(1001, gid, &further[..most])
}

fn put_null<A: Allocator>(writer: &mut Writer<A>, xid: u32) -> bool {
    write_call(xid, None, writer).is_ok()
}

/// Whether the header of a call by this caller is written.
pub fn put_call<A: Allocator>(writer: &mut Writer<A>, xid: u32, caller: Caller) -> bool {
    if caller.is_member(caller.gid()) {
        return write_call(xid, Some(caller), writer).is_ok();
    }
    false
}

/// Whether the header of a reply is written.
pub fn put_reply<A: Allocator>(writer: &mut Writer<A>, xid: u32, reply: Reply) -> bool {
    write_reply(xid, reply, writer).is_ok()
}

fn put(writer: &mut Writer<Global>, header: Header<'_>) -> bool {
    match header {
        Header::CallByNobody => put_null(writer, 1),
        Header::Call(gid, further) => put_call(writer, 3, caller(gid, further)),
        Header::Reply(reply) => put_reply(writer, 9, reply),
    }
}

/// Whether a writer has these bytes, and its room.
fn state_of(writer: &Writer<Global>, bytes: &[u8]) -> (bool, usize) {
    (writer.bytes() == bytes, writer.room())
}

/// Whether a header is written in a room, whether the buffer has these bytes then, and the room that is left.
fn written_in(
    alloc: Global,
    header: Header<'_>,
    bytes: &[u8],
    room: usize,
) -> Option<(bool, (bool, usize))> {
    match Writer::new(alloc, room) {
        Ok(mut writer) => {
            let is_written = put(&mut writer, header);
            Some((is_written, state_of(&writer, bytes)))
        }
        Err(_) => None,
    }
}

/// Whether a header of these bytes is written completely in a room of their length or more, and not at all in a smaller
/// one.
fn is_right_in(alloc: Global, header: Header<'_>, bytes: &[u8], room: usize) -> bool {
    match room.checked_sub(bytes.len()) {
        Some(left) => written_in(alloc, header, bytes, room) == Some((true, (true, left))),
        None => written_in(alloc, header, &[], room) == Some((false, (true, room))),
    }
}

fn see_bytes(rt: &impl Abort, alloc: Global, header: Header<'_>, bytes: &[u8], most: usize) {
    for room in 0..=most {
        assert!(rt;
            is_right_in(alloc, header, bytes, room),
            "{header:?} in {room}"
        );
    }
}

/// Checks a header of these words in each room up to the most.
pub fn see_words(
    rt: &impl Abort,
    alloc: Global,
    header: Header<'_>,
    words: &[u32],
    most: usize,
) -> Result<(), AllocError> {
    let bytes = bytes_of(alloc, words)?;
    see_bytes(rt, alloc, header, &bytes, most);
    Ok(())
}
