//! Streams of a hub, each on a new connection, in pieces.

use crate::digits::bytes_in;
use crate::plain::{close, connect, consume, feed, number_of, pending};
use crate::split_word;
use nfs_hub::{ConnId, Hub};
use std::alloc::{Allocator, Global};
use std::test::Fail;

/// The size of a piece, and the bytes of a stream.
fn pieces_in(alloc: Global, words: &str) -> Result<(usize, Vec<u8>), Fail> {
    let (size, digits) = split_word(words);
    Ok((size.parse()?, bytes_in(alloc, digits)?))
}

/// Appends the pending bytes of a connection, which are dropped there.
fn drain<A: Allocator + Copy>(
    hub: &mut Hub<A>,
    conn: ConnId,
    given: &mut Vec<u8>,
) -> Result<(), Fail> {
    given.extend_from_slice(pending(hub, conn))?;
    consume(hub, conn, usize::MAX)?;
    Ok(())
}

/// Feeds a stream up to the first fault, and takes the pending bytes after each piece. Returns the number of the fault.
fn feed_all<A: Allocator + Copy>(
    hub: &mut Hub<A>,
    conn: ConnId,
    (size, stream): (usize, &[u8]),
    given: &mut Vec<u8>,
) -> Result<u8, Fail> {
    for piece in stream.chunks(size.max(1)) {
        let fault = number_of(feed(hub, conn, piece, 0));
        drain(hub, conn, given)?;
        if fault != 0 {
            return Ok(fault);
        }
    }
    Ok(0)
}

/// Feeds a stream to a new connection, then nothing, and closes it. Returns the faults of both. If no connection is
/// opened, it returns its fault twice.
fn feed_new<A: Allocator + Copy>(
    hub: &mut Hub<A>,
    stream: (usize, &[u8]),
    given: &mut Vec<u8>,
) -> Result<(u8, u8), Fail> {
    let opened = connect(hub);
    let Ok(conn) = opened else {
        return Ok((number_of(opened), number_of(opened)));
    };
    let fault = feed_all(hub, conn, stream, given)?;
    let again = number_of(feed(hub, conn, &[], 0));
    close(hub, conn)?;
    Ok((fault, again))
}

/// The two faults, and the replies.
fn fed<A: Allocator + Copy>(
    alloc: Global,
    hub: &mut Hub<A>,
    stream: (usize, &[u8]),
) -> Result<String, Fail> {
    let mut given = Vec::new(alloc);
    let (fault, again) = feed_new(hub, stream, &mut given)?;
    let replies = hex::encode(alloc, given)?;
    Ok(format!(in alloc; "{fault} {again} {replies}")?)
}

/// `feed SIZE STREAM`: the two faults, and the replies.
pub fn feed_stream<A: Allocator + Copy>(
    alloc: Global,
    hub: &mut Hub<A>,
    words: &str,
) -> Result<String, Fail> {
    let (size, stream) = pieces_in(alloc, words)?;
    fed(alloc, hub, (size, &stream))
}
