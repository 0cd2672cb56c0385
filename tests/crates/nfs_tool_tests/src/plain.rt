//! The calls of a client, a script and a hub without their contracts, so that a test's proof doesn't carry them.

use crate::replies::SESSION;
use nfs_hub::{ConnId, Hub, HubFault};
use nfs_tool::{Client, Local, Texts, ToolFault, Transport, script};
use std::alloc::{AllocError, Allocator, Global};
use std::hash::RandomState;
use std::io::{Read, Write};
use who_book::Book;

/// A client that continues the session of the tests.
pub(crate) fn resume<S: Read + Write, A: Allocator + Copy>(alloc: A, stream: S) -> Client<S, A> {
    Client::resume(alloc, stream, 1001, 100, 1, SESSION, 1)
}

pub(crate) fn rm<S: Read + Write>(client: &mut Client<S>) -> Result<(), ToolFault> {
    client.rm(b"/f")
}

pub(crate) fn mkdir<S: Read + Write, A: Allocator + Copy>(
    client: &mut Client<S, A>,
    path: &[u8],
) -> Result<(), ToolFault> {
    client.mkdir(path)
}

/// How many bytes the text of the root's ACL (access control list) has.
pub(crate) fn getacl<S: Read + Write, A: Allocator + Copy>(
    client: &mut Client<S, A>,
) -> Result<usize, ToolFault> {
    match client.getacl(b"/") {
        Ok(text) => Ok(text.len()),
        Err(fault) => Err(fault),
    }
}

/// How many bytes the lines of the root have.
pub(crate) fn ls<S: Read + Write>(client: &mut Client<S>) -> Result<usize, ToolFault> {
    match client.ls(b"/") {
        Ok(text) => Ok(text.len()),
        Err(fault) => Err(fault),
    }
}

/// How many bytes are read of the root.
pub(crate) fn cat<S: Read + Write>(client: &mut Client<S>) -> Result<usize, ToolFault> {
    match client.cat(b"/") {
        Ok(bytes) => Ok(bytes.len()),
        Err(fault) => Err(fault),
    }
}

pub(crate) fn put<S: Transport>(client: &mut Client<S>) -> Result<(), ToolFault> {
    client.put(b"/f", b"hi")
}

pub(crate) fn end<S: Transport>(client: &mut Client<S>) -> Result<(), ToolFault> {
    client.end()
}

pub(crate) fn open<'h>(alloc: Global, stream: Local<'h>) -> Result<Client<Local<'h>>, ToolFault> {
    Client::open(alloc, stream, 0, 0, b"nfsc", [1; 8])
}

/// A hub of the sample tree, without sessions.
pub(crate) fn sample(alloc: Global, hasher: RandomState) -> Result<Hub, AllocError> {
    Hub::bare(alloc, alloc, hasher)
}

/// A hub with sessions over a root alone, whose owner is user 0 and whose mode is 755.
pub(crate) fn root_alone(alloc: Global, hasher: RandomState) -> Result<Hub, AllocError> {
    Hub::new(alloc, Book::default(alloc), hasher)
}

/// The act of a test over a borrowed hub.
pub(crate) trait Deed {
    fn run(&mut self, hub: &mut Hub);
}

/// Runs a deed over a new hub. This function alone owns a hub, since each that does is expensive to prove.
pub(crate) fn run_over<D: Deed>(
    made: Result<Hub, AllocError>,
    deed: &mut D,
) -> Result<(), AllocError> {
    let mut hub = made?;
    deed.run(&mut hub);
    Ok(())
}

pub(crate) fn connect(hub: &mut Hub) -> Result<ConnId, HubFault> {
    hub.connect()
}

pub(crate) fn close(hub: &mut Hub, conn: ConnId) -> Result<(), HubFault> {
    hub.close(conn)
}

/// The second of the last change of an object's bytes, if it exists.
pub(crate) fn changed_at(hub: &Hub, number: u64) -> Option<i64> {
    let node = hub.server().tree().object(number)?;
    Some(node.time_modify().seconds)
}

pub(crate) fn run_script<T: Texts, R: Read, W: Write>(
    alloc: Global,
    hub: &mut Hub,
    texts: &mut T,
    reader: &mut R,
    writer: &mut W,
) -> Result<bool, ToolFault> {
    script(alloc, alloc, hub, texts, reader, writer)
}
