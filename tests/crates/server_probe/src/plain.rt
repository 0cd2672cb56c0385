//! The calls of a hub without their contracts, so that no proof carries them.

use nfs_hub::{ConnId, Hub, HubFault};
use nfs_types::Moment;
use std::alloc::Allocator;
use who_book::Book;

pub fn connect<A: Allocator + Copy>(hub: &mut Hub<A>) -> Result<ConnId, HubFault> {
    hub.connect()
}

pub fn close<A: Allocator + Copy>(hub: &mut Hub<A>, conn: ConnId) -> Result<(), HubFault> {
    hub.close(conn)
}

pub fn feed<A: Allocator + Copy>(
    hub: &mut Hub<A>,
    conn: ConnId,
    piece: &[u8],
    seconds: i64,
) -> Result<(), HubFault> {
    let now = Moment {
        seconds,
        nanoseconds: 0,
    };
    hub.feed(conn, piece, now)
}

pub fn take_out<A: Allocator + Copy>(
    hub: &mut Hub<A>,
    conn: ConnId,
    buf: &mut [u8],
) -> Result<usize, HubFault> {
    hub.take_out(conn, buf)
}

/// The bytes that are pending on a connection, or none without a connection.
pub fn pending<A: Allocator + Copy>(hub: &Hub<A>, conn: ConnId) -> &[u8] {
    hub.pending(conn).unwrap_or(&[])
}

/// Drops the first pending bytes of a connection.
pub fn consume<A: Allocator + Copy>(
    hub: &mut Hub<A>,
    conn: ConnId,
    most: usize,
) -> Result<usize, HubFault> {
    hub.consume(conn, most)
}

pub fn is_broken<A: Allocator + Copy>(hub: &Hub<A>, conn: ConnId) -> Option<bool> {
    hub.is_broken(conn)
}

/// Whether a book is loaded.
pub fn reload<A: Allocator + Copy>(hub: &mut Hub<A>, book: Book) -> bool {
    hub.reload(book).is_ok()
}

/// The number of a fault, or 0 for none.
pub fn number_of<T: Copy>(done: Result<T, HubFault>) -> u8 {
    match done {
        Ok(_) => 0,
        Err(fault) => fault as u8,
    }
}
