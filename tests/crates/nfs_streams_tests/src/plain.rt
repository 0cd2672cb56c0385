//! The calls of a hub, of serving and of a book, without their contracts, so that a test's proof doesn't carry them.

use crate::memory::{Memory, Time};
use call_store::Store;
use compound_run::Server;
use nfs_hub::Hub;
use nfs_streams::{AllEnd, Limits, serve_all};
use std::alloc::{AllocError, Allocator, Global};
use std::hash::RandomState;
use who_book::Book;

/// A hub of the sample tree, without sessions.
pub fn bare(alloc: Global, hasher: RandomState) -> Result<Hub, AllocError> {
    Hub::bare(alloc, alloc, hasher)
}

fn serve(
    alloc: Global,
    hub: &mut Hub,
    streams: &mut Memory<'_>,
    time: &Time,
    store: Option<Store>,
    limits: Limits,
) -> AllEnd {
    serve_all(alloc, hub, streams, time, store, limits)
}

/// The end of serving streams by a new hub.
pub fn serve_new(
    alloc: Global,
    hasher: RandomState,
    streams: &mut Memory<'_>,
    time: &Time,
    limits: Limits,
) -> Result<AllEnd, AllocError> {
    let mut hub = bare(alloc, hasher)?;
    Ok(serve(alloc, &mut hub, streams, time, None, limits))
}

/// The book of a text.
pub fn read_book(alloc: Global, text: &str) -> Option<Book> {
    Book::read(alloc, text).ok()
}

/// How many lines a server's trail has had in total.
pub fn total<A: Allocator + Copy>(server: &Server<A>) -> u64 {
    server.guard().total()
}

/// The highest limits, with 400 turns.
pub const AMPLE: Limits = Limits {
    places: 16,
    connections: u64::MAX,
    reads: u64::MAX,
    turns: 400,
    leases: false,
    makes_room: true,
};
