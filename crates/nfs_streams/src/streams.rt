//! The streams of connections, as serving uses them.
ghost use Rattle.std.specs.Prelude.{◌≡◌, List, [], ◌∷◌, Option, None, length};
ghost use Rattle.store_journal.specs.Disk.{Act as DiskAct};
ghost use Rattle.nfs_streams.specs.Acts.{Act, Adds, OnDisk, Waited, Admitted, Closed, arrived_acts, kept, looked};
ghost use Rattle.nfs_streams.specs.Acts.{read_acts};
ghost use Rattle.nfs_streams.specs.Acts.{write_acts, IsWithin};

use compound_run::Server;
use nfs_hub::ConnId;
use std::alloc::Allocator;
use store_journal::Disk;
use who_book::Book;

/// The result of a read or a write of a stream.
#[derive(Clone, Copy, Debug, PartialEq, Eq)]
pub enum Moved {
    /// The number of bytes that were moved.
    Bytes(usize),
    /// No bytes can be moved yet.
    NotYet,
    /// No more bytes will come: the peer has ended its side of the stream.
    Over,
    /// The stream failed.
    Failed,
}

/// Whether another stream has arrived that isn't admitted yet.
#[derive(Clone, Copy, Debug, PartialEq, Eq)]
pub enum Arrival {
    /// None has arrived.
    Nobody,
    /// One has arrived, and can be admitted now.
    Here,
    /// One waits that can't be taken now, because a resource that it needs is missing. `arrival` is called again within
    /// a second.
    Waiting,
}

/// How long a wait may take.
#[derive(Clone, Copy, Debug, PartialEq, Eq)]
pub enum Wait {
    /// No time: the wait only polls.
    No,
    /// Until a stream is ready or another stream arrives, but at most a second.
    Second,
    /// Until a stream is ready or another stream arrives.
    Event,
}

/// How a connection ended. The numbers up to 8 are those of `ServeEnd` of `nfs_hub`.
#[derive(Clone, Copy, Debug, PartialEq, Eq)]
pub enum StreamEnd {
    /// The stream ended, after a complete record.
    Ended = 1,
    /// The stream ended inside a record.
    Inside = 2,
    /// The stream or a record of it broke the connection.
    Broken = 3,
    /// An allocation failed in a piece, which broke the connection.
    Memory = 4,
    /// A read of the stream failed.
    Read = 6,
    /// A write to the stream failed, or the stream took nothing. It isn't known how much it took before.
    Write = 7,
    /// The turns of the connection are used up.
    Turns = 8,
    /// The connection was quiet, and is closed for another one.
    Quiet = 9,
    /// Serving has ended while the connection was open.
    Stopped = 10,
}

/// The streams of a server over the allocator `A`, each at a place, whose number is below 256. Beside them the trait
/// has the file, or another medium, in which the server's trail is kept. It has the files of the store, if any
/// (`Disk`), and the source of other books of names. A place has one stream at a time, from `admit` to `close`. No
/// other call is made for a place without a stream. Only `wait` waits for a peer.
pub trait Streams<A: Allocator + Copy>: Disk {
    // The calls so far and their results, the newest first, if they are known. Those of the disk are among them.
    ghost acts: { Self → Option (List Act) } = { λ _. None };

    /// Finds which streams are ready, and whether another stream has arrived. `false`: the wait failed, and only
    /// `close` is called from then on.
    fn wait(&mut self, how: Wait) -> bool
        ensures { Adds (acts self.old) (acts self.new) (Waited result ∷ []) };

    /// Another book of names, if one has arrived since the last call. `book` is called after streams were read, and
    /// before any of their bytes are given to the hub. The book is also loaded before that. A call whose last byte was
    /// read after a book had arrived is therefore judged by that book.
    ///
    /// If the allocation for its entry in the log fails, the book is loaded in a later turn. Until then `book` isn't
    /// called and no bytes are given. If no epoch is left for the book, it is dropped, and the previous book stays.
    fn book(&mut self) -> Option<Book>
        ensures { Adds (acts self.old) (acts self.new) (looked result) };

    /// Whether another stream has arrived that isn't admitted yet. After `Waiting` the next wait takes at most a
    /// second.
    fn arrival(&mut self) -> Arrival
        ensures { Adds (acts self.old) (acts self.new) (arrived_acts result) };

    /// Gives a place to the stream that has arrived, just after `arrival` has returned `Here`. From then on the place
    /// is that of this connection.
    fn admit(&mut self, place: usize, conn: ConnId)
        ensures { Adds (acts self.old) (acts self.new) (Admitted place conn ∷ []) };

    /// Closes the stream of a place. Its connection has ended in this way.
    fn close(&mut self, place: usize, end: StreamEnd)
        ensures { Adds (acts self.old) (acts self.new) (Closed place end ∷ []) };

    /// Reads as many bytes as fit, and at least one, from the stream of a place. `Over`: no more bytes will come.
    /// `Failed`: the stream failed. After either `close` follows.
    fn read(&mut self, place: usize, buf: &mut [u8]) -> Moved
        ensures bound { IsWithin result (length buf.new) }
        ensures acts_added { Adds (acts self.old) (acts self.new) (read_acts place result buf.new) };

    /// Writes a prefix of the bytes, and at least one, to the stream of a place. `Over`: the stream took nothing.
    /// `Failed`: it failed. After either `close` follows.
    fn write(&mut self, place: usize, bytes: &[u8]) -> Moved
        ensures bound { IsWithin result (length bytes.now) }
        ensures acts_added { Adds (acts self.old) (acts self.new) (write_acts place result bytes.now) };

    /// Keeps the lines of the server's trail that aren't kept yet. It is called after each record that runs, before the
    /// next one runs. Bytes are written only after that. `false`: the lines couldn't be kept, and only `close` is
    /// called from then on.
    fn keep(&mut self, server: &Server<A>) -> bool
        ensures { Adds (acts self.old) (acts self.new) (kept result server.now) };

    // an act of the disk is one of the acts
    ghost disk_acts: { (old new : Self) (act : DiskAct) → Self.adds old act new
        → Adds (acts old) (acts new) (OnDisk act ∷ []) };
}
