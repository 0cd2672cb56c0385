//! An entry of the log, and its encoding.
ghost use Rattle.std.specs.Prelude.{◌≤◌, ◌+◌, length};
ghost use Rattle.xdr_wire.specs.Buffer.{Appends};
ghost use Rattle.log_entries.specs.Entries.{entry_bytes, IsEntry};
ghost use Rattle.log_entries.specs.Views.{entry_of};

use crate::room::{book_room, call_room};
use nfs_types::Moment;
use std::alloc::Allocator;
use xdr_wire::{Full, Opaque, Spell, Writer};

/// A logged call, borrowed.
#[derive(Clone, Copy, Debug)]
pub struct CallEntry<'a> {
    /// The moment at which it ran.
    pub now: Moment,
    /// Its record as received: the header with the caller, and the arguments (RFC 5531, section 9).
    pub bytes: Opaque<'a, 0xffff_ffff>,
    /// The place of the operation whose allocation failed. 0: the first after SEQUENCE, or the only one.
    pub delayed: Option<u32>,
    /// The checksum of its results ([`crate::results_checksum`]).
    pub checksum: u64,
}

/// An entry of the log, borrowed.
#[derive(Clone, Copy, Debug)]
pub enum Entry<'a> {
    /// A call was made.
    Call(CallEntry<'a>),
    /// The client of this number was expired.
    ClientExpired(u64),
    /// A book of names was loaded, with this text. `None`: the book of a server without one.
    Book(Option<Opaque<'a, 0xffff_ffff>>),
}

impl<'a> Spell for Entry<'a> {
    ghost use Rattle.std.specs.Prelude.{None};
    ghost use Rattle.log_entries.specs.Forms.{entry};
    ghost use Rattle.log_entries.specs.Entries.{entry_value};
    ghost use Rattle.log_entries.specs.Views.{entry_of};

    ghost form = { entry };

    ghost view = { λ e. entry_value (entry_of e) };

    ghost normal = { None };

    fn write<A: Allocator>(self, writer: &mut Writer<A>) -> Result<(), Full> {
        match self {
            Entry::Call(call) => {
                let last = (call.delayed, call.checksum);
                (1u32, (call.now, (call.bytes, last))).write(writer)
            }
            Entry::ClientExpired(client) => (2u32, client).write(writer),
            Entry::Book(text) => (3u32, text).write(writer),
        }
    }
}

impl<'a> Entry<'a> {
    /// Room that is enough for the entry, at most 7 bytes more than it takes.
    #[tactic(auto, unfolding(crate::specs::Entries::entry_bytes))]
    pub fn room(&self) -> usize
        ensures enough { length (entry_bytes (entry_of self.now)) ≤ result }
        ensures few { result ≤ length (entry_bytes (entry_of self.now)) + 7 }
    {
        match self {
            Entry::Call(call) => call_room(call.bytes.bytes.len()),
            Entry::ClientExpired(_) => 12,
            Entry::Book(Some(text)) => book_room(text.bytes.len()),
            Entry::Book(None) => 8,
        }
    }

    /// Appends the entry to the log. The caller has made room for it, by [`Entry::room`] or [`call_room`].
    #[tactic(auto, unfolding(crate::specs::Entries::entry_bytes))]
    pub fn put<A: Allocator>(&self, log: &mut Writer<A>)
        requires { length (entry_bytes (entry_of self.now)) ≤ log.old.room }
        ensures appends { Appends log.old log.new (entry_bytes (entry_of self.now)) }
        ensures fits { IsEntry (entry_of self.now) }
    {
        self.write(log).unwrap();
    }
}
