//! Reading entries from the start of bytes.
ghost use Rattle.std.specs.Prelude.{◌≡◌, ◌≤◌, ◌<◌, ◌↔◌, [], length, drop, IfSome, IfNone, OnSome, IsTrue};
ghost use Rattle.std.specs.Option.{option_map};
ghost use Rattle.xdr_wire.specs.Reading.{read_at};
ghost use Rattle.log_entries.specs.Forms.{call};
ghost use Rattle.log_entries.specs.Entries.{call_in, meant, entry_at, entries_in};
ghost use Rattle.log_entries.specs.Views.{called_of, entry_of};

use crate::entry::{CallEntry, Entry};
use nfs_types::Moment;
use std::marker::Model;
use xdr_wire::{Opaque, Reader, Wire};

/// The moment, the record, the place of an operation and a checksum.
type WrittenCall<'a> = ((i64, u32), (Opaque<'a, 0xffff_ffff>, (Option<u32>, u64)));

/// Takes the call at the start, after its kind.
fn take_call<'a>(reader: &mut Reader<'a>) -> Option<CallEntry<'a>>
    ensures { option_map (λ c. (called_of c, reader.new)) result ≡ meant call_in (read_at call reader.old) }
{
    let written: WrittenCall<'a> = Wire::read(reader).ok()?;
    let ((seconds, nanoseconds), (bytes, (delayed, checksum))) = written;
    Some(CallEntry {
        now: Moment::of(seconds, nanoseconds)?,
        bytes,
        delayed,
        checksum,
    })
}

/// Takes the entry at the start.
#[tactic(auto, unfolding(crate::specs::Entries::entry_at))]
fn take<'a>(reader: &mut Reader<'a>) -> Option<Entry<'a>>
    ensures { option_map (λ e. (entry_of e, reader.new)) result ≡ entry_at reader.old }
{
    match reader.u32().ok()? {
        1 => Some(Entry::Call(take_call(reader)?)),
        2 => Some(Entry::ClientExpired(reader.u64().ok()?)),
        3 => Some(Entry::Book(Wire::read(reader).ok()?)),
        _ => None,
    }
}

impl<'a> Entry<'a> {
    /// The entry at the start of the bytes, and the number of bytes that it takes. `None`: the bytes don't begin with
    /// an entry.
    pub fn read(bytes: &'a [u8]) -> Option<(Self, usize)>
        ensures reads { option_map (λ x. (entry_of x.0, drop x.1 bytes.now)) result ≡ entry_at bytes.now }
        ensures some { IfSome result (λ x. 0 < x.1) }
        ensures within { IfSome result (λ x. x.1 ≤ length bytes.now) }
    {
        let mut reader = Reader::new(bytes);
        let entry = take(&mut reader)?;
        let taken = bytes.len() - reader.len();
        Some((entry, taken))
    }
}

/// The bytes of a record that remain to be read, entry by entry. Contracts see them as a list.
#[derive(Drop)]
pub struct Entries<'a> {
    rest: &'a [u8],
}

impl<'a> Model for Entries<'a> {
    ghost use Rattle.std.specs.Prelude.{List, ℕ};

    ghost Value = { List ℕ };

    ghost view = { λ e. e.rest.now };
}

impl<'a> Entries<'a> {
    /// The entries of these bytes.
    pub fn new(bytes: &'a [u8]) -> Self
        ensures { result ≡ bytes.now }
    {
        Entries { rest: bytes }
    }

    /// Whether no bytes remain.
    pub fn is_empty(&self) -> bool
        ensures { IsTrue result ↔ (self.now ≡ []) }
    {
        self.rest.is_empty()
    }

    /// Takes the next entry. `None`: no entry is at the start of the remaining bytes, and nothing is taken.
    pub fn next(&mut self) -> Option<Entry<'a>>
        ensures takes { option_map (λ e. (entry_of e, self.new)) result ≡ entry_at self.old }
        ensures stays { IfNone result (self.new ≡ self.old) }
        ensures shorter { OnSome result (length self.new < length self.old) }
    {
        let mut reader = Reader::new(self.rest);
        let entry = take(&mut reader)?;
        self.rest = reader.rest();
        Some(entry)
    }
}

/// The number of entries that the bytes of a record consist of. `None`: some bytes are no entry.
pub fn count_entries(bytes: &[u8]) -> Option<usize>
    ensures { result ≡ option_map length (entries_in bytes.now) }
{
    let mut entries = Entries::new(bytes);
    let mut count = 0;
    while !entries.is_empty() {
        let Some(_) = entries.next() else {
            return None;
        };
        count += 1;
    }
    Some(count)
}
