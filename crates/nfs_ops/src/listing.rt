//! READDIR's result (RFC 8881, section 18.23), written entry by entry into the buffer that the reply is sent from, as
//! far as the entries fit.
ghost use Rattle.std.specs.Prelude.{◌≡◌, ◌≤◌, ◌+◌, ◌++◌, length, replicate, OnOk, IfErr, Err};
ghost use Rattle.std.specs.Int.{w32, to_be_bytes};
ghost use Rattle.xdr_wire.specs.Buffer.{Appends, Puts};
ghost use Rattle.nfs_ops.specs.ItemViews.{given_entry_value};
ghost use Rattle.nfs_ops.specs.Listing.{IsSendable, linked_bytes, listing, readdir_limit};
ghost use Rattle.nfs_ops.specs.ListingSteps.{EndsAs, FillsUp, Lists};

use crate::OP_READDIR;
use crate::always::Zeros;
use crate::readdir::GivenEntry;
use std::alloc::Allocator;
use xdr_wire::{Full, Spell, Writer};

/// The outcome of the next entry.
#[derive(Clone, Copy)]
pub enum Next<R> {
    /// The entry is written.
    Written,
    /// No entry is left.
    End,
    /// The entry is refused, with this refusal.
    Refused(R),
    /// The entry doesn't fit.
    Full,
}

/// The entries of a directory above a cookie, by rising cookie.
pub trait Entries {
    ghost use Rattle.std.specs.Prelude.{◌≡◌, List};
    ghost use Rattle.nfs_ops.specs.Listing.{Judged, NextGives};

    /// The refusal of an entry.
    type Refusal: Copy;

    // The entries that are left, as they are judged.
    ghost left: { Self → List (Judged Self.Refusal) };
    // The state that judging and writing leave unchanged.
    ghost Kept: { Type 0 } = { Unit {0} };

    ghost kept: { Self → Self.Kept };

    /// Judges the next entry, and then writes it after its link.
    fn write_next<A: Allocator>(&mut self, writer: &mut Writer<A>) -> Next<Self::Refusal>
        ensures gives { NextGives (Self.left self.old) writer.old result (Self.left self.new) writer.new }
        ensures kept { Self.kept self.new ≡ Self.kept self.old };
}

/// Writes an entry after its link. `Full`: exactly if the room is less than that takes; then nothing is written.
pub fn write_entry<A: Allocator>(given: GivenEntry<'_>, writer: &mut Writer<A>) -> Result<(), Full>
    ensures sendable { OnOk result (IsSendable (given_entry_value given.entry)) }
    ensures puts { Puts writer.old writer.new (linked_bytes (given_entry_value given.entry)) result }
{
    Some(given).write(writer)
}

/// Why no entries are returned.
#[derive(Clone, Copy)]
pub enum ListFault<R> {
    /// An entry is refused, with this refusal.
    Refused(R),
    /// The first entry doesn't fit. Or no entry exists, and a result without entries doesn't fit.
    TooSmall,
}

/// Why the writing of entries stops.
#[derive(Clone, Copy)]
pub(crate) enum Stop<R> {
    End,
    Refused(R),
    Full,
}

/// Writes the entries as far as they end within the first `most` bytes of the buffer. Each is judged before it is
/// measured.
fn write_fitting<E: Entries, A: Allocator>(
    entries: &mut E,
    most: usize,
    writer: &mut Writer<A>,
) -> Stop<E::Refusal>
    requires { most ≤ length writer.old.bytes + writer.old.room }
    ensures fills { FillsUp most (E.left entries.old) writer.old result writer.new }
    ensures kept { E.kept entries.new ≡ E.kept entries.old }
{
    loop {
        let len = writer.len();
        match entries.write_next(writer) {
            Next::Written => {
                if writer.len() > most {
                    writer.truncate(len);
                    return Stop::Full;
                }
            }
            Next::End => return Stop::End,
            Next::Refused(refusal) => return Stop::Refused(refusal),
            Next::Full => return Stop::Full,
        }
    }
}

/// Writes number, status OK and the verifier. The room suffices for them.
fn put_head<A: Allocator>(writer: &mut Writer<A>)
    requires { 16 ≤ writer.old.room }
    ensures { Appends writer.old writer.new (to_be_bytes w32 OP_READDIR ++ to_be_bytes w32 0 ++ replicate 8 0) }
{
    (OP_READDIR, (0u32, Zeros)).write(writer).unwrap();
}

/// Writes the end mark of the entries and eof. If the buffer has more than `most` bytes, it truncates the buffer to its
/// first `start` bytes instead.
fn end_listing<R, A: Allocator>(
    start: usize,
    most: usize,
    eof: bool,
    writer: &mut Writer<A>,
) -> Result<(), ListFault<R>>
    requires start { start ≤ length writer.old.bytes }
    requires room { length writer.old.bytes ≤ most → 8 ≤ writer.old.room }
    ensures { EndsAs start most eof writer.old result writer.new }
{
    if writer.len() > most {
        writer.truncate(start);
        return Err(ListFault::TooSmall);
    }
    (false, eof).write(writer).unwrap();
    Ok(())
}

/// Writes the result of a READDIR that is OK straight into the buffer that the reply is sent from, each entry once. It
/// is the longest prefix of the entries within two limits. After number and status it takes at most `maxcount` bytes,
/// and in all at most `room`. Each entry is judged before it is measured. If one is refused, or nothing fits, nothing
/// is written.
pub fn write_readdir<E: Entries, A: Allocator>(
    entries: &mut E,
    maxcount: u32,
    room: usize,
    writer: &mut Writer<A>,
) -> Result<(), ListFault<E::Refusal>>
    requires least { 24 ≤ room }
    requires room { room ≤ writer.old.room }
    ensures ok { OnOk result (Lists (listing (readdir_limit maxcount room) (E.left entries.old)) room writer.old
        writer.new) }
    ensures err { IfErr result (λ fault. (listing (readdir_limit maxcount room) (E.left entries.old) ≡ Err fault) ×
        (writer.new ≡ writer.old)) }
    ensures kept { E.kept entries.new ≡ E.kept entries.old }
{
    let start = writer.len();
    let limit = (room - 8).min(maxcount as usize);
    let most = writer.capacity() - (writer.room() - limit);
    put_head(writer);
    let begin = writer.len();
    match write_fitting(entries, most, writer) {
        Stop::Refused(refusal) => {
            writer.truncate(start);
            Err(ListFault::Refused(refusal))
        }
        Stop::End => end_listing(start, most, true, writer),
        Stop::Full => {
            if writer.len() == begin {
                writer.truncate(start);
                return Err(ListFault::TooSmall);
            }
            end_listing(start, most, false, writer)
        }
    }
}
