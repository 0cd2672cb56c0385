//! The access control lists (ACLs) that are returned for an object: acl, dacl and sacl (RFC 8881, section 6.2).
ghost use Rattle.std.specs.Prelude.{◌≤◌, [], if◌then◌else◌, length, map, OnOk};
ghost use Rattle.xdr_wire.specs.Buffer.{Puts};
ghost use Rattle.xdr_wire.specs.Xdr.{spelling};
ghost use Rattle.acl_shape.specs.Parts.{is_of, part_of};
ghost use Rattle.nfs_types.specs.Attributes.{ace, ace_of, acl, acl41, typed};
ghost use Rattle.nfs_types.specs.Writing.{IsWritten};

use crate::ace::Ace;
use acl_list::Entry;
use acl_shape::Part;
use std::alloc::Allocator;
use who_book::Book;
use xdr_wire::{Full, Opaque, Spell, Writer};

/// Writes an access control entry (ACE).
fn write_entry<A: Allocator>(book: &Book, entry: &Entry, writer: &mut Writer<A>) -> Result<(), Full>
    ensures puts { Puts writer.old writer.new (spelling ace (ace_of book.now entry.now)) result }
    ensures short { OnOk result (length (spelling ace (ace_of book.now entry.now)) ≤ 212) }
{
    let who = book.spell_ace_principal(entry.who);
    Ace {
        kind: entry.kind.number(),
        flags: entry.flags,
        mask: entry.mask,
        who: Opaque {
            bytes: who.as_bytes(),
        },
    }
    .write(writer)
}

/// Writes an ACL: the number of its ACEs, and each ACE.
#[tactic(auto, unfolding(crate::specs::Writing::IsWritten))]
pub(crate) fn write_list<A: Allocator>(
    book: &Book,
    entries: &[Entry],
    writer: &mut Writer<A>,
) -> Result<(), Full>
    requires { length entries.now ≤ 64 }
    ensures { IsWritten (typed acl (map (ace_of book.now) entries.now)) writer.old writer.new result }
{
    let start = writer.len();
    writer.put_u32(entries.len() as u32)?;
    for entry in entries {
        if write_entry(book, entry, writer).is_err() {
            writer.truncate(start);
            return Err(Full);
        }
    }
    Ok(())
}

/// Writes an ACE if it is of the part.
fn write_entry_of<A: Allocator>(
    book: &Book,
    entry: &Entry,
    part: Part,
    writer: &mut Writer<A>,
) -> Result<(), Full>
    ensures puts { Puts writer.old writer.new
        (if is_of part entry.now then spelling ace (ace_of book.now entry.now) else []) result }
    ensures short { OnOk result (length (if is_of part entry.now then spelling ace (ace_of book.now entry.now) else [])
        ≤ 212) }
{
    if part.has(entry) {
        write_entry(book, entry, writer)
    } else {
        Ok(())
    }
}

/// Writes a part of an ACL: flags of 0, the number of its ACEs, and each ACE in order.
#[tactic(auto, unfolding(crate::specs::Writing::IsWritten))]
pub(crate) fn write_part_of_list<A: Allocator>(
    book: &Book,
    entries: &[Entry],
    part: Part,
    writer: &mut Writer<A>,
) -> Result<(), Full>
    requires { length entries.now ≤ 64 }
    ensures { IsWritten (typed acl41 (0, map (ace_of book.now) (part_of part entries.now))) writer.old writer.new
        result }
{
    let start = writer.len();
    let count = part.count(entries) as u32;
    (0u32, count).write(writer)?;
    for entry in entries {
        if write_entry_of(book, entry, part, writer).is_err() {
            writer.truncate(start);
            return Err(Full);
        }
    }
    Ok(())
}
