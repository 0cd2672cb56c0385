//! The XDR forms of an object's type, and of its access control list (ACL).
ghost use Rattle.std.specs.Prelude.{◌≡◌, ◌<◌, ◌≤◌, ◌↔◌, length, IfSome, IsNone, OnOk};
ghost use Rattle.xdr_wire.specs.Xdr.{HasSpelling, spelling};
ghost use Rattle.xdr_wire.specs.Buffer.{Puts};
ghost use Rattle.tree_parts.specs.Forms as specs;

use acl_list::{Entry, EntryKind, Kind, Who};
use std::alloc::Allocator;
use xdr_wire::{Full, Reader, Spell, Wire, Writer, XdrFault};

/// The type of an object, by its number in nfs_ftype4 (RFC 8881, section 3.2).
#[derive(Clone, Copy, PartialEq, Eq)]
pub struct KindForm(pub Kind);

impl Spell for KindForm {
    ghost use Rattle.std.specs.Prelude.{None};
    ghost use Rattle.tree_parts.specs.Forms.{object_kind, object_kind_value};

    ghost form = { object_kind };

    ghost view = { λ k. object_kind_value k.0 };

    ghost normal = { None };

    fn write<A: Allocator>(self, writer: &mut Writer<A>) -> Result<(), Full> {
        match self.0 {
            Kind::File => (1u32, ()).write(writer),
            Kind::Directory => (2u32, ()).write(writer),
            Kind::Link => (5u32, ()).write(writer),
        }
    }
}

impl<'a> Wire<'a> for KindForm {
    fn read(reader: &mut Reader<'a>) -> Result<Self, XdrFault> {
        let mut ahead = reader.fork();
        let kind = match ahead.u32()? {
            1 => Kind::File,
            2 => Kind::Directory,
            5 => Kind::Link,
            _ => return Err(XdrFault::BadChoice),
        };
        *reader = ahead;
        Ok(KindForm(kind))
    }
}

/// The type of an access control entry (ACE), by its number (RFC 8881, section 6.2.1.1).
#[derive(Clone, Copy, PartialEq, Eq)]
pub struct EntryKindForm(pub EntryKind);

impl Spell for EntryKindForm {
    ghost use Rattle.std.specs.Prelude.{None};
    ghost use Rattle.tree_parts.specs.Forms.{entry_kind, entry_kind_value};

    ghost form = { entry_kind };

    ghost view = { λ k. entry_kind_value k.0 };

    ghost normal = { None };

    fn write<A: Allocator>(self, writer: &mut Writer<A>) -> Result<(), Full> {
        match self.0 {
            EntryKind::Allow => (0u32, ()).write(writer),
            EntryKind::Deny => (1u32, ()).write(writer),
            EntryKind::Audit => (2u32, ()).write(writer),
            EntryKind::Alarm => (3u32, ()).write(writer),
        }
    }
}

impl<'a> Wire<'a> for EntryKindForm {
    fn read(reader: &mut Reader<'a>) -> Result<Self, XdrFault> {
        let mut ahead = reader.fork();
        let kind = match ahead.u32()? {
            0 => EntryKind::Allow,
            1 => EntryKind::Deny,
            2 => EntryKind::Audit,
            3 => EntryKind::Alarm,
            _ => return Err(XdrFault::BadChoice),
        };
        *reader = ahead;
        Ok(EntryKindForm(kind))
    }
}

/// The principal of an ACE.
#[derive(Clone, Copy, PartialEq, Eq)]
pub struct PrincipalForm(pub Who);

impl Spell for PrincipalForm {
    ghost use Rattle.std.specs.Prelude.{None};
    ghost use Rattle.tree_parts.specs.Forms.{who, principal_value};

    ghost form = { who };

    ghost view = { λ w. principal_value w.0 };

    ghost normal = { None };

    fn write<A: Allocator>(self, writer: &mut Writer<A>) -> Result<(), Full> {
        match self.0 {
            Who::Owner => (0u32, ()).write(writer),
            Who::Group => (1u32, ()).write(writer),
            Who::Everyone => (2u32, ()).write(writer),
            Who::User(number) => (3u32, number).write(writer),
            Who::GroupOf(number) => (4u32, number).write(writer),
        }
    }
}

impl<'a> Wire<'a> for PrincipalForm {
    fn read(reader: &mut Reader<'a>) -> Result<Self, XdrFault> {
        let mut ahead = reader.fork();
        let who = match ahead.u32()? {
            0 => Who::Owner,
            1 => Who::Group,
            2 => Who::Everyone,
            3 => Who::User(Wire::read(&mut ahead)?),
            4 => Who::GroupOf(Wire::read(&mut ahead)?),
            _ => return Err(XdrFault::BadChoice),
        };
        *reader = ahead;
        Ok(PrincipalForm(who))
    }
}

/// An ACE.
#[derive(Clone, Copy, PartialEq, Eq)]
pub struct EntryForm(pub Entry);

impl Spell for EntryForm {
    ghost use Rattle.std.specs.Prelude.{None};
    ghost use Rattle.tree_parts.specs.Forms.{entry, entry_value};

    ghost form = { entry };

    ghost view = { λ e. entry_value e.0 };

    ghost normal = { None };

    fn write<A: Allocator>(self, writer: &mut Writer<A>) -> Result<(), Full> {
        let Entry {
            kind,
            flags,
            mask,
            who,
        } = self.0;
        (EntryKindForm(kind), (flags, (mask, PrincipalForm(who)))).write(writer)
    }
}

impl<'a> Wire<'a> for EntryForm {
    fn read(reader: &mut Reader<'a>) -> Result<Self, XdrFault> {
        let (kind, (flags, (mask, who))) = Wire::read(reader)?;
        let (EntryKindForm(kind), PrincipalForm(who)) = (kind, who);
        Ok(EntryForm(Entry {
            kind,
            flags,
            mask,
            who,
        }))
    }
}

fn write_entry<A: Allocator>(entry: &Entry, writer: &mut Writer<A>) -> Result<(), Full>
    ensures has_spelling { OnOk result (HasSpelling specs.entry (specs.entry_value entry.now)) }
    ensures puts { Puts writer.old writer.new (spelling specs.entry (specs.entry_value entry.now)) result }
{
    EntryForm(*entry).write(writer)
}

/// The entries of an ACL, lent: at most 64.
#[derive(Clone, Copy)]
pub struct ListForm<'a> {
    entries: &'a [Entry],
    ghost within: { length entries.now ≤ 64 },
}

impl<'a> ListForm<'a> {
    /// The entries as an array. `None`: they are more than 64.
    pub fn new(entries: &'a [Entry]) -> Option<Self>
        ensures same { IfSome result (λ list. list.entries.now ≡ entries.now) }
        ensures none { IsNone result ↔ (64 < length entries.now) }
    {
        if entries.len() > 64 {
            return None;
        }
        Some(ListForm { entries })
    }
}

impl<'a> Spell for ListForm<'a> {
    ghost use Rattle.std.specs.Prelude.{None};
    ghost use Rattle.tree_parts.specs.Forms.{list, list_value};

    ghost form = { list };

    ghost view = { λ a. list_value a.entries.now };

    ghost normal = { None };

    fn write<A: Allocator>(self, writer: &mut Writer<A>) -> Result<(), Full> {
        let start = writer.len();
        let ListForm { entries } = self;
        writer.put_u32(entries.len() as u32)?;
        for entry in entries {
            if write_entry(entry, writer).is_err() {
                writer.truncate(start);
                return Err(Full);
            }
        }
        Ok(())
    }
}
