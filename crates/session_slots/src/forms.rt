//! The XDR forms of stored clients, sessions and calls (RFC 4506).
ghost use Rattle.std.specs.Prelude.{◌≡◌, ◌≤◌, ◌<◌, ◌↔◌, nat_le, length, OnOk, IfSome, IsNone};
ghost use Rattle.std.specs.List.{list_any};
ghost use Rattle.std.specs.List.Sorted.{IsStrictlyIncreasing};
ghost use Rattle.xdr_wire.specs.Xdr.{HasSpelling, spelling};
ghost use Rattle.xdr_wire.specs.Buffer.{Puts};
ghost use Rattle.session_slots.specs.Forms as specs;
ghost use Rattle.session_slots.specs.Forms.{caller_value};
ghost use Rattle.session_slots.specs.FormViews.{form_client, groups_in};
ghost use Rattle.session_slots.specs.internal.FormViews.{is_above};
ghost use Rattle.session_slots.specs.Views.{client_of, kept_of};

use crate::client::{Created, Creation, Record};
use crate::session::{Channel, Held};
use crate::slot::CachedCall;
use nfs_types::Status;
use rpc_record::{Caller, GroupSet};
use std::alloc::Allocator;
use xdr_wire::{Array, Full, Opaque, Reader, Spell, Wire, Writer, XdrFault};

impl Spell for Channel {
    ghost use Rattle.std.specs.Prelude.{None};
    ghost use Rattle.session_slots.specs.Forms.{channel, channel_value};

    ghost form = { channel };

    ghost view = { channel_value };

    ghost normal = { None };

    fn write<A: Allocator>(self, writer: &mut Writer<A>) -> Result<(), Full> {
        let last = (self.cached_size, (self.operations, self.slots));
        (self.padding, (self.request_size, (self.reply_size, last))).write(writer)
    }
}

impl<'a> Wire<'a> for Channel {
    fn read(reader: &mut Reader<'a>) -> Result<Self, XdrFault> {
        let (padding, (request_size, (reply_size, (cached_size, (operations, slots))))) =
            Wire::read(reader)?;
        Ok(Channel {
            padding,
            request_size,
            reply_size,
            cached_size,
            operations,
            slots,
        })
    }
}

impl Spell for Created {
    ghost use Rattle.std.specs.Prelude.{None};
    ghost use Rattle.session_slots.specs.Forms.{created, created_value};

    ghost form = { created };

    ghost view = { created_value };

    ghost normal = { None };

    fn write<A: Allocator>(self, writer: &mut Writer<A>) -> Result<(), Full> {
        let last = (self.persist, (self.fore, self.back));
        (self.session, (self.sequence, last)).write(writer)
    }
}

impl<'a> Wire<'a> for Created {
    fn read(reader: &mut Reader<'a>) -> Result<Self, XdrFault> {
        let (session, (sequence, (persist, (fore, back)))) = Wire::read(reader)?;
        Ok(Created {
            session,
            sequence,
            persist,
            fore,
            back,
        })
    }
}

/// The result of a CREATE_SESSION that was accepted.
#[derive(Clone, Copy)]
struct ResultForm(Result<Created, Status>);

impl Spell for ResultForm {
    ghost use Rattle.std.specs.Prelude.{None, [], ◌∷◌};
    ghost use Rattle.xdr_wire.specs.Xdr.{union, arm, void, no_more};
    ghost use Rattle.session_slots.specs.Forms.{created, result_value};

    ghost form = { union (arm 0 created (arm 28 void (arm 10005 void (arm 10017 void no_more)))) };

    ghost view = { λ r. result_value r.0 };

    ghost normal = { None };

    fn write<A: Allocator>(self, writer: &mut Writer<A>) -> Result<(), Full> {
        match self.0 {
            Ok(created) => (0u32, created).write(writer),
            Err(Status::NoSpc) => (28u32, ()).write(writer),
            Err(Status::TooSmall) => (10005u32, ()).write(writer),
            Err(_) => (10017u32, ()).write(writer),
        }
    }
}

impl<'a> Wire<'a> for ResultForm {
    fn read(reader: &mut Reader<'a>) -> Result<Self, XdrFault> {
        let mut ahead = reader.fork();
        let result = match ahead.u32()? {
            0 => Ok(Wire::read(&mut ahead)?),
            28 => Err(Status::NoSpc),
            10005 => Err(Status::TooSmall),
            10017 => Err(Status::ClidInUse),
            _ => return Err(XdrFault::BadChoice),
        };
        *reader = ahead;
        Ok(ResultForm(result))
    }
}

impl Spell for Creation {
    ghost use Rattle.std.specs.Prelude.{None};
    ghost use Rattle.session_slots.specs.Forms.{creation, creation_value};

    ghost form = { creation };

    ghost view = { creation_value };

    ghost normal = { None };

    fn write<A: Allocator>(self, writer: &mut Writer<A>) -> Result<(), Full> {
        (self.number, ResultForm(self.result)).write(writer)
    }
}

impl<'a> Wire<'a> for Creation {
    fn read(reader: &mut Reader<'a>) -> Result<Self, XdrFault> {
        let (number, result) = Wire::read(reader)?;
        let ResultForm(result) = result;
        Ok(Creation { number, result })
    }
}

/// The record of a client, whose owner has at most 1,024 bytes, borrowed.
#[derive(Clone, Copy)]
pub struct RecordForm<'a> {
    /// The client ID.
    pub number: u64,
    /// The client owner's ID.
    pub owner: Opaque<'a, 1024>,
    /// The verifier.
    pub verifier: u64,
    /// The user for whom the record was created.
    pub uid: u32,
    /// Whether the record is confirmed.
    pub confirmed: bool,
    /// The last CREATE_SESSION that was accepted, with its result.
    pub created: Option<Creation>,
    /// Whether the client has sent RECLAIM_COMPLETE.
    pub reclaimed: bool,
}

impl<'a> RecordForm<'a> {
    /// The form of a record. `None`: its owner has more than 1,024 bytes.
    pub fn new(kept: Record<'a>) -> Option<Self>
        ensures same { IfSome result (λ form. form_client form ≡ client_of kept.entry) }
        ensures none { IsNone result ↔ (1024 < length kept.entry.owner.now) }
    {
        Some(RecordForm {
            number: kept.number,
            owner: Opaque::new(kept.owner)?,
            verifier: kept.verifier,
            uid: kept.uid,
            confirmed: kept.confirmed,
            created: kept.created,
            reclaimed: kept.reclaimed,
        })
    }

    /// The record.
    pub fn record(self) -> Record<'a>
        ensures { client_of result ≡ form_client self.entry }
    {
        Record {
            number: self.number,
            owner: self.owner.bytes,
            verifier: self.verifier,
            uid: self.uid,
            confirmed: self.confirmed,
            created: self.created,
            reclaimed: self.reclaimed,
        }
    }
}

impl<'a> Spell for RecordForm<'a> {
    ghost use Rattle.std.specs.Prelude.{None};
    ghost use Rattle.session_slots.specs.Forms.{client, client_value};
    ghost use Rattle.session_slots.specs.Forms.{caller_value};
    ghost use Rattle.session_slots.specs.FormViews.{form_client, groups_in};
    ghost use Rattle.session_slots.specs.internal.FormViews.{is_above};

    ghost form = { client };

    ghost view = { λ r. client_value (form_client r) };

    ghost normal = { None };

    fn write<A: Allocator>(self, writer: &mut Writer<A>) -> Result<(), Full> {
        let last = (self.confirmed, (self.created, self.reclaimed));
        (self.number, (self.owner, (self.verifier, (self.uid, last)))).write(writer)
    }
}

impl<'a> Wire<'a> for RecordForm<'a> {
    fn read(reader: &mut Reader<'a>) -> Result<Self, XdrFault> {
        let (number, (owner, (verifier, (uid, (confirmed, (created, reclaimed)))))) = Wire::read(
            reader,
        )?;
        Ok(RecordForm {
            number,
            owner,
            verifier,
            uid,
            confirmed,
            created,
            reclaimed,
        })
    }
}

/// A session, without its slots.
#[derive(Clone, Copy, Debug, PartialEq, Eq)]
pub struct SessionForm {
    /// The number of the session.
    pub number: u64,
    /// The session.
    pub held: Held,
}

impl Spell for SessionForm {
    ghost use Rattle.std.specs.Prelude.{None};
    ghost use Rattle.session_slots.specs.Forms.{session, session_value};

    ghost form = { session };

    ghost view = { λ s. session_value s.number s.held };

    ghost normal = { None };

    fn write<A: Allocator>(self, writer: &mut Writer<A>) -> Result<(), Full> {
        (self.number, (self.held.client, self.held.granted)).write(writer)
    }
}

impl<'a> Wire<'a> for SessionForm {
    fn read(reader: &mut Reader<'a>) -> Result<Self, XdrFault> {
        let (number, (client, granted)) = Wire::read(reader)?;
        Ok(SessionForm {
            number,
            held: Held { client, granted },
        })
    }
}

/// Groups by rising number, at most 17, borrowed.
#[derive(Clone, Copy)]
struct GroupsForm<'a> {
    groups: &'a [u32],
    ghost few: { length groups.now ≤ 17 },
}

impl<'a> Spell for GroupsForm<'a> {
    ghost use Rattle.std.specs.Prelude.{None};
    ghost use Rattle.xdr_wire.specs.Xdr.{array, uint};

    ghost form = { array 17 uint };

    ghost view = { λ g. g.groups.now };

    ghost normal = { None };

    fn write<A: Allocator>(self, writer: &mut Writer<A>) -> Result<(), Full> {
        let start = writer.len();
        let GroupsForm { groups } = self;
        writer.put_u32(groups.len() as u32)?;
        for group in groups {
            if group.write(writer).is_err() {
                writer.truncate(start);
                return Err(Full);
            }
        }
        Ok(())
    }
}

/// A call that a slot cached, borrowed. Its groups aren't yet a set.
#[derive(Drop)]
pub struct CallForm<'a> {
    /// The session.
    pub session: u64,
    /// The slot.
    pub slot: u32,
    /// The sequence ID.
    pub number: u32,
    /// The user of the caller.
    pub uid: u32,
    /// The group of the caller.
    pub gid: u32,
    /// The groups that the caller is a member of.
    pub groups: Array<'a, u32, 17>,
    /// The bytes after the call's header.
    pub arguments: Opaque<'a, 65536>,
    /// The results.
    pub results: Opaque<'a, 65512>,
}

/// Whether `g` is at least `group`.
fn reaches(group: u32, g: u32) -> bool
    ensures { result ≡ nat_le group g }
{
    group <= g
}

/// Whether one of `groups` is at least `group`.
fn any_reaches(groups: &[u32], group: u32) -> bool
    ensures { result ≡ list_any (λ g. nat_le group g) groups.now }
{
    groups.iter().any(|g| reaches(group, *g))
}

/// Whether a group is greater than all of a set.
fn is_above(set: &GroupSet, group: u32) -> bool
    ensures { result ≡ is_above set.now group }
{
    !any_reaches(set.as_slice(), group)
}

/// The set of these groups. `None`: they don't rise.
#[tactic(auto, using(crate::proofs::Groups::pushed))]
fn set_of(groups: Array<'_, u32, 17>) -> Option<GroupSet>
    ensures same { IfSome result (λ set. set ≡ groups_in groups.entry.count groups.entry.bytes.now) }
    ensures none { IsNone result → IsStrictlyIncreasing (groups_in groups.entry.count groups.entry.bytes.now) → ⊥ }
{
    let mut left = groups;
    let mut set = GroupSet::new();
    while let Some(group) = left.next() {
        if !is_above(&set, group) {
            return None;
        }
        set.insert(group);
    }
    Some(set)
}

impl<'a> CallForm<'a> {
    /// The caller. `None`: its groups don't rise.
    pub fn caller(self) -> Option<Caller>
        ensures none { IsNone result → IsStrictlyIncreasing
            (groups_in self.entry.groups.count self.entry.groups.bytes.now) → ⊥ }
        ensures same { IfSome result (λ caller. caller_value caller ≡
            (self.entry.uid, (self.entry.gid, groups_in self.entry.groups.count self.entry.groups.bytes.now))) }
    {
        Some(Caller::with_groups(self.uid, self.gid, set_of(self.groups)?))
    }
}

impl<'a> Spell for CallForm<'a> {
    ghost use Rattle.std.specs.Prelude.{None};
    ghost use Rattle.session_slots.specs.Forms.{call};
    ghost use Rattle.session_slots.specs.FormViews.{form_call};

    ghost form = { call };

    ghost view = { form_call };

    ghost normal = { None };

    fn write<A: Allocator>(self, writer: &mut Writer<A>) -> Result<(), Full> {
        let caller = (self.uid, (self.gid, self.groups));
        let last = (caller, (self.arguments, self.results));
        (self.session, (self.slot, (self.number, last))).write(writer)
    }
}

impl<'a> Wire<'a> for CallForm<'a> {
    fn read(reader: &mut Reader<'a>) -> Result<Self, XdrFault> {
        let (session, (slot, (number, (caller, (arguments, results))))) = Wire::read(reader)?;
        let (uid, (gid, groups)) = caller;
        Ok(CallForm {
            session,
            slot,
            number,
            uid,
            gid,
            groups,
            arguments,
            results,
        })
    }
}

/// Writes the call that a slot caches, with its results. `Full` if and only if it doesn't fit, and then nothing is
/// written.
pub fn write_call<A: Allocator>(
    session: u64,
    slot: u32,
    kept: CachedCall<'_>,
    writer: &mut Writer<A>,
) -> Result<(), Full>
    requires arguments { length kept.arguments.now ≤ 65536 }
    requires results { length kept.results.now ≤ 65512 }
    ensures has_spelling { OnOk result (HasSpelling specs.call (specs.call_value session slot (kept_of kept.entry))) }
    ensures puts { Puts writer.old writer.new (spelling specs.call (specs.call_value session slot (kept_of kept.entry)))
        result }
{
    let (Some(arguments), Some(results)) = (
        Opaque::<65536>::new(kept.arguments),
        Opaque::<65512>::new(kept.results),
    ) else {
        return Err(Full);
    };
    let groups = GroupsForm {
        groups: kept.caller.groups(),
    };
    let caller = (kept.caller.uid(), (kept.caller.gid(), groups));
    let last = (caller, (arguments, results));
    (session, (slot, (kept.number, last))).write(writer)
}
