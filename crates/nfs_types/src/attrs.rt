//! The attributes that CREATE, OPEN and SETATTR set.
ghost use Rattle.std.specs.Prelude.{◌≡◌, map, Some, None, Ok, Err, MatchResult, IfOk, IfSome, is_some, option_map};
ghost use Rattle.acl_shape.specs.Admitted.{admitted, first_fault};
ghost use Rattle.acl_shape.specs.Bounds.{IsBounded};
ghost use Rattle.acl_shape.specs.declared.request.AdmitFault.{AdmitFault};
ghost use Rattle.acl_shape.specs.declared.request.AdmitFault.TheVariants as faults;
ghost use Rattle.xdr_wire.specs.Wire.{array_values};
ghost use Rattle.nfs_types.specs.Attributes.{ace};
ghost use Rattle.nfs_types.specs.Sent as specs;
ghost use Rattle.nfs_types.specs.Sent.{has_acl, made, taken, taken_each, taken_acl, taken_mode, taken_name};
ghost use Rattle.nfs_types.specs.Sent.{taken_plain, taken_times, wanted_of};
ghost use Rattle.nfs_types.specs.SentFaults.{Answers};
ghost use Rattle.nfs_types.specs.SentViews.{sent_value};
ghost use Rattle.nfs_types.specs.Times.{sent_time};
ghost use Rattle.nfs_types.specs.Views.{bitmap_value};

use crate::ace::Ace;
use crate::asked::Asked;
use crate::attributes::Attributes;
use crate::bitmap::Bitmap;
use crate::parts::parts_of;
use crate::sent::Sent;
use crate::set_time::{SentTime, SetTime, time_of};
use crate::status::Status;
use acl_list::{AclList, Kind};
use acl_shape::{AdmitFault, admit};
use std::alloc::{Allocator, Global};
use thiserror::Error;
use who_book::{Book, NameKind};
use xdr_wire::{Array, Opaque};

/// The largest mode: all bits that a mode can have.
const MAX_MODE: u32 = 0o7777;

/// The values that CREATE, OPEN or SETATTR sets (RFC 8881, sections 5.8.2 and 6.2): each attribute that was sent.
#[derive(Drop)]
pub struct Attrs<A: Allocator = Global> {
    /// 4, size: the new number of bytes of the file.
    pub size: Option<u64>,
    /// 12, acl: the access control list (ACL) as it is set on this type of object.
    pub list: Option<AclList<A>>,
    /// 33, mode: at most 0o7777.
    pub mode: Option<u32>,
    /// 36, owner: the number of the user.
    pub owner: Option<u32>,
    /// 37, owner_group: the number of the group.
    pub group: Option<u32>,
    /// 48, time_access_set: the new time of the last access.
    pub access: Option<SetTime>,
    /// 54, time_modify_set: the new time of the last change of the content.
    pub modify: Option<SetTime>,
    /// 58, dacl: that part of the ACL, as it is set on this type of object. `None` if the ACL is set.
    pub dacl: Option<AclList<A>>,
    /// 59, sacl: the same for the other part.
    pub sacl: Option<AclList<A>>,
}

impl<A: Allocator> Attrs<A> {
    /// No value is set.
    pub fn none() -> Self
        ensures { result ≡ record {
          size = None;
          list = None;
          mode = None;
          owner = None;
          group = None;
          access = None;
          modify = None;
          dacl = None;
          sacl = None;
        } }
    {
        Attrs {
            size: None,
            list: None,
            mode: None,
            owner: None,
            group: None,
            access: None,
            modify: None,
            dacl: None,
            sacl: None,
        }
    }
}

/// Why attributes aren't set.
#[derive(Clone, Copy, Debug, PartialEq, Eq, Error)]
pub enum AttrsFault {
    /// The attributes are refused with this status.
    #[error("the attributes are refused")]
    Refused(Status),
    /// The allocation of the ACL, or of a part of it, fails.
    #[error("out of memory")]
    Memory,
}

impl From<AdmitFault> for AttrsFault {
    ghost use Rattle.nfs_types.specs.SentFaults.{attrs_fault};

    ghost from_gives = { λ fault new. new ≡ attrs_fault fault };

    fn from(fault: AdmitFault) -> Self {
        match fault {
            AdmitFault::NoSpc => AttrsFault::Refused(Status::NoSpc),
            AdmitFault::AttrNotSupp => AttrsFault::Refused(Status::AttrNotSupp),
            AdmitFault::Inval => AttrsFault::Refused(Status::Inval),
            AdmitFault::BadOwner => AttrsFault::Refused(Status::BadOwner),
            AdmitFault::Memory => AttrsFault::Memory,
        }
    }
}

impl From<Status> for AttrsFault {
    ghost use Rattle.std.specs.Prelude.{◌≡◌};
    ghost use Rattle.nfs_types.specs.declared.attrs.AttrsFault.TheVariants.{Refused};

    ghost from_gives = { λ status fault. fault ≡ Refused status };

    fn from(status: Status) -> Self {
        AttrsFault::Refused(status)
    }
}

/// The ACL that the access control entries (ACEs) ask for, on an object of this type. Their number was checked before
/// any was examined.
fn admit_all<'a, A: Allocator>(
    alloc: A,
    book: &Book,
    kind: Kind,
    entries: Array<'a, Ace<'a>, 0xffff_ffff>,
) -> Result<AclList<A>, AdmitFault>
    ensures refused { (fault : AdmitFault) →
        first_fault (map (specs.raw_of book.now) (array_values ace None entries.entry.count entries.entry.bytes.now)) ≡
        Some fault → result ≡ Err fault }
    ensures taken { first_fault
        (map (specs.raw_of book.now) (array_values ace None entries.entry.count entries.entry.bytes.now)) ≡ None →
        MatchResult result
        (λ new. new
        ≡ admitted kind
        (map (specs.raw_of book.now) (array_values ace None entries.entry.count entries.entry.bytes.now)))
        (λ fault. fault ≡ faults.Memory) }
    ensures bounded { IfOk result IsBounded }
{
    let Some(asked) = Asked::of(book, entries) else {
        return Err(AdmitFault::NoSpc);
    };
    admit(alloc, asked.as_slice(), kind)
}

/// The ACL that was sent, if one was.
fn list_of<'a, A: Allocator>(
    alloc: A,
    book: &Book,
    kind: Kind,
    entries: Option<Array<'a, Ace<'a>, 0xffff_ffff>>,
) -> Result<Option<AclList<A>>, AttrsFault>
    ensures list { Answers (λ list. list) is_some
        (taken_acl book.now kind (option_map (λ a. array_values ace None a.count a.bytes.now) entries.entry)) result }
    ensures bounded { IfOk result (λ list. IfSome list IsBounded) }
{
    let Some(entries) = entries else {
        return Ok(None);
    };
    let list = admit_all(alloc, book, kind, entries)?;
    Ok(Some(list))
}

/// The mode that was sent, if one was.
fn mode_of(mode: Option<u32>) -> Result<Option<u32>, Status>
    ensures { result ≡ taken_mode mode }
{
    match mode {
        None => Ok(None),
        Some(bits) => {
            if bits > MAX_MODE {
                return Err(Status::Inval);
            }
            Ok(Some(bits))
        }
    }
}

/// The number of the user or the group that was sent, if one was.
fn number_of(
    book: &Book,
    kind: NameKind,
    name: Option<Opaque<'_, 0xffff_ffff>>,
) -> Result<Option<u32>, Status>
    ensures { result ≡ taken_name book.now kind (option_map (λ t. t.bytes.now) name.entry) }
{
    let Some(name) = name else {
        return Ok(None);
    };
    match book.principal(kind, name.bytes) {
        None => Err(Status::BadOwner),
        Some(number) => Ok(Some(number)),
    }
}

/// The mode and the numbers that were sent, in their order.
type Plain = (Option<u32>, (Option<u32>, Option<u32>));

/// The values that are set by the attributes after the ACL.
fn plain_of(
    book: &Book,
    mode: Option<u32>,
    owner: Option<Opaque<'_, 0xffff_ffff>>,
    group: Option<Opaque<'_, 0xffff_ffff>>,
) -> Result<Plain, Status>
    ensures { result ≡ taken_plain book.now mode (option_map (λ t. t.bytes.now) owner.entry)
        (option_map (λ t. t.bytes.now) group.entry) }
{
    let mode = mode_of(mode)?;
    let owner = number_of(book, NameKind::User, owner)?;
    let group = number_of(book, NameKind::Group, group)?;
    Ok((mode, (owner, group)))
}

/// The times that were sent: time_access, time_modify.
fn times_of(
    access: Option<SentTime>,
    modify: Option<SentTime>,
) -> Result<(Option<SetTime>, Option<SetTime>), Status>
    ensures { result ≡ taken_times (option_map sent_time access) (option_map sent_time modify) }
{
    let access = time_of(access)?;
    let modify = time_of(modify)?;
    Ok((access, modify))
}

/// The values that are set if a part of an ACL isn't sent beside an ACL.
fn each_of<'a, A: Allocator + Copy>(
    alloc: A,
    book: &Book,
    kind: Kind,
    sent: Sent<'a>,
) -> Result<Attrs<A>, AttrsFault>
    ensures attrs { Answers (λ new.
        made new.size new.list new.mode new.owner new.group new.access new.modify new.dacl new.sacl) has_acl
        (taken_each book.now kind (sent_value sent.entry)) result }
    ensures bounded { IfOk result (λ new. IfSome new.list IsBounded) }
{
    let Sent {
        size,
        entries,
        mode,
        owner,
        group,
        access,
        modify,
        dacl,
        sacl,
    } = sent;
    match list_of(alloc, book, kind, entries) {
        Err(AttrsFault::Refused(status)) => Err(AttrsFault::Refused(status)),
        Err(AttrsFault::Memory) => {
            plain_of(book, mode, owner, group)?;
            times_of(access, modify)?;
            parts_of(alloc, book, kind, dacl, sacl)?;
            Err(AttrsFault::Memory)
        }
        Ok(list) => {
            let (mode, (owner, group)) = plain_of(book, mode, owner, group)?;
            let (access, modify) = times_of(access, modify)?;
            let (dacl, sacl) = parts_of(alloc, book, kind, dacl, sacl)?;
            Ok(Attrs {
                size,
                list,
                mode,
                owner,
                group,
                access,
                modify,
                dacl,
                sacl,
            })
        }
    }
}

/// The values that the bytes set.
fn attrs_of<'a, A: Allocator + Copy>(
    alloc: A,
    book: &Book,
    kind: Kind,
    sent: Sent<'a>,
) -> Result<Attrs<A>, AttrsFault>
    ensures attrs { Answers (λ new.
        made new.size new.list new.mode new.owner new.group new.access new.modify new.dacl new.sacl) has_acl
        (taken book.now kind (sent_value sent.entry)) result }
    ensures bounded { IfOk result (λ new. IfSome new.list IsBounded) }
{
    if sent.sets_twice() {
        return Err(AttrsFault::Refused(Status::Inval));
    }
    each_of(alloc, book, kind, sent)
}

/// The values that sent attributes set on an object of this type, with the ACL over `alloc` (RFC 8881, sections 5.8,
/// 5.9 and 6.2). They are any of 4 size, 12 acl, 33 mode, 36 owner, 37 owner_group, 48 time_access_set,
/// 54 time_modify_set, 58 dacl and 59 sacl.
///
/// They are refused for the first of these faults, over the whole set:
///
/// - `AttrNotSupp`: an attribute isn't supported; 48 and 54 are only with `times`.
/// - `Inval`: an attribute can't be set.
/// - `BadXdr`: the bytes aren't exactly the encodings of the values.
/// - `Inval`: an ACL is sent beside a part of one.
/// - Then by rising number: an ACL as [`acl_shape::admit`] refuses it.
/// - `Inval`: a mode above 0o7777.
/// - `BadOwner`: an owner or a group that the book doesn't know.
/// - `Inval`: a time that has 1,000,000,000 nanoseconds or more.
/// - `AttrNotSupp`: a part of an ACL has flags other than 0. Then its ACEs as [`acl_shape::admit_part`] refuses them.
///
/// `Memory` is returned only for values that aren't refused, and only if an ACL or a part of one was sent. Nothing else
/// allocates.
pub fn read_attrs<A: Allocator + Copy>(
    alloc: A,
    times: bool,
    book: &Book,
    kind: Kind,
    sent: &Attributes<'_>,
) -> Result<Attrs<A>, AttrsFault>
    ensures attrs { Answers (λ new.
        made new.size new.list new.mode new.owner new.group new.access new.modify new.dacl new.sacl) has_acl
        (wanted_of times book.now kind (bitmap_value sent.now.set) sent.now.values.bytes.now) result }
    ensures bounded { IfOk result (λ new. IfSome new.list IsBounded) }
{
    if !sent.set.is_within(&Bitmap::supported(times)) {
        return Err(AttrsFault::Refused(Status::AttrNotSupp));
    }
    if !sent.set.is_within(&Bitmap::settable()) {
        return Err(AttrsFault::Refused(Status::Inval));
    }
    let Some(values) = Sent::read(sent) else {
        return Err(AttrsFault::Refused(Status::BadXdr));
    };
    attrs_of(alloc, book, kind, values)
}
