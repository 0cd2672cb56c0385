//! An object as the server judges access to it: its access control list (ACL), its owner and its
//! group.
use crate::around::Around;
use crate::facl::lines_of;
use crate::fault::Fault;
use acl_list::{AclList, Caller, Kind, mask};
use acl_reasons::{Governed, Reason, why};
use acl_words::{AclFault, read_acl};
use nfs_client::{Client, Stat, ToolFault, Transport};
use nfs_ops::{Bytes, OP_GETATTR};
use nfs_types::Status;
use std::alloc::Global;
use who_book::{Book, NameKind};

/// The ACL, the owner and the group of an object, which decide access to it.
#[derive(Drop)]
pub(crate) struct Judged {
    pub(crate) list: AclList,
    pub(crate) owner: u32,
    pub(crate) group: u32,
    pub(crate) object: Kind,
}

/// The type of an object by its number, `nfs_ftype4`.
fn kind_of(number: Option<u32>) -> Kind {
    match number {
        Some(2) => Kind::Directory,
        Some(5) => Kind::Link,
        _ => Kind::File,
    }
}

/// The number of a user or a group that the server names.
fn number_in(book: &Book, kind: NameKind, text: Option<Bytes<'_>>) -> Option<u32> {
    book.principal(kind, text?.bytes)
}

/// The ACL of entries as text. `Stranger`: an entry has a name that the book doesn't have.
fn list_of(alloc: Global, book: &Book, object: Kind, lines: &[Vec<u8>]) -> Result<AclList, Fault> {
    let lent: Vec<&[u8]> = lines.iter().map(|line| line.as_slice()).collect(alloc)?;
    match read_acl(alloc, book, object, lent.as_slice()) {
        Ok(list) => Ok(list),
        Err(AclFault::Entry { index, field: _ }) => Err(Fault::Stranger(index.saturating_add(1))),
        Err(AclFault::Memory) => Err(Fault::Tool(ToolFault::Memory)),
    }
}

impl Judged {
    /// The object of a path, by a book. `NoNumber`: its owner or its group isn't in the book.
    pub(crate) fn read<S: Transport>(
        client: &mut Client<S>,
        alloc: Global,
        book: &Book,
        path: &[u8],
    ) -> Result<Self, Fault> {
        let given = client.attributes(path, Stat::asked())?;
        let Some(stat) = Stat::read(&given) else {
            return Err(Fault::Tool(ToolFault::Reply));
        };
        let object = kind_of(stat.kind);
        let Some(owner) = number_in(book, NameKind::User, stat.owner) else {
            return Err(Fault::NoNumber);
        };
        let Some(group) = number_in(book, NameKind::Group, stat.group) else {
            return Err(Fault::NoNumber);
        };
        let text = client.getacl(path)?;
        let lines = lines_of(alloc, text.as_slice())?;
        Ok(Judged {
            list: list_of(alloc, book, object, lines.as_slice())?,
            owner,
            group,
            object,
        })
    }

    /// Lends the ACL, as `why_removal` takes it.
    pub(crate) fn governed(&self) -> Governed<'_> {
        Governed {
            list: &self.list,
            owner: self.owner,
            group: self.group,
        }
    }
}

/// The permissions to read an ACL and to change it again.
const OWN: u32 = mask::READ_ACL | mask::WRITE_ACL;

/// Whether an ACL grants a caller the permissions to read it and to change it again. The object has
/// this owner and this group.
fn is_own(list: &AclList, (owner, group): (u32, u32), caller: &Caller) -> bool {
    why(list, owner, group, caller, OWN) == Reason::Granted
}

/// Whether a caller could read an ACL and change it before a change, and can't afterwards. An
/// unknown ACL before the change may have granted it.
fn is_lost(before: Option<&AclList>, after: &AclList, of: (u32, u32), caller: &Caller) -> bool {
    let had = match before {
        Some(list) => is_own(list, of, caller),
        None => true,
    };
    had && !is_own(after, of, caller)
}

/// A group that the caller isn't a member of.
fn foreign_group(caller: &Caller) -> u32 {
    (0..u32::MAX)
        .find(|group| !caller.is_member(*group))
        .unwrap_or(u32::MAX)
}

/// Owners and groups that an object may have: all that an ACL can distinguish for a caller. It is
/// the owner or not, and in the group or not.
fn possible(caller: &Caller) -> [(u32, u32); 4] {
    let (own, other) = (caller.uid(), caller.uid() ^ 1);
    let foreign = foreign_group(caller);
    let shared = caller.groups().first().copied().unwrap_or(foreign);
    [
        (own, shared),
        (own, foreign),
        (other, shared),
        (other, foreign),
    ]
}

/// `Locked`: on an object with one of these owners and groups, these entries take from the caller
/// the permission to read the ACL or to change it. An ACL that can't be judged, since a name's
/// number is unknown, isn't refused.
fn stays_own(
    alloc: Global,
    around: &Around,
    before: Option<&AclList>,
    of: &[(u32, u32)],
    entries: &[Vec<u8>],
) -> Result<(), Fault> {
    let caller = &around.caller;
    match list_of(alloc, &around.names.book, Kind::File, entries) {
        Ok(after) if of.iter().any(|of| is_lost(before, &after, *of, caller)) => Err(Fault::Locked),
        Ok(_) | Err(Fault::Stranger(_)) => Ok(()),
        Err(fault) => Err(fault),
    }
}

/// Whether the server doesn't show the caller the requested attributes, but may still let it set
/// the ACL.
fn is_unseen(fault: Fault) -> bool {
    match fault {
        Fault::Tool(ToolFault::Refused(op, Status::Access)) => op == OP_GETATTR,
        _ => false,
    }
}

/// The ACL of the object of a path. `None`: the caller may not read it.
fn list_at<S: Transport>(
    client: &mut Client<S>,
    alloc: Global,
    book: &Book,
    path: &[u8],
) -> Result<Option<AclList>, Fault> {
    match client.getacl(path) {
        Ok(text) => {
            let lines = lines_of(alloc, text.as_slice())?;
            Ok(Some(list_of(alloc, book, Kind::File, lines.as_slice())?))
        }
        Err(fault) if is_unseen(Fault::Tool(fault)) => Ok(None),
        Err(fault) => Err(Fault::Tool(fault)),
    }
}

/// As `keeps_rights`, for an object whose owner and group or whose ACL the caller may not read.
fn keeps_unseen<S: Transport>(
    client: &mut Client<S>,
    alloc: Global,
    around: &Around,
    path: &[u8],
    entries: &[Vec<u8>],
) -> Result<(), Fault> {
    let before = list_at(client, alloc, &around.names.book, path)?;
    let of = possible(&around.caller);
    stays_own(alloc, around, before.as_ref(), &of, entries)
}

/// As `keeps_rights`, whether the object can be judged or not.
fn keeps<S: Transport>(
    client: &mut Client<S>,
    alloc: Global,
    around: &Around,
    path: &[u8],
    entries: &[Vec<u8>],
) -> Result<(), Fault> {
    match Judged::read(client, alloc, &around.names.book, path) {
        Ok(object) => {
            let of = [(object.owner, object.group)];
            stays_own(alloc, around, Some(&object.list), &of, entries)
        }
        Err(fault) if is_unseen(fault) => keeps_unseen(client, alloc, around, path, entries),
        Err(fault) => Err(fault),
    }
}

/// `Locked`: by these entries the caller would no longer be granted to read the ACL of an object
/// and to change it again. Or it might not be, if the server doesn't show it the object's owner,
/// its group or its ACL. Other refusals of the server come when the ACL is set.
pub(crate) fn keeps_rights<S: Transport>(
    client: &mut Client<S>,
    alloc: Global,
    around: &Around,
    path: &[u8],
    entries: &[Vec<u8>],
) -> Result<(), Fault> {
    match keeps(client, alloc, around, path, entries) {
        Err(Fault::Stranger(_) | Fault::NoNumber | Fault::Tool(ToolFault::Refused(_, _))) => Ok(()),
        outcome => outcome,
    }
}
