//! Reasons, counted by hand from RFC 8881, sections 6.2.1 and 6.2.1.3.2.

use Applicability::{AnotherUser, Applies, InheritOnly, NoMember, Watches};
use EntryKind::{Alarm, Allow, Deny};
use Reason::{Denied, Granted, Missing};
use RemovalReason::{
    AddFileDenied, AddFileMissing, ByAddFile, ByDelete, ByDeleteChild, DeleteChildDenied,
    DeleteDenied,
};
use Who::{Everyone, Group, GroupOf, Owner, User};
use acl_list::{AclList, Entry, EntryKind, Who};
use acl_reasons::{
    Applicability, Governed, Reason, RemovalReason, Share, applicability_of, share_of, why,
    why_removal,
};
use rpc_record::Caller;
use std::alloc::{AllocError, Global};
use std::process::Abort;

/// A type, a mask and a principal.
type Short = (EntryKind, u32, Who);

/// The owner of each object, and its group.
const OWNER: u32 = 1001;

const GROUP: u32 = 100;

/// A caller by uid and gid.
fn caller(uid: u32, gid: u32) -> Caller {
    Caller::new(uid, gid, &[])
}

fn list_of(alloc: Global, shorts: &[Short]) -> Result<AclList, AllocError> {
    let mut list = AclList::new(alloc);
    for (kind, mask, who) in shorts {
        list.push(Entry {
            kind: *kind,
            flags: 0,
            mask: *mask,
            who: *who,
        })?;
    }
    Ok(list)
}

/// An ACL (access control list), the uid and the gid of a caller, a mask, and the reason.
type Case = (&'static [Short], u32, u32, u32, Reason);

static CASES: [Case; 9] = [
    (
        &[(Deny, 1, User(1001)), (Allow, 3, Everyone)],
        1001,
        7,
        3,
        Denied { entry: 0, bit: 1 },
    ),
    (
        &[(Deny, 1, User(1001)), (Allow, 3, Everyone)],
        1001,
        7,
        2,
        Granted,
    ),
    (
        &[(Deny, 1, User(1001)), (Allow, 3, Everyone)],
        1002,
        7,
        3,
        Granted,
    ),
    (&[], 1002, 7, 0x22, Missing { bit: 2 }),
    (&[], 1002, 7, 0, Granted),
    (
        &[(Allow, 1, Owner), (Deny, 3, Group), (Allow, 3, Everyone)],
        1001,
        100,
        3,
        Denied { entry: 1, bit: 2 },
    ),
    (
        &[(Allow, 1, Owner), (Deny, 3, Group), (Allow, 3, Everyone)],
        1002,
        100,
        1,
        Denied { entry: 1, bit: 1 },
    ),
    (
        &[(Allow, 1, Everyone), (Deny, 0x0f, Everyone)],
        1002,
        7,
        0x0d,
        Denied { entry: 1, bit: 4 },
    ),
    (
        &[(Allow, 1, Everyone)],
        1002,
        7,
        0x8000_0001,
        Missing { bit: 0x8000_0000 },
    ),
];

fn cases() -> &'static [Case] {
    &CASES
}

fn holds(alloc: Global, case: &Case) -> Result<bool, AllocError> {
    let list = list_of(alloc, case.0)?;
    Ok(why(&list, OWNER, GROUP, &caller(case.1, case.2), case.3) == case.4)
}

#[test]
fn masks(rt: HostRuntime) -> Result<(), AllocError> {
    for case in cases() {
        let held = holds(rt.alloc(), case)?;
        assert!(rt; held, "{}", case.3);
    }
    Ok(())
}

/// The ACLs of the parent and of the target, and the reason.
type Removed = (&'static [Short], &'static [Short], RemovalReason);

static REMOVALS: [Removed; 9] = [
    (
        &[(Allow, 0x60, Everyone)],
        &[(Deny, 0x0001_0000, Everyone)],
        ByDeleteChild(0),
    ),
    (&[(Allow, 0x22, Everyone)], &[], ByAddFile),
    (
        &[(Deny, 0x40, Everyone), (Allow, 0x22, Everyone)],
        &[],
        DeleteChildDenied(0),
    ),
    (&[(Allow, 0x20, Everyone)], &[], AddFileMissing),
    (
        &[(Allow, 0x22, Everyone)],
        &[(Deny, 0x0001_0000, Everyone)],
        DeleteDenied(0),
    ),
    (
        &[(Deny, 0x40, Everyone)],
        &[(Allow, 1, Everyone), (Allow, 0x0001_0000, Everyone)],
        ByDelete(1),
    ),
    (
        &[(Allow, 1, Everyone), (Deny, 2, Everyone)],
        &[],
        AddFileDenied(1),
    ),
    (
        &[(Deny, 0x40, Everyone)],
        &[(Deny, 0x0001_0000, Everyone)],
        DeleteChildDenied(0),
    ),
    (
        &[(Allow, 0x40, User(7)), (Deny, 0x42, Owner)],
        &[(Deny, 0x0001_0000, User(7))],
        AddFileMissing,
    ),
];

fn removals() -> &'static [Removed] {
    &REMOVALS
}

fn removal_holds(alloc: Global, case: &Removed) -> Result<bool, AllocError> {
    let parent = list_of(alloc, case.0)?;
    let target = list_of(alloc, case.1)?;
    let side = |list| Governed {
        list,
        owner: OWNER,
        group: GROUP,
    };
    let reason = why_removal(&side(&parent), &side(&target), &caller(1002, 7));
    Ok(reason == case.2)
}

#[test]
fn removed_names(rt: HostRuntime) -> Result<(), AllocError> {
    for case in removals() {
        let held = removal_holds(rt.alloc(), case)?;
        assert!(rt; held);
    }
    Ok(())
}

/// A type, flags and a principal, the uid and the gid of a caller, and whether the ACE applies.
type Applying = (EntryKind, u32, Who, u32, u32, Applicability);

static STANDINGS: [Applying; 12] = [
    (Allow, 0, Everyone, 1002, 7, Applies),
    (Deny, 3, Owner, 1001, 7, Applies),
    (Allow, 0, Owner, 1002, 100, AnotherUser),
    (Allow, 0, Group, 1002, 100, Applies),
    (Allow, 0, Group, 1001, 7, NoMember),
    (Deny, 0, User(1002), 1002, 7, Applies),
    (Deny, 0, User(1002), 1001, 7, AnotherUser),
    (Deny, 0x40, GroupOf(7), 1001, 7, Applies),
    (Deny, 0x40, GroupOf(8), 1001, 7, NoMember),
    (Allow, 0x0b, Everyone, 1002, 7, InheritOnly),
    (Alarm, 0x30, Everyone, 1002, 7, Watches),
    (Alarm, 0x38, User(1), 1002, 7, Watches),
];

fn standings() -> &'static [Applying] {
    &STANDINGS
}

fn is_held(case: &Applying) -> bool {
    let entry = Entry {
        kind: case.0,
        flags: case.1,
        mask: 1,
        who: case.2,
    };
    applicability_of(&entry, OWNER, GROUP, &caller(case.3, case.4)) == case.5
}

#[test]
fn entries(rt: HostRuntime) {
    for case in standings() {
        let held = is_held(case);
        assert!(rt; held);
    }
}

/// The uid and the gid of a caller, a mask, the index of an ACE, the bits that it decides, and those that are decided
/// before it.
type Shared = (u32, u32, u32, usize, u32, u32);

static SHARED_LIST: [Short; 5] = [
    (Allow, 1, Owner),
    (Deny, 3, Group),
    (Alarm, 0xff, Everyone),
    (Allow, 7, Everyone),
    (Allow, 0x8000_0001, Everyone),
];

static SHARES: [Shared; 13] = [
    (1001, 100, 3, 0, 1, 0),
    (1001, 100, 3, 1, 2, 1),
    (1001, 100, 2, 1, 2, 0),
    (1001, 100, 1, 1, 0, 1),
    (1001, 100, 7, 2, 0, 0),
    (1001, 100, 7, 3, 4, 3),
    (1001, 100, 0x8000_0001, 4, 0x8000_0000, 1),
    (1001, 100, 7, 5, 0, 0),
    (1002, 7, 3, 0, 0, 0),
    (1002, 7, 3, 1, 0, 0),
    (1002, 7, 7, 3, 7, 0),
    (1002, 7, 5, 3, 5, 0),
    (1002, 7, 0, 3, 0, 0),
];

fn shared_list() -> &'static [Short] {
    &SHARED_LIST
}

fn shares() -> &'static [Shared] {
    &SHARES
}

#[test]
fn bits_that_entries_decide(rt: HostRuntime) -> Result<(), AllocError> {
    let list = list_of(rt.alloc(), shared_list())?;
    for (uid, gid, mask, index, decided, before) in shares() {
        let share = share_of(&list, OWNER, GROUP, &caller(*uid, *gid), *mask, *index);
        let want = Share {
            decided: *decided,
            before: *before,
        };
        assert!(rt; share == want, "{uid} {mask} {index}");
    }
    Ok(())
}
