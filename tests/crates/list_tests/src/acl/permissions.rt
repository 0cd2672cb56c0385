//! The access control lists (ACLs) of new objects, and of objects whose mode, ACL or both were set: by hand from RFC
//! 8881, sections 6.4.1 and 6.4.3.

use crate::acl::entries::{allow, deny, entry, five};
use Kind::{Directory, File, Link};
use Who::{Everyone, Group, Owner, User};
use acl_list::{AclList, Entry, Kind, Who};
use acl_shape::{Given, Permissions, changed_permissions, created_permissions};
use std::alloc::{AllocError, Global};
use std::process::Abort;

/// The ACL that is sent.
const ASKED: &[Entry] = &[allow!(0, 0x1, Everyone)];

/// A mode, and `ASKED` if it is sent.
fn given(alloc: Global, mode: Option<u32>, with_list: bool) -> Result<Given, AllocError> {
    let list = if with_list {
        Some(AclList::from_slice(alloc, ASKED)?)
    } else {
        None
    };
    Ok(Given { mode, list })
}

/// A directory's ACL with an ACE to be inherited, and one without.
const PARENT: &[Entry] = &[allow!(0x0b, 0x27, User(1002)), allow!(0, 0x67, Everyone)];

const BARREN: &[Entry] = &[allow!(0, 0x67, Everyone)];

const WITH_MODE: &[Entry] = &[
    allow!(0, 0x1e01e7, Owner),
    deny!(0, 0, Owner),
    allow!(0x03, 0x21, User(1002)),
    allow!(0, 0x21, Group),
    deny!(0, 0x46, Group),
    allow!(0, 0x120080, Everyone),
];

/// The directory's ACL, the object type, the mode, whether an ACL is sent; the new object's ACL and high bits.
#[derive(Clone, Copy)]
struct Creation<'a> {
    name: &'a str,
    parent: &'a [Entry],
    kind: Kind,
    mode: Option<u32>,
    with_list: bool,
    list: &'a [Entry],
    high: u32,
}

macro_rules! creation {
    ($name:expr, $parent:expr, $kind:expr, $mode:expr, $with_list:expr => $list:expr, $high:expr) => {
        Creation {
            name: $name,
            parent: $parent,
            kind: $kind,
            mode: $mode,
            with_list: $with_list,
            list: $list,
            high: $high,
        }
    };
}

static CREATIONS: [Creation<'static>; 8] = [
    creation!("a mode", PARENT, Directory, Some(0o2750), false => WITH_MODE, 0o2000),
    creation!("a list", PARENT, Directory, None, true => ASKED, 0),
    creation!("both", PARENT, File, Some(0o7777), true => ASKED, 0o7000),
    creation!("neither, a directory", PARENT, Directory, None, false => &[allow!(0x03, 0x27, User(1002))], 0),
    creation!("neither, a file", PARENT, File, None, false => &[allow!(0, 0x27, User(1002))], 0),
    creation!("nothing, a directory", BARREN, Directory, None, false => &five!(0x1e01e7, 0, 0, 0x67, 0x120080), 0),
    creation!("nothing, a file", BARREN, File, None, false => &five!(0x1e0187, 0x20, 0, 0x27, 0x120080), 0),
    creation!("nothing, a link", BARREN, Link, None, false => &five!(0x1e0187, 0x20, 0, 0x27, 0x120080), 0),
];

fn creations() -> &'static [Creation<'static>] {
    &CREATIONS
}

/// The permissions, without the contracts of the functions that make them.
fn created(
    alloc: Global,
    parent: &AclList,
    kind: Kind,
    given: Given,
) -> Result<Permissions, AllocError> {
    created_permissions(alloc, parent, kind, given)
}

fn changed(
    alloc: Global,
    list: &AclList,
    high: u32,
    given: Given,
) -> Result<Permissions, AllocError> {
    changed_permissions(alloc, list, high, File, given)
}

/// Whether the ACL has these ACEs, and the high bits.
fn parts_of(permissions: &Permissions, list: &[Entry]) -> (bool, u32) {
    (permissions.list.as_slice() == list, permissions.high)
}

fn parts_of_new(
    alloc: Global,
    parent: &AclList,
    case: &Creation<'_>,
) -> Result<(bool, u32), AllocError> {
    let given = given(alloc, case.mode, case.with_list)?;
    let made = created(alloc, parent, case.kind, given)?;
    Ok(parts_of(&made, case.list))
}

fn is_created(alloc: Global, case: &Creation<'_>) -> Result<bool, AllocError> {
    let parent = AclList::from_slice(alloc, case.parent)?;
    Ok(parts_of_new(alloc, &parent, case) == Ok((true, case.high)))
}

#[test]
fn new_objects(rt: HostRuntime) {
    for case in creations() {
        assert!(rt; is_created(rt.alloc(), case) == Ok(true), "{}", case.name);
    }
}

/// A file's ACL with one ACE for a named user.
const NAMED: &[Entry] = &[allow!(0, 0x07, User(5))];

const NAMED_WITH_MODE: &[Entry] = &[
    allow!(0, 0x1e0187, Owner),
    deny!(0, 0x20, Owner),
    allow!(0, 0x01, User(5)),
    allow!(0, 0x01, Group),
    deny!(0, 0x26, Group),
    allow!(0, 0x120080, Everyone),
];

/// The mode and whether an ACL is sent; the ACL and the high bits after it, if they were 0o4000.
static CHANGES: [Change; 4] = [
    ("a mode", Some(0o1640), false, NAMED_WITH_MODE, 0o1000),
    ("a list", None, true, ASKED, 0o4000),
    ("both", Some(0o640), true, ASKED, 0),
    ("neither", None, false, NAMED, 0o4000),
];

type Change = (&'static str, Option<u32>, bool, &'static [Entry], u32);

fn changes() -> &'static [Change] {
    &CHANGES
}

fn parts_of_changed(
    alloc: Global,
    old: &AclList,
    (mode, with_list): (Option<u32>, bool),
    list: &[Entry],
) -> Result<(bool, u32), AllocError> {
    let given = given(alloc, mode, with_list)?;
    let now = changed(alloc, old, 0o4000, given)?;
    Ok(parts_of(&now, list))
}

fn see_changes(rt: &impl Abort, alloc: Global, old: &AclList) {
    for (name, mode, with_list, want, high) in changes() {
        let found = parts_of_changed(alloc, old, (*mode, *with_list), want);
        assert!(rt; found == Ok((true, *high)), "{name}");
    }
}

#[test]
fn changed_objects(rt: HostRuntime) -> Result<(), AllocError> {
    let old = AclList::from_slice(rt.alloc(), NAMED)?;
    see_changes(&rt, rt.alloc(), &old);
    Ok(())
}
