//! Inherited access control lists (ACLs), worked out by hand from RFC 8881, sections 6.2.1.4.1 and 6.4.3.1.

use crate::acl::entries::{allow, audit, deny, entry};
use Kind::{Directory, File, Link};
use Who::{Everyone, Group, Owner, User};
use acl_list::{AclList, Entry, Kind, Who};
use acl_shape::inherit;
use std::alloc::{AllocError, Global};

/// A parent's flags, and those of its child: for a directory, and for a file or a link.
static FLAGS: [(u32, Option<u32>, Option<u32>); 18] = [
    (0x00, None, None),
    (0x01, Some(0x09), Some(0x00)),
    (0x02, Some(0x02), None),
    (0x03, Some(0x03), Some(0x00)),
    (0x04, None, None),
    (0x05, None, Some(0x00)),
    (0x06, Some(0x00), None),
    (0x07, Some(0x00), Some(0x00)),
    (0x08, None, None),
    (0x09, Some(0x09), Some(0x00)),
    (0x0a, Some(0x02), None),
    (0x0b, Some(0x03), Some(0x00)),
    (0x0c, None, None),
    (0x0d, None, Some(0x00)),
    (0x0e, Some(0x00), None),
    (0x0f, Some(0x00), Some(0x00)),
    (0xf1, Some(0xf9), Some(0xf0)),
    (0xfb, Some(0xf3), Some(0xf0)),
];

fn flags_table() -> &'static [(u32, Option<u32>, Option<u32>)] {
    &FLAGS
}

/// The ACL that a child inherits, without the contract of the function that makes it.
fn inherited(alloc: Global, list: &AclList, kind: Kind) -> Result<AclList, AllocError> {
    inherit(alloc, list, kind)
}

fn first_of(list: &AclList) -> Option<Entry> {
    list.as_slice().first().copied()
}

/// The first ACE that a child inherits of an ACL of one ACE.
fn first_of_child(alloc: Global, entry: Entry, kind: Kind) -> Result<Option<Entry>, AllocError> {
    let list = AclList::from_slice(alloc, &[entry])?;
    let child = inherited(alloc, &list, kind)?;
    Ok(first_of(&child))
}

/// Whether a child of this type gets these flags of its parent's.
fn gets(alloc: Global, flags: u32, kind: Kind, want: Option<u32>) -> bool {
    let want = match want {
        Some(flags) => Some(deny!(flags, 0x27, User(5))),
        None => None,
    };
    first_of_child(alloc, deny!(flags, 0x27, User(5)), kind) == Ok(want)
}

/// The flags that a child gets of its parent's.
#[test]
fn flags_of_children(rt: HostRuntime) {
    for (flags, directory, other) in flags_table() {
        assert!(rt;
            gets(rt.alloc(), *flags, Directory, *directory),
            "flags {flags:x}, a directory"
        );
        assert!(rt;
            gets(rt.alloc(), *flags, File, *other),
            "flags {flags:x}, a file"
        );
        assert!(rt;
            gets(rt.alloc(), *flags, Link, *other),
            "flags {flags:x}, a link"
        );
    }
}

static PARENT: [Entry; 4] = [
    allow!(0x0b, 0x27, User(1002)),
    allow!(0, 0x67, Everyone),
    audit!(0x21, 0x02, Group),
    deny!(0x02, 0x01, Owner),
];

static CHILD_DIRECTORY: [Entry; 3] = [
    allow!(0x03, 0x27, User(1002)),
    audit!(0x29, 0x02, Group),
    deny!(0x02, 0x01, Owner),
];

static CHILD_FILE: [Entry; 2] = [allow!(0, 0x27, User(1002)), audit!(0x20, 0x02, Group)];

/// The ACEs of a parent, of a directory in it, and of a file.
fn families() -> (&'static [Entry], &'static [Entry], &'static [Entry]) {
    (&PARENT, &CHILD_DIRECTORY, &CHILD_FILE)
}

fn has(list: &AclList, entries: &[Entry]) -> bool {
    list.as_slice() == entries
}

/// Whether a child of this type inherits these ACEs.
fn is_child(
    alloc: Global,
    parent: &[Entry],
    kind: Kind,
    want: &[Entry],
) -> Result<bool, AllocError> {
    let list = AclList::from_slice(alloc, parent)?;
    let child = inherited(alloc, &list, kind)?;
    Ok(has(&child, want))
}

/// ACEs are inherited in their order. An ACE that no child gets leaves no gap.
#[test]
fn children_keep_the_order(rt: HostRuntime) {
    let (parent, directory, file) = families();
    assert!(rt; is_child(rt.alloc(), parent, Directory, directory) == Ok(true));
    assert!(rt; is_child(rt.alloc(), parent, File, file) == Ok(true));
}
