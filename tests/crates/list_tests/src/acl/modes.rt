//! Modes of access control lists (ACLs), and ACLs for modes, worked out by hand from RFC 8881, sections 6.3.2 and
//! 6.4.1.1.

use crate::acl::entries::{allow, audit, deny, entry, five};
use Kind::{Directory, File, Link};
use Who::{Everyone, Group, GroupOf, Owner, User};
use acl_list::{AclList, Entry, Kind, Who};
use acl_shape::{mode_of, set_mode};
use std::alloc::{AllocError, Global};

static LISTS: [(Kind, u32, &[Entry]); 8] = [
    (Directory, 0o755, &five!(0x1e01e7, 0, 0x21, 0x46, 0x1200a1)),
    (File, 0o640, &five!(0x1e0187, 0x20, 0x01, 0x26, 0x120080)),
    (Directory, 0o777, &five!(0x1e01e7, 0, 0x67, 0, 0x1200e7)),
    (Directory, 0o700, &five!(0x1e01e7, 0, 0, 0x67, 0x120080)),
    (Link, 0o600, &five!(0x1e0187, 0x20, 0, 0x27, 0x120080)),
    (File, 0o604, &five!(0x1e0187, 0x20, 0, 0x27, 0x120081)),
    (File, 0o137, &five!(0x1e01a0, 0x07, 0x26, 0x01, 0x1200a7)),
    (Directory, 0, &five!(0x1e0180, 0x67, 0, 0x67, 0x120080)),
];

fn lists() -> &'static [(Kind, u32, &'static [Entry])] {
    &LISTS
}

/// The ACL and the mode, without the contracts of the functions that make them.
fn with_mode(alloc: Global, list: &AclList, kind: Kind, mode: u32) -> Result<AclList, AllocError> {
    set_mode(alloc, list, kind, mode)
}

fn mode_in(list: &AclList) -> u32 {
    mode_of(list)
}

/// Whether an ACL has these ACEs and this mode.
fn is_list(list: &AclList, want: &[Entry], mode: u32) -> bool {
    (list.as_slice() == want) & (mode_in(list) == mode)
}

/// Whether the ACL for a mode, if there was none before, has these ACEs and the nine low bits.
fn is_made(alloc: Global, kind: Kind, mode: u32, want: &[Entry]) -> Result<bool, AllocError> {
    let none = AclList::new(alloc);
    let list = with_mode(alloc, &none, kind, mode)?;
    Ok(is_list(&list, want, mode % 0o1000))
}

/// The high bits of a mode have no effect.
#[test]
fn lists_for_modes(rt: HostRuntime) {
    for (kind, mode, want) in lists() {
        assert!(rt;
            is_made(rt.alloc(), *kind, *mode, want) == Ok(true),
            "{mode:o}"
        );
        let high = *mode | 0o7000;
        assert!(rt;
            is_made(rt.alloc(), *kind, high, want) == Ok(true),
            "{high:o}"
        );
    }
}

static BEFORE: [Entry; 3] = [
    allow!(0x03, 0x40027, Owner),
    allow!(0, 0x2, User(1002)),
    audit!(0x20, 0x1, Everyone),
];

static AFTER: [Entry; 8] = [
    allow!(0, 0x1e01c7, Owner),
    deny!(0, 0x20, Owner),
    allow!(0x0b, 0x40027, Owner),
    allow!(0, 0, User(1002)),
    audit!(0x20, 0x1, Everyone),
    allow!(0, 0x1, Group),
    deny!(0, 0x66, Group),
    allow!(0, 0x120080, Everyone),
];

fn before_and_after() -> (&'static [Entry], &'static [Entry]) {
    (&BEFORE, &AFTER)
}

/// Whether an ACL of a directory has these ACEs after a mode, and after the same mode again.
fn is_after(alloc: Global, list: &AclList, after: &[Entry]) -> Result<bool, AllocError> {
    let new = with_mode(alloc, list, Directory, 0o640)?;
    let again = with_mode(alloc, &new, Directory, 0o640)?;
    Ok(is_list(&new, after, 0o640) & is_list(&again, after, 0o640))
}

fn is_changed(alloc: Global, before: &[Entry], after: &[Entry]) -> Result<bool, AllocError> {
    let list = AclList::from_slice(alloc, before)?;
    is_after(alloc, &list, after)
}

/// A mode that is set on the ACL of a directory, and set again.
#[test]
fn a_mode_on_the_list_of_a_directory(rt: HostRuntime) {
    let (before, after) = before_and_after();
    assert!(rt; is_changed(rt.alloc(), before, after) == Ok(true));
}

static KEPT: [(Entry, Option<Entry>); 14] = [
    (audit!(0x30, 0x27, Owner), Some(audit!(0x30, 0x27, Owner))),
    (
        entry!(Alarm, 0x09, 0x27, User(5)),
        Some(entry!(Alarm, 0x09, 0x27, User(5))),
    ),
    (allow!(0x08, 0x27, Owner), Some(allow!(0x08, 0x27, Owner))),
    (
        deny!(0x0b, 0x27, Everyone),
        Some(deny!(0x0b, 0x27, Everyone)),
    ),
    (allow!(0, 0x27, Owner), None),
    (deny!(0x04, 0x27, Group), None),
    // the flag IDENTIFIER_GROUP has no effect on a special identifier
    (allow!(0x40, 0x27, Everyone), None),
    (
        allow!(0x01, 0x27, Everyone),
        Some(allow!(0x09, 0x27, Everyone)),
    ),
    (deny!(0xc6, 0x27, Group), Some(deny!(0xce, 0x27, Group))),
    (allow!(0, 0x27, User(5)), Some(allow!(0, 0x01, User(5)))),
    (
        allow!(0x40, 0x06, GroupOf(5)),
        Some(allow!(0x40, 0, GroupOf(5))),
    ),
    // also if new objects get it, and with bits that the standard doesn't define
    (
        allow!(0x03, 0x8000_00ff, GroupOf(5)),
        Some(allow!(0x03, 0x8000_00d9, GroupOf(5))),
    ),
    (
        allow!(0x08, 0x27, User(5)),
        Some(allow!(0x08, 0x27, User(5))),
    ),
    (deny!(0x03, 0x27, User(5)), Some(deny!(0x03, 0x27, User(5)))),
];

fn kept() -> &'static [(Entry, Option<Entry>)] {
    &KEPT
}

/// The first ACE and the last one of an ACL.
fn ends_of(entries: &[Entry]) -> (Option<Entry>, Option<Entry>) {
    (entries.first().copied(), entries.last().copied())
}

/// Whether an ACL has exactly this ACE between its first two and its last three.
fn keeps(entries: &[Entry], after: Option<Entry>) -> bool {
    match after {
        Some(entry) => (entries.len() == 6) & (entries.get(2).copied() == Some(entry)),
        None => entries.len() == 5,
    }
}

/// Whether a file's ACL has the ends of the ACL of a mode, and between them the rest that the mode keeps of an ACE.
fn is_kept(alloc: Global, before: Entry, after: Option<Entry>) -> Result<bool, AllocError> {
    let list = AclList::from_slice(alloc, &[before])?;
    let new = with_mode(alloc, &list, File, 0o640)?;
    Ok(keeps(new.as_slice(), after) & (ends_of(new.as_slice()) == ends_of(ends())))
}

static ENDS: [Entry; 5] = five!(0x1e0187, 0x20, 0x01, 0x26, 0x120080);

/// The ACL for the mode 0o640 of a file, if there was none before.
fn ends() -> &'static [Entry] {
    &ENDS
}

/// Each ACE by itself, under a mode in which the group may only read and so lacks 0x26.
#[test]
fn what_a_mode_keeps(rt: HostRuntime) {
    for (before, after) in kept() {
        assert!(rt;
            is_kept(rt.alloc(), *before, *after) == Ok(true),
            "{before:?}"
        );
    }
}

static MODES: [(&str, &[Entry], u32); 14] = [
    ("none", &[], 0),
    ("all of it", &[allow!(0, 0x27, Everyone)], 0o777),
    ("reading", &[allow!(0, 0x01, Everyone)], 0o444),
    ("WRITE_DATA alone", &[allow!(0, 0x02, Everyone)], 0),
    ("APPEND_DATA alone", &[allow!(0, 0x04, Everyone)], 0),
    (
        "both, by two entries",
        &[allow!(0, 0x02, Everyone), allow!(0, 0x04, Owner)],
        0o200,
    ),
    (
        "the owner is denied first",
        &[deny!(0, 0x01, Owner), allow!(0, 0x21, Everyone)],
        0o155,
    ),
    (
        "the owner is denied too late",
        &[allow!(0, 0x21, Everyone), deny!(0, 0x01, Owner)],
        0o555,
    ),
    ("the group", &[allow!(0, 0x27, Group)], 0o070),
    (
        "APPEND_DATA denied to the group",
        &[deny!(0, 0x04, Group), allow!(0, 0x07, Everyone)],
        0o646,
    ),
    (
        "a user and a group of its own",
        &[
            allow!(0, 0x27, User(0)),
            deny!(0, 0x27, GroupOf(0)),
            allow!(0, 0x01, Everyone),
        ],
        0o444,
    ),
    (
        "only to be inherited",
        &[allow!(0x0b, 0x27, Everyone), allow!(0x03, 0x20, Everyone)],
        0o111,
    ),
    (
        "AUDIT and ALARM",
        &[
            audit!(0x30, 0x27, Everyone),
            entry!(Alarm, 0x30, 0x27, Everyone),
        ],
        0,
    ),
    (
        "IDENTIFIER_GROUP on EVERYONE@",
        &[allow!(0x40, 0x01, Everyone)],
        0o444,
    ),
];

fn modes() -> &'static [(&'static str, &'static [Entry], u32)] {
    &MODES
}

fn mode_by(alloc: Global, entries: &[Entry]) -> Result<u32, AllocError> {
    let list = AclList::from_slice(alloc, entries)?;
    Ok(mode_in(&list))
}

/// Modes counted by hand.
#[test]
fn modes_of_lists(rt: HostRuntime) {
    for (name, entries, mode) in modes() {
        assert!(rt; mode_by(rt.alloc(), entries) == Ok(*mode), "{name}");
    }
}
