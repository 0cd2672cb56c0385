//! Summaries, first matching ACEs (access control entries) and watched bits, worked out by hand.

use crate::acl::entries::{allow, audit, deny, entry};
use crate::acl::people::{GROUP, OWNER, Person};
use EntryKind::{Alarm, Allow, Audit, Deny};
use FirstMatch::{AllowedBy, DeniedBy, Unmatched};
use Person::{Alice, AliceInside, Bob, Carol, Dave};
use Who::{Everyone, Group, Owner, User};
use acl_list::{
    AclList, Entry, EntryKind, FirstMatch, Summary, Who, class_grant, first_match, mask, summary,
    watched_bits,
};
use std::alloc::{AllocError, Global};
use std::process::Abort;

/// An access control list (ACL) with every type of ACE.
static MIXED: [Entry; 7] = [
    allow!(0, 0x7, Owner),
    deny!(0, 0x3, Group),
    allow!(0, 0x23, Everyone),
    audit!(0x10, 0x1, Everyone),
    entry!(Alarm, 0x30, 0x8000_0002, Everyone),
    audit!(0x38, 0xff, Everyone),
    audit!(0x20, 0x4, User(1002)),
];

/// The bits of a summary: granted, watched when granted, and watched when denied.
fn sum(list: &AclList, person: Person) -> (u32, u32, u32) {
    let Summary {
        granted,
        watch_ok,
        watch_fail,
    } = summary(list, OWNER, GROUP, &person.caller());
    (granted, watch_ok, watch_fail)
}

/// The bits that the mixed ACL grants to callers, and those that it watches when they are denied.
static SUMS: [(Person, u32, u32); 5] = [
    (Alice, 0x27, 0x8000_0002),
    (AliceInside, 0x27, 0x8000_0002),
    (Bob, 0x20, 0x8000_0006),
    (Carol, 0x20, 0x8000_0002),
    (Dave, 0x23, 0x8000_0002),
];

/// The bits that the mixed ACL grants to classes.
static CLASSES: [(Who, u32); 4] = [
    (Owner, 0x27),
    (Group, 0x20),
    (Everyone, 0x23),
    (User(1002), 0x23),
];

/// The first ACE of the mixed ACL that matches a bit.
static FIRST_MATCHES: [(Person, u32, FirstMatch); 9] = [
    (Alice, mask::READ_DATA, AllowedBy(0)),
    (Bob, mask::READ_DATA, DeniedBy(1)),
    (Dave, mask::READ_DATA, AllowedBy(2)),
    (AliceInside, mask::EXECUTE, AllowedBy(2)),
    (Bob, mask::APPEND_DATA, Unmatched),
    (Dave, mask::DELETE, Unmatched),
    (Dave, 0x8000_0000, Unmatched),
    (Bob, 0x24, AllowedBy(2)),
    (Dave, 0, Unmatched),
];

fn sums() -> &'static [(Person, u32, u32)] {
    &SUMS
}

fn classes() -> &'static [(Who, u32)] {
    &CLASSES
}

fn first_matches() -> &'static [(Person, u32, FirstMatch)] {
    &FIRST_MATCHES
}

fn class_bits(list: &AclList, class: Who) -> u32 {
    class_grant(list, class)
}

fn match_of(list: &AclList, person: Person, bit: u32) -> FirstMatch {
    first_match(list, OWNER, GROUP, &person.caller(), bit)
}

fn see_sums(rt: &impl Abort, list: &AclList) {
    for (person, granted, watch_fail) in sums() {
        let want = (*granted, 0x8000_0003, *watch_fail);
        assert!(rt; sum(list, *person) == want, "{person:?}");
    }
}

fn see_classes(rt: &impl Abort, list: &AclList) {
    for (class, want) in classes() {
        assert!(rt; class_bits(list, *class) == *want, "{class:?}");
    }
}

fn see_first_matches(rt: &impl Abort, list: &AclList) {
    for (person, bit, want) in first_matches() {
        assert!(rt;
            match_of(list, *person, *bit) == *want,
            "{person:?} asks {bit:x}"
        );
    }
}

fn mixed(alloc: Global) -> Result<AclList, AllocError> {
    AclList::from_slice(alloc, &MIXED)
}

/// Summaries, bits of the classes and first matching ACEs of the mixed ACL.
#[test]
fn sums_of_a_mixed_list(rt: HostRuntime) -> Result<(), AllocError> {
    let list = mixed(rt.alloc())?;
    see_sums(&rt, &list);
    see_classes(&rt, &list);
    see_first_matches(&rt, &list);
    Ok(())
}

/// ACLs, and the bits that they grant to Dave.
static SMALL: [(&str, &[Entry], u32); 3] = [
    ("no entry", &[], 0),
    (
        "in order",
        &[
            allow!(0, 1, Everyone),
            deny!(0, 3, Everyone),
            allow!(0, 7, Everyone),
        ],
        0x5,
    ),
    ("all bits", &[allow!(0, 0xffff_ffff, Everyone)], 0xffff_ffff),
];

fn small() -> &'static [(&'static str, &'static [Entry], u32)] {
    &SMALL
}

fn sum_of(alloc: Global, entries: &[Entry]) -> Result<(u32, u32, u32), AllocError> {
    let list = AclList::from_slice(alloc, entries)?;
    Ok(sum(&list, Dave))
}

#[test]
fn sums_of_small_lists(rt: HostRuntime) {
    for (name, entries, granted) in small() {
        assert!(rt;
            sum_of(rt.alloc(), entries) == Ok((*granted, 0, 0)),
            "{name}"
        );
    }
}

/// ACEs, a requested mask, and the bits of it that they watch when it is granted to Dave, and when it is denied.
static WATCHED: [(&str, Entry, u32, u32, u32); 10] = [
    ("both flags", audit!(0x30, 0x1, Everyone), 0x1, 0x1, 0x1),
    ("another bit", audit!(0x30, 0x1, Everyone), 0x2, 0, 0),
    ("SUCCESSFUL", audit!(0x10, 0x7, Everyone), 0x3, 0x3, 0),
    ("FAILED", entry!(Alarm, 0x20, 0x7, Everyone), 0x3, 0, 0x3),
    ("no flag", entry!(Alarm, 0x07, 0x1, Everyone), 0x1, 0, 0),
    ("an ALLOW", allow!(0x30, 0x1, Everyone), 0x1, 0, 0),
    (
        "to be inherited only",
        audit!(0x38, 0x1, Everyone),
        0x1,
        0,
        0,
    ),
    ("about another", audit!(0x30, 0x1, User(1002)), 0x1, 0, 0),
    (
        "about the caller",
        audit!(0x30, 0x1, User(1003)),
        0x1,
        0x1,
        0x1,
    ),
    (
        "the highest bit",
        entry!(Alarm, 0x30, 0x8000_0003, Everyone),
        0x8000_0006,
        0x8000_0002,
        0x8000_0002,
    ),
];

fn watched_table() -> &'static [(&'static str, Entry, u32, u32, u32)] {
    &WATCHED
}

fn watched_by(entry: &Entry, granted: bool, asked: u32) -> u32 {
    watched_bits(entry, OWNER, GROUP, &Dave.caller(), granted, asked)
}

/// An ACE watches bits by one flag if a mask is granted, and by the other if it is denied.
#[test]
fn watched(rt: HostRuntime) {
    for (name, entry, asked, granted, refused) in watched_table() {
        assert!(rt;
            watched_by(entry, true, *asked) == *granted,
            "{name}, granted"
        );
        assert!(rt;
            watched_by(entry, false, *asked) == *refused,
            "{name}, refused"
        );
    }
}

/// Numbers, and the types that have them (RFC 8881, section 6.2.1.1).
static TYPES: [(u32, Option<EntryKind>); 7] = [
    (0, Some(Allow)),
    (1, Some(Deny)),
    (2, Some(Audit)),
    (3, Some(Alarm)),
    (4, None),
    (0x8000_0000, None),
    (u32::MAX, None),
];

fn types_table() -> &'static [(u32, Option<EntryKind>)] {
    &TYPES
}

fn is_type(number: u32, kind: Option<EntryKind>) -> bool {
    let is_found = EntryKind::from_number(number) == kind;
    match kind {
        Some(kind) => is_found & (kind.number() == number),
        None => is_found,
    }
}

/// The numbers of the types.
#[test]
fn types(rt: HostRuntime) {
    for (number, kind) in types_table() {
        assert!(rt; is_type(*number, *kind), "{number}");
    }
}
