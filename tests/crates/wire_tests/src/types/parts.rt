//! The parts of an ACL (access control list) that are returned.
use crate::given;
use crate::types::object::{facts, is_given};
use crate::types::sets;
use acl_list::{Entry, EntryKind, Who};
use nfs_types::ObjectFacts;
use std::alloc::{AllocError, Global};

/// `A:00:00060001:OWNER@`, `U:20:00000001:EVERYONE@`, `D:00:00000002:1002`.
static MIXED: [Entry; 3] = [
    Entry {
        kind: EntryKind::Allow,
        flags: 0,
        mask: 0x6_0001,
        who: Who::Owner,
    },
    Entry {
        kind: EntryKind::Audit,
        flags: 0x20,
        mask: 1,
        who: Who::Everyone,
    },
    Entry {
        kind: EntryKind::Deny,
        flags: 0,
        mask: 2,
        who: Who::User(1002),
    },
];

fn mixed() -> &'static [Entry; 3] {
    &MIXED
}

/// A file of the mixed ACL.
fn mixed_facts() -> ObjectFacts<'static> {
    let mut facts = facts();
    facts.entries = mixed();
    facts
}

/// The numbers of the parts, and the words that are returned of them for the mixed ACL.
static PARTS: [(u32, &[u32]); 2] = [
    (
        58,
        &[
            2,
            0,
            0x0400_0000,
            52,
            0,
            2,
            0,
            0,
            0x6_0001,
            6,
            0x4f57_4e45,
            0x5240_0000,
            1,
            0,
            2,
            4,
            0x3130_3032,
        ],
    ),
    (
        59,
        &[
            2,
            0,
            0x0800_0000,
            36,
            0,
            1,
            2,
            0x20,
            1,
            9,
            0x4556_4552,
            0x594f_4e45,
            0x4000_0000,
        ],
    ),
];

fn cases_of_parts() -> &'static [(u32, &'static [u32])] {
    &PARTS
}

fn is_part(alloc: Global, number: u32, words: &[u32]) -> Result<bool, AllocError> {
    let want = given::bytes_of(alloc, words)?;
    Ok(is_given(alloc, 128, &mixed_facts(), sets::only(number), &want))
}

/// A dacl has the ALLOW and DENY ACEs of the ACL in their order, a sacl the AUDIT and ALARM ACEs; neither has flags.
#[test]
fn parts_of_a_mixed_list(rt: HostRuntime) {
    for (number, words) in cases_of_parts() {
        assert!(rt; is_part(rt.alloc(), *number, words) == Ok(true), "{number}");
    }
}
