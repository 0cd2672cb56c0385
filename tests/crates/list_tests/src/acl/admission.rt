//! Access control lists (ACLs) that clients send.

use crate::acl::entries::{allow, audit, deny, entry};
use AdmitFault::{AttrNotSupp, BadOwner, Inval};
use Who::{Everyone, Group, GroupOf, Owner};
use acl_list::{AclList, Entry, Kind, Who};
use acl_shape::{AdmitFault, Raw, admit};
use std::alloc::Global;

macro_rules! raw {
    ($kind:expr, $flags:expr, $mask:expr, $who:expr) => {
        Raw {
            kind: $kind,
            flags: $flags,
            mask: $mask,
            who: $who,
        }
    };
}

static ASKED: [Raw; 4] = [
    raw!(0, 0xf7, 0x1f07ff, Some(Owner)),
    raw!(1, 0x0b, 0x01, Some(GroupOf(7))),
    raw!(2, 0x20, 0x02, Some(Everyone)),
    raw!(0, 0x43, 0, Some(GroupOf(7))),
];

const ON_A_DIRECTORY: &[Entry] = &[
    allow!(0xf7, 0x1f07ff, Owner),
    deny!(0x0b, 0x01, GroupOf(7)),
    audit!(0x20, 0x02, Everyone),
    allow!(0x43, 0, GroupOf(7)),
];

const ON_A_FILE: &[Entry] = &[
    allow!(0xf0, 0x1f07ff, Owner),
    audit!(0x20, 0x02, Everyone),
    allow!(0x40, 0, GroupOf(7)),
];

static ONE_ASKED: [Raw; 1] = [raw!(1, 0x0b, 0x01, Some(GroupOf(7)))];

/// Object types, the ACL that is set on an object of each type, and the number of ACEs that an ACL of one INHERIT_ONLY
/// ACE has then.
static TAKEN: [(Kind, &[Entry], usize); 3] = [
    (Kind::Directory, ON_A_DIRECTORY, 1),
    (Kind::File, ON_A_FILE, 0),
    (Kind::Link, ON_A_FILE, 0),
];

fn taken() -> &'static [(Kind, &'static [Entry], usize)] {
    &TAKEN
}

/// The two ACLs that are sent.
fn asked() -> (&'static [Raw], &'static [Raw]) {
    (&ASKED, &ONE_ASKED)
}

/// The ACL, without the contract of the function that makes it.
fn admitted(alloc: Global, raws: &[Raw], kind: Kind) -> Result<AclList, AdmitFault> {
    admit(alloc, raws, kind)
}

fn is_taken(alloc: Global, raws: &[Raw], kind: Kind, want: &[Entry]) -> bool {
    match admitted(alloc, raws, kind) {
        Ok(list) => list.as_slice() == want,
        Err(_) => false,
    }
}

fn length_of(alloc: Global, raws: &[Raw], kind: Kind) -> Option<usize> {
    match admitted(alloc, raws, kind) {
        Ok(list) => Some(list.len()),
        Err(_) => None,
    }
}

/// A directory gets the ACL as sent, a file or a link without INHERIT_ONLY ACEs and inheritance flags.
#[test]
fn lists_that_are_taken(rt: HostRuntime) {
    let (four, one) = asked();
    for (kind, want, inherited) in taken() {
        assert!(rt; is_taken(rt.alloc(), four, *kind, want), "{kind:?}");
        assert!(rt;
            length_of(rt.alloc(), one, *kind) == Some(*inherited),
            "{kind:?}"
        );
    }
}

static REFUSED: [(&str, &[Raw], AdmitFault); 12] = [
    (
        "type 4",
        &[raw!(0, 0, 1, Some(Owner)), raw!(4, 0, 1, Some(Owner))],
        AttrNotSupp,
    ),
    (
        "type 2^32 - 1",
        &[raw!(u32::MAX, 0, 1, Some(Owner))],
        AttrNotSupp,
    ),
    ("flag 0x100", &[raw!(0, 0x100, 1, Some(Owner))], Inval),
    ("mask bit 0x800", &[raw!(0, 0, 0x801, Some(Owner))], Inval),
    ("mask bit 0x8000", &[raw!(0, 0, 0x8000, Some(Owner))], Inval),
    (
        "mask bit 0x200000",
        &[raw!(0, 0, 0x200000, Some(Owner))],
        Inval,
    ),
    ("nobody", &[raw!(0, 0, 1, None)], BadOwner),
    (
        "all of it in one entry",
        &[raw!(4, 0x100, 0x800, None)],
        AttrNotSupp,
    ),
    ("a flag and nobody", &[raw!(3, 0x100, 1, None)], Inval),
    (
        "nobody, then type 4",
        &[raw!(0, 0, 1, None), raw!(4, 0, 1, None)],
        BadOwner,
    ),
    (
        "a mask, then nobody",
        &[raw!(1, 0, 0x800, Some(Group)), raw!(0, 0, 1, None)],
        Inval,
    ),
    (
        "nobody in an entry to be inherited",
        &[raw!(0, 0x0b, 1, None)],
        BadOwner,
    ),
];

fn refused() -> &'static [(&'static str, &'static [Raw], AdmitFault)] {
    &REFUSED
}

fn refusal(alloc: Global, raws: &[Raw], kind: Kind) -> Option<AdmitFault> {
    match admitted(alloc, raws, kind) {
        Ok(_) => None,
        Err(fault) => Some(fault),
    }
}

static MANY: [Raw; 60] = [raw!(9, 0x0b, u32::MAX, None); 60];

fn many() -> &'static [Raw] {
    &MANY
}

/// The first fault is returned: of the count, then of the first ACE that has one. Of an ACE the fault of its type comes
/// first, then of its flags and mask, then of its principal.
#[test]
fn lists_that_are_refused(rt: HostRuntime) {
    for (name, raws, fault) in refused() {
        assert!(rt;
            refusal(rt.alloc(), raws, Kind::File) == Some(*fault),
            "{name}, a file"
        );
        assert!(rt;
            refusal(rt.alloc(), raws, Kind::Directory) == Some(*fault),
            "{name}, a directory"
        );
    }
    let too_many = Some(AdmitFault::NoSpc);
    assert!(rt; refusal(rt.alloc(), many(), Kind::Directory) == too_many);
    assert!(rt; refusal(rt.alloc(), many(), Kind::Link) == too_many);
}
