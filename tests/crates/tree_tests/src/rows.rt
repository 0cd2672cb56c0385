//! The demands of operations, and the answers of ACCESS, worked out by hand from RFC 8881, sections 6.2.1.3.1 and 18.1.

use access_rows::{
    Demand, First, Object, Second, entry_demands, first_demands, rights_of, second_demands,
};
use acl_list::Kind;
use nfs_ops::{GetAttrArgs, Op, RenameArgs, SetAttrArgs, StableHow, WriteArgs};
use nfs_types::{Attributes, Bitmap, StateId};
use xdr_wire::Opaque;

const FILE: Object = Object {
    number: 2,
    kind: Kind::File,
};

const ROOM: Object = Object {
    number: 3,
    kind: Kind::Directory,
};

const ATTIC: Object = Object {
    number: 4,
    kind: Kind::Directory,
};

/// One demand on an object, as numbers.
fn asked(demand: Option<Demand>) -> (u64, u64, u32) {
    match demand {
        None => (0, 0, 0),
        Some(Demand::Bits { object, mask }) => (object, 0, mask),
        Some(Demand::Removal { parent, target }) => (parent, target, 0),
        Some(Demand::ServerTime { object }) => (object, 1, 0),
    }
}

/// A WRITE of a number of bytes at an offset of a file of a size, and the bits that it requires.
static WRITES: [(u64, u64, usize, u32); 12] = [
    (0, 0, 0, 0x2),
    (0, 9, 0, 0x2),
    (3, 3, 0, 0x2),
    (0, 0, 1, 0x4),
    (3, 3, 1, 0x4),
    (3, 0, 3, 0x2),
    (3, 2, 1, 0x2),
    (3, 0, 4, 0x6),
    (3, 2, 2, 0x6),
    (3, 4, 1, 0x6),
    (0, 1, 1, 0x6),
    (3, u64::MAX, 4, 0x6),
];

fn writes() -> &'static [(u64, u64, usize, u32)] {
    &WRITES
}

/// The demand of a WRITE of `count` bytes, at most four.
fn write_asks(size: u64, offset: u64, count: usize) -> Option<(u64, u64, u32)> {
    let bytes = [7; 4];
    let op = Op::Write(WriteArgs {
        stateid: StateId::anonymous(),
        offset,
        stable: StableHow::Unstable,
        data: Opaque::new(&bytes[..count.min(4)])?,
    });
    let mut facts = First::of(Some(FILE), None);
    facts.size = Some(size);
    Some(asked(first_demands(&op, &facts)[0]))
}

#[test]
fn writing(rt: HostRuntime) {
    for (size, offset, count, mask) in writes() {
        assert_eq!(rt;
            write_asks(*size, *offset, *count),
            Some((2, 0, *mask)),
            "{size} {offset} {count}"
        );
    }
}

/// A RENAME of `a` to `b`.
fn rename() -> Option<Op<'static>> {
    let (old, new) = (Opaque::new(b"a")?, Opaque::new(b"b")?);
    Some(Op::Rename(RenameArgs { old, new }))
}

/// The demands of a first row on the current object and the saved one.
fn first(op: &Op<'_>, current: Object, saved: Object) -> [(u64, u64, u32); 2] {
    first_demands(op, &First::of(Some(current), Some(saved))).map(asked)
}

/// The demands of the second row, for a child of the saved directory that takes a name of the current one.
fn second(
    op: &Op<'_>,
    (current, saved): (Object, Object),
    child: Object,
    replaced: Option<Object>,
) -> [(u64, u64, u32); 3] {
    let facts = Second {
        current: Some(current),
        saved: Some(saved),
        child: Some(child),
        replaced,
        new_size: None,
    };
    second_demands(op, &facts).map(asked)
}

/// A RENAME of a child onto another, and its demands, each as an object, a target and bits.
#[test]
fn renaming(rt: HostRuntime) {
    let Some(op) = rename() else {
        return assert!(rt; false, "no names");
    };
    let onto = (
        first(&op, ATTIC, ROOM),
        second(&op, (ATTIC, ROOM), FILE, Some(FILE)),
    );
    let within = (
        first(&op, ROOM, ROOM),
        second(&op, (ROOM, ROOM), ATTIC, None),
    );
    assert_eq!(rt;
        onto,
        (
            [(3, 0, 0x20), (4, 0, 0x20)],
            [(3, 2, 0), (4, 0, 0x2), (4, 2, 0)]
        )
    );
    assert_eq!(rt;
        within,
        (
            [(3, 0, 0x20), (0, 0, 0)],
            [(3, 4, 0), (3, 0, 0x4), (0, 0, 0)]
        )
    );
}

/// The attributes that are requested of an entry, and the demands.
static LISTED: [(&[u32], [(u64, u64, u32); 2]); 3] = [
    (&[33, 12], [(2, 0, 0x80), (2, 0, 0x2_0000)]),
    (&[59], [(0, 0, 0), (2, 0, 0x2_0000)]),
    (&[20], [(0, 0, 0), (0, 0, 0)]),
];

fn listed() -> &'static [(&'static [u32], [(u64, u64, u32); 2])] {
    &LISTED
}

fn set_of(numbers: &[u32]) -> Bitmap {
    let mut set = Bitmap::empty();
    for number in numbers {
        set = set.with(*number.min(&255));
    }
    set
}

fn listing_asks(numbers: &[u32]) -> [(u64, u64, u32); 2] {
    entry_demands(&set_of(numbers), Some(FILE)).map(asked)
}

/// An entry of READDIR requires READ_ATTRIBUTES and then READ_ACL if mode and acl are requested. For sacl it requires
/// READ_ACL alone, and for fileid nothing.
#[test]
fn listing(rt: HostRuntime) {
    for (numbers, demands) in listed() {
        assert_eq!(rt; listing_asks(numbers), *demands, "{numbers:?}");
    }
}

/// An attribute, and the bits that GETATTR and SETATTR of it alone require.
static ATTRIBUTES: [(u32, u32, u32); 8] = [
    (12, 0x2_0000, 0x4_0000),
    (20, 0, 0),
    (33, 0x80, 0x4_0000),
    (36, 0x80, 0x8_0000),
    (37, 0x80, 0x8_0000),
    (57, 0, 0),
    (58, 0x2_0000, 0x4_0000),
    (59, 0x2_0000, 0x4_0000),
];

fn attributes() -> &'static [(u32, u32, u32)] {
    &ATTRIBUTES
}

/// The bits that an operation requires of the file.
fn bits_of(op: &Op<'_>) -> u32 {
    let facts = First::of(Some(FILE), None);
    let (_, _, mask) = asked(first_demands(op, &facts)[0]);
    mask
}

/// The bits that GETATTR and SETATTR of an attribute alone require.
fn reading_and_setting_asks(number: u32) -> Option<(u32, u32)> {
    let set = Bitmap::empty().with(number.min(255));
    let get = Op::GetAttr(GetAttrArgs { asked: set });
    let put = Op::SetAttr(SetAttrArgs {
        stateid: StateId::anonymous(),
        attributes: Attributes {
            set,
            values: Opaque::new(b"")?,
        },
    });
    Some((bits_of(&get), bits_of(&put)))
}

/// An ACL (access control list) and its parts are read by READ_ACL. They are set, as a mode is, by WRITE_ACL.
#[test]
fn reading_and_setting(rt: HostRuntime) {
    for (number, reading, setting) in attributes() {
        let found = reading_and_setting_asks(*number);
        assert_eq!(rt; found, Some((*reading, *setting)), "{number}");
    }
}

/// An object type, the requested permissions, the granted bits, and the two words of ACCESS.
static RIGHTS: [(Kind, u32, u32, u32, u32); 6] = [
    (Kind::File, 0xffff_ffff, 0xffff_ffff, 0x2d, 0x2d),
    (Kind::Directory, 0xffff_ffff, 0xffff_ffff, 0x1f, 0x1f),
    (Kind::Link, 0xffff_ffff, 0xffff_ffff, 0x01, 0x01),
    (Kind::File, 0x3f, 0x21, 0x2d, 0x21),
    (Kind::Directory, 0x3f, 0x62, 0x1f, 0x16),
    (Kind::File, 0, 0xffff_ffff, 0, 0),
];

fn rights() -> &'static [(Kind, u32, u32, u32, u32)] {
    &RIGHTS
}

fn words_of(kind: Kind, asks: u32, grants: u32) -> (u32, u32) {
    let outcome = rights_of(kind, asks, grants);
    (outcome.supported, outcome.granted)
}

#[test]
fn reporting(rt: HostRuntime) {
    for (kind, asks, grants, supported, granted) in rights() {
        assert_eq!(rt;
            words_of(*kind, *asks, *grants),
            (*supported, *granted),
            "{kind:?} {asks:x}"
        );
    }
}
