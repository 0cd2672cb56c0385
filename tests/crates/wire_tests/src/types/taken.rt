//! Attributes that are sent and set.
use crate::given;
use crate::types::sets;
use acl_list::Kind;
use nfs_types::{Attrs, AttrsFault, Status};
use std::alloc::{AllocError, Global};
use who_book::Book;

/// Size 5, the ACL (access control list) `A:00:00000001:OWNER@` and `A:08:00000002:7`, mode 0o7777, owner 4294967295,
/// group 0.
static ALL: &[u32] = &[
    2,
    0x1010,
    0x32,
    84,
    0,
    5,
    2,
    0,
    0,
    1,
    6,
    0x4f57_4e45,
    0x5240_0000,
    0,
    8,
    2,
    1,
    0x3700_0000,
    0xfff,
    10,
    0x3432_3934,
    0x3936_3732,
    0x3935_0000,
    1,
    0x3000_0000,
];

fn words_of_all() -> &'static [u32] {
    ALL
}

/// The numbers that are set: the size, the mode, the owner and the group.
fn numbers_of(attrs: &Attrs) -> [Option<u64>; 4] {
    [
        attrs.size,
        attrs.mode.map(u64::from),
        attrs.owner.map(u64::from),
        attrs.group.map(u64::from),
    ]
}

/// The values that sent attributes set on an object: the numbers, and the lengths of the ACL, the dacl and the sacl.
type Set = ([Option<u64>; 4], [Option<usize>; 3]);

fn set_of(attrs: &Attrs) -> Set {
    (numbers_of(attrs), sets::lengths(attrs))
}

fn set_by(alloc: Global, kind: Kind, bytes: &[u8]) -> Result<Set, AttrsFault> {
    let book = Book::default(alloc);
    match sets::attrs(alloc, &book, kind, bytes) {
        Ok(attrs) => Ok(set_of(&attrs)),
        Err(fault) => Err(fault),
    }
}

/// The values that attributes of these words set, or the fault.
fn set(alloc: Global, kind: Kind, words: &[u32]) -> Result<Set, AttrsFault> {
    match given::bytes_of(alloc, words) {
        Ok(bytes) => set_by(alloc, kind, &bytes),
        Err(_) => Err(AttrsFault::Memory),
    }
}

/// All attributes that can be set, and none.
#[test]
fn what_is_taken(rt: HostRuntime) {
    let numbers = [Some(5), Some(0o7777), Some(u64::from(u32::MAX)), Some(0)];
    let on_a_file = set(rt.alloc(), Kind::File, words_of_all());
    assert!(rt; on_a_file == Ok((numbers, [Some(1), None, None])));
    let on_a_directory = set(rt.alloc(), Kind::Directory, words_of_all());
    assert!(rt; on_a_directory == Ok((numbers, [Some(2), None, None])));
    let nothing = set(rt.alloc(), Kind::Link, &[3, 0, 0, 0, 0]);
    assert!(rt; nothing == Ok(([None; 4], [None; 3])));
}

/// The dacl `A:00:00000001:OWNER@`, `D:08:00000002:7` and the sacl `U:20:00000001:EVERYONE@`.
static PARTS: &[u32] = &[
    2,
    0,
    0x0c00_0000,
    88,
    0,
    2,
    0,
    0,
    1,
    6,
    0x4f57_4e45,
    0x5240_0000,
    1,
    8,
    2,
    1,
    0x3700_0000,
    0,
    1,
    2,
    0x20,
    1,
    9,
    0x4556_4552,
    0x594f_4e45,
    0x4000_0000,
];

fn words_of_parts() -> &'static [u32] {
    PARTS
}

/// Whether attributes of these words set the parts alone, and ACLs of these lengths.
fn are_parts(alloc: Global, kind: Kind, words: &[u32], lengths: [Option<usize>; 3]) -> bool {
    let found = set(alloc, kind, words);
    found == Ok(([None; 4], lengths))
}

/// Each part is set without the other, and no ACL with it.
#[test]
fn parts_are_taken(rt: HostRuntime) {
    let words = words_of_parts();
    assert!(rt; are_parts(rt.alloc(), Kind::File, words, [None, Some(1), Some(1)]));
    assert!(rt; are_parts(rt.alloc(), Kind::Directory, words, [None, Some(2), Some(1)]));
    let empty = [2, 0, 0x0400_0000, 8, 0, 0];
    assert!(rt; are_parts(rt.alloc(), Kind::File, &empty, [None, Some(0), None]));
}

/// An INHERIT_ONLY AUDIT ACE, in a dacl.
static INHERITED: &[u32] = &[2, 0, 0x0400_0000, 28, 0, 1, 2, 8, 1, 1, 0x3700_0000];

fn words_of_inherited() -> &'static [u32] {
    INHERITED
}

/// An ACE of the other part is refused if it is set: an INHERIT_ONLY ACE isn't set on a file.
#[test]
fn what_is_left_out_is_of_no_part(rt: HostRuntime) {
    let words = words_of_inherited();
    assert!(rt; are_parts(rt.alloc(), Kind::File, words, [None, Some(0), None]));
    let on_a_directory = set(rt.alloc(), Kind::Directory, words).err();
    assert!(rt; on_a_directory == Some(AttrsFault::Refused(Status::Inval)));
}

fn add_entries(bytes: &mut Vec<u8>, count: u32) -> Result<(), AllocError> {
    for _ in 0..count {
        given::add_words(bytes, &[0, 0, 1, 1, 0x3700_0000])?;
    }
    given::add_words(bytes, &[0, 0, 1, 1, 0x7800_0000])
}

/// A dacl with these flags and `count` ACEs `A:00:00000001:7`, and after them one of nobody.
fn dacl_of(alloc: Global, flags: u32, count: u32) -> Result<Vec<u8>, AllocError> {
    let length = 28u32.saturating_add(count.saturating_mul(20));
    let all = count.saturating_add(1);
    let mut bytes = given::bytes_of(alloc, &[2, 0, 0x0400_0000, length, flags, all])?;
    add_entries(&mut bytes, count)?;
    Ok(bytes)
}

fn fault_of_dacl(alloc: Global, flags: u32, count: u32) -> Option<AttrsFault> {
    match dacl_of(alloc, flags, count) {
        Ok(bytes) => set_by(alloc, Kind::File, &bytes).err(),
        Err(_) => None,
    }
}

/// Flags are refused before the number of ACEs, and that before an ACE.
#[test]
fn parts_of_many_entries(rt: HostRuntime) {
    for (flags, count, status) in [
        (1, 59, Status::AttrNotSupp),
        (0, 59, Status::NoSpc),
        (0, 58, Status::BadOwner),
    ] {
        let found = fault_of_dacl(rt.alloc(), flags, count);
        assert!(rt;
            found == Some(AttrsFault::Refused(status)),
            "{flags} {count}"
        );
    }
}
