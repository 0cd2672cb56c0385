//! Single changes, by hand from the standard.

use crate::tree::acting::Outcome;
use crate::tree::acting::Outcome::{Absent, Bytes, Changed, Done, Entry, Is, Made, Refused};
use crate::tree::steps::Look::{Parent, Size, Stamp, Times};
use crate::tree::steps::Step::{
    After, Create, Link, Mkdir, Read, Rename, Resize, See, SetList, SetOwner, Unlink, Write,
};
use crate::tree::steps::{Step, sample, walk, walk_sample};
use node_tree::Tree;
use node_tree::TreeFault::{Exist, FBig, Inval, NoEnt, NotEmpty};
use std::alloc::Global;
use std::process::Abort;

const GAPS: &[(Step, Outcome)] = &[
    (Resize(2, 1), Done),
    (Write(2, 4095, b"xy"), Done),
    (Resize(2, 4096), Done),
    (Resize(2, 4097), Done),
    (Read(2, 0), Bytes(4, [b'h', 0, 0, 0])),
    (Read(2, 4094), Bytes(3, [0, b'x', 0, 9])),
    (Read(2, 4097), Bytes(0, [9, 9, 9, 9])),
];

/// Zeros are between the end and the data, and after an end that was cut.
#[test]
fn gaps_are_zeros(rt: HostRuntime) {
    walk_sample(&rt, rt.alloc(), GAPS);
}

const OVER_A_BORDER: &[(Step, Outcome)] = &[
    (Resize(2, 0), Done),
    (Write(2, 0, b"a"), Done),
    (Write(2, 4095, b"xy"), Done),
];

/// The content of a buffer of nines after a read over the border of two blocks.
fn byte_at(place: usize) -> u8 {
    match place {
        0 => b'a',
        4095 => b'x',
        4096 => b'y',
        4097 => 9,
        _ => 0,
    }
}

fn see_byte(rt: &impl Abort, place: usize, byte: u8) {
    assert_eq!(rt; byte, byte_at(place), "at {place}");
}

/// Checks the first bytes of `notes`: `a`, zeros, `xy` over the border of two blocks, and nothing after that.
fn see_border(rt: &impl Abort, tree: &Tree<Global>) {
    let mut bytes = [9u8; 4098];
    assert_eq!(rt; tree.read(2, 0, &mut bytes), 4097);
    for (place, byte) in bytes.iter().enumerate() {
        see_byte(rt, place, *byte);
    }
}

const GROWN_AND_GONE: &[(Step, Outcome)] = &[
    (Resize(2, 4096), Done),
    (Resize(2, 4097), Done),
    (Write(2, 1_048_575, b"z"), Done),
    (Write(2, 1_048_576, b"z"), Refused(FBig)),
    (Read(2, 4095), Bytes(4, [b'x', 0, 0, 0])),
    (Read(2, 1_048_574), Bytes(2, [0, b'z', 9, 9])),
    (Unlink(1, b"notes"), Done),
    (Create(1, b"notes"), Made(4)),
    (See(Size, 2), Absent),
];

fn go_over_a_border(rt: &impl Abort, alloc: Global, tree: &mut Tree<Global>) {
    walk(rt, alloc, tree, OVER_A_BORDER);
    see_border(rt, tree);
    walk(rt, alloc, tree, GROWN_AND_GONE);
}

/// Each byte of a file over the border of two blocks is checked. The bytes that a cut removed are zero. The number of a
/// removed file stays free.
#[test]
fn a_file_goes_over_a_border(rt: HostRuntime) {
    let mut tree = sample(&rt, rt.alloc());
    go_over_a_border(&rt, rt.alloc(), &mut tree);
}

const LAST_NAMES: &[(Step, Outcome)] = &[
    (Link(3, b"b", 2), Done),
    (Unlink(1, b"notes"), Done),
    (Unlink(1, b"pub"), Refused(NotEmpty)),
    (Unlink(3, b"b"), Done),
    (Unlink(3, b"b"), Refused(NoEnt)),
    (Create(1, b"notes"), Made(4)),
    (Create(1, b"notes"), Refused(Exist)),
    (See(Times, 1), Changed(7, 7)),
    (See(Times, 2), Absent),
    (See(Times, 3), Changed(6, 6)),
    (After(1, 0), Entry(4, 3)),
    (After(1, 4), Entry(6, 4)),
];

/// An object is removed with its last name, and its number is never another's.
#[test]
fn objects_go_with_their_last_name(rt: HostRuntime) {
    walk_sample(&rt, rt.alloc(), LAST_NAMES);
}

const MOVES: &[(Step, Outcome)] = &[
    (Mkdir(3, b"d"), Made(4)),
    (Mkdir(1, b"e"), Made(5)),
    (Rename(1, b"none", 3, b"x"), Refused(NoEnt)),
    (Rename(1, b"pub", 3, b"x"), Refused(Inval)),
    (Rename(1, b"pub", 4, b"x"), Refused(Inval)),
    (Rename(1, b"e", 1, b"pub"), Refused(Exist)),
    (Rename(1, b"notes", 1, b"e"), Refused(Exist)),
    (Rename(1, b"e", 1, b"notes"), Refused(Exist)),
    (Rename(1, b"pub", 1, b"pub"), Done),
    (Rename(1, b"e", 3, b"d"), Done),
    (Rename(1, b"notes", 5, b"n"), Done),
    (See(Times, 1), Changed(7, 7)),
    (See(Times, 2), Changed(0, 7)),
    (See(Times, 3), Changed(6, 6)),
    (See(Times, 4), Absent),
    (See(Times, 5), Changed(7, 7)),
    (After(3, 0), Entry(7, 5)),
    (After(5, 0), Entry(8, 2)),
    (After(1, 3), Entry(4, 3)),
    (See(Parent, 5), Is(3)),
    (See(Parent, 1), Absent),
    (See(Parent, 2), Absent),
];

/// The rows of the table of `rename`. By tick 6 only the directory that replaced another was changed.
#[test]
fn names_change_or_are_refused(rt: HostRuntime) {
    walk_sample(&rt, rt.alloc(), MOVES);
}

const STAMPS: &[(Step, Outcome)] = &[
    (Link(3, b"b", 2), Done),
    (SetList(2), Done),
    (See(Stamp, 2), Is(4)),
    (SetOwner(2, 5, 6), Done),
    (See(Stamp, 2), Is(5)),
    (See(Times, 1), Changed(0, 0)),
    (See(Times, 2), Changed(0, 6)),
];

/// The ACL (access control list) of an object doesn't depend on the name. ACL and owner take a stamp each, and the
/// object has the later one.
#[test]
fn lists_and_owners_take_stamps(rt: HostRuntime) {
    walk_sample(&rt, rt.alloc(), STAMPS);
}
