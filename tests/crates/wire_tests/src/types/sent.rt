//! Attributes that are sent to be set, and the faults that refuse them.
use crate::given;
use crate::types::sets;
use acl_list::Kind;
use nfs_types::{AttrsFault, Status};
use std::alloc::Global;
use std::process::Abort;
use who_book::Book;

/// Attributes that are sent, and the fault that refuses them.
static REFUSED: [(&str, &[u32], Status); 31] = [
    ("number 14", &[1, 0x4000, 0], Status::AttrNotSupp),
    (
        "number 14 beside type",
        &[1, 0x4002, 0],
        Status::AttrNotSupp,
    ),
    (
        "time_modify_set",
        &[2, 0, 0x0040_0000, 4, 0],
        Status::AttrNotSupp,
    ),
    (
        "number 255",
        &[8, 0, 0, 0, 0, 0, 0, 0, 0x8000_0000, 0],
        Status::AttrNotSupp,
    ),
    ("type", &[1, 0x2, 4, 1], Status::Inval),
    (
        "rdattr_error beside a short size",
        &[1, 0x810, 4, 0],
        Status::Inval,
    ),
    ("a short size", &[1, 0x10, 4, 0], Status::BadXdr),
    ("a long size", &[1, 0x10, 12, 0, 5, 0], Status::BadXdr),
    ("a value of nothing", &[0, 4, 0], Status::BadXdr),
    ("one value of two", &[2, 0x10, 0x2, 8, 0, 5], Status::BadXdr),
    ("padding", &[2, 0, 0x10, 8, 1, 0x3030_0000], Status::BadXdr),
    (
        "a long mode beside an entry of type 4",
        &[2, 0x1000, 0x2, 24, 1, 4, 0, 0, 0, 0x1000],
        Status::AttrNotSupp,
    ),
    (
        "an undefined flag",
        &[1, 0x1000, 20, 1, 0, 0x100, 0, 0],
        Status::Inval,
    ),
    (
        "a who of nobody",
        &[1, 0x1000, 24, 1, 0, 0, 1, 1, 0x7800_0000],
        Status::BadOwner,
    ),
    (
        "a mode of 13 bits and an owner of nobody",
        &[2, 0, 0x12, 12, 0x1000, 1, 0x7800_0000],
        Status::Inval,
    ),
    ("no owner", &[2, 0, 0x10, 4, 0], Status::BadOwner),
    (
        "a leading zero",
        &[2, 0, 0x10, 12, 5, 0x3031_3030, 0x3100_0000],
        Status::BadOwner,
    ),
    (
        "owner 4294967296",
        &[2, 0, 0x10, 16, 10, 0x3432_3934, 0x3936_3732, 0x3936_0000],
        Status::BadOwner,
    ),
    (
        "a group of nobody",
        &[2, 0, 0x20, 8, 1, 0x7800_0000],
        Status::BadOwner,
    ),
    ("no bitmap", &[9, 0], Status::BadXdr),
    (
        "a list beside a sacl",
        &[2, 0x1000, 0x0800_0000, 12, 0, 0, 0],
        Status::Inval,
    ),
    (
        "a list beside a dacl with flags",
        &[2, 0x1000, 0x0400_0000, 12, 0, 1, 0],
        Status::Inval,
    ),
    (
        "a list with an entry of type 4 beside a dacl",
        &[2, 0x1000, 0x0400_0000, 28, 1, 4, 0, 0, 0, 0, 0],
        Status::Inval,
    ),
    (
        "a list beside a short dacl",
        &[2, 0x1000, 0x0400_0000, 8, 0, 0],
        Status::BadXdr,
    ),
    (
        "flags of a dacl, and an undefined flag of its entry",
        &[2, 0, 0x0400_0000, 24, 1, 1, 0, 0x100, 0, 0],
        Status::AttrNotSupp,
    ),
    (
        "an AUDIT entry in a dacl",
        &[2, 0, 0x0400_0000, 28, 0, 1, 2, 0, 1, 1, 0x3700_0000],
        Status::Inval,
    ),
    (
        "an ALLOW entry in a sacl",
        &[2, 0, 0x0800_0000, 28, 0, 1, 0, 0, 1, 1, 0x3700_0000],
        Status::Inval,
    ),
    (
        "a DENY entry in a sacl, and behind it a who of nobody",
        &[
            2,
            0,
            0x0800_0000,
            48,
            0,
            2,
            1,
            0,
            1,
            1,
            0x3700_0000,
            2,
            0,
            1,
            1,
            0x7800_0000,
        ],
        Status::BadOwner,
    ),
    (
        "a mode of 13 bits and flags of a dacl",
        &[2, 0, 0x0400_0002, 12, 0x1000, 1, 0],
        Status::Inval,
    ),
    (
        "a group of nobody and flags of a dacl",
        &[2, 0, 0x0400_0020, 16, 1, 0x7800_0000, 1, 0],
        Status::BadOwner,
    ),
    (
        "an ALARM entry in a dacl and flags of a sacl",
        &[2, 0, 0x0c00_0000, 36, 0, 1, 3, 0, 1, 1, 0x3700_0000, 1, 0],
        Status::Inval,
    ),
];

fn cases_of_refusals() -> &'static [(&'static str, &'static [u32], Status)] {
    &REFUSED
}

fn refusal(alloc: Global, book: &Book, words: &[u32]) -> Option<AttrsFault> {
    match given::bytes_of(alloc, words) {
        Ok(bytes) => sets::refusal(alloc, book, Kind::File, &bytes),
        Err(_) => None,
    }
}

fn see_refusals(rt: &impl Abort, alloc: Global, book: &Book) {
    for (name, words, status) in cases_of_refusals() {
        let found = refusal(alloc, book, words);
        assert!(rt; found == Some(AttrsFault::Refused(*status)), "{name}");
    }
}

/// The first fault over the complete set.
#[test]
fn what_is_refused(rt: HostRuntime) {
    let book = Book::default(rt.alloc());
    see_refusals(&rt, rt.alloc(), &book);
}
