//! The values that are returned of an object, attribute by attribute.
use crate::given;
use crate::types::sets;
use acl_list::{Entry, EntryKind, Kind, Who};
use nfs_types::{Bitmap, GivenAttributes, Moment, ObjectFacts, Status};
use std::alloc::{AllocError, Global};
use std::process::Abort;
use who_book::Book;

static LIST: [Entry; 2] = [
    Entry {
        kind: EntryKind::Allow,
        flags: 0,
        mask: 0x1e_0187,
        who: Who::Owner,
    },
    Entry {
        kind: EntryKind::Audit,
        flags: 0x60,
        mask: 1,
        who: Who::GroupOf(100),
    },
];

fn list() -> &'static [Entry; 2] {
    &LIST
}

/// A file of two bytes.
pub fn facts() -> ObjectFacts<'static> {
    ObjectFacts {
        kind: Kind::File,
        number: 2,
        change: 7,
        size: 2,
        error: Status::Ok,
        entries: list(),
        mode: 0o640,
        numlinks: 1,
        owner: 1001,
        group: 100,
        metadata: Moment {
            seconds: -1,
            nanoseconds: 5,
        },
        modify: Moment {
            seconds: 1,
            nanoseconds: 999_999_999,
        },
        access: Moment {
            seconds: 3,
            nanoseconds: 4,
        },
        most_bytes: 1_048_576,
        times: true,
    }
}

/// Each attribute with the words of its value. One that can only be set has none.
static VALUES: [(u32, &[u32]); 36] = [
    (0, &[3, 0xe818_bfff, 0x0cf9_a03a, 0x0000_0800]),
    (1, &[1]),
    (2, &[0]),
    (3, &[0, 7]),
    (4, &[0, 2]),
    (5, &[1]),
    (6, &[1]),
    (7, &[0]),
    (8, &[0, 1, 0, 0]),
    (9, &[1]),
    (10, &[90]),
    (11, &[0]),
    (
        12,
        &[
            2,
            0,
            0,
            0x1e_0187,
            6,
            0x4f57_4e45,
            0x5240_0000,
            2,
            0x60,
            1,
            3,
            0x3130_3000,
        ],
    ),
    (13, &[15]),
    (15, &[1]),
    (19, &[16, 0, 0, 0, 2]),
    (20, &[0, 2]),
    (27, &[0, 0x0010_0000]),
    (29, &[255]),
    (30, &[0, 32_768]),
    (31, &[0, 61_440]),
    (33, &[0x1a0]),
    (35, &[1]),
    (36, &[4, 0x3130_3031]),
    (37, &[3, 0x3130_3000]),
    (45, &[0, 4096]),
    (47, &[0, 3, 4]),
    (48, &[]),
    (51, &[0, 0, 1]),
    (52, &[u32::MAX, u32::MAX, 5]),
    (53, &[0, 1, 999_999_999]),
    (54, &[]),
    (55, &[0, 2]),
    (58, &[0, 1, 0, 0, 0x1e_0187, 6, 0x4f57_4e45, 0x5240_0000]),
    (59, &[0, 1, 2, 0x60, 1, 3, 0x3130_3000]),
    (75, &[0]),
];

fn values() -> &'static [(u32, &'static [u32])] {
    &VALUES
}

/// The set of one number, in words.
fn words_of_only(alloc: Global, number: u32) -> Result<Vec<u8>, AllocError> {
    let bit = 1 << (number % 32);
    match number / 32 {
        0 => given::bytes_of(alloc, &[1, bit]),
        1 => given::bytes_of(alloc, &[2, 0, bit]),
        _ => given::bytes_of(alloc, &[3, 0, 0, bit]),
    }
}

/// An attribute alone: its set, its length and the words of its value.
fn bytes_of_only(alloc: Global, number: u32, words: &[u32]) -> Result<Vec<u8>, AllocError> {
    let mut bytes = words_of_only(alloc, number)?;
    let length = words.len().min(1000) as u32 * 4;
    given::add_words(&mut bytes, &[length])?;
    given::add_words(&mut bytes, words)?;
    Ok(bytes)
}

/// Whether attributes are written as these bytes, and with a byte less of room nothing.
fn is_just(alloc: Global, given: GivenAttributes<'_>, bytes: &[u8]) -> bool {
    let is_written = given::is_written(alloc, 256, given, bytes);
    is_written & given::is_refused(alloc, bytes.len().saturating_sub(1), given)
}

fn is_attribute(
    alloc: Global,
    book: &Book,
    number: u32,
    words: &[u32],
) -> Result<bool, AllocError> {
    let bytes = bytes_of_only(alloc, number, words)?;
    let given = GivenAttributes {
        book,
        facts: &facts(),
        asked: sets::only(number),
    };
    Ok(is_just(alloc, given, &bytes))
}

fn see_each_attribute(rt: &impl Abort, alloc: Global, book: &Book) {
    for (number, words) in values() {
        assert!(rt;
            is_attribute(alloc, book, *number, words) == Ok(true),
            "{number}"
        );
    }
}

/// Each attribute alone, with its set and its length before it; with a byte less of room, nothing.
#[test]
fn each_attribute(rt: HostRuntime) {
    let book = Book::default(rt.alloc());
    see_each_attribute(&rt, rt.alloc(), &book);
}

fn add_values(bytes: &mut Vec<u8>) -> Result<(), AllocError> {
    for (_, words) in values() {
        given::add_words(bytes, words)?;
    }
    Ok(())
}

/// The head, and after it the values of all attributes, in the order of their numbers.
fn all_values(alloc: Global, head: &[u32]) -> Result<Vec<u8>, AllocError> {
    let mut all = given::bytes_of(alloc, head)?;
    add_values(&mut all)?;
    Ok(all)
}

fn with(set: Bitmap, number: u32) -> Bitmap {
    if number < 256 {
        return set.with(number);
    }
    set
}

/// The numbers of all attributes, and of an unsupported one.
fn all_numbers() -> Bitmap {
    let mut asked = sets::only(14);
    for (number, _) in values() {
        asked = with(asked, *number);
    }
    asked
}

/// Whether the requested attributes are written as these bytes.
pub fn is_given(
    alloc: Global,
    room: usize,
    facts: &ObjectFacts<'_>,
    asked: Bitmap,
    want: &[u8],
) -> bool {
    let book = Book::default(alloc);
    let given = GivenAttributes {
        book: &book,
        facts,
        asked,
    };
    given::is_written(alloc, room, given, want)
}

fn is_all(alloc: Global, asked: Bitmap) -> Result<bool, AllocError> {
    let want = all_values(alloc, &[3, 0xe818_bfff, 0x0cf9_a03a, 0x0000_0800, 344])?;
    Ok(is_given(alloc, 1024, &facts(), asked, &want))
}

fn is_within(set: &Bitmap, other: &Bitmap) -> bool {
    set.is_within(other)
}

/// All attributes at once, in the order of their numbers, and none of those that aren't supported.
#[test]
fn all_attributes(rt: HostRuntime) {
    let asked = all_numbers();
    assert!(rt; is_all(rt.alloc(), asked) == Ok(true));
    assert!(rt; is_given(rt.alloc(), 8, &facts(), sets::only(255), &[0; 8]));
    assert!(rt; is_within(&asked, &asked));
    assert!(rt; !is_within(&asked, &Bitmap::supported(false)));
}
