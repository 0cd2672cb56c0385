//! Access control lists (ACLs) that are sent, over each size of a heap.
use crate::given;
use crate::types::sets;
use acl_list::Kind;
use linked_list_allocator::LocalHeap;
use nfs_types::{AttrsFault, Status};
use std::alloc::{AllocError, Global};
use std::process::Abort;
use who_book::Book;

/// The lengths of the ACL, the dacl and the sacl that are set over the heap, or the fault.
fn lengths(heap: &LocalHeap, book: &Book, bytes: &[u8]) -> Result<[Option<usize>; 3], AttrsFault> {
    match sets::attrs(heap, book, Kind::File, bytes) {
        Ok(attrs) => Ok(sets::lengths(&attrs)),
        Err(fault) => Err(fault),
    }
}

/// The outcome of sent attributes over a heap of this size: the lengths of their ACLs, or the fault; and whether a byte
/// of the heap stays allocated.
fn lengths_at(
    alloc: Global,
    book: &Book,
    bytes: &[u8],
    size: usize,
) -> (Result<[Option<usize>; 3], AttrsFault>, bool) {
    match LocalHeap::new(alloc, size) {
        Ok(heap) => {
            let lengths = lengths(&heap, book, bytes);
            (lengths, heap.used() > 0)
        }
        Err(_) => (Err(AttrsFault::Memory), true),
    }
}

/// Whether the ACLs are allocated over a heap of this size, with these lengths, or none is.
fn is_whole(
    alloc: Global,
    book: &Book,
    good: &[u8],
    want: [Option<usize>; 3],
    size: usize,
) -> Option<bool> {
    match lengths_at(alloc, book, good, size) {
        (Ok(lengths), false) => { if lengths == want { Some(true) } else { None } }
        (Err(AttrsFault::Memory), false) => Some(false),
        _ => None,
    }
}

fn is_refused(alloc: Global, book: &Book, bad: &[u8], size: usize) -> bool {
    lengths_at(alloc, book, bad, size) == (Err(AttrsFault::Refused(Status::Inval)), false)
}

/// Checks each size of a heap: ACLs of these lengths are complete or an allocation fails, and a bad value is refused.
fn see_sizes(
    rt: &impl Abort,
    alloc: Global,
    (good, want): (&[u8], [Option<usize>; 3]),
    bad: &[u8],
) {
    let book = Book::default(alloc);
    let mut made = 0u32;
    for size in 0..512usize {
        let is_made = is_whole(alloc, &book, good, want, size);
        assert!(rt; is_made.is_some(), "at {size}");
        assert!(rt; is_refused(alloc, &book, bad, size), "bad at {size}");
        if is_made == Some(true) {
            made = made.saturating_add(1);
        }
    }
    assert!(rt; made > 50 && made < 492, "made {made}");
}

fn see_words(
    rt: &impl Abort,
    alloc: Global,
    (good, want): (&[u32], [Option<usize>; 3]),
    bad: &[u32],
) -> Result<(), AllocError> {
    let good = given::bytes_of(alloc, good)?;
    let bad = given::bytes_of(alloc, bad)?;
    see_sizes(rt, alloc, (&good, want), &bad);
    Ok(())
}

/// Over each size of a heap the ACL is complete, or an allocation fails. A fault after it is returned at every size.
#[test]
fn memory_is_refused(rt: HostRuntime) {
    let good = [1, 0x1000, 24, 1, 0, 0, 1, 1, 0x3700_0000];
    let bad = [2, 0x1000, 0x2, 28, 1, 0, 0, 1, 1, 0x3700_0000, 0x1000];
    let seen = see_words(&rt, rt.alloc(), (&good, [Some(1), None, None]), &bad);
    assert!(rt; seen.is_ok());
}

/// A dacl of an ALLOW ACE, and a sacl of an AUDIT one.
static PARTS: &[u32] = &[
    2,
    0,
    0x0c00_0000,
    56,
    0,
    1,
    0,
    0,
    1,
    1,
    0x3700_0000,
    0,
    1,
    2,
    0,
    1,
    1,
    0x3700_0000,
];

/// A dacl and a sacl of an ALLOW ACE.
static BAD_PARTS: &[u32] = &[
    2,
    0,
    0x0c00_0000,
    56,
    0,
    1,
    0,
    0,
    1,
    1,
    0x3700_0000,
    0,
    1,
    0,
    0,
    1,
    1,
    0x3700_0000,
];

fn words_of_parts() -> (&'static [u32], &'static [u32]) {
    (PARTS, BAD_PARTS)
}

/// Over each size of a heap both parts are complete, or an allocation for one fails. A fault of the second is returned
/// at every size.
#[test]
fn memory_for_parts_is_refused(rt: HostRuntime) {
    let (good, bad) = words_of_parts();
    let seen = see_words(&rt, rt.alloc(), (good, [None, Some(1), Some(1)]), bad);
    assert!(rt; seen.is_ok());
}
