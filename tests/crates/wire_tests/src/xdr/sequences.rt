//! Tests of arrays, chains and bitmaps.
use crate::given;
use form_samples::{Bitmap, Listing};
use std::alloc::Global;
use xdr_wire::{Array, Reader, Wire};

/// The first two items and then none, of an array of at most two.
fn two_items(bytes: &[u8]) -> Option<(usize, Option<u32>, Option<u32>, bool)> {
    let mut items = Array::<u32, 2>::read(&mut Reader::new(bytes)).ok()?;
    let len = items.len();
    let first = items.next();
    let second = items.next();
    Some((len, first, second, items.next().is_none()))
}

type ArrayCase = (
    &'static [u8],
    Option<(usize, Option<u32>, Option<u32>, bool)>,
);

static ARRAYS: [ArrayCase; 3] = [
    (
        b"\0\0\0\x02\0\0\0\x07\0\0\0\x08",
        Some((2, Some(7), Some(8), true)),
    ),
    (b"\0\0\0\x03\0\0\0\x07\0\0\0\x08\0\0\0\x09", None),
    (b"\0\0\0\x02\0\0\0\x07", None),
];

fn cases_of_arrays() -> &'static [ArrayCase] {
    &ARRAYS
}

/// A bounded array: its items in order, one above the bound, and one item too few.
#[test]
fn array(rt: HostRuntime) {
    for (bytes, want) in cases_of_arrays() {
        assert!(rt; two_items(bytes) == *want, "array<2> {bytes:?}");
    }
}

/// Whether an array that is read from these bytes is written as them.
fn is_array(alloc: Global, bytes: &[u8]) -> bool {
    match given::read::<Array<u32, 2>>(bytes).0 {
        Ok(items) => given::is_written(alloc, 12, items, bytes),
        Err(_) => false,
    }
}

/// An array that is read is written again.
#[test]
fn array_is_written(rt: HostRuntime) {
    assert!(rt; is_array(rt.alloc(), b"\0\0\0\x02\0\0\0\x07\0\0\0\x08"));
}

/// Two entries by hand, of the cookies 3 and 4 and the names `a` and `bc`, and the end.
static LISTING: &[u8] =
    b"\0\0\0\x01\0\0\0\0\0\0\0\x03\0\0\0\x01a\0\0\0\0\0\0\x01\0\0\0\0\0\0\0\x04\0\0\0\x02bc\0\0\0\0\0\0\0\0\0\x01";

/// The cookies and the lengths of the names, in order.
fn two_entries(bytes: &[u8]) -> Option<((u64, usize), (u64, usize), bool)> {
    let mut listing = Listing::read(&mut Reader::new(bytes)).ok()?;
    let first = listing.entries.next()?;
    let second = listing.entries.next()?;
    let end = listing.entries.next().is_none() && listing.end;
    Some((
        (first.cookie, first.name.bytes.len()),
        (second.cookie, second.name.bytes.len()),
        end,
    ))
}

fn listing_bytes() -> &'static [u8] {
    LISTING
}

/// Whether the listing is refused if it ends after `cut` bytes.
fn is_refused_at(cut: usize) -> bool {
    two_entries(listing_bytes().get(..cut).unwrap_or(b"")).is_none()
}

/// A chain of two entries is read, and is refused if it is cut.
#[test]
fn chain(rt: HostRuntime) {
    assert!(rt; two_entries(listing_bytes()) == Some(((3, 1), (4, 2), true)));
    for cut in 0..48usize {
        assert!(rt; is_refused_at(cut), "cut at {cut}");
    }
}

/// Whether a chain that is read is written again in this room, or nothing of it if the room is too small.
fn is_listing(alloc: Global, room: usize) -> bool {
    match given::read::<Listing>(listing_bytes()).0 {
        Ok(listing) => {
            if room < 48 {
                given::is_refused(alloc, room, listing)
            } else {
                given::is_written(alloc, room, listing, listing_bytes())
            }
        }
        Err(_) => false,
    }
}

/// A chain that is read is written again, or nothing of it.
#[test]
fn chain_is_written(rt: HostRuntime) {
    for room in 0..49usize {
        assert!(rt; is_listing(rt.alloc(), room), "room {room}");
    }
}

/// How many words a bitmap has.
fn words_of(bytes: &[u8]) -> Option<usize> {
    let words = Bitmap::read(&mut Reader::new(bytes)).ok()?;
    Some(words.len())
}

static BITMAPS: [(&[u8], Option<usize>); 5] = [
    (b"\0\0\0\0", Some(0)),
    (b"\0\0\0\x02\0\0\0\0\0\0\0\0", Some(0)),
    (b"\0\0\0\x02\0\0\0\x01\0\0\0\0", Some(1)),
    (b"\0\0\0\x02\0\0\0\0\0\0\0\x01", Some(2)),
    (b"\0\0\0\x09", None),
];

fn cases_of_bitmaps() -> &'static [(&'static [u8], Option<usize>)] {
    &BITMAPS
}

/// A bitmap's zero words at the end are no part of it; nine words are too many.
#[test]
fn bitmap(rt: HostRuntime) {
    for (bytes, want) in cases_of_bitmaps() {
        assert!(rt; words_of(bytes) == *want, "bitmap {bytes:?}");
    }
}
