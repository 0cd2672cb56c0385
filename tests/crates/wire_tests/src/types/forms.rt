//! Filehandles, stateids, bitmaps and moments, word by word.
use crate::given;
use crate::types::sets;
use nfs_types::{Bitmap, Handle, Moment, StateId, Status};
use std::alloc::{AllocError, Global};
use xdr_wire::XdrFault;

static HANDLES: [(&[u32], Result<u64, Status>); 6] = [
    (&[16, 0, 0, 0, 2], Ok(2)),
    (&[16, 0, 0, 0x8000_0000, 0], Ok(0x8000_0000_0000_0000)),
    (&[16, 0, 1, 0, 2], Err(Status::BadHandle)),
    (&[12, 0, 0, 0], Err(Status::BadHandle)),
    (&[20, 0, 0, 0, 2, 0], Err(Status::BadHandle)),
    (&[0], Err(Status::BadHandle)),
];

fn cases_of_handles() -> &'static [(&'static [u32], Result<u64, Status>)] {
    &HANDLES
}

fn object_of(handle: Handle<'_>) -> Result<u64, Status> {
    handle.object()
}

/// The object of a handle of all these bytes, or the fault of its bytes and how many are left.
fn object_in(bytes: &[u8]) -> Result<Result<u64, Status>, (XdrFault, usize)> {
    match given::read::<Handle>(bytes) {
        (Ok(handle), 0) => Ok(object_of(handle)),
        (Ok(_), left) => Err((XdrFault::TooLong, left)),
        (Err(fault), left) => Err((fault, left)),
    }
}

fn object(alloc: Global, words: &[u32]) -> Option<Result<Result<u64, Status>, (XdrFault, usize)>> {
    match given::bytes_of(alloc, words) {
        Ok(bytes) => Some(object_in(&bytes)),
        Err(_) => None,
    }
}

/// Whether this server's own handle of an object names it, and is written as these words.
fn is_own(alloc: Global, number: u64, words: &[u32]) -> bool {
    let own = Handle::Object(number);
    (object_of(own) == Ok(number)) & given::is_written_as(alloc, 20, own, words)
}

/// Whether a handle of these words names this object, and is written if it is this server's own.
fn is_handle(alloc: Global, words: &[u32], names: Result<u64, Status>) -> bool {
    let is_read = object(alloc, words) == Some(Ok(names));
    match names {
        Ok(number) => is_read & is_own(alloc, number, words),
        Err(_) => is_read,
    }
}

/// Handles that are sent name these objects, and this server's own are written.
#[test]
fn handles(rt: HostRuntime) {
    for (words, names) in cases_of_handles() {
        assert!(rt; is_handle(rt.alloc(), words, *names), "{words:?}");
    }
    assert!(rt; object(rt.alloc(), &[129; 40]) == Some(Err((XdrFault::TooLong, 160))));
}

static STATEIDS: [([u32; 4], bool, Option<u64>); 6] = [
    ([0, 0, 0, 0], true, Some(0)),
    ([u32::MAX; 4], true, None),
    ([u32::MAX, 0, 0, 0], false, Some(0)),
    ([0, u32::MAX, u32::MAX, u32::MAX], false, None),
    ([3, 0, 0, 9], false, Some(9)),
    ([3, 1, 0, 9], false, None),
];

fn cases_of_stateids() -> &'static [([u32; 4], bool, Option<u64>)] {
    &STATEIDS
}

/// Whether a stateid is special, and the number of its open.
fn parts_of(stateid: StateId) -> (bool, Option<u64>) {
    (stateid.is_special(), stateid.open_number())
}

fn stateid_in(bytes: &[u8]) -> Option<StateId> {
    match given::read::<StateId>(bytes) {
        (Ok(stateid), 0) => Some(stateid),
        _ => None,
    }
}

fn stateid(alloc: Global, words: &[u32]) -> Option<StateId> {
    match given::bytes_of(alloc, words) {
        Ok(bytes) => stateid_in(&bytes),
        Err(_) => None,
    }
}

/// Whether a stateid of these words has these parts, and is written as them.
fn is_stateid(alloc: Global, words: &[u32], parts: (bool, Option<u64>)) -> bool {
    match stateid(alloc, words) {
        Some(stateid) => {
            (parts_of(stateid) == parts) & given::is_written_as(alloc, 16, stateid, words)
        }
        None => false,
    }
}

fn open_of(seqid: u32, number: u64) -> Option<u64> {
    StateId::of_open(seqid, number).open_number()
}

/// The special stateids, and the opens of the others.
#[test]
fn stateids(rt: HostRuntime) {
    for (words, special, open) in cases_of_stateids() {
        assert!(rt;
            is_stateid(rt.alloc(), words, (*special, *open)),
            "{words:?}"
        );
    }
    assert!(rt; open_of(3, 9) == Some(9));
    assert!(rt; StateId::closed().seqid == u32::MAX);
    assert!(rt; parts_of(StateId::anonymous()).0);
    assert!(rt; parts_of(StateId::read_bypass()).0);
}

/// A bitmap that is read, and the words as which it is written.
static BITMAPS: [(&[u32], &[u32]); 5] = [
    (&[0], &[0]),
    (&[1, 0], &[0]),
    (&[3, 2, 0, 0], &[1, 2]),
    (&[8, 0, 0, 0, 0, 0, 0, 0, 1], &[8, 0, 0, 0, 0, 0, 0, 0, 1]),
    (
        &[3, 0xe818_3fff, 0x00b0_003a, 0x0000_0800],
        &[3, 0xe818_3fff, 0x00b0_003a, 0x0000_0800],
    ),
];

fn cases_of_bitmaps() -> &'static [(&'static [u32], &'static [u32])] {
    &BITMAPS
}

/// The set of all these bytes, or the fault and how many are left.
fn bitmap_in(bytes: &[u8]) -> Result<Bitmap, (XdrFault, usize)> {
    match given::read::<Bitmap>(bytes) {
        (Ok(bitmap), 0) => Ok(bitmap),
        (Ok(_), left) => Err((XdrFault::TooLong, left)),
        (Err(fault), left) => Err((fault, left)),
    }
}

fn bitmap(alloc: Global, words: &[u32]) -> Result<Result<Bitmap, (XdrFault, usize)>, AllocError> {
    let bytes = given::bytes_of(alloc, words)?;
    Ok(bitmap_in(&bytes))
}

/// Whether a set is read of the words sent, and written as these.
fn is_bitmap(alloc: Global, sent: &[u32], written: &[u32]) -> bool {
    match bitmap(alloc, sent) {
        Ok(Ok(bitmap)) => given::is_written_as(alloc, 64, bitmap, written),
        _ => false,
    }
}

fn fault_of_bitmap(alloc: Global, words: &[u32]) -> Option<(XdrFault, usize)> {
    match bitmap(alloc, words) {
        Ok(bitmap) => bitmap.err(),
        Err(_) => None,
    }
}

fn has(set: &Bitmap, number: u32) -> bool {
    set.has(number)
}

/// Zero words at the end are read and not written, and nine words are too many.
#[test]
fn bitmaps(rt: HostRuntime) {
    for (sent, written) in cases_of_bitmaps() {
        assert!(rt; is_bitmap(rt.alloc(), sent, written), "{sent:?}");
    }
    let nine = fault_of_bitmap(rt.alloc(), &[9, 0, 0, 0, 0, 0, 0, 0, 0, 0]);
    assert!(rt; nine == Some((XdrFault::TooLong, 40)));
    let three = sets::only(33);
    assert!(rt; has(&three, 33));
    for number in [1, 32, 289] {
        assert!(rt; !has(&three, number), "{number}");
    }
}

/// Removing numbers that a set doesn't have, or that no set can have, changes nothing.
#[test]
fn sets_without_numbers(rt: HostRuntime) {
    let set = Bitmap::settable().without(&[12, 58, 3, 300]);
    for number in [4, 33, 36, 37, 59] {
        assert!(rt; has(&set, number), "{number}");
    }
    for number in [3, 12, 58] {
        assert!(rt; !has(&set, number), "{number}");
    }
    assert!(rt; Bitmap::size() == sets::only(4));
}

/// A moment before the epoch.
#[test]
fn moments(rt: HostRuntime) {
    let moment = Moment {
        seconds: -2,
        nanoseconds: 999_999_999,
    };
    let words = [u32::MAX, 0xffff_fffe, 0x3b9a_c9ff];
    assert!(rt; given::is_written_as(rt.alloc(), 12, moment, &words));
}
