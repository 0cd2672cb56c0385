//! Samples of entries, and their bytes as words that are written by hand.
use log_entries::{CallEntry, Entry};
use nfs_types::Moment;
use std::alloc::{AllocError, Global};
use xdr_wire::{Opaque, Writer};

/// A call at 1.5 seconds before the epoch, in which an allocation of the operation at place 2 failed.
pub const DELAYED: [u32; 11] = [
    1,
    0xffff_ffff,
    0xffff_fffe,
    500_000_000,
    5,
    0x6361_6c6c,
    0x7300_0000,
    1,
    2,
    0x0102_0304,
    0x0506_0708,
];

/// A call at the last nanosecond of the second 7, of a record of four bytes.
pub const PLAIN: [u32; 9] = [1, 0, 7, 999_999_999, 4, 0x6361_6c6c, 0, 0, 9];

/// The client 2^32 + 3 expired.
pub const CLIENT_EXPIRED: [u32; 3] = [2, 1, 3];

/// A book was loaded.
pub const BOOK: [u32; 5] = [3, 1, 6, 0x7573_6572, 0x730a_0000];

/// The book was removed.
pub const NO_BOOK: [u32; 2] = [3, 0];

/// The number of samples.
pub const COUNT: usize = 5;

/// The words of a sample.
pub fn words_of(sample: usize) -> &'static [u32] {
    match sample {
        0 => &DELAYED,
        1 => &PLAIN,
        2 => &CLIENT_EXPIRED,
        3 => &BOOK,
        _ => &NO_BOOK,
    }
}

fn opaque(bytes: &[u8]) -> Opaque<'_, 0xffff_ffff> {
    match Opaque::new(bytes) {
        Some(item) => item,
        None => Opaque { bytes: b"" },
    }
}

/// A sample.
pub fn sample(sample: usize) -> Entry<'static> {
    match sample {
        0 => Entry::Call(CallEntry {
            now: Moment {
                seconds: -2,
                nanoseconds: 500_000_000,
            },
            bytes: opaque(b"calls"),
            delayed: Some(2),
            checksum: 0x0102_0304_0506_0708,
        }),
        1 => Entry::Call(CallEntry {
            now: Moment {
                seconds: 7,
                nanoseconds: 999_999_999,
            },
            bytes: opaque(b"call"),
            delayed: None,
            checksum: 9,
        }),
        2 => Entry::ClientExpired(0x1_0000_0003),
        3 => Entry::Book(Some(opaque(b"users\n"))),
        _ => Entry::Book(None),
    }
}

/// The bytes of words.
pub fn bytes_of(alloc: Global, words: &[u32]) -> Result<Vec<u8>, AllocError> {
    let mut bytes = Vec::new(alloc);
    for word in words {
        bytes.extend_from_slice(&word.to_be_bytes())?;
    }
    Ok(bytes)
}

/// An entry as written, into `room` bytes.
pub fn written(alloc: Global, entry: &Entry<'_>, room: usize) -> Result<Vec<u8>, AllocError> {
    let mut log = Writer::new(alloc, room)?;
    entry.put(&mut log);
    Ok(log.into_bytes())
}

/// Whether two entries are equal.
pub fn is_same(one: &Entry<'_>, other: &Entry<'_>) -> bool {
    match (one, other) {
        (Entry::Call(one), Entry::Call(other)) => {
            one.now == other.now
                && one.bytes.bytes == other.bytes.bytes
                && one.delayed == other.delayed
                && one.checksum == other.checksum
        }
        (Entry::ClientExpired(one), Entry::ClientExpired(other)) => one == other,
        (Entry::Book(Some(one)), Entry::Book(Some(other))) => one.bytes == other.bytes,
        (Entry::Book(None), Entry::Book(None)) => true,
        _ => false,
    }
}
