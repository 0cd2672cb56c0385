//! Bytes that are no entries.
use crate::samples::{BOOK, CLIENT_EXPIRED, COUNT, PLAIN, bytes_of, words_of};
use log_entries::{Entries, Entry, count_entries};
use std::alloc::{AllocError, Global};
use std::process::Abort;
use std::test::Fail;

#[test]
fn a_sample_that_is_cut_is_none(rt: HostRuntime) -> Result<(), Fail> {
    let alloc = rt.alloc();
    for at in 0..COUNT {
        let bytes = bytes_of(alloc, words_of(at))?;
        for len in 0..bytes.len() {
            assert!(rt; Entry::read(&bytes[..len]).is_none());
        }
    }
    Ok(())
}

/// Whether words are refused as an entry if one of them is replaced.
fn is_refused(alloc: Global, words: &[u32], at: usize, word: u32) -> Result<bool, AllocError> {
    let mut others = words.to_vec(alloc)?;
    if let Some(other) = others.get_mut(at) {
        *other = word;
    }
    Ok(Entry::read(&bytes_of(alloc, &others)?).is_none())
}

#[test]
fn other_words_are_refused(rt: HostRuntime) -> Result<(), Fail> {
    let alloc = rt.alloc();
    // no type, a billion nanoseconds, a record that is longer than the bytes, no boolean, and bytes of padding
    for kind in [0, 4, 0x0100_0000] {
        assert!(rt; is_refused(alloc, &CLIENT_EXPIRED, 0, kind)?);
    }
    for (at, word) in [
        (3, 1_000_000_000),
        (3, u32::MAX),
        (4, 17),
        (4, u32::MAX),
        (6, 2),
    ] {
        assert!(rt; is_refused(alloc, &PLAIN, at, word)?);
    }
    assert!(rt; is_refused(alloc, &BOOK, 4, 0x730a_0001)?);
    Ok(())
}

#[test]
fn what_is_no_entry_stays(rt: HostRuntime) -> Result<(), Fail> {
    let alloc = rt.alloc();
    let bytes = bytes_of(alloc, &[2, 0, 5, 9])?;
    let mut entries = Entries::new(&bytes);
    assert!(rt; entries.next().is_some());
    assert!(rt; entries.next().is_none() && !entries.is_empty());
    assert!(rt; count_entries(&bytes).is_none());
    Ok(())
}
