//! Entries are written as the words that encode them, and are read again.
use crate::samples::{COUNT, bytes_of, is_same, sample, words_of, written};
use log_entries::{Entries, Entry, call_room, count_entries};
use std::alloc::{AllocError, Global};
use std::process::Abort;
use std::test::Fail;
use xdr_wire::{Spell, Writer};

#[test]
fn each_sample_is_its_words(rt: HostRuntime) -> Result<(), Fail> {
    let alloc = rt.alloc();
    for at in 0..COUNT {
        let entry = sample(at);
        let wanted = bytes_of(alloc, words_of(at))?;
        let room = entry.room();
        assert!(rt; room >= wanted.len() && room <= wanted.len() + 7);
        assert!(rt; written(alloc, &entry, wanted.len())?.as_slice() == wanted.as_slice());
        let Some((read, taken)) = Entry::read(&wanted) else {
            panic!(rt; "no entry");
        };
        assert!(rt; taken == wanted.len() && is_same(&read, &entry));
    }
    Ok(())
}

#[test]
fn a_sample_that_has_no_room_is_not_written(rt: HostRuntime) -> Result<(), Fail> {
    let alloc = rt.alloc();
    for at in 0..COUNT {
        let mut log = Writer::new(alloc, 4 * words_of(at).len() - 1)?;
        assert!(rt; sample(at).write(&mut log).is_err() && log.is_empty());
    }
    Ok(())
}

/// All samples, one after the other.
fn all_samples(alloc: Global) -> Result<Vec<u8>, AllocError> {
    let mut bytes = Vec::new(alloc);
    for at in 0..COUNT {
        bytes.extend_from_slice(&bytes_of(alloc, words_of(at))?)?;
    }
    Ok(bytes)
}

#[test]
fn samples_are_taken_in_turn(rt: HostRuntime) -> Result<(), Fail> {
    let alloc = rt.alloc();
    let bytes = all_samples(alloc)?;
    assert!(rt; count_entries(&bytes) == Some(COUNT) && count_entries(b"") == Some(0));
    let mut entries = Entries::new(&bytes);
    for at in 0..COUNT {
        assert!(rt; !entries.is_empty());
        let Some(entry) = entries.next() else {
            panic!(rt; "no entry");
        };
        assert!(rt; is_same(&entry, &sample(at)));
    }
    assert!(rt; entries.is_empty() && entries.next().is_none());
    Ok(())
}

#[test]
fn room_of_calls(rt: HostRuntime) {
    for (len, room) in [
        (0, 39),
        (5, 44),
        (1_048_576, 1_048_615),
        (usize::MAX, usize::MAX),
    ] {
        assert_eq!(rt; call_room(len), room);
    }
}
