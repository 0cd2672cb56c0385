//! Parts that were changed.

use crate::memory::Memory;
use crate::servers::{
    BOOK, MACHINE, found_picture, journal, parts_in, read_parts, server_of, server_picture,
};
use checkpoint::{CheckpointFault, write_checkpoint};
use std::alloc::{AllocError, Global};
use std::hash::RandomState;
use std::process::Abort;
use std::test::Fail;

/// The parts of a checkpoint, and the picture of its server, which has a book or none.
fn written(
    alloc: Global,
    text: Option<&str>,
    hasher: RandomState,
) -> Result<(Vec<Vec<u8>>, Vec<u8>), Fail> {
    let Some(server) = server_of(alloc, alloc, text, hasher) else {
        return Err(Fail::new("no server"));
    };
    let mut disk = Memory::new(alloc);
    let mut journal = journal();
    if write_checkpoint(&mut disk, alloc, &mut journal, MACHINE, &server).is_err() {
        return Err(Fail::new("it isn't written"));
    }
    let Some(parts) = parts_in(alloc, &mut disk) else {
        return Err(Fail::new("it isn't found"));
    };
    Ok((parts, server_picture(alloc, alloc, &server)?))
}

/// The result of reading parts with a flipped bit.
#[derive(Clone, Copy, Debug, PartialEq, Eq)]
enum Turned {
    Other,
    Same,
    Profile,
    Corrupt,
}

/// Flips a bit, reads the parts, and flips it back. `None`: an allocation failed.
fn turned(
    alloc: Global,
    parts: &mut Vec<Vec<u8>>,
    right: &[u8],
    place: (usize, usize, u8),
) -> Result<Option<Turned>, AllocError> {
    let (part, at, bit) = place;
    parts[part][at] ^= 1 << bit;
    let read = read_parts(alloc, alloc, parts)?;
    parts[part][at] ^= 1 << bit;
    Ok(match read {
        Ok(found) if found_picture(alloc, alloc, &found)?.as_slice() == right => Some(Turned::Same),
        Ok(_) => Some(Turned::Other),
        Err(CheckpointFault::Profile) => Some(Turned::Profile),
        Err(CheckpointFault::Corrupt) => Some(Turned::Corrupt),
        Err(CheckpointFault::Memory) => None,
    })
}

/// Each flipped bit of the head is a profile that doesn't exist, or another book, or corruption.
#[test]
fn each_bit_of_the_head_matters(rt: HostRuntime) -> Result<(), Fail> {
    let alloc = rt.alloc();
    let (mut parts, right) = written(alloc, Some(BOOK), RandomState::new(&rt)?)?;
    for at in 0..parts[0].len() {
        for bit in 0..8u8 {
            let Some(outcome) = turned(alloc, &mut parts, &right, (0, at, bit))? else {
                panic!(rt; "no memory");
            };
            // the profile is the first four bytes, and only the last bit of it leads to another that exists
            let is_unknown = at < 4 && (at, bit) != (3, 0);
            assert_eq!(rt; outcome == Turned::Profile, is_unknown, "{at} {bit}");
            assert!(rt; outcome != Turned::Same, "{at} {bit}");
        }
    }
    Ok(())
}

/// Each flipped bit of another part is corruption, or another state.
#[test]
fn each_bit_matters(rt: HostRuntime) -> Result<(), Fail> {
    let alloc = rt.alloc();
    let (mut parts, right) = written(alloc, None, RandomState::new(&rt)?)?;
    let (mut others, mut corrupt) = (0u32, 0u32);
    for part in 1..parts.len() {
        for at in 0..parts[part].len() {
            for bit in 0..8u8 {
                // the number of the next open is in three parts, and the last one is used
                let is_same_again = part < 3 && at < 8;
                match turned(alloc, &mut parts, &right, (part, at, bit))? {
                    Some(Turned::Other) => others += 1,
                    Some(Turned::Corrupt) => corrupt += 1,
                    Some(Turned::Same) => assert!(rt; is_same_again, "{part} {at} {bit}"),
                    _ => panic!(rt; "{part} {at} {bit}"),
                }
            }
        }
    }
    assert!(rt; others > 0 && corrupt > 0);
    Ok(())
}

/// Parts that are missing, that occur twice, or that have changed places.
#[test]
fn parts_have_their_places(rt: HostRuntime) -> Result<(), Fail> {
    let alloc = rt.alloc();
    let (parts, right) = written(alloc, None, RandomState::new(&rt)?)?;
    for count in 0..parts.len() {
        // the first six are a tree of a root alone, and all but the last leave a file one of two names
        let prefix = read_parts(alloc, alloc, &parts[..count])?;
        let is_corrupt = matches!(prefix, Err(CheckpointFault::Corrupt));
        assert_eq!(rt; is_corrupt, count != 6 && count != 18, "{count}");
    }
    for first in 0..parts.len() {
        for second in first + 1..parts.len() {
            let mut other = parts.clone()?;
            other.swap(first, second);
            let moved = read_parts(alloc, alloc, &other)?;
            match moved {
                // the calls of the two halves of the sessions, or an object and a name of another one
                Ok(found) => {
                    assert!(rt;
                        (first, second) == (2, 3) || (first, second) == (11, 12),
                        "{first} {second}"
                    );
                    assert!(rt; found_picture(alloc, alloc, &found)? == right);
                }
                Err(fault) => assert!(rt; fault == CheckpointFault::Corrupt, "{first} {second}"),
            }
        }
    }
    Ok(())
}

/// A profile that doesn't exist is reported if the head is intact, whatever comes after it.
#[test]
fn another_profile_is_reported_by_the_head(rt: HostRuntime) -> Result<(), Fail> {
    let alloc = rt.alloc();
    let cases: [(&[u8], CheckpointFault); 6] = [
        (&[0, 0, 0, 2, 0, 0, 0, 0], CheckpointFault::Profile),
        (
            &[0, 0, 0, 3, 0, 0, 0, 1, 0, 0, 0, 1, 0xff, 0, 0, 0],
            CheckpointFault::Profile,
        ),
        // the office profile without parts, an incomplete head, a byte too many, no text, and no book
        (&[0, 0, 0, 1, 0, 0, 0, 0], CheckpointFault::Corrupt),
        (&[0, 0, 0, 2, 0, 0, 0], CheckpointFault::Corrupt),
        (&[0, 0, 0, 2, 0, 0, 0, 0, 0], CheckpointFault::Corrupt),
        (
            &[0, 0, 0, 0, 0, 0, 0, 1, 0, 0, 0, 1, 0xff, 0, 0, 0],
            CheckpointFault::Corrupt,
        ),
    ];
    for (head, fault) in cases {
        let mut parts = Vec::new(alloc);
        parts.push(head.to_vec(alloc)?)?;
        let Err(outcome) = read_parts(alloc, alloc, &parts)? else {
            panic!(rt; "it is read");
        };
        assert!(rt; outcome == fault);
        parts.push(b"more".to_vec(alloc)?)?;
        let Err(outcome) = read_parts(alloc, alloc, &parts)? else {
            panic!(rt; "it is read");
        };
        assert!(rt; outcome == fault);
    }
    Ok(())
}
