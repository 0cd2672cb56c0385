//! A store of a server: the effect of a call is logged before its reply is written, and the store is marked.

use crate::memory::Time;
use crate::talks::{Disks, Talk, serve_talk};
use nfs_streams::AllEnd;
use std::alloc::{AllocError, Global};
use std::hash::RandomState;
use std::process::Abort;
use std::test::Fail;

/// EXCHANGE_ID of the owner `owner`, by root.
const EXCHANGE_ID: [u32; 27] = [
    0x8000_0068,
    1,
    0,
    2,
    100_003,
    4,
    1,
    1,
    20,
    0,
    0,
    0,
    0,
    0,
    0,
    0,
    0,
    1,
    1,
    42,
    0,
    7,
    4,
    0x6f77_6e65,
    0,
    0,
    0,
];

/// A peer that connects, and leaves after one call.
fn call(alloc: Global) -> Result<Vec<Vec<u8>>, AllocError> {
    let mut bytes = Vec::new(alloc);
    for word in EXCHANGE_ID {
        bytes.extend_from_slice(&word.to_be_bytes())?;
    }
    let mut calls = Vec::new(alloc);
    calls.push(bytes)?;
    Ok(calls)
}

/// A record and its sync come before the reply. If a second passes without a record, a mark and its sync follow.
#[test]
fn a_store_is_marked_after_a_second(rt: HostRuntime) -> Result<(), Fail> {
    let (alloc, hasher) = (rt.alloc(), RandomState::new(&rt)?);
    let (time, calls) = (Time::new(), call(alloc)?);
    let mut talk = Talk::new(alloc, &time, Disks::new(alloc), &calls);
    assert_eq!(rt;
        serve_talk(alloc, hasher, &mut talk, false, 0)?,
        AllEnd::Served
    );
    assert_eq!(rt; talk.replies.len(), 1);
    assert_eq!(rt; talk.replies[0].files.calls, 2);
    assert_eq!(rt; talk.files.calls, 4);
    Ok(())
}

/// In the second of the record itself no mark comes, and waits take at most a second then.
#[test]
fn no_mark_comes_in_the_second_of_a_record(rt: HostRuntime) -> Result<(), Fail> {
    let (alloc, hasher) = (rt.alloc(), RandomState::new(&rt)?);
    let (time, calls) = (Time::new(), call(alloc)?);
    let mut talk = Talk::new(alloc, &time, Disks::new(alloc), &calls);
    talk.goes_on = false;
    talk.silent = 3;
    assert_eq!(rt;
        serve_talk(alloc, hasher, &mut talk, false, 0)?,
        AllEnd::Served
    );
    assert_eq!(rt; talk.files.calls, 2);
    assert!(rt; talk.seconds > 0);
    Ok(())
}

/// If the record can't be written or synced serving ends, and no reply was written. The same holds if a mark can't.
#[test]
fn a_disk_that_fails_ends_serving(rt: HostRuntime) -> Result<(), Fail> {
    let (alloc, hasher) = (rt.alloc(), RandomState::new(&rt)?);
    let (time, calls) = (Time::new(), call(alloc)?);
    for (fails, replies) in [(1u64, 0), (2, 0), (3, 1), (4, 1)] {
        let mut talk = Talk::new(alloc, &time, Disks::new(alloc), &calls);
        assert_eq!(rt;
            serve_talk(alloc, hasher, &mut talk, false, fails)?,
            AllEnd::Store
        );
        assert_eq!(rt; talk.files.calls, fails);
        assert_eq!(rt; talk.replies.len(), replies);
    }
    Ok(())
}
