//! Sessions over a store: their effects are found after a crash, and a call that is sent again acts once.

use crate::memory::Time;
use crate::talks::{Disks, Reply, Talk, found_in, serve_talk};
use client_parts::are_same;
use compound_run::Lent;
use nfs_streams::AllEnd;
use std::alloc::{AllocError, Global};
use std::hash::RandomState;
use std::process::Abort;
use std::test::Fail;

/// The call of a COMPOUND by a user, up to the count of its operations: the first word is the call's number, the tenth
/// the user's.
const CALL: [u32; 17] = [0, 0, 2, 100_003, 4, 1, 1, 20, 0, 0, 0, 0, 0, 0, 0, 0, 1];

/// EXCHANGE_ID of the owner `alice`.
const EXCHANGE_ID: [u32; 10] = [1, 42, 0, 7, 5, 0x616c_6963, 0x6500_0000, 0, 0, 0];

/// CREATE_SESSION of client 1, which asks for CREATE_SESSION4_FLAG_PERSIST.
const CREATE_SESSION: [u32; 22] = [
    1, 43, 0, 1, 1, 1, 0, 4096, 4096, 0, 8, 2, 0, 0, 4096, 4096, 0, 2, 1, 0, 0, 0,
];

/// PUTROOTFH, and CREATE of the directory `made`.
const MAKE: [u32; 7] = [24, 6, 2, 4, 0x6d61_6465, 0, 0];

/// PUTROOTFH, and GETATTR of change.
const LOOK: [u32; 4] = [24, 9, 1, 8];

/// PUTROOTFH, and REMOVE of `made`.
const REMOVE: [u32; 4] = [24, 28, 4, 0x6d61_6465];

/// PUTROOTFH, and OPEN of the new file `file`.
const OPEN: [u32; 16] = [
    24,
    18,
    0,
    3,
    0,
    0,
    1,
    1,
    0x6f00_0000,
    1,
    0,
    0,
    0,
    0,
    4,
    0x6669_6c65,
];

/// PUTROOTFH, LOOKUP of `file`, and CLOSE of the open 1.
const CLOSE: [u32; 10] = [24, 15, 4, 0x6669_6c65, 4, 0, 1, 0, 0, 1];

/// The places in the record of a reply: the status of a COMPOUND, and the flags of a CREATE_SESSION that is the only
/// operation.
const STATUS: usize = 28;

const FLAGS: usize = 68;

const OK: u32 = 0;

const NOSPC: u32 = 28;

const SEQ_FALSE_RETRY: u32 = 10_076;

fn word(reply: &Reply, at: usize) -> Option<u32> {
    let [a, b, c, d] = reply.bytes.get(at..at + 4)? else {
        return None;
    };
    Some(u32::from_be_bytes([*a, *b, *c, *d]))
}

fn put(bytes: &mut Vec<u8>, words: &[u32]) -> Result<(), AllocError> {
    for word in words {
        bytes.extend_from_slice(&word.to_be_bytes())?;
    }
    Ok(())
}

/// The record of a call by a user, of these words.
fn record(alloc: Global, xid: u32, uid: u32, compound: &[&[u32]]) -> Result<Vec<u8>, AllocError> {
    let mut call = Vec::from_slice(alloc, &CALL)?;
    call[0] = xid;
    call[10] = uid;
    let mut count = call.len();
    for words in compound {
        count += words.len();
    }
    let mut bytes = Vec::new(alloc);
    put(&mut bytes, &[0x8000_0000 | (4 * count) as u32])?;
    put(&mut bytes, &call)?;
    for words in compound {
        put(&mut bytes, words)?;
    }
    Ok(bytes)
}

/// The words of a COMPOUND on slot 0 of session 1: the count of its operations, and SEQUENCE.
fn sequence(number: u32, count: u32) -> [u32; 10] {
    [1 + count, 53, 0, 0, 0, 1, number, 0, 1, 0]
}

/// A client registers, makes a directory, reads an attribute, removes the directory, opens a new file and closes it.
/// The fourth call changes nothing.
fn calls(alloc: Global) -> Result<Vec<Vec<u8>>, AllocError> {
    let mut calls = Vec::new(alloc);
    calls.push(record(alloc, 1, 0, &[&EXCHANGE_ID])?)?;
    calls.push(record(alloc, 2, 0, &[&CREATE_SESSION])?)?;
    let steps: [(&[u32], u32); 5] = [
        (&MAKE, 2),
        (&LOOK, 2),
        (&REMOVE, 2),
        (&OPEN, 2),
        (&CLOSE, 3),
    ];
    let mut number = 0;
    for (step, count) in steps {
        number += 1;
        calls.push(record(alloc, 2 + number, 0, &[&sequence(number, count), step])?)?;
    }
    Ok(calls)
}

/// A complete talk of all calls.
fn undisturbed<'a>(
    alloc: Global,
    hasher: RandomState,
    time: &'a Time,
    calls: &'a [Vec<u8>],
) -> Result<Talk<'a>, Fail> {
    let mut talk = Talk::new(alloc, time, Disks::new(alloc), calls);
    let end = serve_talk(alloc, hasher, &mut talk, false, 0)?;
    if end != AllEnd::Served || talk.replies.len() != calls.len() {
        return Err(Fail::new("not all calls are answered"));
    }
    Ok(talk)
}

/// CREATE_SESSION4_FLAG_PERSIST is granted. Each call that changes anything is logged before its reply is written: a
/// record and a sync.
#[test]
fn what_is_kept_of_calls(rt: HostRuntime) -> Result<(), Fail> {
    let (alloc, hasher) = (rt.alloc(), RandomState::new(&rt)?);
    let (time, calls) = (Time::new(), calls(alloc)?);
    let talk = undisturbed(alloc, hasher, &time, &calls)?;
    let mut acts = Vec::new(alloc);
    for reply in &talk.replies {
        assert_eq!(rt; word(reply, STATUS), Some(OK));
        assert!(rt; !reply.files.loose);
        acts.push(reply.files.calls)?;
    }
    // the call that changes nothing leaves a second for a mark
    assert_eq!(rt; acts.as_slice(), [2, 4, 6, 6, 10, 12, 14].as_slice());
    assert_eq!(rt; word(&talk.replies[1], FLAGS), Some(1));
    // the sequence ID of the slot in the files, reply by reply
    let mut numbers = Vec::new(alloc);
    for reply in &talk.replies {
        let found = found_in(alloc, hasher, &reply.files)?;
        let clients = found.server().clients();
        numbers.push(clients.kept(1, 0).map_or(0, |kept| kept.number))?;
    }
    assert_eq!(rt; numbers.as_slice(), [0, 0, 1, 1, 3, 4, 5].as_slice());
    Ok(())
}

/// Whether calls that are sent after a start over these files get the replies of the complete talk, and the files have
/// the same state as after it.
fn goes_on(
    alloc: Global,
    hasher: RandomState,
    files: &Disks,
    whole: &Talk<'_>,
    calls: &[Vec<u8>],
    first: usize,
) -> Result<bool, Fail> {
    let time = Time::new();
    let mut talk = Talk::new(alloc, &time, files.copied()?, &calls[first..]);
    serve_talk(alloc, hasher, &mut talk, false, 0)?;
    let mut is_same = talk.replies.len() == calls.len() - first;
    for (reply, wanted) in talk.replies.iter().zip(&whole.replies[first..]) {
        is_same = is_same && reply.bytes.as_slice() == wanted.bytes.as_slice();
    }
    let found = found_in(alloc, hasher, &talk.files)?;
    let wanted = found_in(alloc, hasher, &whole.files)?;
    let (found, wanted) = (found.server(), wanted.server());
    let is_known = are_same(Lent::of(found), Lent::of(wanted));
    let (tree, other) = (found.tree(), wanted.tree());
    let is_tree = tree.next_tick() == other.next_tick()
        && tree.number_after(1) == other.number_after(1)
        && tree.any_after(0).map(|name| name.cookie())
            == other.any_after(0).map(|name| name.cookie());
    Ok(is_same && is_known && is_tree)
}

/// The server is killed just before it writes a reply, and started again. The retry of the call gets the same reply,
/// and the call has acted once. The first call isn't retried, since EXCHANGE_ID has no cached reply.
#[test]
fn a_call_that_is_sent_again_acts_once(rt: HostRuntime) -> Result<(), Fail> {
    let (alloc, hasher) = (rt.alloc(), RandomState::new(&rt)?);
    let (time, calls) = (Time::new(), calls(alloc)?);
    let whole = undisturbed(alloc, hasher, &time, &calls)?;
    for first in 1..calls.len() {
        let files = &whole.replies[first].files;
        assert!(rt;
            goes_on(alloc, hasher, files, &whole, &calls, first)?,
            "{first}"
        );
    }
    // and if the reply was written
    for first in 1..calls.len() {
        let files = &whole.replies[first - 1].files;
        assert!(rt;
            goes_on(alloc, hasher, files, &whole, &calls, first)?,
            "after {first}"
        );
    }
    Ok(())
}

/// A call also acts once if an act of the files fails.
#[test]
fn a_call_whose_record_fails_acts_once(rt: HostRuntime) -> Result<(), Fail> {
    let (alloc, hasher) = (rt.alloc(), RandomState::new(&rt)?);
    let (time, calls) = (Time::new(), calls(alloc)?);
    let whole = undisturbed(alloc, hasher, &time, &calls)?;
    for fails in 3..15u64 {
        let mut talk = Talk::new(alloc, &time, Disks::new(alloc), &calls);
        assert_eq!(rt;
            serve_talk(alloc, hasher, &mut talk, false, fails)?,
            AllEnd::Store
        );
        let first = talk.replies.len();
        assert!(rt; 1 <= first && first < calls.len());
        assert!(rt;
            goes_on(alloc, hasher, &talk.files, &whole, &calls, first)?,
            "{fails}"
        );
    }
    Ok(())
}

/// Another user gets no reply that was cached before a restart.
#[test]
fn a_cached_reply_is_its_callers(rt: HostRuntime) -> Result<(), Fail> {
    let (alloc, hasher) = (rt.alloc(), RandomState::new(&rt)?);
    let (time, calls) = (Time::new(), calls(alloc)?);
    let whole = undisturbed(alloc, hasher, &time, &calls)?;
    let mut other = Vec::new(alloc);
    other.push(record(alloc, 3, 1002, &[&sequence(1, 2), &MAKE])?)?;
    // the same user, with other arguments
    other.push(record(alloc, 4, 0, &[&sequence(1, 2), &REMOVE])?)?;
    let mut talk = Talk::new(alloc, &time, whole.replies[3].files.copied()?, &other);
    serve_talk(alloc, hasher, &mut talk, false, 0)?;
    assert_eq!(rt; talk.replies.len(), 2);
    for reply in &talk.replies {
        assert_eq!(rt; word(reply, STATUS), Some(SEQ_FALSE_RETRY));
    }
    // except for the mark of the start nothing is written
    assert_eq!(rt; talk.files.calls, 2);
    Ok(())
}

/// 64 owners register, and after `silent` seconds of silence one more. Returns its status, and the number of records in
/// the files. The clock of the moments is set ahead by `ahead` when they fall silent.
fn after_silence(
    alloc: Global,
    hasher: RandomState,
    leases: bool,
    silent: u64,
    ahead: i64,
) -> Result<(Option<u32>, usize), Fail> {
    let time = Time::new();
    let mut calls = Vec::new(alloc);
    for owner in 0..65u32 {
        calls.push(record(alloc, owner, 0, &[&[1, 42, 0, 7, 4, owner, 0, 0, 0]])?)?;
    }
    let mut talk = Talk::new(alloc, &time, Disks::new(alloc), &calls);
    talk.silent = silent;
    talk.ahead = ahead;
    serve_talk(alloc, hasher, &mut talk, leases, 0)?;
    let found = found_in(alloc, hasher, &talk.files)?;
    let (records, _) = found.server().clients().counts();
    Ok((
        talk.replies.last().and_then(|reply| word(reply, STATUS)),
        records,
    ))
}

/// 64 owners fill the server. With leases the first of them expires more than 90 seconds after it registered, and so
/// does its record in the store.
#[test]
fn owners_that_vanish_expire(rt: HostRuntime) -> Result<(), Fail> {
    let (alloc, hasher) = (rt.alloc(), RandomState::new(&rt)?);
    assert_eq!(rt;
        after_silence(alloc, hasher, false, 300, 0)?,
        (Some(NOSPC), 64)
    );
    assert_eq!(rt;
        after_silence(alloc, hasher, true, 10, 0)?,
        (Some(NOSPC), 64)
    );
    // all above 32 expire; then the 65th registers, and one more expires
    assert_eq!(rt; after_silence(alloc, hasher, true, 300, 0)?, (Some(OK), 32));
    Ok(())
}

/// The clock of the moments is set by a day, or by a lease. Leases use the clock that only advances.
#[test]
fn leases_are_not_of_the_clock_that_is_set(rt: HostRuntime) -> Result<(), Fail> {
    let (alloc, hasher) = (rt.alloc(), RandomState::new(&rt)?);
    for ahead in [91i64, 86_400, -86_400] {
        let soon = after_silence(alloc, hasher, true, 10, ahead)?;
        assert!(rt; soon == (Some(NOSPC), 64), "{ahead} soon");
        let late = after_silence(alloc, hasher, true, 300, ahead)?;
        assert!(rt; late == (Some(OK), 32), "{ahead} late");
    }
    Ok(())
}

/// The lease of a restored client begins at the start.
#[test]
fn a_restored_client_has_a_lease(rt: HostRuntime) -> Result<(), Fail> {
    let (alloc, hasher) = (rt.alloc(), RandomState::new(&rt)?);
    let time = Time::new();
    let mut first = Vec::new(alloc);
    for owner in 0..64u32 {
        first.push(record(alloc, owner, 0, &[&[1, 42, 0, 7, 4, owner, 0, 0, 0]])?)?;
    }
    let mut talk = Talk::new(alloc, &time, Disks::new(alloc), &first);
    serve_talk(alloc, hasher, &mut talk, true, 0)?;
    let mut last = Vec::new(alloc);
    last.push(record(alloc, 99, 0, &[&[1, 42, 0, 7, 4, 99, 0, 0, 0]])?)?;
    for (silent, status) in [(0, NOSPC), (80, NOSPC), (100, OK)] {
        let later = Time::new();
        for _second in 0..1_000u32 {
            later.go_on();
        }
        let mut again = Talk::new(alloc, &later, talk.files.copied()?, &last);
        again.silent = silent;
        serve_talk(alloc, hasher, &mut again, true, 0)?;
        assert_eq!(rt; again.replies.len(), 1);
        assert_eq!(rt; word(&again.replies[0], STATUS), Some(status), "{silent}");
    }
    Ok(())
}
