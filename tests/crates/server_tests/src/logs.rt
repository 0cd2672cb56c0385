//! The log of a hub, and a server that starts by it.

use acl_list::{AclList, Kind};
use acl_shape::{Given, created_permissions};
use compound_run::ClientState;
use log_entries::{CallEntry, Entries, Entry, count_entries};
use nfs_hub::{Hub, ReplayFault, Restart};
use nfs_types::{Limits, Moment};
use node_tree::Tree;
use std::alloc::{AllocError, Global};
use std::hash::RandomState;
use std::test::Fail;
use who_book::Book;

/// The call of a COMPOUND by user 0, in group 0, up to the count of its operations.
const CALL: [u32; 17] = [1, 0, 2, 100_003, 4, 1, 1, 20, 0, 0, 0, 0, 0, 0, 0, 0, 1];

/// EXCHANGE_ID of the owner `alice`, and CREATE_SESSION of client 1, each as the only operation.
const EXCHANGE_ID: [u32; 10] = [1, 42, 0, 7, 5, 0x616c_6963, 0x6500_0000, 0, 0, 0];

const CREATE_SESSION: [u32; 22] = [
    1, 43, 0, 1, 1, 1, 0, 65_536, 65_536, 0, 8, 8, 0, 0, 4_096, 4_096, 0, 2, 1, 0, 0, 0,
];

/// SEQUENCE with sequence ID 1, PUTROOTFH and CREATE of the directory `a`.
const MAKE: [u32; 17] = [
    3,
    53,
    0,
    0,
    0,
    1,
    1,
    0,
    0,
    0,
    24,
    6,
    2,
    1,
    0x6100_0000,
    0,
    0,
];

/// SEQUENCE with sequence ID 2 and PUTROOTFH, which change nothing.
const LOOK: [u32; 10] = [2, 53, 0, 0, 0, 1, 2, 0, 0, 0];

/// SEQUENCE with sequence ID 3, PUTROOTFH and REMOVE of `a`.
const REMOVE: [u32; 14] = [3, 53, 0, 0, 0, 1, 3, 0, 0, 0, 24, 28, 1, 0x6100_0000];

fn record_of(alloc: Global, compound: &[u32]) -> Result<Vec<u8>, AllocError> {
    let len = u32::try_from((CALL.len() + compound.len()) * 4).unwrap_or(0);
    let mut bytes = Vec::from_slice(alloc, &(0x8000_0000 | len).to_be_bytes())?;
    for words in [&CALL[..], compound] {
        for word in words {
            bytes.extend_from_slice(&word.to_be_bytes())?;
        }
    }
    Ok(bytes)
}

fn now() -> Moment {
    Moment {
        seconds: 7,
        nanoseconds: 8,
    }
}

/// Feeds a call on a connection of its own, and returns its reply.
fn replied(alloc: Global, hub: &mut Hub, compound: &[u32]) -> Result<Vec<u8>, Fail> {
    let record = record_of(alloc, compound)?;
    let Ok(conn) = hub.connect() else {
        return Err(Fail::new("no connection"));
    };
    if hub.feed(conn, &record, now()).is_err() {
        return Err(Fail::new("a broken connection"));
    }
    let mut reply = Vec::new(alloc);
    reply.extend_from_slice(hub.pending(conn).unwrap_or(b""))?;
    let _ = hub.close(conn);
    Ok(reply)
}

/// A hub with persistent sessions, which keeps a log and has run four calls; and the reply to MAKE.
fn served(alloc: Global, hasher: RandomState) -> Result<(Hub, Vec<u8>), Fail> {
    let Ok(mut hub) = Hub::lasting(alloc, Limits::standard(), Book::default(alloc), hasher) else {
        return Err(Fail::new("no memory"));
    };
    hub.begin_log();
    replied(alloc, &mut hub, &EXCHANGE_ID)?;
    replied(alloc, &mut hub, &CREATE_SESSION)?;
    let made = replied(alloc, &mut hub, &MAKE)?;
    replied(alloc, &mut hub, &LOOK)?;
    Ok((hub, made))
}

/// A server over a root alone, as a hub begins.
fn restart(alloc: Global, hasher: RandomState) -> Result<Restart, Fail> {
    let given = Given {
        mode: Some(0o755),
        list: None,
    };
    let made = created_permissions(alloc, &AclList::new(alloc), Kind::Directory, given)?;
    let root = Tree::new(alloc, Limits::standard(), 0, 0, made.list, made.high)?;
    match Restart::over(
        alloc,
        alloc,
        root,
        ClientState::nothing(alloc, Limits::standard()),
        Book::default(alloc),
        hasher,
    ) {
        Ok(restart) => Ok(restart),
        Err(_) => Err(Fail::new("no restart")),
    }
}

/// Replays the log of a hub. Returns the number of replayed entries, and the outcome.
fn replay_all(restart: &mut Restart, log: &[u8]) -> (usize, Result<(), ReplayFault>) {
    let mut entries = Entries::new(log);
    let mut count = 0;
    while let Some(entry) = entries.next() {
        if let Err(fault) = restart.replay(&entry) {
            return (count, Err(fault));
        }
        count += 1;
    }
    (count, Ok(()))
}

fn has(hub: &Hub, name: &[u8]) -> bool {
    let tree = hub.server().tree();
    tree.find(tree.root(), name).is_some()
}

/// A call that changed nothing has no entry. What was made exists after a start. The retry gets the cached reply, and
/// the next call is new.
#[test]
fn what_is_logged_is_replayed(rt: HostRuntime) -> Result<(), Fail> {
    let alloc = rt.alloc();
    let hasher = RandomState::new(&rt)?;
    let (hub, made) = served(alloc, hasher)?;
    let log = hub.log().unwrap_or(b"");
    assert!(rt; count_entries(log) == Some(3));
    let mut restart = restart(alloc, hasher)?;
    assert!(rt; replay_all(&mut restart, log) == (3, Ok(())));
    let mut again = Hub::started(alloc, restart);
    assert!(rt; has(&again, b"a") && again.log().is_none());
    assert!(rt; again.server().next_numbers() == hub.server().next_numbers());
    assert!(rt; again.server().guard().total() == 0);
    assert!(rt; replied(alloc, &mut again, &MAKE)? == made);
    replied(alloc, &mut again, &REMOVE)?;
    assert!(rt; !has(&again, b"a"));
    Ok(())
}

/// The log begins again, and an expired client and a book have their entries.
#[test]
fn each_event_has_its_entry(rt: HostRuntime) -> Result<(), Fail> {
    let alloc = rt.alloc();
    let hasher = RandomState::new(&rt)?;
    let (mut hub, _made) = served(alloc, hasher)?;
    hub.begin_log();
    assert!(rt; hub.log() == Some(b""));
    assert!(rt; hub.reload(Book::default(alloc)).is_ok());
    replied(alloc, &mut hub, &REMOVE)?;
    let log = hub.log().unwrap_or(b"");
    let mut entries = Entries::new(log);
    assert!(rt; matches!(entries.next(), Some(Entry::Book(None))));
    assert!(rt; matches!(entries.next(), Some(Entry::Call(_))));
    assert!(rt; entries.is_empty());
    Ok(())
}

/// An entry with another checksum, a call without a session yet, a client that doesn't exist: each differs.
#[test]
fn what_was_not_logged_is_reported(rt: HostRuntime) -> Result<(), Fail> {
    let alloc = rt.alloc();
    let hasher = RandomState::new(&rt)?;
    let (hub, _made) = served(alloc, hasher)?;
    let mut entries = Entries::new(hub.log().unwrap_or(b""));
    let Some(Entry::Call(first)) = entries.next() else {
        return Err(Fail::new("no call"));
    };
    let other = CallEntry {
        checksum: first.checksum ^ 1,
        ..first
    };
    let mut begun = restart(alloc, hasher)?;
    assert!(rt; begun.replay(&Entry::Call(other)) == Err(ReplayFault::Differs));
    let mut begun = restart(alloc, hasher)?;
    entries.next();
    let Some(third) = entries.next() else {
        return Err(Fail::new("no third call"));
    };
    assert!(rt; begun.replay(&third) == Err(ReplayFault::Differs));
    assert!(rt; begun.replay(&Entry::ClientExpired(1)) == Err(ReplayFault::Differs));
    Ok(())
}
