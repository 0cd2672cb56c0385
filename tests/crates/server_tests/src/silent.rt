//! Clients that are silent, and which of them expire.

use nfs_hub::{ConnId, Hub};
use nfs_types::Moment;
use std::alloc::{AllocError, Global};
use std::hash::RandomState;
use std::test::Fail;
use who_book::Book;

/// The most records of clients that a server has.
const MOST: u32 = 64;

/// NFS4_OK and NFS4ERR_NOSPC.
const OK: u32 = 0;

const NOSPC: u32 = 28;

/// The place of a COMPOUND's status in the record of its reply.
const STATUS: usize = 28;

fn at(seconds: i64) -> Moment {
    Moment {
        seconds,
        nanoseconds: 0,
    }
}

/// EXCHANGE_ID of the owner of a number, as the only operation of its COMPOUND, by user 0.
fn exchange_id(alloc: Global, owner: u32) -> Result<Vec<u8>, AllocError> {
    let call = [1, 0, 2, 100_003, 4, 1];
    let caller = [1, 20, 0, 0, 0, 0, 0, 0, 0];
    let compound = [0, 1, 1, 42];
    let verifier = [0, 7];
    let last = [4, owner, 0, 0, 0];
    let mut record = Vec::new(alloc);
    for words in [
        &call[..],
        &caller[..],
        &compound[..],
        &verifier[..],
        &last[..],
    ] {
        for word in words {
            record.extend_from_slice(&word.to_be_bytes())?;
        }
    }
    let mark = 0x8000_0000 | u32::try_from(record.len()).unwrap_or(0);
    let mut bytes = Vec::from_slice(alloc, &mark.to_be_bytes())?;
    bytes.extend_from_slice(&record)?;
    Ok(bytes)
}

/// The status of an EXCHANGE_ID of this owner in this second.
fn exchange(
    alloc: Global,
    hub: &mut Hub,
    conn: ConnId,
    owner: u32,
    second: i64,
) -> Result<Option<u32>, Fail> {
    let record = exchange_id(alloc, owner)?;
    hub.feed(conn, &record, at(second))?;
    let mut reply = [0u8; 256];
    let len = hub.take_out(conn, &mut reply)?;
    let Some([a, b, c, d]) = reply[..len].get(STATUS..STATUS + 4) else {
        return Ok(None);
    };
    Ok(Some(u32::from_be_bytes([*a, *b, *c, *d])))
}

/// A hub with `count` clients. The lease of the first is renewed in second 1,000, and that of each other one a second
/// after the one before.
fn known(alloc: Global, hasher: RandomState, count: u32) -> Result<(Hub, ConnId), Fail> {
    let mut hub = Hub::new(alloc, Book::default(alloc), hasher)?;
    let conn = hub.connect()?;
    for owner in 0..count {
        let replayed = exchange(alloc, &mut hub, conn, owner, 1_000 + i64::from(owner))?;
        if replayed != Some(OK) {
            return Err(Fail::new("a client isn't known"));
        }
    }
    Ok((hub, conn))
}

/// The most silent client expires more than 90 seconds after its lease was renewed, and one client at a time.
#[test]
fn the_most_silent_one_expires(rt: HostRuntime) -> Result<(), Fail> {
    let (mut hub, conn) = known(rt.alloc(), RandomState::new(&rt)?, MOST)?;
    assert_eq!(rt;
        exchange(rt.alloc(), &mut hub, conn, 99, 1_090)?,
        Some(NOSPC)
    );
    assert_eq!(rt; hub.expire_client(at(1_090)), None);
    assert_eq!(rt; hub.expire_client(at(1_091)), Some(1));
    assert_eq!(rt; hub.expire_client(at(1_091)), None);
    assert_eq!(rt; exchange(rt.alloc(), &mut hub, conn, 99, 1_091)?, Some(OK));
    assert_eq!(rt; hub.expire_client(at(1_092)), Some(2));
    Ok(())
}

/// A client whose lease was renewed again isn't the most silent one.
#[test]
fn one_whose_lease_is_renewed_stays(rt: HostRuntime) -> Result<(), Fail> {
    let (mut hub, conn) = known(rt.alloc(), RandomState::new(&rt)?, 40)?;
    assert_eq!(rt; exchange(rt.alloc(), &mut hub, conn, 0, 1_080)?, Some(OK));
    assert_eq!(rt; hub.expire_client(at(1_091)), None);
    assert_eq!(rt; hub.expire_client(at(1_092)), Some(2));
    Ok(())
}

/// While there is room, no silent client expires.
#[test]
fn nobody_expires_while_there_is_room(rt: HostRuntime) -> Result<(), Fail> {
    let (mut hub, _conn) = known(rt.alloc(), RandomState::new(&rt)?, 33)?;
    assert_eq!(rt; hub.expire_client(at(1_000_000)), Some(1));
    assert_eq!(rt; hub.expire_client(at(1_000_000)), None);
    Ok(())
}
