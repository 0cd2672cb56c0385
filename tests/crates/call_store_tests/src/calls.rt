//! Calls of a client, as bytes for a hub.

use nfs_hub::Hub;
use nfs_types::Moment;
use std::alloc::{AllocError, Global};
use std::test::Fail;

/// The call of a COMPOUND by user 0, in group 0, up to the count of its operations.
const CALL: [u32; 17] = [1, 0, 2, 100_003, 4, 1, 1, 20, 0, 0, 0, 0, 0, 0, 0, 0, 1];

/// EXCHANGE_ID of the owner `alice`, and CREATE_SESSION of client 1, each as the only operation.
pub(crate) const EXCHANGE_ID: [u32; 10] = [1, 42, 0, 7, 5, 0x616c_6963, 0x6500_0000, 0, 0, 0];

pub(crate) const CREATE_SESSION: [u32; 22] = [
    1, 43, 0, 1, 1, 1, 0, 65_536, 65_536, 0, 8, 8, 0, 0, 4_096, 4_096, 0, 2, 1, 0, 0, 0,
];

/// EXCHANGE_ID of an owner by its number, as the only operation.
pub(crate) fn exchange_id(number: u32) -> [u32; 9] {
    [1, 42, 0, 7, 4, number, 0, 0, 0]
}

/// The name of the directory of a number, in XDR: one letter.
fn name_of(number: u8) -> u32 {
    u32::from(letter_of(number)) << 24
}

/// The only letter of that name.
pub(crate) fn letter_of(number: u8) -> u8 {
    b'a'.saturating_add(number)
}

/// SEQUENCE with this sequence ID, PUTROOTFH and CREATE of the directory of a number.
pub(crate) fn make(sequence: u32, number: u8) -> [u32; 17] {
    [
        3,
        53,
        0,
        0,
        0,
        1,
        sequence,
        0,
        0,
        0,
        24,
        6,
        2,
        1,
        name_of(number),
        0,
        0,
    ]
}

/// SEQUENCE with this sequence ID and PUTROOTFH, which change nothing.
pub(crate) fn look(sequence: u32) -> [u32; 10] {
    [2, 53, 0, 0, 0, 1, sequence, 0, 0, 0]
}

fn record_of(alloc: Global, compound: &[u32]) -> Result<Vec<u8>, AllocError> {
    let len = u32::try_from((CALL.len() + compound.len()) * 4).unwrap_or(0);
    let mut bytes = Vec::from_slice(alloc, &(0x8000_0000 | len).to_be_bytes())?;
    for words in [&CALL[..], compound] {
        for word in words {
            bytes.extend_from_slice(&word.to_be_bytes())?;
        }
    }
    Ok(bytes)
}

/// Feeds a call on a connection of its own, and returns its reply. `None`: it has none.
pub(crate) fn replied(alloc: Global, hub: &mut Hub, compound: &[u32]) -> Option<Vec<u8>> {
    let record = record_of(alloc, compound).ok()?;
    let conn = hub.connect().ok()?;
    let now = Moment {
        seconds: 7,
        nanoseconds: 8,
    };
    hub.feed(conn, &record, now).ok()?;
    let reply = Vec::from_slice(alloc, hub.pending(conn).unwrap_or(b"")).ok()?;
    hub.close(conn).ok()?;
    Some(reply)
}

/// The reply to a call, or the failure of a test.
pub(crate) fn asked(alloc: Global, hub: &mut Hub, compound: &[u32]) -> Result<Vec<u8>, Fail> {
    match replied(alloc, hub, compound) {
        Some(reply) => Ok(reply),
        None => Err(Fail::new("no reply")),
    }
}
