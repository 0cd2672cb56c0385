//! A server that continues after a restart from a store (RFC 8881, section 2.10.6.5), and the flags that CREATE_SESSION
//! grants.

use compound_run::{ClientState, Open};
use nfs_hub::{ConnId, Hub};
use nfs_types::{Limits, Moment};
use node_tree::Tree;
use session_slots::{Channel, Clients, Held, Record, RestoreFault};
use std::alloc::{AllocError, Global};
use std::hash::RandomState;
use std::test::Fail;
use who_book::Book;

/// The call of a COMPOUND by user 1001, in group 100, up to the count of its operations.
const CALL: [u32; 17] = [
    1, 0, 2, 100_003, 4, 1, 1, 20, 0, 0, 1001, 100, 0, 0, 0, 0, 1,
];

/// EXCHANGE_ID of the owner `alice`, and CREATE_SESSION of client 1 that asks for CREATE_SESSION4_FLAG_PERSIST, each as
/// the only operation.
const EXCHANGE_ID: [u32; 10] = [1, 42, 0, 7, 5, 0x616c_6963, 0x6500_0000, 0, 0, 0];

const PERSISTENT: [u32; 22] = [
    1, 43, 0, 1, 1, 1, 0, 65_536, 65_536, 0, 8, 8, 0, 0, 4_096, 4_096, 0, 2, 1, 0, 0, 0,
];

/// The places in the record of a reply: the status of a COMPOUND; the flags of a CREATE_SESSION that is the only
/// operation; and the bytes of a READ after SEQUENCE, PUTROOTFH and LOOKUP.
const STATUS: usize = 28;

const FLAGS: usize = 68;

const BYTES: usize = 116;

/// NFS4_OK, NFS4ERR_BAD_STATEID and NFS4ERR_BADSESSION.
const OK: u32 = 0;

const BAD_STATEID: u32 = 10_025;

const BADSESSION: u32 = 10_052;

/// NFS4ERR_SEQ_FALSE_RETRY.
const FALSE_RETRY: u32 = 10_076;

const CHANNEL: Channel = Channel {
    padding: 0,
    request_size: 4_096,
    reply_size: 4_096,
    cached_size: 4_096,
    operations: 8,
    slots: 2,
};

fn record_of(alloc: Global, compound: &[u32]) -> Result<Vec<u8>, AllocError> {
    let len = u32::try_from((CALL.len() + compound.len()) * 4).unwrap_or(0);
    let mut bytes = Vec::from_slice(alloc, &(0x8000_0000 | len).to_be_bytes())?;
    for words in [&CALL[..], compound] {
        for word in words {
            bytes.extend_from_slice(&word.to_be_bytes())?;
        }
    }
    Ok(bytes)
}

fn word(reply: &[u8], at: usize) -> Option<u32> {
    let [a, b, c, d] = reply.get(at..at + 4)? else {
        return None;
    };
    Some(u32::from_be_bytes([*a, *b, *c, *d]))
}

/// The reply to a COMPOUND, in 256 bytes.
fn reply(alloc: Global, hub: &mut Hub, conn: ConnId, compound: &[u32]) -> Result<[u8; 256], Fail> {
    let now = Moment {
        seconds: 1,
        nanoseconds: 0,
    };
    let record = record_of(alloc, compound)?;
    hub.feed(conn, &record, now)?;
    let mut bytes = [0u8; 256];
    hub.take_out(conn, &mut bytes)?;
    Ok(bytes)
}

/// The flags that CREATE_SESSION answers if CREATE_SESSION4_FLAG_PERSIST is requested.
fn granted(alloc: Global, mut hub: Hub) -> Result<Option<u32>, Fail> {
    let conn = hub.connect()?;
    reply(alloc, &mut hub, conn, &EXCHANGE_ID)?;
    let bytes = reply(alloc, &mut hub, conn, &PERSISTENT)?;
    if word(&bytes, STATUS) != Some(OK) {
        return Err(Fail::new("there is no session"));
    }
    Ok(word(&bytes, FLAGS))
}

/// CREATE_SESSION4_FLAG_PERSIST is granted if and only if sessions are persistent.
#[test]
fn persistence_is_granted_where_sessions_outlive_a_restart(rt: HostRuntime) -> Result<(), Fail> {
    let alloc = rt.alloc();
    let hasher = RandomState::new(&rt)?;
    let lasting = Hub::lasting(alloc, Limits::standard(), Book::default(alloc), hasher)?;
    assert_eq!(rt; granted(alloc, lasting)?, Some(1));
    let plain = Hub::new(alloc, Book::default(alloc), hasher)?;
    assert_eq!(rt; granted(alloc, plain)?, Some(0));
    let nothing = ClientState::nothing(alloc, Limits::standard());
    let restored = Hub::restored(
        alloc,
        Tree::sample(alloc)?,
        nothing,
        Book::default(alloc),
        hasher,
    )?;
    assert_eq!(rt; granted(alloc, restored)?, Some(1));
    Ok(())
}

/// The statuses of a call of PUTROOTFH, and of the same call sent again: unchanged, with another sa_highest_slotid,
/// with another sa_cachethis, and with both.
fn sent_again(alloc: Global, mut hub: Hub) -> Result<[Option<u32>; 5], Fail> {
    let conn = hub.connect()?;
    reply(alloc, &mut hub, conn, &EXCHANGE_ID)?;
    reply(alloc, &mut hub, conn, &PERSISTENT)?;
    let mut statuses = [None; 5];
    let words = [(2, 0), (2, 0), (5, 0), (2, 1), (5, 1)];
    for (status, (highest, keep)) in statuses.iter_mut().zip(words) {
        let compound = [2, 53, 0, 0, 0, 1, 1, 0, highest, keep, 24];
        *status = word(&reply(alloc, &mut hub, conn, &compound)?, STATUS);
    }
    Ok(statuses)
}

/// A client may send a call again with another sa_highest_slotid, as Linux does. That is a retry if sessions are
/// persistent. Else a retry has all bytes of the call.
#[test]
fn the_highest_slot_of_a_call_sent_again(rt: HostRuntime) -> Result<(), Fail> {
    let alloc = rt.alloc();
    let hasher = RandomState::new(&rt)?;
    let lasting = Hub::lasting(alloc, Limits::standard(), Book::default(alloc), hasher)?;
    let statuses = sent_again(alloc, lasting)?;
    assert_eq!(rt;
        statuses,
        [
            Some(OK),
            Some(OK),
            Some(OK),
            Some(FALSE_RETRY),
            Some(FALSE_RETRY)
        ]
    );
    let plain = Hub::new(alloc, Book::default(alloc), hasher)?;
    let statuses = sent_again(alloc, plain)?;
    assert_eq!(rt;
        statuses,
        [
            Some(OK),
            Some(OK),
            Some(FALSE_RETRY),
            Some(FALSE_RETRY),
            Some(FALSE_RETRY)
        ]
    );
    Ok(())
}

/// Client 5 with its session 9, and its open 3 of the file `notes`, which is object 2.
fn client_state(alloc: Global) -> Result<ClientState, Fail> {
    let mut clients = Clients::new(alloc, Limits::standard());
    if !clients.restore_numbers(6, 10) {
        return Err(Fail::new("the next numbers don't fit"));
    }
    let record = Record {
        number: 5,
        owner: b"alice",
        verifier: 7,
        uid: 1001,
        confirmed: true,
        created: None,
        reclaimed: true,
    };
    clients.restore_record(record, 1)?;
    clients.restore_session(
        9,
        Held {
            client: 5,
            granted: CHANNEL,
        },
    )?;
    let mut opens = Vec::new(alloc);
    opens.push(Open {
        number: 3,
        client: 5,
        owner: Vec::from_slice(alloc, b"o")?,
        object: 2,
        access: 1,
        seqid: 2,
    })?;
    Ok(ClientState {
        clients,
        opens,
        next_open: 4,
    })
}

fn restored(
    alloc: Global,
    client_state: ClientState,
    hasher: RandomState,
) -> Result<Result<Hub, RestoreFault>, Fail> {
    let tree = Tree::sample(alloc)?;
    Ok(Hub::restored(alloc, tree, client_state, Book::default(alloc), hasher))
}

/// SEQUENCE of a session, PUTROOTFH, LOOKUP of `notes`, and READ by an open with seqid 2, as one COMPOUND.
fn reading(session: u32, number: u32, open: u32) -> [u32; 22] {
    let notes = [0x6e6f_7465, 0x7300_0000];
    [
        4, 53, 0, 0, 0, session, number, 0, 0, 0, 24, 15, 5, notes[0], notes[1], 25, 2, 0, 0, open,
        0, 0,
    ]
}

/// A session and an open from before a restart can be used after it, and no other.
#[test]
fn a_session_and_an_open_go_on_after_a_restart(rt: HostRuntime) -> Result<(), Fail> {
    let alloc = rt.alloc();
    let hasher = RandomState::new(&rt)?;
    let mut hub = restored(alloc, client_state(alloc)?, hasher)??;
    let conn = hub.connect()?;
    // the session, the sequence ID of the call, the open, and the status
    let table: [(u32, u32, u32, u32); 4] = [
        (9, 7, 3, OK),
        (9, 8, 4, BAD_STATEID),
        (9, 9, 2, BAD_STATEID),
        (8, 1, 3, BADSESSION),
    ];
    for (session, number, open, status) in table {
        let mut compound = Vec::from_slice(alloc, &reading(session, number, open))?;
        compound.push(16)?;
        let bytes = reply(alloc, &mut hub, conn, &compound)?;
        assert_eq!(rt;
            word(&bytes, STATUS),
            Some(status),
            "{session} {number} {open}"
        );
        if status == OK {
            assert_eq!(rt; &bytes[BYTES..BYTES + 2], b"hi".as_slice());
        }
    }
    Ok(())
}

/// Opens that don't fit aren't restored.
#[test]
fn an_open_that_cannot_be_is_a_misfit(rt: HostRuntime) -> Result<(), Fail> {
    let alloc = rt.alloc();
    let hasher = RandomState::new(&rt)?;
    // the number of the open, its client, its object, its access, its seqid, and the number of the next one
    let table: [(u64, u64, u64, u32, u32, u64, bool); 13] = [
        (3, 5, 2, 1, 2, 4, true),
        (1, 5, 2, 3, 1, 2, true),
        (3, 5, 2, 2, u32::MAX, 1 << 63, true),
        (3, 5, 2, 1, 2, 3, false),
        (0, 5, 2, 1, 2, 4, false),
        (3, 4, 2, 1, 2, 4, false),
        (3, 5, 1, 1, 2, 4, false),
        (3, 5, 3, 1, 2, 4, false),
        (3, 5, 4, 1, 2, 4, false),
        (3, 5, 2, 0, 2, 4, false),
        (3, 5, 2, 4, 2, 4, false),
        (3, 5, 2, 1, 0, 4, false),
        (3, 5, 2, 1, 2, (1 << 63) + 1, false),
    ];
    for (number, client, object, access, seqid, next_open, fits) in table {
        let mut all = client_state(alloc)?;
        for open in all.opens.iter_mut() {
            open.number = number;
            open.client = client;
            open.object = object;
            open.access = access;
            open.seqid = seqid;
        }
        all.next_open = next_open;
        let replayed = match restored(alloc, all, hasher)? {
            Ok(_) => true,
            Err(RestoreFault::Misfit) => false,
            Err(RestoreFault::Memory) => return Err(Fail::new("there is no memory")),
        };
        assert_eq!(rt;
            replayed,
            fits,
            "{number} {client} {object} {access} {seqid} {next_open}"
        );
    }
    Ok(())
}
