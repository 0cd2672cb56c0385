//! CREATE_SESSION and DESTROY_SESSION (RFC 8881, sections 18.36 and 18.37).

use crate::session::plain::{ALICE, CALL, SMALL, exchange, new};
use crate::session::steps::Outcome::{Done, Made, New, Record, Refused, Session};
use crate::session::steps::Step::{ConfirmedOf, Create, CreateSmall, DestroySession, Sequence};
use crate::session::steps::{Outcome, Step, walk};
use nfs_types::Status::{BadSession, ClidInUse, NoSpc, SeqMisordered, StaleClientId, TooSmall};
use session_slots::{Channel, Clients};
use std::alloc::Global;
use std::process::Abort;

/// The owner `alice` has the unconfirmed client 1.
fn alice(alloc: Global) -> Clients {
    let mut clients = new(alloc);
    let _ = exchange(&mut clients, ALICE);
    clients
}

const WIDE: Channel = Channel {
    padding: 4,
    request_size: 1_049_620,
    reply_size: 1_049_480,
    cached_size: 7584,
    operations: 8,
    slots: 64,
};

/// The attributes that are granted of a wide channel.
const CUT: Channel = Channel {
    padding: 0,
    request_size: 65_536,
    reply_size: 65_536,
    cached_size: 65_536,
    operations: 8,
    slots: 8,
};

/// The session 1, with these sizes.
const CREATED: Outcome = Made(1, 1, CUT, WIDE, None);

const SIZES: &[(Step<'_>, Outcome)] = &[
    (Create(1, 1, 1001, WIDE, WIDE), CREATED),
    (Create(1, 1, 1001, WIDE, WIDE), CREATED),
    (Create(1, 3, 1001, WIDE, WIDE), Refused(SeqMisordered)),
    (Create(1, 0, 1001, WIDE, WIDE), Refused(SeqMisordered)),
    (Create(1, 1, 1002, SMALL, SMALL), CREATED),
    (DestroySession(1), Done),
    (Create(1, 1, 1001, WIDE, WIDE), CREATED),
    (DestroySession(1), Refused(BadSession)),
];

#[test]
fn sizes_are_cut_and_the_result_is_cached(rt: HostRuntime) {
    let mut clients = alice(rt.alloc());
    walk(&rt, &mut clients, SIZES);
}

/// No operation, no slot, and no byte of a request.
const FEW: Channel = Channel {
    request_size: 0,
    operations: 0,
    slots: 0,
    ..SMALL
};

/// The fewest operations and slots, and no byte of a request.
const ONE: Channel = Channel {
    request_size: 0,
    operations: 1,
    slots: 1,
    ..SMALL
};

/// An operation and a slot more than the most.
const BIG: Channel = Channel {
    operations: 17,
    slots: 9,
    ..SMALL
};

/// The most operations and slots.
const MAX: Channel = Channel {
    operations: 16,
    slots: 8,
    ..SMALL
};

const NUMBERS: &[(Step<'_>, Outcome)] = &[
    (Create(1, 1, 1001, FEW, SMALL), Made(1, 1, ONE, SMALL, None)),
    (Create(1, 2, 1001, BIG, SMALL), Made(2, 2, MAX, SMALL, None)),
];

#[test]
fn small_numbers_are_raised(rt: HostRuntime) {
    let mut clients = alice(rt.alloc());
    walk(&rt, &mut clients, NUMBERS);
}

const DUE: &[(Step<'_>, Outcome)] = &[
    (CreateSmall(1, 0), Refused(SeqMisordered)),
    (CreateSmall(1, 2), Refused(SeqMisordered)),
    (CreateSmall(2, 1), Refused(StaleClientId)),
    (CreateSmall(1, 1), Session(1)),
    (CreateSmall(1, 2), Session(2)),
    (CreateSmall(1, 1), Refused(SeqMisordered)),
    (CreateSmall(1, 2), Session(2)),
];

#[test]
fn a_number_is_due_once(rt: HostRuntime) {
    let mut clients = alice(rt.alloc());
    walk(&rt, &mut clients, DUE);
}

/// Its reply is too small by a byte.
const SHORT: Channel = Channel {
    reply_size: 4095,
    ..SMALL
};

const CACHED_REFUSAL: &[(Step<'_>, Outcome)] = &[
    (Create(1, 1, 1001, SHORT, SMALL), Refused(TooSmall)),
    (CreateSmall(1, 1), Refused(TooSmall)),
    (ConfirmedOf(b"alice"), Record(None)),
    (CreateSmall(1, 2), Session(1)),
    (ConfirmedOf(b"alice"), Record(Some(1))),
];

#[test]
fn a_refusal_is_cached_with_its_number(rt: HostRuntime) {
    let mut clients = alice(rt.alloc());
    walk(&rt, &mut clients, CACHED_REFUSAL);
}

const WITHOUT_REPLY: Channel = Channel {
    reply_size: 0,
    ..SMALL
};

/// The session 2 is created.
const SECOND: Outcome = Made(2, 3, SMALL, SMALL, None);

const BY_ANOTHER_USER: &[(Step<'_>, Outcome)] = &[
    (Create(1, 1, 1002, WITHOUT_REPLY, SMALL), Refused(ClidInUse)),
    (CreateSmall(1, 1), Refused(ClidInUse)),
    (CreateSmall(1, 2), Session(1)),
    (Create(1, 3, 1002, SMALL, SMALL), SECOND),
];

#[test]
fn another_user_confirms_nothing(rt: HostRuntime) {
    let mut clients = alice(rt.alloc());
    walk(&rt, &mut clients, BY_ANOTHER_USER);
}

const DESTROYED: &[(Step<'_>, Outcome)] = &[
    (CreateSmall(1, 1), Session(1)),
    (CreateSmall(1, 2), Session(2)),
    (DestroySession(1), Done),
    (DestroySession(1), Refused(BadSession)),
    (Sequence(1, CALL, b""), Refused(BadSession)),
    (Sequence(2, CALL, b""), New(1, 4096, 0)),
    (CreateSmall(1, 3), Session(3)),
];

#[test]
fn a_session_is_destroyed_once(rt: HostRuntime) {
    let mut clients = alice(rt.alloc());
    walk(&rt, &mut clients, DESTROYED);
}

const WITH_SIXTY_FOUR: &[(Step<'_>, Outcome)] = &[
    (Create(1, 65, 1001, SHORT, SMALL), Refused(TooSmall)),
    (CreateSmall(1, 66), Refused(NoSpc)),
    (DestroySession(30), Done),
    (CreateSmall(1, 66), Refused(NoSpc)),
    (CreateSmall(1, 67), Session(65)),
];

fn see_sixty_four_sessions(rt: &impl Abort, clients: &mut Clients) {
    for n in 1..65u32 {
        walk(rt, clients, &[(CreateSmall(1, n), Session(u64::from(n)))]);
    }
    walk(rt, clients, WITH_SIXTY_FOUR);
}

#[test]
fn sixty_four_sessions(rt: HostRuntime) {
    let mut clients = alice(rt.alloc());
    see_sixty_four_sessions(&rt, &mut clients);
}
