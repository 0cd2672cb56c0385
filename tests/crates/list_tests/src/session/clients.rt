//! EXCHANGE_ID, DESTROY_CLIENTID and RECLAIM_COMPLETE (RFC 8881, sections 18.35, 18.50 and 18.51).

use crate::session::plain::{ALICE, BY_BOB, CALL, SMALL, create, creation, exchange, new};
use crate::session::steps::Outcome::{
    Confirmed, Done, Made, New, Record, Refused, Session, Unconfirmed,
};
use crate::session::steps::Step::{
    ConfirmedOf, Create, CreateSmall, DestroyClientId, DestroySession, ExchangeId, ReclaimComplete,
    Sequence,
};
use crate::session::steps::{Outcome, Step, walk};
use nfs_types::Status::{
    BadSession, ClidInUse, ClientIdBusy, CompleteAlready, Inval, NoSpc, NotSupp, StaleClientId,
};
use session_slots::{Clients, Exchange};
use std::alloc::Global;
use std::process::Abort;

const BY_BOB_WITH_OPENS: Exchange<'static> = Exchange {
    has_opens: true,
    ..BY_BOB
};

/// The client `alice` has restarted.
const RESTARTED: Exchange<'static> = Exchange {
    verifier: 8,
    ..ALICE
};

const CAROL: Exchange<'static> = Exchange {
    owner: b"carol",
    ..ALICE
};

/// The owner `alice` has the confirmed client 1, with the session 1.
fn alice(alloc: Global) -> Clients {
    let mut clients = new(alloc);
    let _ = exchange(&mut clients, ALICE);
    let _ = create(&mut clients, creation(1, 1));
    clients
}

const A_CLIENT: &[(Step<'_>, Outcome)] = &[
    (ConfirmedOf(b"alice"), Record(None)),
    (ExchangeId(ALICE), Unconfirmed(1, 1, 0x1_0000)),
    (CreateSmall(1, 1), Session(1)),
    (ExchangeId(ALICE), Confirmed(1, 2, 0x8001_0000)),
    (ConfirmedOf(b"alice"), Record(Some(1))),
    (ConfirmedOf(b"alic"), Record(None)),
    (ExchangeId(BY_BOB_WITH_OPENS), Refused(ClidInUse)),
    (DestroyClientId(1, true), Refused(ClientIdBusy)),
    (ReclaimComplete(1), Done),
    (ReclaimComplete(1), Refused(CompleteAlready)),
    (Sequence(1, CALL, b""), New(1, 4096, 0)),
    (ExchangeId(BY_BOB), Unconfirmed(2, 1, 0x1_0000)),
    (Sequence(1, CALL, b""), Refused(BadSession)),
    (ConfirmedOf(b"alice"), Record(None)),
];

#[test]
fn a_client_comes_and_is_known(rt: HostRuntime) {
    let mut clients = new(rt.alloc());
    walk(&rt, &mut clients, A_CLIENT);
}

/// Flags of an EXCHANGE_ID, each with its outcome.
const FLAGS: [(u32, Outcome); 4] = [
    (0x8000_0000, Refused(Inval)),
    (0x4000_0000, Refused(NotSupp)),
    (0xc000_0000, Refused(Inval)),
    (0x3fff_ffff, Unconfirmed(1, 1, 0x1_0000)),
];

fn see_two_flags_are_refused(rt: &impl Abort, clients: &mut Clients) {
    for (flags, wanted) in FLAGS {
        let flagged = Exchange { flags, ..ALICE };
        walk(rt, clients, &[(ExchangeId(flagged), wanted)]);
    }
}

#[test]
fn two_flags_are_refused(rt: HostRuntime) {
    let mut clients = new(rt.alloc());
    see_two_flags_are_refused(&rt, &mut clients);
}

/// The session 2 is created, and the record of the client 1 is removed.
const IN_ITS_PLACE: Outcome = Made(2, 1, SMALL, SMALL, Some(1));

const A_NEW_VERIFIER: &[(Step<'_>, Outcome)] = &[
    (ExchangeId(RESTARTED), Unconfirmed(2, 1, 0x1_0000)),
    (ConfirmedOf(b"alice"), Record(Some(1))),
    (Sequence(1, CALL, b""), New(1, 4096, 0)),
    (Create(2, 1, 1001, SMALL, SMALL), IN_ITS_PLACE),
    (Sequence(1, CALL, b""), Refused(BadSession)),
    (Sequence(2, CALL, b""), New(2, 4096, 0)),
    (ConfirmedOf(b"alice"), Record(Some(2))),
    (CreateSmall(1, 2), Refused(StaleClientId)),
];

/// A client that has restarted keeps its old sessions until its new record is confirmed.
#[test]
fn a_new_verifier_gets_a_new_record(rt: HostRuntime) {
    let mut clients = alice(rt.alloc());
    walk(&rt, &mut clients, A_NEW_VERIFIER);
}

const REPLACED: &[(Step<'_>, Outcome)] = &[
    (ExchangeId(ALICE), Unconfirmed(1, 1, 0x1_0000)),
    (ExchangeId(BY_BOB), Unconfirmed(2, 1, 0x1_0000)),
    (CreateSmall(1, 1), Refused(StaleClientId)),
    (ExchangeId(CAROL), Unconfirmed(3, 1, 0x1_0000)),
    (DestroyClientId(2, false), Done),
];

#[test]
fn an_unconfirmed_record_is_replaced(rt: HostRuntime) {
    let mut clients = new(rt.alloc());
    walk(&rt, &mut clients, REPLACED);
}

const KNOWN: &[(Step<'_>, Outcome)] = &[
    (ExchangeId(RESTARTED), Unconfirmed(2, 1, 0x1_0000)),
    (CreateSmall(1, 2), Session(2)),
    (ExchangeId(ALICE), Confirmed(1, 3, 0x8001_0000)),
    (CreateSmall(2, 1), Refused(StaleClientId)),
    (Sequence(1, CALL, b""), New(1, 4096, 0)),
];

/// The confirmed record is answered, and the owner's unconfirmed record is removed.
#[test]
fn a_known_client_loses_its_unconfirmed_record(rt: HostRuntime) {
    let mut clients = alice(rt.alloc());
    walk(&rt, &mut clients, KNOWN);
}

const DESTROYED: &[(Step<'_>, Outcome)] = &[
    (DestroyClientId(2, true), Refused(StaleClientId)),
    (DestroyClientId(1, false), Refused(ClientIdBusy)),
    (DestroySession(1), Done),
    (DestroyClientId(1, true), Refused(ClientIdBusy)),
    (ConfirmedOf(b"alice"), Record(Some(1))),
    (DestroyClientId(1, false), Done),
    (DestroyClientId(1, false), Refused(StaleClientId)),
    (ConfirmedOf(b"alice"), Record(None)),
    (ReclaimComplete(1), Refused(StaleClientId)),
    (ExchangeId(ALICE), Unconfirmed(2, 1, 0x1_0000)),
];

#[test]
fn a_client_without_sessions_is_destroyed(rt: HostRuntime) {
    let mut clients = alice(rt.alloc());
    walk(&rt, &mut clients, DESTROYED);
}

const RECLAIMED: &[(Step<'_>, Outcome)] = &[
    (ReclaimComplete(1), Done),
    (ExchangeId(RESTARTED), Unconfirmed(2, 1, 0x1_0000)),
    (ReclaimComplete(2), Done),
    (ReclaimComplete(1), Refused(CompleteAlready)),
];

/// Each record has its own RECLAIM_COMPLETE.
#[test]
fn a_new_record_reclaims_again(rt: HostRuntime) {
    let mut clients = alice(rt.alloc());
    walk(&rt, &mut clients, RECLAIMED);
}

const FIFTH: Exchange<'static> = Exchange {
    owner: &[5],
    ..ALICE
};

const ONE_MORE: Exchange<'static> = Exchange {
    owner: b"one more",
    ..ALICE
};

const WITH_SIXTY_FOUR: &[(Step<'_>, Outcome)] = &[
    (ExchangeId(ONE_MORE), Refused(NoSpc)),
    (ExchangeId(RESTARTED), Refused(NoSpc)),
    (ExchangeId(FIFTH), Unconfirmed(65, 1, 0x1_0000)),
    (ExchangeId(ALICE), Confirmed(1, 2, 0x8001_0000)),
    (ExchangeId(BY_BOB), Unconfirmed(66, 1, 0x1_0000)),
    (Sequence(1, CALL, b""), Refused(BadSession)),
    (ExchangeId(ONE_MORE), Refused(NoSpc)),
    (DestroyClientId(2, false), Done),
    (ExchangeId(ONE_MORE), Unconfirmed(67, 1, 0x1_0000)),
];

fn see_sixty_four_clients(rt: &impl Abort, clients: &mut Clients) {
    for n in 1..64u8 {
        let owner = [n];
        let asked = Exchange {
            owner: &owner,
            ..ALICE
        };
        let wanted = Unconfirmed(u64::from(n) + 1, 1, 0x1_0000);
        walk(rt, clients, &[(ExchangeId(asked), wanted)]);
    }
    walk(rt, clients, WITH_SIXTY_FOUR);
}

/// 64 records, one of them by another user than its owner's confirmed record: it replaces that record.
#[test]
fn sixty_four_clients(rt: HostRuntime) {
    let mut clients = alice(rt.alloc());
    see_sixty_four_clients(&rt, &mut clients);
}
