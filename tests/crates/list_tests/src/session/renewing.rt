//! When a lease is renewed, and how long a client may be silent (RFC 8881, section 8.3).

use crate::session::plain::{ALICE, creation, exchange};
use nfs_types::{Limits, Status};
use rpc_record::Caller;
use session_slots::{Begin, CallBytes, Clients, Exchange, Sequence};
use std::alloc::Global;

/// The seconds that a client may be silent.
const LEASE: u64 = 90;

/// Client 1 with its session 1 of one slot, whose lease was renewed in second 100.
fn renewed_at_100(alloc: Global) -> Clients {
    let mut clients = Clients::new(alloc, Limits::standard());
    let _ = exchange(&mut clients, Exchange { now: 100, ..ALICE });
    let _ = clients.create_session(creation(1, 1));
    clients
}

/// A call with this sequence ID on slot 0, which arrives in this second.
fn call(number: u32, caller: &Caller, now: u64) -> Sequence<'_> {
    Sequence {
        slot: 0,
        number,
        highest: 0,
        count: 1,
        record_len: 60,
        arguments: CallBytes {
            prefix: b"args",
            back: &[],
        },
        caller,
        now,
    }
}

#[test]
fn a_client_may_be_silent_for_the_lease_and_no_second_more(rt: HostRuntime) {
    let clients = renewed_at_100(rt.alloc());
    assert_eq!(rt; clients.silent(99, LEASE), None);
    assert_eq!(rt; clients.silent(190, LEASE), None);
    assert_eq!(rt; clients.silent(191, LEASE), Some(1));
}

/// A run of `nfsc` that was killed keeps its place for 10 seconds, and another client for the whole lease.
#[test]
fn a_short_run_may_be_silent_for_10_seconds(rt: HostRuntime) {
    let mut clients = renewed_at_100(rt.alloc());
    let _ = exchange(
        &mut clients,
        Exchange {
            owner: b"nfsc 0123456789",
            now: 150,
            ..ALICE
        },
    );
    assert_eq!(rt; clients.silent(160, LEASE), None);
    assert_eq!(rt; clients.silent(161, LEASE), Some(2));
    assert_eq!(rt; clients.silent(161, 5), Some(1));
    clients.renew(2, 185);
    assert_eq!(rt; clients.silent(190, LEASE), None);
    assert_eq!(rt; clients.silent(191, LEASE), Some(1));
}

#[test]
fn a_lease_is_renewed_when_a_call_came_last(rt: HostRuntime) {
    let mut clients = renewed_at_100(rt.alloc());
    clients.renew(1, 150);
    assert_eq!(rt; clients.silent(240, LEASE), None);
    assert_eq!(rt; clients.silent(241, LEASE), Some(1));
    // the clock was set back
    clients.renew(1, 120);
    assert_eq!(rt; clients.silent(240, LEASE), None);
    // the lease of another client is renewed
    clients.renew(2, 300);
    assert_eq!(rt; clients.silent(241, LEASE), Some(1));
}

#[test]
fn a_new_call_and_a_retry_renew_the_lease_and_a_refused_one_does_not(rt: HostRuntime) {
    let mut clients = renewed_at_100(rt.alloc());
    let alice = Caller::new(1001, 100, &[]);
    let bob = Caller::new(1002, 100, &[]);
    assert_eq!(rt;
        matches!(clients.begin(1, call(1, &alice, 150)), Begin::New(_)),
        true
    );
    clients.keep(1, 0, b"done");
    assert_eq!(rt; clients.silent(240, LEASE), None);
    assert_eq!(rt; clients.silent(241, LEASE), Some(1));
    assert_eq!(rt;
        matches!(clients.begin(1, call(1, &alice, 200)), Begin::Repeat),
        true
    );
    assert_eq!(rt; clients.silent(290, LEASE), None);
    assert_eq!(rt; clients.silent(291, LEASE), Some(1));
    for (refused, status) in [
        (call(1, &bob, 300), Status::SeqFalseRetry),
        (call(3, &alice, 300), Status::SeqMisordered),
    ] {
        assert_eq!(rt; clients.begin(1, refused), Begin::Refused(status));
        assert_eq!(rt; clients.silent(291, LEASE), Some(1));
    }
}
