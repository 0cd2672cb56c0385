//! Clients, sessions and slots from before a restart, and clients that expire (RFC 8881, sections 2.10.6.5 and 8.3).

use crate::session::plain::{ALICE, SMALL, create, creation, exchange};
use nfs_types::{Limits, Status};
use rpc_record::Caller;
use session_slots::{
    Begin, CachedCall, CallBytes, CallForm, Channel, Clients, Create, Created, Creation, Exchange,
    Held, Record, RecordForm, RestoreFault, Sequence, SessionForm, write_call,
};
use std::alloc::Global;
use std::process::Abort;
use std::test::Fail;
use xdr_wire::{Reader, Spell, Wire, Writer};

const TWO_SLOTS: Channel = Channel { slots: 2, ..SMALL };

const HELD: Held = Held {
    client: 5,
    granted: TWO_SLOTS,
};

const RECORD: Record<'static> = Record {
    number: 5,
    owner: b"alice",
    verifier: 7,
    uid: 1001,
    confirmed: true,
    created: None,
    reclaimed: true,
};

fn kept<'a>(number: u32, caller: &'a Caller) -> CachedCall<'a> {
    CachedCall {
        number,
        caller,
        arguments: b"args",
        results: b"done",
    }
}

/// Client 5, whose lease was renewed in second 100, with its session 9, whose slot 0 caches the call of this sequence
/// ID.
fn restored(rt: &impl Abort, alloc: Global, caller: &Caller, number: u32) -> Clients {
    let mut clients = Clients::new(alloc, Limits::standard());
    assert_eq!(rt; clients.restore_numbers(6, 10), true);
    assert_eq!(rt; clients.restore_session(9, HELD), Err(RestoreFault::Misfit));
    assert_eq!(rt; clients.restore_record(RECORD, 100), Ok(()));
    assert_eq!(rt;
        clients.restore_record(RECORD, 100),
        Err(RestoreFault::Misfit)
    );
    assert_eq!(rt; clients.restore_session(9, HELD), Ok(()));
    assert_eq!(rt; clients.restore_slot(9, 0, kept(number, caller)), true);
    assert_eq!(rt; clients.restore_slot(9, 2, kept(number, caller)), false);
    clients
}

fn asked<'a>(slot: u32, number: u32, arguments: &'a [u8], caller: &'a Caller) -> Sequence<'a> {
    Sequence {
        slot,
        number,
        highest: 0,
        count: 1,
        record_len: 64,
        arguments: CallBytes {
            prefix: arguments,
            back: &[],
        },
        caller,
        now: 0,
    }
}

fn is_new(begin: Begin) -> bool {
    match begin {
        Begin::New(_) => true,
        _ => false,
    }
}

#[test]
fn next_numbers_of_before_a_restart(rt: HostRuntime) {
    let mut clients = Clients::new(rt.alloc(), Limits::standard());
    let last = 1 << 63;
    assert_eq!(rt; clients.restore_numbers(6, 10), true);
    // none that was given is given again, and none is above 2^63
    for (client, session) in [(5, 10), (6, 9), (last + 1, 10), (6, last + 1)] {
        assert_eq!(rt; clients.restore_numbers(client, session), false);
        assert_eq!(rt; clients.next_numbers(), (6, 10));
    }
    assert_eq!(rt; clients.restore_numbers(last, last), true);
    assert_eq!(rt; clients.next_numbers(), (last, last));
}

#[test]
fn numbers_after_a_restart(rt: HostRuntime) {
    let caller = Caller::new(1001, 100, &[]);
    // the cached sequence ID, a sequence ID, and whether it is new
    let table: [(u32, u32, bool); 12] = [
        (7, 8, true),
        (7, 9, true),
        (7, 7, false),
        (7, 6, false),
        (7, 0, false),
        (7, 1_048_583, true),
        (7, 1_048_584, false),
        (4_294_967_295, 0, true),
        (4_294_967_295, 5, true),
        (4_294_967_295, 1_048_575, true),
        (4_294_967_295, 1_048_576, false),
        (4_294_967_295, 4_294_967_294, false),
    ];
    for (last, number, new) in table {
        let mut clients = restored(&rt, rt.alloc(), &caller, last);
        assert_eq!(rt;
            is_new(clients.begin(9, asked(0, number, b"args", &caller))),
            new
        );
    }
}

#[test]
fn a_cached_call_is_answered_again(rt: HostRuntime) {
    let caller = Caller::new(1001, 100, &[]);
    let other = Caller::new(1002, 100, &[]);
    let mut clients = restored(&rt, rt.alloc(), &caller, 7);
    assert_eq!(rt;
        clients.begin(9, asked(0, 7, b"args", &caller)),
        Begin::Repeat
    );
    assert_eq!(rt; clients.results(9, 0) == b"done".as_slice(), true);
    assert_eq!(rt;
        clients.begin(9, asked(0, 7, b"args", &other)),
        Begin::Refused(Status::SeqFalseRetry)
    );
    assert_eq!(rt;
        clients.begin(9, asked(0, 7, b"arg", &caller)),
        Begin::Refused(Status::SeqFalseRetry)
    );
    // it lags no more once a new call has arrived
    assert_eq!(rt;
        is_new(clients.begin(9, asked(0, 12, b"args", &caller))),
        true
    );
    clients.keep(9, 0, b"twelve");
    assert_eq!(rt;
        clients.begin(9, asked(0, 12, b"args", &caller)),
        Begin::Repeat
    );
    assert_eq!(rt; clients.results(9, 0) == b"twelve".as_slice(), true);
    assert_eq!(rt;
        clients.begin(9, asked(0, 14, b"args", &caller)),
        Begin::Refused(Status::SeqMisordered)
    );
    assert_eq!(rt;
        is_new(clients.begin(9, asked(0, 13, b"args", &caller))),
        true
    );
}

#[test]
fn a_slot_without_a_cached_call(rt: HostRuntime) {
    let caller = Caller::new(1001, 100, &[]);
    let mut clients = restored(&rt, rt.alloc(), &caller, 7);
    assert_eq!(rt;
        clients.begin(9, asked(1, 0, b"args", &caller)),
        Begin::Refused(Status::SeqMisordered)
    );
    assert_eq!(rt;
        is_new(clients.begin(9, asked(1, 41, b"args", &caller))),
        true
    );
    assert_eq!(rt;
        clients.begin(9, asked(1, 43, b"args", &caller)),
        Begin::Refused(Status::SeqMisordered)
    );
}

#[test]
fn all_is_read_out_in_order(rt: HostRuntime) {
    let caller = Caller::new(1001, 100, &[]);
    let clients = restored(&rt, rt.alloc(), &caller, 7);
    assert_eq!(rt; clients.counts(), (1, 1));
    assert_eq!(rt; clients.next_numbers(), (6, 10));
    assert_eq!(rt; clients.client_from(0), Some(5));
    assert_eq!(rt; clients.client_from(5), Some(5));
    assert_eq!(rt; clients.client_from(6), None);
    assert_eq!(rt; clients.session_from(0), Some(9));
    assert_eq!(rt; clients.session_from(10), None);
    assert_eq!(rt; clients.held(9), Some(HELD));
    assert_eq!(rt; clients.held(8), None);
    assert_eq!(rt; clients.record(4).is_none(), true);
    let (Some(record), Some(call)) = (clients.record(5), clients.kept(9, 0)) else {
        assert_eq!(rt; true, false);
        return;
    };
    assert_eq!(rt; record.owner == b"alice".as_slice(), true);
    assert_eq!(rt;
        (
            record.verifier,
            record.uid,
            record.confirmed,
            record.reclaimed
        ),
        (7, 1001, true, true)
    );
    assert_eq!(rt; call.number, 7);
    assert_eq!(rt; *call.caller == caller, true);
    assert_eq!(rt; call.arguments == b"args".as_slice(), true);
    assert_eq!(rt; call.results == b"done".as_slice(), true);
    assert_eq!(rt; clients.kept(9, 1).is_none(), true);
}

/// A record with a CREATE_SESSION that had this result.
fn with_result(outcome_of: Result<Created, Status>) -> Record<'static> {
    Record {
        created: Some(Creation {
            number: 3,
            result: outcome_of,
        }),
        ..RECORD
    }
}

const CREATED: Created = Created {
    session: 9,
    sequence: 3,
    persist: true,
    fore: TWO_SLOTS,
    back: SMALL,
};

#[test]
fn records_that_are_written_are_read_again(rt: HostRuntime) -> Result<(), Fail> {
    for outcome_of in [
        Ok(CREATED),
        Err(Status::NoSpc),
        Err(Status::TooSmall),
        Err(Status::ClidInUse),
    ] {
        let mut writer = Writer::new(rt.alloc(), 1024)?;
        let Some(form) = RecordForm::new(with_result(outcome_of)) else {
            assert_eq!(rt; true, false);
            return Ok(());
        };
        assert_eq!(rt; form.write(&mut writer).is_ok(), true);
        let mut reader = Reader::new(writer.bytes());
        let Ok(read) = RecordForm::read(&mut reader) else {
            assert_eq!(rt; true, false);
            return Ok(());
        };
        let record = read.record();
        assert_eq!(rt; record.created, with_result(outcome_of).created);
        assert_eq!(rt; record.owner == b"alice".as_slice(), true);
        assert_eq!(rt; reader.is_empty(), true);
    }
    Ok(())
}

#[test]
fn calls_and_sessions_that_are_written_are_read_again(rt: HostRuntime) -> Result<(), Fail> {
    let caller = Caller::new(1001, 100, &[300, 20]);
    let mut writer = Writer::new(rt.alloc(), 1024)?;
    assert_eq!(rt;
        write_call(9, 1, kept(7, &caller), &mut writer).is_ok(),
        true
    );
    let session = SessionForm {
        number: 9,
        held: HELD,
    };
    assert_eq!(rt; session.write(&mut writer).is_ok(), true);
    let mut reader = Reader::new(writer.bytes());
    let (Ok(call), Ok(read)) = (CallForm::read(&mut reader), SessionForm::read(&mut reader)) else {
        assert_eq!(rt; true, false);
        return Ok(());
    };
    assert_eq!(rt; (call.session, call.slot, call.number), (9, 1, 7));
    assert_eq!(rt; call.arguments.bytes == b"args".as_slice(), true);
    assert_eq!(rt; call.results.bytes == b"done".as_slice(), true);
    assert_eq!(rt; call.caller() == Some(caller), true);
    assert_eq!(rt; read, session);
    Ok(())
}

#[test]
fn persist_is_granted_where_sessions_last(rt: HostRuntime) {
    for (persist, lasting, granted) in [
        (false, false, false),
        (true, false, false),
        (false, true, false),
        (true, true, true),
    ] {
        let mut clients = Clients::new(rt.alloc(), Limits::standard());
        let _ = exchange(&mut clients, ALICE);
        let made = create(
            &mut clients,
            Create {
                persist,
                lasting,
                ..creation(1, 1)
            },
        );
        assert_eq!(rt; made.result.map(|created| created.persist), Ok(granted));
    }
}

#[test]
fn the_most_silent_client_expires(rt: HostRuntime) {
    let caller = Caller::new(1001, 100, &[]);
    let mut clients = restored(&rt, rt.alloc(), &caller, 7);
    // the lease of a restored record begins in the second in which it was restored
    assert_eq!(rt; clients.silent(190, 90), None);
    assert_eq!(rt; clients.silent(191, 90), Some(5));
    // and that of a new one in the second of its EXCHANGE_ID
    let bob = Exchange {
        owner: b"bob",
        now: 50,
        ..ALICE
    };
    let _ = exchange(&mut clients, bob);
    assert_eq!(rt; clients.silent(191, 90), Some(6));
    clients.renew(6, 1000);
    assert_eq!(rt; clients.silent(1000, 90), Some(5));
    assert_eq!(rt; clients.expire(5), true);
    assert_eq!(rt; clients.expire(5), false);
    assert_eq!(rt; clients.counts(), (1, 0));
    assert_eq!(rt; clients.silent(1000, 90), None);
    assert_eq!(rt;
        clients.begin(9, asked(0, 8, b"args", &caller)),
        Begin::Refused(Status::BadSession)
    );
    assert_eq!(rt; clients.record(5).is_none(), true);
    assert_eq!(rt; clients.record(6).is_some(), true);
    assert_eq!(rt; clients.held(9), None);
}
