//! Each allocation fails.

use crate::session::plain::{ALICE, BY_BOB, CALL, Call, SMALL, new};
use crate::session::steps::Outcome::{
    Done, Kept, Made, New, Record, Refused, Repeat, Session, Unconfirmed,
};
use crate::session::steps::Step::{
    ConfirmedOf, Create, CreateSmall, DestroyClientId, DestroySession, ExchangeId, Keeps,
    ReclaimComplete, Sequence,
};
use crate::session::steps::{Outcome, Step, act, walk};
use linked_list_allocator::LocalHeap;
use nfs_types::Status::{BadSession, BadSlot, Delay, SeqMisordered};
use session_slots::{Channel, Clients};
use std::alloc::AllocError;
use std::process::Abort;
use std::test::Fail;

const SIZE: usize = 32_768;

/// Allocates all of the heap but `left` bytes.
fn fill<'a>(heap: &'a LocalHeap, left: usize) -> Result<Vec<u8, &'a LocalHeap>, AllocError> {
    let taken = heap.used().saturating_add(left);
    Vec::with_capacity(heap, SIZE.saturating_sub(taken))
}

/// Exactly `used` bytes of the heap are allocated, and the calls have these outcomes.
fn see_unchanged<'a>(
    rt: &impl Abort,
    clients: &mut Clients<&'a LocalHeap>,
    heap: &'a LocalHeap,
    used: usize,
    rows: &[(Step<'_>, Outcome)],
) {
    assert_eq!(rt; heap.used(), used);
    walk(rt, clients, rows);
}

/// A call on a slot that no session has, which is refused.
const ON_NO_SLOT: Call<'static> = Call {
    slot: 9,
    highest: 9,
    ..CALL
};

/// The owner `alice` gets the client 1.
const ALICE_ASKS: &[(Step<'_>, Outcome)] = &[(ExchangeId(ALICE), Unconfirmed(1, 1, 0x1_0000))];

/// The owner `alice` gets the confirmed client 1 and the session 1.
const ALICE_COMES: &[(Step<'_>, Outcome)] = &[
    (ExchangeId(ALICE), Unconfirmed(1, 1, 0x1_0000)),
    (CreateSmall(1, 1), Session(1)),
];

/// The session and the confirmed record exist.
const ALICE_STAYS: &[(Step<'_>, Outcome)] = &[
    (Sequence(1, ON_NO_SLOT, b""), Refused(BadSlot)),
    (ConfirmedOf(b"alice"), Record(Some(1))),
];

/// The session and the confirmed record are removed.
const ALICE_IS_REMOVED: &[(Step<'_>, Outcome)] = &[
    (Sequence(1, ON_NO_SLOT, b""), Refused(BadSession)),
    (ConfirmedOf(b"alice"), Record(None)),
];

/// The owner `alice` gets the client 2, by another user.
const BOB_ASKS: &[(Step<'_>, Outcome)] = &[(ExchangeId(BY_BOB), Unconfirmed(2, 1, 0x1_0000))];

/// With `left` bytes left, whether an EXCHANGE_ID by another user fails for an allocation, with the state unchanged.
fn exchange_fails<'a>(
    rt: &impl Abort,
    clients: &mut Clients<&'a LocalHeap>,
    heap: &'a LocalHeap,
    left: usize,
) -> Result<bool, AllocError> {
    let _taken = fill(heap, left)?;
    let used = heap.used();
    let fails = act(clients, ExchangeId(BY_BOB)) == Refused(Delay);
    if fails {
        see_unchanged(rt, clients, heap, used, ALICE_STAYS);
    }
    Ok(fails)
}

/// A new user's record in place of `alice`'s confirmed one, with `left` bytes left, and if that fails with all the
/// heap.
fn exchange_within(rt: &impl Abort, heap: &LocalHeap, left: usize) -> Result<bool, AllocError> {
    let mut clients = new(heap);
    walk(rt, &mut clients, ALICE_COMES);
    let fails = exchange_fails(rt, &mut clients, heap, left)?;
    if fails {
        walk(rt, &mut clients, BOB_ASKS);
    }
    walk(rt, &mut clients, ALICE_IS_REMOVED);
    Ok(fails)
}

/// Three slots, of 64 bytes a request and 4,096 a reply.
const THREE_SLOTS: Channel = Channel { slots: 3, ..SMALL };

const CREATION: Step<'static> = Create(1, 1, 1001, THREE_SLOTS, SMALL);

/// The session 1 is created.
const MADE: Outcome = Made(1, 1, THREE_SLOTS, SMALL, None);

/// No session exists, no record is confirmed, and the first sequence ID isn't accepted.
const NOTHING_IS_CREATED: &[(Step<'_>, Outcome)] = &[
    (Sequence(1, ON_NO_SLOT, b""), Refused(BadSession)),
    (ConfirmedOf(b"alice"), Record(None)),
    (CreateSmall(1, 2), Refused(SeqMisordered)),
];

/// With `left` bytes left, whether a CREATE_SESSION fails for an allocation, with the state unchanged and its sequence
/// ID not accepted.
fn create_fails<'a>(
    rt: &impl Abort,
    clients: &mut Clients<&'a LocalHeap>,
    heap: &'a LocalHeap,
    left: usize,
) -> Result<bool, AllocError> {
    let _taken = fill(heap, left)?;
    let used = heap.used();
    let fails = act(clients, CREATION) == Refused(Delay);
    if fails {
        see_unchanged(rt, clients, heap, used, NOTHING_IS_CREATED);
    }
    Ok(fails)
}

const CREATED: &[(Step<'_>, Outcome)] = &[
    (CREATION, MADE),
    (ConfirmedOf(b"alice"), Record(Some(1))),
];

/// A session with `left` bytes left, and if that fails with all the heap.
fn create_within(rt: &impl Abort, heap: &LocalHeap, left: usize) -> Result<bool, AllocError> {
    let mut clients = new(heap);
    walk(rt, &mut clients, ALICE_ASKS);
    let fails = create_fails(rt, &mut clients, heap, left)?;
    walk(rt, &mut clients, CREATED);
    if fails {
        without_memory(rt, &mut clients, heap)?;
    }
    Ok(fails)
}

const RESULTS: &[u8] = &[7; 4072];

const ENDING: &[(Step<'_>, Outcome)] = &[
    (ReclaimComplete(1), Done),
    (DestroySession(1), Done),
    (DestroyClientId(1, false), Done),
    (ConfirmedOf(b"alice"), Record(None)),
];

/// A call on a slot, its retry and its results.
fn see_slot<'a>(rt: &impl Abort, clients: &mut Clients<&'a LocalHeap>, slot: u32) {
    let call = Call {
        slot,
        highest: slot,
        arguments: b"arguments",
        ..CALL
    };
    let rows = [
        (Sequence(1, call, RESULTS), New(1, 4096, 2)),
        (Sequence(1, call, RESULTS), Repeat),
        (Keeps(1, slot, RESULTS), Kept(true)),
    ];
    walk(rt, clients, &rows);
}

/// The calls that allocate nothing, with no byte left.
fn without_memory<'a>(
    rt: &impl Abort,
    clients: &mut Clients<&'a LocalHeap>,
    heap: &'a LocalHeap,
) -> Result<(), AllocError> {
    let _taken = fill(heap, 0)?;
    for slot in 0..3u32 {
        see_slot(rt, clients, slot);
    }
    walk(rt, clients, ENDING);
    Ok(())
}

#[test]
fn a_record_that_finds_no_memory(rt: HostRuntime) -> Result<(), Fail> {
    let heap = LocalHeap::new(rt.alloc(), SIZE)?;
    let mut refused = 0u32;
    for step in 0..8usize {
        if exchange_within(&rt, &heap, step.saturating_mul(16))? {
            refused = refused.saturating_add(1);
        }
        assert_eq!(rt; heap.used(), 0);
    }
    assert!(rt; refused > 0 && refused < 8, "refused {refused}");
    Ok(())
}

#[test]
fn a_session_that_finds_no_memory(rt: HostRuntime) -> Result<(), Fail> {
    let heap = LocalHeap::new(rt.alloc(), SIZE)?;
    let mut refused = 0u32;
    for step in 0..128usize {
        if create_within(&rt, &heap, step.saturating_mul(128))? {
            refused = refused.saturating_add(1);
        }
        assert_eq!(rt; heap.used(), 0);
    }
    assert!(rt; refused > 90 && refused < 128, "refused {refused}");
    Ok(())
}
