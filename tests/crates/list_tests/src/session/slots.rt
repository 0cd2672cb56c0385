//! Calls on slots (RFC 8881, sections 2.10.6.1 and 18.46).

use crate::session::plain::{ALICE, CALL, Call, SMALL, create, creation, exchange, new};
use crate::session::steps::Outcome::{Kept, New, Refused, Repeat, Session};
use crate::session::steps::Step::{CreateSmall, Keeps, Sequence};
use crate::session::steps::{Outcome, Step, walk};
use nfs_types::Status::{
    BadHighSlot, BadSession, BadSlot, ReqTooBig, SeqFalseRetry, SeqMisordered, TooManyOps,
};
use session_slots::{Channel, Clients, Create, due};
use std::alloc::Global;
use std::process::Abort;

/// The client 1 with its session 1: eight slots, of 64 bytes a request and 4,096 a reply, and eight operations.
fn eight_slots(alloc: Global) -> Clients {
    let mut clients = new(alloc);
    let _ = exchange(&mut clients, ALICE);
    let fore = Channel { slots: 64, ..SMALL };
    let _ = create(
        &mut clients,
        Create {
            fore,
            ..creation(1, 1)
        },
    );
    clients
}

const OPENED: Outcome = New(1, 4096, 7);

#[test]
fn due_goes_round(rt: HostRuntime) {
    assert_eq!(rt; due(0), 1);
    assert_eq!(rt; due(1), 2);
    assert_eq!(rt; due(4_294_967_295), 0);
}

const FIRST: Call<'static> = Call {
    arguments: b"args",
    ..CALL
};

const BY_BOB: Call<'static> = Call { uid: 1002, ..FIRST };

const LONGER: Call<'static> = Call {
    arguments: b"args.",
    ..FIRST
};

const SECOND: Call<'static> = Call { number: 2, ..FIRST };

const THIRD: Call<'static> = Call { number: 3, ..FIRST };

const IN_ORDER: &[(Step<'_>, Outcome)] = &[
    (Sequence(1, FIRST, b"done"), OPENED),
    (Sequence(1, FIRST, b"other"), Repeat),
    (Keeps(1, 0, b"done"), Kept(true)),
    (Sequence(1, BY_BOB, b"other"), Refused(SeqFalseRetry)),
    (Sequence(1, LONGER, b"other"), Refused(SeqFalseRetry)),
    (Sequence(1, THIRD, b"other"), Refused(SeqMisordered)),
    (Keeps(1, 0, b"done"), Kept(true)),
    (Sequence(1, SECOND, b"next"), OPENED),
    (Keeps(1, 0, b"next"), Kept(true)),
    (Sequence(1, FIRST, b"other"), Refused(SeqMisordered)),
];

#[test]
fn a_slot_takes_its_calls_in_order(rt: HostRuntime) {
    let mut clients = eight_slots(rt.alloc());
    walk(&rt, &mut clients, IN_ORDER);
}

const NUMBER_0: Call<'static> = Call { number: 0, ..CALL };

const NUMBER_2: Call<'static> = Call { number: 2, ..CALL };

const UNUSED: &[(Step<'_>, Outcome)] = &[
    (Sequence(1, NUMBER_0, b"other"), Refused(SeqMisordered)),
    (Sequence(1, NUMBER_2, b"other"), Refused(SeqMisordered)),
    (Keeps(1, 0, b""), Kept(true)),
    (Keeps(2, 0, b""), Kept(true)),
];

#[test]
fn an_unused_slot_has_nothing_cached(rt: HostRuntime) {
    let mut clients = eight_slots(rt.alloc());
    walk(&rt, &mut clients, UNUSED);
}

const IN_GROUPS: Call<'static> = Call {
    groups: &[5, 9],
    ..CALL
};

const IN_THE_SAME_GROUPS: Call<'static> = Call {
    groups: &[9, 100, 5],
    ..CALL
};

const GROUPS: &[(Step<'_>, Outcome)] = &[
    (Sequence(1, IN_GROUPS, b"done"), OPENED),
    (Sequence(1, IN_THE_SAME_GROUPS, b""), Repeat),
];

/// Two calls with equal groups in another order are by equal callers.
#[test]
fn groups_are_a_set(rt: HostRuntime) {
    let mut clients = eight_slots(rt.alloc());
    walk(&rt, &mut clients, GROUPS);
}

/// Its record is too long, it has too many operations, its slot doesn't exist, and its sequence ID isn't due.
const WRONG: Call<'static> = Call {
    slot: 8,
    number: 5,
    highest: 8,
    count: 9,
    record_len: 65,
    ..CALL
};

const SHORT_ENOUGH: Call<'static> = Call {
    record_len: 64,
    ..WRONG
};

const FEW_ENOUGH: Call<'static> = Call {
    count: 8,
    ..SHORT_ENOUGH
};

const ON_THE_LAST_SLOT: Call<'static> = Call {
    slot: 7,
    ..FEW_ENOUGH
};

const WITH_HIGHEST_SLOT: Call<'static> = Call {
    highest: 7,
    ..ON_THE_LAST_SLOT
};

const RIGHT: Call<'static> = Call {
    number: 1,
    ..WITH_HIGHEST_SLOT
};

const TOO_LONG: Call<'static> = Call {
    record_len: 65,
    ..RIGHT
};

const REFUSALS: &[(Step<'_>, Outcome)] = &[
    (Sequence(2, WRONG, b""), Refused(BadSession)),
    (Sequence(1, WRONG, b""), Refused(ReqTooBig)),
    (Sequence(1, SHORT_ENOUGH, b""), Refused(TooManyOps)),
    (Sequence(1, FEW_ENOUGH, b""), Refused(BadSlot)),
    (Sequence(1, ON_THE_LAST_SLOT, b""), Refused(BadHighSlot)),
    (Sequence(1, WITH_HIGHEST_SLOT, b""), Refused(SeqMisordered)),
    (Sequence(1, RIGHT, b""), OPENED),
    (Sequence(1, TOO_LONG, b""), Refused(ReqTooBig)),
];

#[test]
fn refusals_come_in_order(rt: HostRuntime) {
    let mut clients = eight_slots(rt.alloc());
    walk(&rt, &mut clients, REFUSALS);
}

/// The call on another slot.
fn on<'a>(slot: u32, call: Call<'a>) -> Call<'a> {
    Call {
        slot,
        highest: slot,
        ..call
    }
}

fn see_slots_go_on_their_own(rt: &impl Abort, clients: &mut Clients) {
    for slot in [7, 0, 3, 5, 1, 6, 2, 4] {
        let first = on(slot, FIRST);
        walk(rt, clients, &[(Sequence(1, first, b"done"), OPENED)]);
    }
    for slot in [4, 7, 2, 0, 6, 5, 3, 1] {
        let second = on(slot, SECOND);
        let rows = [
            (Sequence(1, second, b"next"), OPENED),
            (Sequence(1, second, b"other"), Repeat),
            (Keeps(1, slot, b"next"), Kept(true)),
        ];
        walk(rt, clients, &rows);
    }
}

#[test]
fn slots_go_on_their_own(rt: HostRuntime) {
    let mut clients = eight_slots(rt.alloc());
    see_slots_go_on_their_own(&rt, &mut clients);
}

const ON_THE_FOURTH_SLOT: Call<'static> = Call {
    slot: 3,
    highest: 3,
    ..FIRST
};

const AFTER_ANOTHER_SESSION: &[(Step<'_>, Outcome)] = &[
    (Sequence(1, ON_THE_FOURTH_SLOT, b"done"), OPENED),
    (CreateSmall(1, 2), Session(2)),
    (Sequence(1, ON_THE_FOURTH_SLOT, b"other"), Repeat),
    (Keeps(1, 3, b"done"), Kept(true)),
    (Keeps(2, 0, b""), Kept(true)),
];

/// A slot keeps its call while its client creates another session.
#[test]
fn a_retry_after_another_session(rt: HostRuntime) {
    let mut clients = eight_slots(rt.alloc());
    walk(&rt, &mut clients, AFTER_ANOTHER_SESSION);
}

const LONGEST_RESULTS: &[u8] = &[5; 4072];

const LONG_ARGUMENTS: Call<'static> = Call {
    arguments: &[9; 60],
    ..CALL
};

const LONGEST: &[(Step<'_>, Outcome)] = &[
    (Sequence(1, LONG_ARGUMENTS, LONGEST_RESULTS), OPENED),
    (Sequence(1, LONG_ARGUMENTS, b""), Repeat),
    (Keeps(1, 0, LONGEST_RESULTS), Kept(true)),
];

/// 4,096 bytes of results are cached, and 64 of arguments are compared.
#[test]
fn the_longest_results_are_cached(rt: HostRuntime) {
    let mut clients = eight_slots(rt.alloc());
    walk(&rt, &mut clients, LONGEST);
}
