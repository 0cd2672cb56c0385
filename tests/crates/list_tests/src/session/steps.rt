//! Calls as data, so that a test is a table of them with their outcomes.

use crate::session::plain::{
    Call, confirmed_of, create, creation, destroy_client, destroy_session, exchange, keeps,
    reclaim_complete, run,
};
use nfs_types::Status;
use session_slots::{Begin, Channel, Clients, Create, Exchange, Made};
use std::alloc::Allocator;
use std::process::Abort;

/// A call.
#[derive(Clone, Copy, Debug)]
pub enum Step<'a> {
    /// The client ID of an owner's confirmed record.
    ConfirmedOf(&'a [u8]),
    /// EXCHANGE_ID.
    ExchangeId(Exchange<'a>),
    /// CREATE_SESSION by the user 1001, with small channels: the client and the sequence ID.
    CreateSmall(u64, u32),
    /// CREATE_SESSION: the client, the sequence ID, the user, the fore channel and the backchannel.
    Create(u64, u32, u32, Channel, Channel),
    /// DESTROY_SESSION: the session.
    DestroySession(u64),
    /// DESTROY_CLIENTID: the client, and whether it has opens.
    DestroyClientId(u64, bool),
    /// RECLAIM_COMPLETE: the client.
    ReclaimComplete(u64),
    /// SEQUENCE: the session, the call, and the results that are cached if it is new.
    Sequence(u64, Call<'a>, &'a [u8]),
    /// Whether a slot caches these results: the session, the slot and the results.
    Keeps(u64, u32, &'a [u8]),
}

/// The outcome of a call.
#[derive(Clone, Copy, Debug, PartialEq, Eq)]
pub enum Outcome {
    /// The call was done.
    Done,
    /// The call was refused.
    Refused(Status),
    /// The client ID of the confirmed record, if any.
    Record(Option<u64>),
    /// An unconfirmed record: the client, the next sequence ID and the flags.
    Unconfirmed(u64, u32, u32),
    /// A confirmed record: the client, the next sequence ID and the flags.
    Confirmed(u64, u32, u32),
    /// The session ID of a session that was created.
    Session(u64),
    /// A session that was created: its session ID, the sequence ID, the fore channel, the backchannel, and the client
    /// whose record was removed.
    Made(u64, u32, Channel, Channel, Option<u64>),
    /// A new call: the client, the most bytes of the reply and the highest slot.
    New(u64, u32, u32),
    /// A retry of a slot's last call.
    Repeat,
    /// Whether the slot caches the results.
    Kept(bool),
}

fn outcome_of(answer: Result<(), Status>) -> Outcome {
    match answer {
        Ok(()) => Outcome::Done,
        Err(status) => Outcome::Refused(status),
    }
}

fn exchange_id<A: Allocator + Copy>(clients: &mut Clients<A>, asked: Exchange<'_>) -> Outcome {
    let record = match exchange(clients, asked) {
        Ok(record) => record,
        Err(status) => return Outcome::Refused(status),
    };
    if record.is_confirmed {
        Outcome::Confirmed(record.client, record.sequence, record.flags())
    } else {
        Outcome::Unconfirmed(record.client, record.sequence, record.flags())
    }
}

fn create_session<A: Allocator + Copy>(clients: &mut Clients<A>, asked: Create) -> Outcome {
    let Made { result, removed } = create(clients, asked);
    match result {
        Ok(made) => Outcome::Made(made.session, made.sequence, made.fore, made.back, removed),
        Err(status) => Outcome::Refused(status),
    }
}

fn create_small<A: Allocator + Copy>(clients: &mut Clients<A>, asked: Create) -> Outcome {
    match create(clients, asked).result {
        Ok(made) => Outcome::Session(made.session),
        Err(status) => Outcome::Refused(status),
    }
}

fn sequence<A: Allocator + Copy>(
    clients: &mut Clients<A>,
    session: u64,
    call: Call<'_>,
    results: &[u8],
) -> Outcome {
    match run(clients, session, call, results) {
        Begin::New(new) => Outcome::New(new.client, new.reply_size, new.highest_slot),
        Begin::Repeat => Outcome::Repeat,
        Begin::Refused(status) => Outcome::Refused(status),
    }
}

/// Makes a call.
pub fn act<A: Allocator + Copy>(clients: &mut Clients<A>, step: Step<'_>) -> Outcome {
    match step {
        Step::ConfirmedOf(owner) => Outcome::Record(confirmed_of(clients, owner)),
        Step::ExchangeId(asked) => exchange_id(clients, asked),
        Step::CreateSmall(client, sequence) => create_small(clients, creation(client, sequence)),
        Step::Create(client, sequence, uid, fore, back) => create_session(
            clients,
            Create {
                client,
                sequence,
                uid,
                persist: false,
                lasting: false,
                fore,
                back,
            },
        ),
        Step::DestroySession(session) => outcome_of(destroy_session(clients, session)),
        Step::DestroyClientId(client, opens) => outcome_of(destroy_client(clients, client, opens)),
        Step::ReclaimComplete(client) => outcome_of(reclaim_complete(clients, client)),
        Step::Sequence(session, call, results) => sequence(clients, session, call, results),
        Step::Keeps(session, slot, results) => {
            Outcome::Kept(keeps(clients, session, slot, results))
        }
    }
}

/// Makes the calls, and checks their outcomes. A failure names the row, counted from 0, and its call.
pub fn walk<A: Allocator + Copy>(
    rt: &impl Abort,
    clients: &mut Clients<A>,
    rows: &[(Step<'_>, Outcome)],
) {
    for (row, (step, wanted)) in rows.iter().enumerate() {
        assert_eq!(rt; act(clients, *step), *wanted, "row {row}: {step:?}");
    }
}
