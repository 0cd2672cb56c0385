//! The calls of `Clients` without their contracts, so that a test's proof doesn't carry them.

use nfs_types::{Limits, Status};
use rpc_record::{Caller, MOST_FURTHER};
use session_slots::{
    Begin, CallBytes, Channel, Clients, Create, Exchange, Exchanged, Made, REPLY_HEADER, Sequence,
};
use std::alloc::Allocator;

/// A channel of one slot and the smallest reply.
pub const SMALL: Channel = Channel {
    padding: 0,
    request_size: 64,
    reply_size: 4096,
    cached_size: 4096,
    operations: 8,
    slots: 1,
};

/// A client of the owner `alice`, the user 1001 and the verifier 7, without opens.
pub const ALICE: Exchange<'static> = Exchange {
    owner: b"alice",
    verifier: 7,
    uid: 1001,
    flags: 0,
    has_opens: false,
    now: 0,
};

/// A client of the owner `alice` and the user 1002.
pub const BY_BOB: Exchange<'static> = Exchange { uid: 1002, ..ALICE };

/// By the user 1001, with small channels.
pub fn creation(client: u64, sequence: u32) -> Create {
    Create {
        client,
        sequence,
        uid: 1001,
        persist: false,
        lasting: false,
        fore: SMALL,
        back: SMALL,
    }
}

/// A call on a slot: the arguments of its SEQUENCE, the bytes after its header, and its caller.
#[derive(Clone, Copy, Debug)]
pub struct Call<'a> {
    pub slot: u32,
    pub number: u32,
    pub highest: u32,
    pub count: u32,
    pub record_len: usize,
    pub arguments: &'a [u8],
    pub uid: u32,
    /// The groups of the caller, without the group 100.
    pub groups: &'a [u32],
}

/// The first call of the slot 0, without arguments: two operations in a record of 60 bytes, by the user 1001.
pub const CALL: Call<'static> = Call {
    slot: 0,
    number: 1,
    highest: 0,
    count: 2,
    record_len: 60,
    arguments: b"",
    uid: 1001,
    groups: &[],
};

pub fn new<A: Allocator + Copy>(alloc: A) -> Clients<A> {
    Clients::new(alloc, Limits::standard())
}

pub fn confirmed_of<A: Allocator + Copy>(clients: &Clients<A>, owner: &[u8]) -> Option<u64> {
    clients.confirmed_of(owner)
}

pub fn exchange<A: Allocator + Copy>(
    clients: &mut Clients<A>,
    asked: Exchange<'_>,
) -> Result<Exchanged, Status> {
    clients.exchange_id(asked)
}

pub fn create<A: Allocator + Copy>(clients: &mut Clients<A>, asked: Create) -> Made {
    clients.create_session(asked)
}

pub fn destroy_session<A: Allocator + Copy>(
    clients: &mut Clients<A>,
    session: u64,
) -> Result<(), Status> {
    clients.destroy_session(session)
}

pub fn destroy_client<A: Allocator + Copy>(
    clients: &mut Clients<A>,
    client: u64,
    has_opens: bool,
) -> Result<(), Status> {
    clients.destroy_client(client, has_opens)
}

pub fn reclaim_complete<A: Allocator + Copy>(
    clients: &mut Clients<A>,
    client: u64,
) -> Result<(), Status> {
    clients.reclaim_complete(client)
}

/// Begins a call, and caches these results if it is new.
fn begin<A: Allocator + Copy>(
    clients: &mut Clients<A>,
    session: u64,
    asked: Sequence<'_>,
    results: &[u8],
) -> Begin {
    if asked.arguments.prefix.len() + asked.arguments.back.len() > asked.record_len {
        return Begin::Refused(Status::ServerFault);
    }
    match clients.begin(session, asked) {
        Begin::New(new) => {
            if results.len() + REPLY_HEADER <= new.reply_size as usize {
                clients.keep(session, asked.slot, results);
            }
            Begin::New(new)
        }
        other => other,
    }
}

/// Makes a call, and caches these results if it is new.
pub fn run<A: Allocator + Copy>(
    clients: &mut Clients<A>,
    session: u64,
    call: Call<'_>,
    results: &[u8],
) -> Begin {
    if call.groups.len() > MOST_FURTHER {
        return Begin::Refused(Status::ServerFault);
    }
    let caller = Caller::new(call.uid, 100, call.groups);
    let asked = Sequence {
        slot: call.slot,
        number: call.number,
        highest: call.highest,
        count: call.count,
        record_len: call.record_len,
        arguments: CallBytes {
            prefix: call.arguments,
            back: &[],
        },
        caller: &caller,
        now: 0,
    };
    begin(clients, session, asked, results)
}

/// Whether a slot caches these results.
pub fn keeps<A: Allocator + Copy>(
    clients: &Clients<A>,
    session: u64,
    slot: u32,
    results: &[u8],
) -> bool {
    clients.results(session, slot) == results
}
