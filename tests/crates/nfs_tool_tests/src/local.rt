//! A connection of a hub as a transport, with the bytes of its calls by hand (RFC 5531, sections 9 and 11).

use crate::plain::{
    Deed, changed_at, close, connect, end, open, put, root_alone, run_over, sample,
};
use crate::replies::{BROKEN, DONE, NULL};
use nfs_hub::{ConnId, Hub, HubFault};
use nfs_tool::{Local, ToolFault, Transport};
use std::alloc::Global;
use std::hash::RandomState;
use std::process::Abort;
use std::test::Fail;

/// Whether the record after a call is the reply of procedure 0; or the fault.
type Outcomes = Result<bool, ToolFault>;

/// Sends bytes as a call over a connection.
fn sent(alloc: Global, hub: &mut Hub, conn: ConnId, bytes: &[u8]) -> Outcomes {
    let mut local = Local::new(hub, conn, 5);
    match local.talk(alloc, bytes) {
        Ok(content) => Ok(content.as_slice() == &DONE[4..]),
        Err(fault) => Err(fault),
    }
}

/// Sends calls over two new connections in turn, and no bytes over the first.
fn apart(alloc: Global, hub: &mut Hub) -> Result<[Outcomes; 4], HubFault> {
    let first = connect(hub)?;
    let second = connect(hub)?;
    Ok([
        sent(alloc, hub, first, NULL),
        sent(alloc, hub, second, NULL),
        sent(alloc, hub, first, NULL),
        sent(alloc, hub, first, &[]),
    ])
}

/// Calls of two new connections.
#[derive(Clone, Copy)]
struct TwoCallers {
    alloc: Global,
    seen: Result<[Outcomes; 4], HubFault>,
}

impl Deed for TwoCallers {
    fn run(&mut self, hub: &mut Hub) {
        self.seen = apart(self.alloc, hub);
    }
}

/// Each call has its reply, and no byte of it is left. Without a call nothing is pending.
#[test]
fn each_call_has_its_reply(rt: HostRuntime) -> Result<(), Fail> {
    let alloc = rt.alloc();
    let mut calls = TwoCallers {
        alloc,
        seen: Err(HubFault::Memory),
    };
    run_over(sample(alloc, RandomState::new(&rt)?), &mut calls)?;
    assert!(rt; calls.seen == Ok([Ok(true), Ok(true), Ok(true), Err(ToolFault::Read)]));
    Ok(())
}

/// Sends a call in two pieces, each as one call.
fn call_in_halves(alloc: Global, hub: &mut Hub) -> Result<[Outcomes; 2], HubFault> {
    let conn = connect(hub)?;
    Ok([
        sent(alloc, hub, conn, &NULL[..7]),
        sent(alloc, hub, conn, &NULL[7..]),
    ])
}

/// The two halves of a call on a new connection.
#[derive(Clone, Copy)]
struct Halves {
    alloc: Global,
    seen: Result<[Outcomes; 2], HubFault>,
}

impl Deed for Halves {
    fn run(&mut self, hub: &mut Hub) {
        self.seen = call_in_halves(self.alloc, hub);
    }
}

/// A reply comes only after its complete call.
#[test]
fn a_reply_comes_after_its_whole_call(rt: HostRuntime) -> Result<(), Fail> {
    let alloc = rt.alloc();
    let mut call = Halves {
        alloc,
        seen: Err(HubFault::Memory),
    };
    run_over(sample(alloc, RandomState::new(&rt)?), &mut call)?;
    assert!(rt; call.seen == Ok([Err(ToolFault::Read), Ok(true)]));
    Ok(())
}

/// Sends bytes that break a connection, twice.
fn broken(alloc: Global, hub: &mut Hub) -> Result<[Outcomes; 2], HubFault> {
    let conn = connect(hub)?;
    Ok([
        sent(alloc, hub, conn, BROKEN),
        sent(alloc, hub, conn, BROKEN),
    ])
}

/// Bytes that break a new connection.
#[derive(Clone, Copy)]
struct BreakingBytes {
    alloc: Global,
    seen: Result<[Outcomes; 2], HubFault>,
}

impl Deed for BreakingBytes {
    fn run(&mut self, hub: &mut Hub) {
        self.seen = broken(self.alloc, hub);
    }
}

/// A record above 131,072 bytes breaks the connection, which then takes no call.
#[test]
fn a_broken_connection_takes_nothing(rt: HostRuntime) -> Result<(), Fail> {
    let alloc = rt.alloc();
    let mut bytes = BreakingBytes {
        alloc,
        seen: Err(HubFault::Memory),
    };
    run_over(sample(alloc, RandomState::new(&rt)?), &mut bytes)?;
    assert!(rt; bytes.seen == Ok([Err(ToolFault::Write), Err(ToolFault::Write)]));
    Ok(())
}

/// Sends a call over a connection that is closed.
fn call_after_close(alloc: Global, hub: &mut Hub) -> Result<Outcomes, HubFault> {
    let conn = connect(hub)?;
    close(hub, conn)?;
    Ok(sent(alloc, hub, conn, NULL))
}

/// A call on a connection that is closed.
#[derive(Clone, Copy)]
struct Closed {
    alloc: Global,
    seen: Result<Outcomes, HubFault>,
}

impl Deed for Closed {
    fn run(&mut self, hub: &mut Hub) {
        self.seen = call_after_close(self.alloc, hub);
    }
}

#[test]
fn a_closed_connection_is_none(rt: HostRuntime) -> Result<(), Fail> {
    let alloc = rt.alloc();
    let mut none = Closed {
        alloc,
        seen: Err(HubFault::Memory),
    };
    run_over(sample(alloc, RandomState::new(&rt)?), &mut none)?;
    assert!(rt; none.seen == Ok(Err(ToolFault::Write)));
    Ok(())
}

/// Opens a client at a moment, which puts a file and ends.
fn put_at(alloc: Global, stream: Local<'_>) -> Result<(), ToolFault> {
    match open(alloc, stream) {
        Ok(mut client) => match put(&mut client) {
            Ok(()) => end(&mut client),
            Err(fault) => Err(fault),
        },
        Err(fault) => Err(fault),
    }
}

/// The outcome of putting a file at second 77, and the second of its last change.
type Put = (Result<(), ToolFault>, Option<i64>);

fn put_on_new(alloc: Global, hub: &mut Hub) -> Result<Put, HubFault> {
    let conn = connect(hub)?;
    let outcome = put_at(alloc, Local::new(hub, conn, 77));
    Ok((outcome, changed_at(hub, 2)))
}

/// A file that is put on a new connection.
#[derive(Clone, Copy)]
struct FilePut {
    alloc: Global,
    seen: Result<Put, HubFault>,
}

impl Deed for FilePut {
    fn run(&mut self, hub: &mut Hub) {
        self.seen = put_on_new(self.alloc, hub);
    }
}

#[test]
fn each_call_has_the_moment(rt: HostRuntime) -> Result<(), Fail> {
    let alloc = rt.alloc();
    let mut file = FilePut {
        alloc,
        seen: Err(HubFault::Memory),
    };
    run_over(root_alone(alloc, RandomState::new(&rt)?), &mut file)?;
    assert!(rt; file.seen == Ok((Ok(()), Some(77))));
    Ok(())
}
