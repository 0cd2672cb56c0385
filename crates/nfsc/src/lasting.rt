//! The transport of a client's calls. That of a batch outlives a restart of the server.
ghost use Rattle.std.specs.Prelude.{◌≡◌, MatchResult};
ghost use Rattle.nfs_client.specs.declared.fault.ToolFault.TheVariants.{Memory};

use crate::fault::Fault;
use crate::grouped::Grouped;
use crate::link::Link;
use crate::persistent::{asking_to_persist, is_granted, is_in_session};
use nfs_client::{ToolFault, Transport};
use std::alloc::{Allocator, Global};
use std::cell::Cell;
use std::io::ErrorKind;
use std::net::{Net, SocketAddr, TcpStream};
use std::rt::Clock;
use std::thread;
use std::time::{Duration, Instant};

/// The seconds in which a broken connection is made again.
const SECONDS: u64 = 10;

/// The milliseconds between two attempts.
const PAUSE: u64 = 250;

/// The most attempts.
const MOST_ATTEMPTS: u32 = 40;

/// The server, and how it is called.
#[derive(Drop)]
pub(crate) struct Peer<'a, R> {
    pub(crate) rt: &'a R,
    pub(crate) alloc: Global,
    pub(crate) server: SocketAddr,
    /// The time that a reply may take.
    pub(crate) patience: Duration,
    /// The groups of the caller beside its first.
    pub(crate) groups: &'a [u32],
    /// Set if a reply is late.
    pub(crate) is_late: &'a Cell<bool>,
}

/// Whether the connection of a session is made again if it breaks.
#[derive(Clone, Copy, PartialEq, Eq)]
pub(crate) enum Stay {
    /// It isn't.
    Never,
    /// A persistent session is asked for. The connection is made again only once the server has
    /// granted it.
    Asked,
    /// The server has granted a persistent session.
    Granted,
}

/// A transport to the server. If the connection of a persistent session breaks, it is made again,
/// and the call is sent again as it was. Its slot and its sequence ID are the same. The server
/// therefore runs it at most once.
#[derive(Drop)]
pub(crate) struct Lasting<'a, R> {
    peer: Peer<'a, R>,
    calls: Grouped<'a, Link<'a, R>>,
    stay: Stay,
}

/// Connects to the server. A call isn't held back to be sent with the next call.
fn connect<R: Net<Stream = TcpStream>>(
    rt: &R,
    server: SocketAddr,
    limit: Duration,
) -> Result<TcpStream, Fault> {
    match TcpStream::connect_timeout(rt, &server, limit) {
        Ok(stream) => {
            let _ = stream.set_nodelay(true);
            Ok(stream)
        }
        Err(error) if matches!(error.kind(), ErrorKind::TimedOut) => Err(Fault::LateSocket),
        Err(_) => Err(Fault::Socket),
    }
}

impl<'a, R: Net<Stream = TcpStream> + Clock + Eprint> Peer<'a, R> {
    /// A stream to the server, which has to accept the connection within a time.
    fn stream(&self, limit: Duration) -> Result<Grouped<'a, Link<'a, R>>, Fault> {
        let stream = connect(self.rt, self.server, limit)?;
        let link = Link::new(self.rt, stream, self.patience, self.is_late);
        Ok(Grouped::new(self.alloc, link, self.groups))
    }

    /// The rest of the time for a broken connection. It is a pause if the clock can't be read.
    fn left(&self, begun: Option<Instant>) -> Duration {
        match (begun, Instant::now(self.rt)) {
            (Some(begun), Ok(now)) => {
                Duration::from_secs(SECONDS).saturating_sub(now.duration_since(begun))
            }
            _ => Duration::from_millis(PAUSE),
        }
    }

    /// Reports that the connection is made again.
    fn report(&self) {
        let (rt, server) = (self.rt, self.server);
        let _ = eprintln!(rt;
            "nfsc: the connection to {server} broke; connecting again, for at most {SECONDS} seconds"
        );
    }
}

impl<'a, R: Net<Stream = TcpStream> + Clock + Eprint> Lasting<'a, R> {
    ghost use Rattle.std.specs.Prelude.{IfErr};
    ghost use Rattle.nfs_client.specs.Talking.{IsTalkFault};

    /// Connects to the server.
    pub(crate) fn open(peer: Peer<'a, R>, stay: Stay) -> Result<Self, Fault> {
        let calls = peer.stream(peer.patience)?;
        Ok(Lasting { peer, calls, stay })
    }

    /// Sends a call of a persistent session again over a new connection, until a reply comes.
    /// `Read`: none comes in time.
    fn talk_again(&mut self, record: &[u8]) -> Result<Vec<u8>, ToolFault>
        ensures fault { IfErr result IsTalkFault }
    {
        self.peer.report();
        let begun = Instant::now(self.peer.rt).ok();
        for _attempt in 0..MOST_ATTEMPTS {
            thread::sleep(self.peer.rt, Duration::from_millis(PAUSE));
            let left = self.peer.left(begun);
            if left.as_millis() == 0 {
                return Err(ToolFault::Read);
            }
            if let Ok(calls) = self.peer.stream(left) {
                self.calls = calls;
                match self.calls.talk(self.peer.alloc, record) {
                    Err(ToolFault::Read | ToolFault::Write) if !self.peer.is_late.get() => {}
                    outcome => return outcome,
                }
            }
        }
        Err(ToolFault::Read)
    }

    /// Sends a call of a session that is to persist, and again if the connection breaks.
    fn talk_on(&mut self, record: &[u8]) -> Result<Vec<u8>, ToolFault>
        ensures fault { IfErr result IsTalkFault }
    {
        match self.calls.talk(self.peer.alloc, record) {
            Err(ToolFault::Read | ToolFault::Write)
                if self.stay == Stay::Granted
                    && !self.peer.is_late.get()
                    && is_in_session(record) => self.talk_again(record),
            outcome => outcome,
        }
    }

    /// Sends a call. A CREATE_SESSION asks for a persistent session.
    fn ask(&mut self, record: &[u8]) -> Result<Vec<u8>, ToolFault>
        ensures fault { IfErr result IsTalkFault }
    {
        let Ok(asking) = asking_to_persist(self.peer.alloc, record) else {
            return Err(ToolFault::Memory);
        };
        let Some(asking) = asking else {
            return self.talk_on(record);
        };
        let outcome = self.talk_on(asking.as_slice());
        if let Ok(content) = &outcome {
            if is_granted(record, content.as_slice()) {
                self.stay = Stay::Granted;
            }
        }
        outcome
    }
}

/// A copy of a record.
fn copied<A: Allocator>(alloc: A, content: &[u8]) -> Result<Vec<u8, A>, ToolFault>
    ensures { MatchResult result (λ own. own.items ≡ content.now) (λ fault. fault ≡ Memory) }
{
    let mut own = Vec::new(alloc);
    match own.extend_from_slice(content) {
        Ok(()) => Ok(own),
        Err(_) => Err(ToolFault::Memory),
    }
}

impl<R: Net<Stream = TcpStream> + Clock + Eprint> Transport for Lasting<'_, R> {
    // nothing is stated of what a socket carries
    ghost talks = { λ _ _ _ _. Unit {0} };

    /// Sends a call, and returns the record received after it.
    fn talk<A: Allocator>(&mut self, alloc: A, call: &[u8]) -> Result<Vec<u8, A>, ToolFault> {
        match self.stay {
            Stay::Never => self.calls.talk(alloc, call),
            Stay::Asked | Stay::Granted => match self.ask(call) {
                Ok(content) => copied(alloc, content.as_slice()),
                Err(fault) => Err(fault),
            },
        }
    }
}
