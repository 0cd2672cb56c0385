//! Listeners and their sockets, and which of them the system reports as ready.
ghost use Rattle.std.specs.Prelude.{length};
ghost use Rattle.nfs_streams.specs.Acts.{IsWithin};

use mio::event::Event;
use mio::net::{TcpListener, TcpStream};
use mio::{Events, Interest, Poll, Token};
use networks::{Network, admits};
use nfs_hub::MAX_CONNECTIONS;
use nfs_streams::{Arrival, Moved, Wait};
use std::alloc::Global;
use std::io;
use std::io::{ErrorKind, Read, Write};
use std::net::{Net, SocketAddr};
use std::time::Duration;

/// The token of the first listener: a number that no place has. The tokens of the others follow.
const LISTENERS: usize = MAX_CONNECTIONS;

/// The most listeners.
const MOST_LISTENERS: usize = 8;

/// The most events of one wait: one for each listener and each stream.
const EVENTS: usize = MAX_CONNECTIONS + MOST_LISTENERS;

/// The most streams that are closed unread before the other streams have their turn.
const MOST_TURNED_AWAY: u32 = 64;

/// Whether streams wait to be accepted.
#[derive(Clone, Copy, PartialEq, Eq)]
enum Calls {
    /// None waits.
    None,
    /// Some may wait.
    Some,
    /// Many were turned away, and more may wait.
    More,
    /// One waits, and can't be accepted now.
    Stuck,
}

/// A stream, and whether it is ready to be read and written: from the system's event until the stream would block.
#[derive(Drop)]
struct Socket {
    stream: TcpStream,
    readable: bool,
    writable: bool,
}

impl Socket {
    /// Records an event. After a stream has failed or was closed, its next read or write returns that.
    fn note(&mut self, event: &Event) {
        let is_over = event.is_error() || event.is_read_closed() || event.is_write_closed();
        self.readable = self.readable || is_over || event.is_readable();
        self.writable = self.writable || is_over || event.is_writable();
    }
}

/// A listener, and whether streams wait to be accepted.
#[derive(Drop)]
struct Listener {
    listener: TcpListener,
    calls: Calls,
    /// Streams from ports that aren't privileged are closed when they are accepted.
    privileged: bool,
}

impl Listener {
    /// The next stream that is served, if one may wait.
    fn next_stream(&mut self, networks: &[Network]) -> Option<TcpStream> {
        if self.calls == Calls::None {
            None
        } else {
            self.accept(networks)
        }
    }

    /// Accepts the next stream that is served, if one waits. Others are closed when they are accepted, before a byte of
    /// them is read.
    fn accept(&mut self, networks: &[Network]) -> Option<TcpStream> {
        self.calls = Calls::More;
        for _stream in 0..MOST_TURNED_AWAY {
            match self.listener.accept() {
                Ok((stream, from)) => {
                    if admits(networks, self.privileged, &from) {
                        let _ = stream.set_nodelay(true);
                        self.calls = Calls::Some;
                        return Some(stream);
                    }
                }
                Err(error) => {
                    self.calls = if error.kind() == ErrorKind::WouldBlock {
                        Calls::None
                    } else {
                        Calls::Stuck
                    };
                    return None;
                }
            }
        }
        None
    }
}

/// Listeners, and their accepted streams, each at its place.
#[derive(Drop)]
pub(crate) struct Sockets {
    poll: Poll,
    events: Events<Global>,
    listeners: Vec<Listener>,
    /// The listener that accepts the next stream, if one waits there.
    next: usize,
    /// The networks from which streams are served, beside the machine itself.
    networks: Vec<Network>,
    /// A stream that was accepted, and has no place yet.
    accepted: Option<TcpStream>,
    places: Vec<Option<Socket>>,
    /// Why the last wait failed.
    failure: Option<io::Error>,
}

/// The outcome of a read or a write with this result. `ready` becomes false if the stream would block.
fn moved(gave: io::Result<usize>, most: usize, ready: &mut bool) -> Moved
    ensures { IsWithin result most }
{
    match gave {
        Ok(0) => Moved::Over,
        Ok(n) => Moved::Bytes(n.min(most)),
        Err(error) => match error.kind() {
            ErrorKind::WouldBlock => {
                *ready = false;
                Moved::NotYet
            }
            ErrorKind::Interrupted => Moved::NotYet,
            _ => Moved::Failed,
        },
    }
}

/// Free places, as many as connections may be open at once.
fn free_places(alloc: Global) -> io::Result<Vec<Option<Socket>>> {
    let mut places = Vec::new(alloc);
    for _place in 0..MAX_CONNECTIONS {
        places.push(None)?;
    }
    Ok(places)
}

/// How long a wait may take.
fn longest(how: Wait, calls: Calls) -> Option<Duration> {
    match (how, calls) {
        (Wait::No, _) | (_, Calls::More) => Some(Duration::ZERO),
        (Wait::Second, _) | (_, Calls::Stuck) => Some(Duration::from_secs(1)),
        (Wait::Event, Calls::None | Calls::Some) => None,
    }
}

impl Sockets {
    /// No listener, and no stream. Only streams from the machine itself and from these networks will be served.
    pub(crate) fn new(net: &impl Net, alloc: Global, networks: &[Network]) -> io::Result<Self> {
        Ok(Sockets {
            poll: Poll::new(net)?,
            events: Events::with_capacity(alloc, EVENTS)?,
            listeners: Vec::new(alloc),
            next: 0,
            networks: Vec::from_slice(alloc, networks)?,
            accepted: None,
            places: free_places(alloc)?,
            failure: None,
        })
    }

    /// Also listens on an address; if the port's number is 0, on any free port of it. With `privileged` only streams
    /// from ports below 1024 are served there.
    pub(crate) fn listen(
        &mut self,
        net: &impl Net,
        address: SocketAddr,
        privileged: bool,
    ) -> io::Result<()> {
        let token = Token(LISTENERS.saturating_add(self.listeners.len()));
        let mut listener = TcpListener::bind(net, address)?;
        self.poll
            .registry()
            .register(&mut listener, token, Interest::READABLE)?;
        self.listeners.push(Listener {
            listener,
            calls: Calls::None,
            privileged,
        })?;
        Ok(())
    }

    /// The stream of a place.
    fn socket(&mut self, place: usize) -> Option<&mut Socket> {
        self.places.get_mut(place)?.as_mut()
    }

    /// Records the events of the last wait.
    fn note(&mut self) {
        for event in &self.events {
            let place = event.token().0;
            if let Some(Some(socket)) = self.places.get_mut(place) {
                socket.note(event);
            } else if let Some(listener) = self.listeners.get_mut(place.wrapping_sub(LISTENERS)) {
                listener.calls = Calls::Some;
            }
        }
    }

    /// Asks the system for the events of a stream, as the stream of a place. Whether the system agrees.
    fn is_watched(&self, stream: &mut TcpStream, place: usize) -> bool {
        let both = Interest::READABLE | Interest::WRITABLE;
        self.poll
            .registry()
            .register(stream, Token(place), both)
            .is_ok()
    }

    /// Waits until the system reports streams that are ready. `false`: the wait failed.
    pub(crate) fn wait(&mut self, how: Wait) -> bool {
        let calls = if self.accepted.is_some() {
            Calls::None
        } else {
            self.calls()
        };
        match self.poll.poll(&mut self.events, longest(how, calls)) {
            Ok(()) => {
                self.note();
                true
            }
            Err(error) => {
                self.failure = Some(error);
                false
            }
        }
    }

    /// Takes the reason why the last wait failed.
    pub(crate) fn take_failure(&mut self) -> Option<io::Error> {
        self.failure.take()
    }

    /// Whether streams wait to be accepted, by the listener that comes first.
    fn calls(&self) -> Calls {
        for calls in [Calls::More, Calls::Stuck, Calls::Some] {
            if self
                .listeners
                .iter()
                .any(|listener| listener.calls == calls)
            {
                return calls;
            }
        }
        Calls::None
    }

    /// Accepts the next stream that is served, if one waits. The listeners have their turns.
    fn accept(&mut self) {
        let count = self.listeners.len();
        for _listener in 0..count {
            self.accepted = match self.listeners.get_mut(self.next) {
                Some(listener) => listener.next_stream(&self.networks),
                None => None,
            };
            let next = self.next.saturating_add(1);
            self.next = if next < count { next } else { 0 };
            if self.accepted.is_some() {
                return;
            }
        }
    }

    /// Whether an accepted stream has no place yet, or streams wait to be accepted.
    pub(crate) fn arrival(&mut self) -> Arrival {
        if self.accepted.is_none() {
            self.accept();
        }
        match (&self.accepted, self.calls()) {
            (Some(_), _) => Arrival::Here,
            (None, Calls::None) => Arrival::Nobody,
            (None, _) => Arrival::Waiting,
        }
    }

    /// Gives a place to the accepted stream.
    pub(crate) fn admit(&mut self, place: usize) {
        let Some(mut stream) = self.accepted.take() else {
            return;
        };
        if !self.is_watched(&mut stream, place) {
            return;
        }
        if let Some(free) = self.places.get_mut(place) {
            *free = Some(Socket {
                stream,
                readable: false,
                writable: false,
            });
        }
    }

    /// Closes the stream of a place.
    pub(crate) fn close(&mut self, place: usize) {
        if let Some(taken) = self.places.get_mut(place) {
            *taken = None;
        }
    }

    /// Reads available bytes of the stream of a place, as many as fit.
    pub(crate) fn read(&mut self, place: usize, buf: &mut [u8]) -> Moved
        ensures { IsWithin result (length buf.new) }
    {
        let Some(socket) = self.socket(place) else {
            return Moved::Failed;
        };
        if !socket.readable {
            return Moved::NotYet;
        }
        let most = buf.len();
        moved(socket.stream.read(buf), most, &mut socket.readable)
    }

    /// Writes a prefix of the bytes to the stream of a place, as many as it accepts.
    pub(crate) fn write(&mut self, place: usize, bytes: &[u8]) -> Moved
        ensures { IsWithin result (length bytes.now) }
    {
        let Some(socket) = self.socket(place) else {
            return Moved::Failed;
        };
        if !socket.writable {
            return Moved::NotYet;
        }
        moved(
            socket.stream.write(bytes),
            bytes.len(),
            &mut socket.writable,
        )
    }
}
