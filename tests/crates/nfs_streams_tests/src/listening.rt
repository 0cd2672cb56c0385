//! A server that listens on 127.0.0.1, by the sockets of `nfsd`, in one process with its peers, and without a thread.
//! Each peer connects, writes, and ends its side of the stream; then they are served; and then they read.

use crate::bytes::{Bytes, calls_of, makes_of, replies_to};
use crate::memory::Time;
use crate::plain::{AMPLE, bare};
use crate::sockets::Sockets;
use compound_run::Server;
use nfs_hub::{ConnId, Hub};
use nfs_streams::{AllEnd, Arrival, Limits, Moved, StreamEnd, Streams, Wait, serve_all};
use std::alloc::{Allocator, Global};
use std::hash::RandomState;
use std::io;
use std::io::{Read, Write};
use std::net::{Ipv4Addr, Shutdown, SocketAddr, SocketAddrV4, TcpListener, TcpStream};
use std::test::Fail;
use store_journal::{Disk, LoadFault, Slot};
use who_book::Book;

/// Sockets, and how their streams ended, in turn.
#[derive(Drop)]
struct Received {
    sockets: Sockets,
    ends: Vec<StreamEnd>,
}

/// No store exists.
impl Disk for Received {
    fn load_current<A: Allocator>(&mut self, _alloc: A) -> Result<Option<Vec<u8, A>>, LoadFault> {
        Err(LoadFault::Failed)
    }

    fn load<A: Allocator>(&mut self, _alloc: A, _slot: Slot) -> Result<Vec<u8, A>, LoadFault> {
        Err(LoadFault::Failed)
    }

    fn write(&mut self, _slot: Slot, _at: u64, _prefix: &[u8], _body: &[u8], _back: &[u8]) -> bool {
        false
    }

    fn sync(&mut self, _slot: Slot) -> bool {
        false
    }

    fn turn(&mut self, _bytes: &[u8]) -> bool {
        false
    }
}

impl Streams<Global> for Received {
    ghost disk_acts = { λ old new act it. tt };

    fn wait(&mut self, how: Wait) -> bool {
        self.sockets.wait(how)
    }

    fn book(&mut self) -> Option<Book> {
        None
    }

    fn arrival(&mut self) -> Arrival {
        self.sockets.arrival()
    }

    fn admit(&mut self, place: usize, _conn: ConnId) {
        self.sockets.admit(place);
    }

    fn close(&mut self, place: usize, end: StreamEnd) {
        self.sockets.close(place);
        let _ = self.ends.push(end);
    }

    fn read(&mut self, place: usize, buf: &mut [u8]) -> Moved {
        self.sockets.read(place, buf)
    }

    fn write(&mut self, place: usize, bytes: &[u8]) -> Moved {
        self.sockets.write(place, bytes)
    }

    fn keep(&mut self, _server: &Server) -> bool {
        true
    }
}

/// A free port of 127.0.0.1.
fn free_port(rt: &HostRuntime) -> io::Result<u16> {
    let listener = TcpListener::bind(rt, "127.0.0.1:0")?;
    Ok(listener.local_addr()?.port())
}

/// A peer that has connected, written these bytes, and ended its side of the stream.
fn peer(rt: &HostRuntime, port: u16, bytes: &[u8]) -> io::Result<TcpStream> {
    let mut stream = TcpStream::connect(rt, ("127.0.0.1", port))?;
    stream.write_all(bytes)?;
    stream.shutdown(Shutdown::Write)?;
    Ok(stream)
}

/// The bytes that a peer receives, up to the end.
fn received_bytes(alloc: Global, stream: &mut TcpStream) -> io::Result<Vec<u8>> {
    let mut bytes = Vec::new(alloc);
    stream.read_to_end(&mut bytes)?;
    Ok(bytes)
}

/// The bytes without the last ten.
fn cut(mut bytes: Bytes) -> Bytes {
    bytes.drop_last(10);
    bytes
}

/// The bytes that a peer writes and receives, and how its connection ends.
type Peer = (Bytes, Bytes, StreamEnd);

/// Peers that complete their calls, stop inside a call after a complete one, send bytes that break their connection,
/// send nothing, and are refused.
fn peers() -> [Peer; 5] {
    [
        (calls_of(1, 2, false), replies_to(1, "11"), StreamEnd::Ended),
        (
            cut(calls_of(2, 2, false)),
            replies_to(2, "1"),
            StreamEnd::Inside,
        ),
        (calls_of(3, 1, true), replies_to(3, "1"), StreamEnd::Broken),
        (Bytes::none(), Bytes::none(), StreamEnd::Ended),
        (calls_of(5, 1, false), replies_to(5, "1"), StreamEnd::Ended),
    ]
}

/// Serves one connection for each peer, in `places` places.
fn serve(alloc: Global, hub: &mut Hub, streams: &mut Received, places: usize) -> AllEnd {
    let limits = Limits {
        places,
        connections: peers().len() as u64,
        makes_room: false,
        ..AMPLE
    };
    serve_all(alloc, hub, streams, &Time::new(), None, limits)
}

/// Serves the peers in `places` places. Returns the end of serving, how the connections ended in turn, and what each
/// peer received.
fn served(
    rt: &HostRuntime,
    alloc: Global,
    places: usize,
) -> Result<(AllEnd, Vec<StreamEnd>, Vec<Vec<u8>>), Fail> {
    let port = free_port(rt)?;
    let address = SocketAddr::V4(SocketAddrV4::new(Ipv4Addr::LOCALHOST, port));
    let mut sockets = Sockets::new(rt, alloc, &[])?;
    sockets.listen(rt, address, false)?;
    let mut streams = Received {
        sockets,
        ends: Vec::new(alloc),
    };
    let mut all = Vec::new(alloc);
    for (reads, _, _) in peers() {
        all.push(peer(rt, port, reads.as_slice())?)?;
    }
    let mut hub = bare(alloc, RandomState::new(rt)?)?;
    let end = serve(alloc, &mut hub, &mut streams, places);
    let mut sent = Vec::new(alloc);
    for stream in &mut all {
        sent.push(received_bytes(alloc, stream)?)?;
    }
    Ok((end, streams.ends, sent))
}

/// One after the other, and all at once: the connections are accepted in the order in which the peers connected.
#[test]
fn peers_on_the_loopback_are_served(rt: HostRuntime) -> Result<(), Fail> {
    for places in [1, 16] {
        let (end, ends, sent) = served(&rt, rt.alloc(), places)?;
        assert!(rt; end == AllEnd::Served, "{places}: {end:?}");
        assert_eq!(rt; sent.len(), peers().len());
        for (place, (_, receives, _)) in peers().iter().enumerate() {
            assert!(rt;
                sent[place].as_slice() == receives.as_slice(),
                "{places}: peer {place}"
            );
        }
        if places == 1 {
            for (place, (_, _, wanted)) in peers().iter().enumerate() {
                assert!(rt; ends[place] == *wanted, "peer {place}: {:?}", ends[place]);
            }
        }
    }
    Ok(())
}
