//! One connection and its stream.
ghost use Rattle.std.specs.Prelude.{◌≡◌, ◌≢◌, ◌≤◌, ◌<◌, ◌-◌, ◌⊎◌, ℕ, List, [], ◌∷◌, Option, Some, None, length};
ghost use Rattle.std.specs.Bool.{OnFalse};
ghost use Rattle.nfs_hub.specs.Machine.{Close};
ghost use Rattle.nfs_hub.specs.Hub.{Goes};
ghost use Rattle.nfs_streams.specs.declared.serving.Limits.{Limits};
ghost use Rattle.nfs_streams.specs.Acts.{Act, Adds, Closed};
ghost use Rattle.nfs_streams.specs.Seats.{AreWaiting, FewAreWaiting};
ghost use Rattle.nfs_streams.specs.Stages.{Listening, Giving, Piecing, Unkept, Answering, Changes, StreamEnds};
ghost use Rattle.nfs_streams.specs.Stages.{broken_end, given_stage, kept_stage, stays};

use crate::ahead::Ahead;
use crate::streams::{Moved, StreamEnd, Streams};
use nfs_hub::{Clock, ConnId, Hub, HubFault};
use std::alloc::Allocator;

/// The most bytes of a piece. A piece is a part of what was read from a connection.
const PIECE: usize = 4096;

/// The most bytes of waiting replies with which a piece may begin.
const MAX_WAITING: usize = 4096;

/// The most bytes of one write.
const MAX_WRITTEN: usize = 131_072;

/// A connection at a place.
#[derive(Drop)]
pub(crate) struct Peer<A: Allocator + Copy> {
    pub(crate) conn: ConnId,
    /// The second of the monotonic clock in which the connection was admitted, or in which bytes were last read or
    /// written.
    pub(crate) since: u64,
    /// The turns of the connection so far: reads of its stream that returned bytes.
    pub(crate) turns: u64,
    /// Why the hub takes no more bytes of the connection.
    pub(crate) fault: Option<HubFault>,
    /// The bytes that were read from its stream and aren't given yet.
    pub(crate) ahead: Ahead<A>,
}

/// The result of a connection's part of a turn.
#[derive(Clone, Copy)]
pub(crate) enum Turned {
    /// No bytes were read or written.
    Idle,
    /// Bytes were read or written, or have to be given.
    Busy,
    /// The connection is closed.
    Done,
}

/// The bytes of a connection that wait to be written.
fn waiting<A: Allocator + Copy>(hub: &Hub<A>, conn: ConnId) -> &[u8]
    ensures { AreWaiting hub.now conn result.now }
{
    hub.pending(conn).unwrap_or(&[])
}

/// Whether bytes of a connection wait to be written.
#[tactic(auto, using(crate::proofs::Hubs::drained))]
fn is_waiting<A: Allocator + Copy>(hub: &Hub<A>, conn: ConnId) -> bool
    ensures { OnFalse result (AreWaiting hub.now conn []) }
{
    !waiting(hub, conn).is_empty()
}

/// The end of a connection whose stream has ended.
fn stream_end<A: Allocator + Copy>(hub: &Hub<A>, conn: ConnId) -> StreamEnd
    ensures { StreamEnds result hub.now conn }
{
    if hub.is_inside(conn) {
        return StreamEnd::Inside;
    }
    StreamEnd::Ended
}

/// The end of a connection that the hub broke.
fn fault_end(fault: HubFault) -> StreamEnd
    ensures { result ≡ broken_end fault }
{
    match fault {
        HubFault::Broken => StreamEnd::Broken,
        HubFault::Memory | HubFault::NoSuch | HubFault::TooMany | HubFault::Exhausted => {
            StreamEnd::Memory
        }
    }
}

/// Closes the connection of a place and its stream.
pub(crate) fn shut<A: Allocator + Copy, S: Streams<A>>(
    hub: &mut Hub<A>,
    streams: &mut S,
    place: usize,
    conn: ConnId,
    end: StreamEnd,
)
    ensures goes { Goes (Close conn) hub.old hub.new }
    ensures acts_added { Adds (S.acts streams.old) (S.acts streams.new) (Closed place end ∷ []) }
{
    streams.close(place, end);
    let _ = hub.close(conn);
}

/// Reads from the stream of a place, if no bytes wait to be written, and everything that was read is given. Closes the
/// connection if the stream has ended or failed, if the connection is broken, or if it has had `most` turns.
pub(crate) fn listen<A: Allocator + Copy, S: Streams<A>, C: Clock>(
    hub: &mut Hub<A>,
    streams: &mut S,
    clock: &C,
    place: usize,
    peer: &mut Peer<A>,
    most: u64,
) -> Turned
    ensures { (n : ℕ) (limits : Limits) → limits.reads ≡ most →
        Changes (Listening n) (Listening n) limits place
        (record { hub = hub.old; peer = Some peer.old; acts = S.acts streams.old })
        (record { hub = hub.new; peer = stays result peer.new; acts = S.acts streams.new }) }
{
    if is_waiting(hub, peer.conn) {
        return Turned::Idle;
    }
    if let Some(fault) = peer.fault {
        shut(hub, streams, place, peer.conn, fault_end(fault));
        return Turned::Done;
    }
    if !peer.ahead.is_empty() {
        // The bytes are given in this turn. The next turn therefore doesn't wait.
        return Turned::Busy;
    }
    if peer.turns >= most {
        shut(hub, streams, place, peer.conn, StreamEnd::Turns);
        return Turned::Done;
    }
    match peer.ahead.read(streams, place) {
        Moved::Bytes(_) => {
            peer.turns += 1;
            peer.since = clock.second();
            Turned::Busy
        }
        Moved::NotYet => Turned::Idle,
        Moved::Over => {
            let end = stream_end(hub, peer.conn);
            shut(hub, streams, place, peer.conn, end);
            Turned::Done
        }
        Moved::Failed => {
            shut(hub, streams, place, peer.conn, StreamEnd::Read);
            Turned::Done
        }
    }
}

/// How many bytes may be given. If few bytes wait to be written, a piece begins. Else this is what remains of the piece
/// that was begun.
#[tactic(auto, using(crate::proofs::Hubs::few))]
fn room<A: Allocator + Copy>(hub: &Hub<A>, conn: ConnId, left: usize) -> usize
    ensures { (result ≡ left) ⊎ ((result ≡ 4096) × FewAreWaiting hub.now conn) }
{
    if waiting(hub, conn).len() > MAX_WAITING {
        return left;
    }
    PIECE
}

/// Gives the hub at most `most` of the bytes that were read, up to the end of the first record in them. Returns their
/// number.
fn feed_prefix<A: Allocator + Copy, C: Clock>(
    hub: &mut Hub<A>,
    clock: &C,
    peer: &mut Peer<A>,
    most: usize,
) -> usize
    requires whole { peer.old.fault ≡ None }
    ensures gives { (n place : ℕ) (limits : Limits) (now : Option (List Act)) →
        Changes (Piecing n place most) (Unkept n place (most - result)) limits place
        (record { hub = hub.old; peer = Some peer.old; acts = now })
        (record { hub = hub.new; peer = Some peer.new; acts = now }) }
    ensures within { result ≤ most }
    ensures further { peer.old.ahead ≢ [] → 0 < most → length peer.new.ahead < length peer.old.ahead }
{
    let prefix = peer.ahead.prefix(most);
    let len = prefix.len();
    match hub.feed_record(peer.conn, prefix, clock.now()) {
        Ok(n) => {
            peer.ahead.skip(n);
            n
        }
        Err(fault) => {
            peer.fault = Some(fault);
            peer.ahead.skip(len);
            len
        }
    }
}

/// Gives at most `most` bytes, up to the end of the first record in them, and keeps the trail. Returns how many of
/// `most` remain. `None`: the trail couldn't be kept.
fn give_prefix<A: Allocator + Copy, S: Streams<A>, C: Clock>(
    hub: &mut Hub<A>,
    streams: &mut S,
    clock: &C,
    place: usize,
    peer: &mut Peer<A>,
    most: usize,
) -> Option<usize>
    requires whole { peer.old.fault ≡ None }
    ensures moves { (n : ℕ) (limits : Limits) →
        Changes (Piecing n place most) (given_stage result n place) limits place
        (record { hub = hub.old; peer = Some peer.old; acts = S.acts streams.old })
        (record { hub = hub.new; peer = Some peer.new; acts = S.acts streams.new }) }
    ensures further { peer.old.ahead ≢ [] → 0 < most → length peer.new.ahead < length peer.old.ahead }
{
    let n = feed_prefix(hub, clock, peer, most);
    let kept = streams.keep(hub.server());
    if !kept {
        return None;
    }
    Some(most - n)
}

/// Gives the hub the bytes that were read from the stream of a place, one record after the other. The pieces have at
/// most 4,096 bytes, and are given while at most 4,096 bytes of replies wait. The trail is kept after each record.
/// `false`: it couldn't be kept.
pub(crate) fn give<A: Allocator + Copy, S: Streams<A>, C: Clock>(
    hub: &mut Hub<A>,
    streams: &mut S,
    clock: &C,
    place: usize,
    peer: &mut Peer<A>,
) -> bool
    ensures { (n : ℕ) (limits : Limits) → Changes (Giving n) (kept_stage result n) limits place
        (record { hub = hub.old; peer = Some peer.old; acts = S.acts streams.old })
        (record { hub = hub.new; peer = Some peer.new; acts = S.acts streams.new }) }
{
    let mut left = 0;
    while !peer.ahead.is_empty() {
        if peer.fault.is_some() {
            return true;
        }
        let most = room(hub, peer.conn, left);
        if most == 0 {
            return true;
        }
        let Some(rest) = give_prefix(hub, streams, clock, place, peer, most) else {
            return false;
        };
        left = rest;
    }
    true
}

/// Writes at most 131,072 of the waiting bytes, as far as the stream takes them at once. Closes the connection if the
/// write fails.
pub(crate) fn answer<A: Allocator + Copy, S: Streams<A>, C: Clock>(
    hub: &mut Hub<A>,
    streams: &mut S,
    clock: &C,
    place: usize,
    peer: &mut Peer<A>,
) -> Turned
    ensures { (n : ℕ) (limits : Limits) → Changes (Answering n) (Answering n) limits place
        (record { hub = hub.old; peer = Some peer.old; acts = S.acts streams.old })
        (record { hub = hub.new; peer = stays result peer.new; acts = S.acts streams.new }) }
{
    let bytes = waiting(hub, peer.conn);
    if bytes.is_empty() {
        return Turned::Idle;
    }
    match Streams::write(streams, place, &bytes[..bytes.len().min(MAX_WRITTEN)]) {
        Moved::Bytes(n) => {
            let _ = hub.consume(peer.conn, n);
            peer.since = clock.second();
            Turned::Busy
        }
        Moved::NotYet => Turned::Idle,
        Moved::Over | Moved::Failed => {
            // Nothing more can be told.
            shut(hub, streams, place, peer.conn, StreamEnd::Write);
            Turned::Done
        }
    }
}
