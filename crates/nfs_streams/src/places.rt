//! The places of connections. Each has one connection or none.
ghost use Rattle.std.specs.Prelude.{◌≡◌, ◌≤◌, ◌<◌, ℕ, List, length, set, None, IfSome};
ghost use Rattle.std.specs.Bool.{OnTrue, OnFalse};
ghost use Rattle.nfs_hub.specs.Machine.{State};
ghost use Rattle.nfs_streams.specs.Acts.{Act};
ghost use Rattle.nfs_streams.specs.Seats.{place_at, taken};
ghost use Rattle.nfs_streams.specs.declared.serving.Limits.{Limits};
ghost use Rattle.nfs_streams.specs.declared.streams.StreamEnd.{StreamEnd};
ghost use Rattle.nfs_streams.specs.declared.streams.StreamEnd.TheVariants as end;
ghost use Rattle.nfs_streams.specs.Runs.{MOST_PLACES, most_open};
ghost use Rattle.nfs_streams.specs.Stages.{Stage, Left, left_of, Listening, Arriving, Giving, Full, Answering};
ghost use Rattle.nfs_streams.specs.Stages.{Ending, IsClosing, closed_stage, kept_stage, Moves};

use crate::ahead::Ahead;
use crate::peer::{Peer, Turned, answer, give, listen, shut};
use crate::serving::Limits;
use crate::streams::{Arrival, StreamEnd, Streams, Wait};
use call_store::Store;
use nfs_hub::{Clock, Hub, MAX_CONNECTIONS};
use std::alloc::Allocator;
use who_book::Book;

/// The seconds of the clock without bytes read or written after which a connection is quiet.
const QUIET: u64 = 2;

/// The state of admission: which connections may still be opened. Also the store, and what waits for a later turn.
#[derive(Drop)]
pub(crate) struct AcceptState<A: Allocator + Copy> {
    /// The allocator of the connections' memory.
    pub(crate) alloc: A,
    pub(crate) limits: Limits,
    /// The number of connections that may still be opened.
    pub(crate) left: u64,
    /// The stream that arrived last couldn't be taken, or an allocation for it failed.
    pub(crate) refused: bool,
    /// The store of persistent state, if any.
    pub(crate) store: Option<Store>,
    /// The second of the monotonic clock in which a record was last appended, if no mark was appended since.
    pub(crate) unmarked: Option<u64>,
    /// The book that has arrived and isn't loaded yet, because the allocation for its entry in the log failed.
    pub(crate) book: Option<Book>,
}

/// The most connections that may be open at once.
pub(crate) fn most_places(limits: Limits) -> usize
    ensures { result ≡ most_open limits }
{
    limits.places.min(MAX_CONNECTIONS)
}

/// Whether at least `most` places are taken.
fn are_taken<A: Allocator + Copy>(places: &[Option<Peer<A>>], most: usize) -> bool
    ensures many { OnTrue result (most ≤ taken places.now) }
    ensures few { OnFalse result (taken places.now < most) }
{
    let mut count = 0;
    for place in places {
        if place.is_some() {
            count += 1;
        }
    }
    count >= most
}

/// Opens a connection at a free place for the stream that has just arrived. Returns whether the allocations succeeded.
fn admit<A: Allocator + Copy, S: Streams<A>, C: Clock>(
    hub: &mut Hub<A>,
    streams: &mut S,
    clock: &C,
    places: &mut [Option<Peer<A>>],
    index: usize,
    accept: &mut AcceptState<A>,
) -> bool
    requires within { index < length places.old }
    requires few_places { length places.old ≤ MOST_PLACES }
    requires free { place_at places.old index ≡ None }
    requires some { 0 < accept.old.left }
    requires few { taken places.old < most_open accept.old.limits }
    ensures moves { (n : ℕ) → Moves (Arriving n) (Listening n) accept.old.limits
        (record { hub = hub.old; places = places.old; left = left_of accept.old; acts = S.acts streams.old })
        (record { hub = hub.new; places = places.new; left = left_of accept.new; acts = S.acts streams.new }) }
    ensures len { length places.new ≡ length places.old }
    ensures most { accept.new.limits ≡ accept.old.limits }
{
    let Ok(ahead) = Ahead::new(accept.alloc) else {
        accept.refused = true;
        return false;
    };
    let Ok(conn) = hub.connect() else {
        accept.refused = true;
        return false;
    };
    streams.admit(index, conn);
    places[index] = Some(Peer {
        conn,
        since: clock.second(),
        turns: 0,
        fault: None,
        ahead,
    });
    accept.left -= 1;
    true
}

/// Opens a connection at a free place for a stream that has arrived, if the limits allow it. Returns whether it was
/// opened.
fn admit_next<A: Allocator + Copy, S: Streams<A>, C: Clock>(
    hub: &mut Hub<A>,
    streams: &mut S,
    clock: &C,
    places: &mut [Option<Peer<A>>],
    index: usize,
    accept: &mut AcceptState<A>,
) -> bool
    requires within { index < length places.old }
    requires few_places { length places.old ≤ MOST_PLACES }
    requires free { place_at places.old index ≡ None }
    ensures moves { (n : ℕ) → Moves (Listening n) (Listening n) accept.old.limits
        (record { hub = hub.old; places = places.old; left = left_of accept.old; acts = S.acts streams.old })
        (record { hub = hub.new; places = places.new; left = left_of accept.new; acts = S.acts streams.new }) }
    ensures len { length places.new ≡ length places.old }
    ensures most { accept.new.limits ≡ accept.old.limits }
{
    if accept.left == 0 {
        return false;
    }
    if are_taken(places, most_places(accept.limits)) {
        return false;
    }
    match streams.arrival() {
        Arrival::Nobody => {
            accept.refused = false;
            false
        }
        Arrival::Waiting => {
            accept.refused = true;
            false
        }
        Arrival::Here => admit(hub, streams, clock, places, index, accept),
    }
}

/// Reads from the connection of a place, or admits a stream at a free place. Returns whether anything was done.
fn listen_at<A: Allocator + Copy, S: Streams<A>, C: Clock>(
    hub: &mut Hub<A>,
    streams: &mut S,
    clock: &C,
    places: &mut [Option<Peer<A>>],
    index: usize,
    accept: &mut AcceptState<A>,
) -> bool
    requires within { index < length places.old }
    requires few_places { length places.old ≤ MOST_PLACES }
    ensures moves { (n : ℕ) → Moves (Listening n) (Listening n) accept.old.limits
        (record { hub = hub.old; places = places.old; left = left_of accept.old; acts = S.acts streams.old })
        (record { hub = hub.new; places = places.new; left = left_of accept.new; acts = S.acts streams.new }) }
    ensures len { length places.new ≡ length places.old }
    ensures most { accept.new.limits ≡ accept.old.limits }
{
    let Some(peer) = &mut places[index] else {
        return admit_next(hub, streams, clock, places, index, accept);
    };
    match listen(hub, streams, clock, index, peer, accept.limits.reads) {
        Turned::Idle => false,
        Turned::Busy => true,
        Turned::Done => {
            places[index] = None;
            true
        }
    }
}

/// Reads or admits at each place. Returns whether anything was done.
pub(crate) fn listen_all<A: Allocator + Copy, S: Streams<A>, C: Clock>(
    hub: &mut Hub<A>,
    streams: &mut S,
    clock: &C,
    places: &mut [Option<Peer<A>>],
    accept: &mut AcceptState<A>,
) -> bool
    requires { length places.old ≤ MOST_PLACES }
    ensures moves { (n : ℕ) → Moves (Listening n) (Listening n) accept.old.limits
        (record { hub = hub.old; places = places.old; left = left_of accept.old; acts = S.acts streams.old })
        (record { hub = hub.new; places = places.new; left = left_of accept.new; acts = S.acts streams.new }) }
    ensures most { accept.new.limits ≡ accept.old.limits }
{
    let mut busy = false;
    for index in 0..places.len() {
        let done = listen_at(hub, streams, clock, places, index, accept);
        busy |= done;
    }
    busy
}

/// Gives the hub what was read from the stream of a place. `false`: the trail couldn't be kept.
fn give_at<A: Allocator + Copy, S: Streams<A>, C: Clock>(
    hub: &mut Hub<A>,
    streams: &mut S,
    clock: &C,
    places: &mut [Option<Peer<A>>],
    index: usize,
) -> bool
    requires within { index < length places.old }
    ensures moves { (n : ℕ) (left : Left) (limits : Limits) →
        Moves (Giving n) (kept_stage result n) limits
        (record { hub = hub.old; places = places.old; left = left; acts = S.acts streams.old })
        (record { hub = hub.new; places = places.new; left = left; acts = S.acts streams.new }) }
    ensures len { length places.new ≡ length places.old }
{
    let Some(peer) = &mut places[index] else {
        return true;
    };
    give(hub, streams, clock, index, peer)
}

/// Gives the hub what was read from the streams of all places. `false`: the trail couldn't be kept.
pub(crate) fn give_all<A: Allocator + Copy, S: Streams<A>, C: Clock>(
    hub: &mut Hub<A>,
    streams: &mut S,
    clock: &C,
    places: &mut [Option<Peer<A>>],
) -> bool
    ensures moves { (n : ℕ) (left : Left) (limits : Limits) →
        Moves (Giving n) (kept_stage result n) limits
        (record { hub = hub.old; places = places.old; left = left; acts = S.acts streams.old })
        (record { hub = hub.new; places = places.new; left = left; acts = S.acts streams.new }) }
    ensures len { length places.new ≡ length places.old }
{
    for index in 0..places.len() {
        if !give_at(hub, streams, clock, places, index) {
            return false;
        }
    }
    true
}

/// Writes the waiting bytes of the connection of a place. Returns whether anything was done.
fn answer_at<A: Allocator + Copy, S: Streams<A>, C: Clock>(
    hub: &mut Hub<A>,
    streams: &mut S,
    clock: &C,
    places: &mut [Option<Peer<A>>],
    index: usize,
) -> bool
    requires within { index < length places.old }
    ensures moves { (n : ℕ) (left : Left) (limits : Limits) →
        Moves (Answering n) (Answering n) limits
        (record { hub = hub.old; places = places.old; left = left; acts = S.acts streams.old })
        (record { hub = hub.new; places = places.new; left = left; acts = S.acts streams.new }) }
    ensures len { length places.new ≡ length places.old }
{
    let Some(peer) = &mut places[index] else {
        return false;
    };
    match answer(hub, streams, clock, index, peer) {
        Turned::Idle => false,
        Turned::Busy => true,
        Turned::Done => {
            places[index] = None;
            true
        }
    }
}

/// Writes the waiting bytes of each place. Returns whether anything was done.
pub(crate) fn answer_all<A: Allocator + Copy, S: Streams<A>, C: Clock>(
    hub: &mut Hub<A>,
    streams: &mut S,
    clock: &C,
    places: &mut [Option<Peer<A>>],
) -> bool
    ensures { (n : ℕ) (left : Left) (limits : Limits) →
        Moves (Answering n) (Answering n) limits
        (record { hub = hub.old; places = places.old; left = left; acts = S.acts streams.old })
        (record { hub = hub.new; places = places.new; left = left; acts = S.acts streams.new }) }
{
    let mut busy = false;
    for index in 0..places.len() {
        let done = answer_at(hub, streams, clock, places, index);
        busy |= done;
    }
    busy
}

/// Closes the connection of a place, if it has one.
fn shut_at<A: Allocator + Copy, S: Streams<A>>(
    hub: &mut Hub<A>,
    streams: &mut S,
    places: &mut [Option<Peer<A>>],
    index: usize,
    end: StreamEnd,
)
    requires within { index < length places.old }
    ensures moves { (stage : Stage) → IsClosing stage end → (left : Left) (limits : Limits) →
        Moves stage (closed_stage stage) limits
        (record { hub = hub.old; places = places.old; left = left; acts = S.acts streams.old })
        (record { hub = hub.new; places = places.new; left = left; acts = S.acts streams.new }) }
    ensures free { places.new ≡ set places.old index None }
{
    let Some(peer) = &places[index] else {
        return;
    };
    shut(hub, streams, index, peer.conn, end);
    places[index] = None;
}

/// Closes all connections that are still open.
pub(crate) fn shut_all<A: Allocator + Copy, S: Streams<A>>(
    hub: &mut Hub<A>,
    streams: &mut S,
    places: &mut [Option<Peer<A>>],
)
    ensures moves { (acts : List Act) (s : State) (left : Left) (limits : Limits) →
        Moves (Ending acts s) (Ending acts s) limits
        (record { hub = hub.old; places = places.old; left = left; acts = S.acts streams.old })
        (record { hub = hub.new; places = places.new; left = left; acts = S.acts streams.new }) }
    ensures free { (index : ℕ) → place_at places.new index ≡ None }
{
    for index in 0..places.len() {
        shut_at(hub, streams, places, index, StreamEnd::Stopped);
    }
}

/// The place of the connection that has been quiet the longest, if that is long enough to be closed.
fn quietest<A: Allocator + Copy>(places: &[Option<Peer<A>>], now: u64) -> Option<usize>
    ensures { IfSome result (λ index. index < length places.now) }
{
    let mut found = None;
    let mut longest = QUIET;
    for index in 0..places.len() {
        if let Some(peer) = &places[index] {
            let quiet = now.saturating_sub(peer.since);
            if quiet >= longest {
                longest = quiet;
                found = Some(index);
            }
        }
    }
    found
}

/// Closes the connection that has been quiet the longest, if that was long, for the stream that has just arrived while
/// all places are taken. Returns how long the next wait may take.
fn expire_client<A: Allocator + Copy, S: Streams<A>, C: Clock>(
    hub: &mut Hub<A>,
    streams: &mut S,
    clock: &C,
    places: &mut [Option<Peer<A>>],
) -> Wait
    ensures { (n : ℕ) (left : Left) (limits : Limits) →
        Moves (Full n) (Listening n) limits
        (record { hub = hub.old; places = places.old; left = left; acts = S.acts streams.old })
        (record { hub = hub.new; places = places.new; left = left; acts = S.acts streams.new }) }
{
    let Some(index) = quietest(places, clock.second()) else {
        return Wait::Second;
    };
    shut_at(hub, streams, places, index, StreamEnd::Quiet);
    Wait::No
}

/// Makes room for another stream that has arrived, if the limit of open connections is reached and the limits ask for
/// it. It closes the connection that has been quiet the longest, if that was long. Returns how long the next wait may
/// take if nothing else is to be done.
pub(crate) fn make_room<A: Allocator + Copy, S: Streams<A>, C: Clock>(
    hub: &mut Hub<A>,
    streams: &mut S,
    clock: &C,
    places: &mut [Option<Peer<A>>],
    accept: &AcceptState<A>,
) -> Wait
    ensures { (n : ℕ) (left : Left) → Moves (Listening n) (Listening n) accept.now.limits
        (record { hub = hub.old; places = places.old; left = left; acts = S.acts streams.old })
        (record { hub = hub.new; places = places.new; left = left; acts = S.acts streams.new }) }
{
    if accept.left == 0 {
        return Wait::Event;
    }
    if !are_taken(places, most_places(accept.limits)) {
        return if accept.refused {
            Wait::Second
        } else {
            Wait::Event
        };
    }
    if !accept.limits.makes_room {
        return Wait::Event;
    }
    match streams.arrival() {
        Arrival::Nobody => Wait::Event,
        Arrival::Waiting => Wait::Second,
        Arrival::Here => expire_client(hub, streams, clock, places),
    }
}

/// Whether no place is taken, and no further connection may be opened.
pub(crate) fn are_served<A: Allocator + Copy>(
    places: &[Option<Peer<A>>],
    accept: &AcceptState<A>,
) -> bool
    ensures none { OnTrue result (accept.now.left ≡ 0) }
    ensures free { OnTrue result (taken places.now ≡ 0) }
{
    if accept.left != 0 {
        return false;
    }
    !are_taken(places, 1)
}
