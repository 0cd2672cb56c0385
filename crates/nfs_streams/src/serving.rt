//! Serving all streams, one turn after another.
ghost use Rattle.std.specs.Bool.{OnTrue};
ghost use Rattle.std.specs.Prelude.{◌≡◌, ◌≤◌, ℕ, List, Option, None, length, IfOk};
ghost use Rattle.store_journal.specs.Disk.{Act as DiskAct};
ghost use Rattle.store_journal.specs.Passage.{passage};
ghost use Rattle.nfs_hub.specs.Answer.{Served as ServedState};
ghost use Rattle.nfs_hub.specs.Machine.{Event};
ghost use Rattle.nfs_hub.specs.Hub.{IsUnchanged, IsHistoryOf};
ghost use Rattle.nfs_streams.specs.Acts.{Act};
ghost use Rattle.nfs_streams.specs.Runs.{MOST_PLACES};
ghost use Rattle.nfs_streams.specs.Seats.{taken};
ghost use Rattle.nfs_streams.specs.Keeping.{IsOpen, KeepsLog, MarksStore};
ghost use Rattle.nfs_streams.specs.Stages.{BookLoads, Left, left_of, Listening, Trailing, Answering, Moves, RunGives};
ghost use Rattle.nfs_streams.specs.Stages.{given_all_stage, looked_stage, marked_stage, stored_stage, turned_stage};
ghost use Rattle.nfs_streams.specs.All.{ServesAll};

use crate::peer::Peer;
use crate::places::{
    AcceptState, answer_all, are_served, give_all, listen_all, make_room, most_places, shut_all,
};
use crate::streams::{Streams, Wait};
use call_store::Store;
use nfs_hub::{Clock, Hub, HubFault};
use std::alloc::{AllocError, Allocator};
use who_book::Book;

/// The limits of serving.
#[derive(Clone, Copy)]
pub struct Limits {
    /// The most connections that are open at once. More than 256 count as 256. The hub refuses what is
    /// above the limit of its profile ([`Hub::most_connections`]): then the stream that arrived waits.
    pub places: usize,
    /// The total number of connections that are opened.
    pub connections: u64,
    /// The turns of each connection: reads of its stream that return bytes.
    pub reads: u64,
    /// The total number of waits.
    pub turns: u64,
    /// Whether a client that was silent for longer than a lease is expired when many clients are known
    /// ([`Hub::expire_client`]).
    pub leases: bool,
    /// Whether a quiet connection is closed for another stream that arrives when the limit of open connections is
    /// reached.
    pub makes_room: bool,
}

/// How serving all streams ended.
#[derive(Clone, Copy, Debug, PartialEq, Eq)]
pub enum AllEnd {
    /// All connections that the limit allows were opened, and all of them are closed.
    Served = 1,
    /// The limit of waits is reached.
    Turns = 2,
    /// Waiting failed.
    Wait = 3,
    /// The trail couldn't be kept. No bytes were written after that.
    Keep = 4,
    /// The persistent state couldn't be stored. No bytes were written after that.
    Store = 6,
    /// The allocation of the places failed. Serving didn't begin, and the streams weren't called.
    Memory = 5,
}

/// Why no replies may be written. Serving then ends.
#[derive(Clone, Copy, PartialEq, Eq)]
pub(crate) enum Halt {
    /// The trail couldn't be kept.
    Keep,
    /// The persistent state couldn't be stored.
    Store,
}

/// How long the next wait may take. It takes no time if something was done, and at most a second while a book waits or
/// a record is unmarked.
fn pause<A: Allocator + Copy>(busy: bool, room: Wait, accept: &AcceptState<A>) -> Wait {
    if accept.book.is_some() {
        return Wait::Second;
    }
    if busy {
        return Wait::No;
    }
    if accept.unmarked.is_some() && room == Wait::Event {
        return Wait::Second;
    }
    room
}

/// Loads a book of names. If no epoch is left for the book, it is dropped, and the previous book stays (`Hub::reload`).
/// If the allocation for its entry in the log fails, the book is returned.
fn load_book<A: Allocator + Copy>(hub: &mut Hub<A>, book: Book) -> Option<Book>
    ensures { BookLoads book result hub.old hub.new }
{
    match hub.reload(book) {
        Ok(_) => None,
        Err(unloaded) => match unloaded.fault {
            HubFault::Memory => Some(unloaded.book),
            HubFault::NoSuch | HubFault::Broken | HubFault::TooMany | HubFault::Exhausted => None,
        },
    }
}

/// Loads the book that waits, if any. Returns whether none waits now.
fn load_waiting<A: Allocator + Copy>(hub: &mut Hub<A>, accept: &mut AcceptState<A>) -> bool
    ensures moves { (n : ℕ) (places : List (Option (Peer A))) (now : Option (List Act)) →
        Moves (Listening n) (Listening n) accept.old.limits
        (record { hub = hub.old; places = places; left = left_of accept.old; acts = now })
        (record { hub = hub.new; places = places; left = left_of accept.new; acts = now }) }
    ensures loaded { OnTrue result (accept.new.book ≡ None) }
    ensures most { accept.new.limits ≡ accept.old.limits }
{
    let Some(book) = accept.book.take() else {
        return true;
    };
    accept.book = load_book(hub, book);
    accept.book.is_none()
}

/// Asks for another book of names, and loads it if one has arrived. Returns whether none waits now.
fn ask_book<A: Allocator + Copy, S: Streams<A>>(
    hub: &mut Hub<A>,
    streams: &mut S,
    accept: &mut AcceptState<A>,
) -> bool
    requires { accept.old.book ≡ None }
    ensures moves { (n : ℕ) (places : List (Option (Peer A))) →
        Moves (Listening n) (looked_stage result n) accept.old.limits
        (record { hub = hub.old; places = places; left = left_of accept.old; acts = S.acts streams.old })
        (record { hub = hub.new; places = places; left = left_of accept.new; acts = S.acts streams.new }) }
    ensures most { accept.new.limits ≡ accept.old.limits }
{
    let Some(book) = streams.book() else {
        return true;
    };
    accept.book = load_book(hub, book);
    accept.book.is_none()
}

/// Loads the book that waits, if any, and then another one that has arrived. `false`: one still waits, and no bytes may
/// be given.
fn load_books<A: Allocator + Copy, S: Streams<A>>(
    hub: &mut Hub<A>,
    streams: &mut S,
    accept: &mut AcceptState<A>,
) -> bool
    ensures moves { (n : ℕ) (places : List (Option (Peer A))) →
        Moves (Listening n) (looked_stage result n) accept.old.limits
        (record { hub = hub.old; places = places; left = left_of accept.old; acts = S.acts streams.old })
        (record { hub = hub.new; places = places; left = left_of accept.new; acts = S.acts streams.new }) }
    ensures most { accept.new.limits ≡ accept.old.limits }
{
    if !load_waiting(hub, accept) {
        return false;
    }
    ask_book(hub, streams, accept)
}

/// Sets the second by which the hub renews and expires leases, if leases expire.
fn advance_clock<A: Allocator + Copy, C: Clock>(hub: &mut Hub<A>, clock: &C, limits: Limits)
    ensures { IsUnchanged hub.old hub.new }
{
    if !limits.leases {
        return;
    }
    hub.set_second(clock.second());
}

/// Loads books that have arrived, and keeps the trail. If no book waits, it gives the hub what was read from the
/// streams of all places. `false`: the trail couldn't be kept.
fn run_calls<A: Allocator + Copy, S: Streams<A>, C: Clock>(
    hub: &mut Hub<A>,
    streams: &mut S,
    clock: &C,
    places: &mut [Option<Peer<A>>],
    accept: &mut AcceptState<A>,
) -> bool
    ensures moves { (n : ℕ) → Moves (Listening n) (given_all_stage result n) accept.old.limits
        (record { hub = hub.old; places = places.old; left = left_of accept.old; acts = S.acts streams.old })
        (record { hub = hub.new; places = places.new; left = left_of accept.new; acts = S.acts streams.new }) }
    ensures len { length places.new ≡ length places.old }
    ensures most { accept.new.limits ≡ accept.old.limits }
{
    let loaded = load_books(hub, streams, accept);
    if !streams.keep(hub.server()) {
        return false;
    }
    if !loaded {
        return true;
    }
    advance_clock(hub, clock, accept.limits);
    give_all(hub, streams, clock, places)
}

/// Expires the most silent client, if leases expire and one is to expire.
fn expire<A: Allocator + Copy, C: Clock>(hub: &mut Hub<A>, clock: &C, limits: Limits)
    ensures { (n : ℕ) (left : Left) (places : List (Option (Peer A))) (now : Option (List Act)) →
        Moves (Trailing n) (Trailing n) limits (record { hub = hub.old; places = places; left = left; acts = now })
        (record { hub = hub.new; places = places; left = left; acts = now }) }
{
    if !limits.leases {
        return;
    }
    let _ = hub.expire_client(clock.now());
}

/// Keeps the events that the hub has logged in the store, if any. Returns whether it is kept.
fn keep_log<A: Allocator + Copy, S: Streams<A>>(
    hub: &Hub<A>,
    streams: &mut S,
    alloc: A,
    store: &mut Option<Store>,
) -> bool
    ensures { KeepsLog (passage S.adds streams.old streams.new) hub.now store.old result store.new }
{
    let Some(store) = store else {
        return true;
    };
    let Some(log) = hub.log() else {
        return false;
    };
    let done = store.keep(streams, alloc, log, hub.server());
    done.is_ok()
}

/// The second in which a record was last appended, if no mark was appended since. It is the present second if anything
/// was logged since the log was begun.
fn unmarked_since<A: Allocator + Copy, C: Clock>(
    hub: &Hub<A>,
    clock: &C,
    before: Option<u64>,
) -> Option<u64> {
    match hub.log() {
        Some(log) if !log.is_empty() => Some(clock.second()),
        _ => before,
    }
}

/// Stores the persistent state, if a store is given, and begins the log anew. Returns whether it could be stored.
fn store<A: Allocator + Copy, S: Streams<A>, C: Clock>(
    hub: &mut Hub<A>,
    streams: &mut S,
    clock: &C,
    accept: &mut AcceptState<A>,
) -> bool
    ensures stores { (n : ℕ) (limits : Limits) (places : List (Option (Peer A))) →
        Moves (Trailing n) (stored_stage result n) limits
        (record { hub = hub.old; places = places; left = left_of accept.old; acts = S.acts streams.old })
        (record { hub = hub.new; places = places; left = left_of accept.new; acts = S.acts streams.new }) }
    ensures most { accept.new.limits ≡ accept.old.limits }
{
    if !keep_log(hub, streams, accept.alloc, &mut accept.store) {
        return false;
    }
    accept.unmarked = unmarked_since(hub, clock, accept.unmarked);
    hub.begin_log();
    true
}

/// Whether a mark is due: a record was appended, and the clock is in a later second now.
fn is_due(unmarked: Option<u64>, now: u64) -> bool {
    match unmarked {
        Some(second) => second < now,
        None => false,
    }
}

/// Marks the store, if any: everything up to here is durable.
fn mark_store<A: Allocator + Copy, S: Streams<A>>(
    streams: &mut S,
    alloc: A,
    store: &mut Option<Store>,
) -> bool
    ensures { MarksStore (passage S.adds streams.old streams.new) store.old result store.new }
{
    let Some(store) = store else {
        return true;
    };
    let done = store.mark(streams, alloc);
    done.is_ok()
}

/// Marks the store in a later second than that in which a record was last appended. `false`: that failed.
fn mark<A: Allocator + Copy, S: Streams<A>, C: Clock>(
    streams: &mut S,
    clock: &C,
    accept: &mut AcceptState<A>,
) -> bool
    ensures marks { (n : ℕ) (limits : Limits) (hub : Hub A) (places : List (Option (Peer A))) →
        Moves (Answering n) (marked_stage result n) limits
        (record { hub = hub; places = places; left = left_of accept.old; acts = S.acts streams.old })
        (record { hub = hub; places = places; left = left_of accept.new; acts = S.acts streams.new }) }
    ensures most { accept.new.limits ≡ accept.old.limits }
{
    if !is_due(accept.unmarked, clock.second()) {
        return true;
    }
    accept.unmarked = None;
    mark_store(streams, accept.alloc, &mut accept.store)
}

/// One turn.
/// - All places are read.
/// - The book that waits is loaded, and one that has arrived, and the trail is kept.
/// - The bytes that were read are given to the hub, and the trail is kept after each record. While a book waits nothing
///   is given.
/// - The most silent client is expired, if one is to expire.
/// - The persistent state is stored, if a store is given.
/// - The waiting bytes of all places are written.
/// - The store is marked, in a later second than that of the last record.
///
/// Returns how long the next wait may take. `Err`: the trail couldn't be kept, or the persistent state couldn't be
/// stored. No bytes were given or written after that.
fn turn<A: Allocator + Copy, S: Streams<A>, C: Clock>(
    hub: &mut Hub<A>,
    streams: &mut S,
    clock: &C,
    places: &mut [Option<Peer<A>>],
    accept: &mut AcceptState<A>,
) -> Result<Wait, Halt>
    requires { length places.old ≤ MOST_PLACES }
    ensures moves { (n : ℕ) → Moves (Listening n) (turned_stage result n) accept.old.limits
        (record { hub = hub.old; places = places.old; left = left_of accept.old; acts = S.acts streams.old })
        (record { hub = hub.new; places = places.new; left = left_of accept.new; acts = S.acts streams.new }) }
    ensures most { accept.new.limits ≡ accept.old.limits }
{
    let received_bytes = listen_all(hub, streams, clock, places, accept);
    if !run_calls(hub, streams, clock, places, accept) {
        return Err(Halt::Keep);
    }
    expire(hub, clock, accept.limits);
    if !store(hub, streams, clock, accept) {
        return Err(Halt::Store);
    }
    let sent = answer_all(hub, streams, clock, places);
    if !mark(streams, clock, accept) {
        return Err(Halt::Store);
    }
    let room = make_room(hub, streams, clock, places, accept);
    Ok(pause(received_bytes | sent, room, accept))
}

/// Runs turns up to the limit. It ends earlier if all connections are served, or something fails.
fn run<A: Allocator + Copy, S: Streams<A>, C: Clock>(
    hub: &mut Hub<A>,
    streams: &mut S,
    clock: &C,
    places: &mut [Option<Peer<A>>],
    accept: &mut AcceptState<A>,
) -> AllEnd
    requires { length places.old ≤ MOST_PLACES }
    ensures { RunGives result accept.old.limits
        (record { hub = hub.old; places = places.old; left = left_of accept.old; acts = S.acts streams.old })
        (record { hub = hub.new; places = places.new; left = left_of accept.new; acts = S.acts streams.new }) }
{
    let mut how = Wait::No;
    for _turn in 0..accept.limits.turns {
        if are_served(places, accept) {
            return AllEnd::Served;
        }
        if !streams.wait(how) {
            return AllEnd::Wait;
        }
        match turn(hub, streams, clock, places, accept) {
            Ok(next) => how = next,
            Err(Halt::Keep) => return AllEnd::Keep,
            Err(Halt::Store) => return AllEnd::Store,
        }
    }
    AllEnd::Turns
}

/// Serves streams at these places, which are all free, and then closes all streams that are still open.
fn serve_at<A: Allocator + Copy, S: Streams<A>, C: Clock>(
    hub: &mut Hub<A>,
    streams: &mut S,
    clock: &C,
    places: &mut [Option<Peer<A>>],
    mut accept: AcceptState<A>,
) -> AllEnd
    requires few_places { length places.old ≤ MOST_PLACES }
    requires free { taken places.old ≡ 0 }
    requires all { accept.left ≡ accept.limits.connections }
    requires none { accept.book ≡ None }
    ensures { (first : ServedState) (events : List Event) → IsHistoryOf first events hub.old →
        (history : List DiskAct) → IsOpen accept.store history hub.old →
        ServesAll first events (record { limits = accept.limits; store = accept.store; history = history }) result
        (record { hub = hub.old; acts = S.acts streams.old }) (record { hub = hub.new; acts = S.acts streams.new }) }
{
    let end = run(hub, streams, clock, places, &mut accept);
    shut_all(hub, streams, places);
    end
}

/// The second since which the store waits for a mark when serving begins. It may have unmarked records.
fn first_mark<C: Clock>(store: &Option<Store>, clock: &C) -> Option<u64> {
    if store.is_some() {
        return Some(clock.second());
    }
    None
}

/// One free place for each connection that may be open at the same time.
fn free_places<A: Allocator + Copy>(
    alloc: A,
    limits: Limits,
) -> Result<Vec<Option<Peer<A>>, A>, AllocError>
    ensures { IfOk result (λ places. (length places.items ≤ MOST_PLACES) × (taken places.items ≡ 0)) }
{
    let mut places = Vec::new(alloc);
    for _place in 0..most_places(limits) {
        places.push(None)?;
    }
    Ok(places)
}

/// Serves streams, at most one at each place, until `limits.connections` connections were opened and are closed, or for
/// `limits.turns` waits. Then it closes all streams that are still open. With one place it serves them one after the
/// other.
///
/// A turn waits once, and then does this:
/// - At each place with a connection it reads at most 131,072 bytes, if everything that was read before is given and no
///   reply of that connection waits to be written. At a free place it admits a stream that has arrived.
/// - It asks for another book of names, and loads one that has arrived. Each call whose last byte is read after a book
///   had arrived is therefore judged by that book. If the allocation for the book's entry in the log fails, nothing is
///   given until the book is loaded. Each turn tries that again.
/// - It gives the hub the bytes that were read, in order, one record after the other. **The lines of the trail are kept
///   after each record, before the next one runs**, and none is lost. The bytes are given in pieces of at most 4,096
///   bytes. The next piece begins only while at most 4,096 bytes of replies wait, and the rest waits until these are
///   written. A peer that sends and doesn't read therefore costs 4,096 bytes and the replies to 4,096 bytes.
/// - With a store, it stores all persistent state: all that outlives a restart of the server. It stores it **before any
///   byte of a reply to the calls that ran is written**. A crash at any moment therefore leaves the effects of every
///   call whose reply was written. One sync covers all calls of a turn. The log then begins anew.
/// - It writes the waiting bytes, at most 128 KiB of each connection, as far as the streams take them.
/// - It marks the store, in the first turn of a later second than that of the last record. While a record is unmarked,
///   a wait therefore takes at most a second.
///
/// The store has to be over the files of `streams`, and to keep the server as it is. The hub's log has to be begun and
/// empty. The server's sessions have to be persistent.
///
/// A stream that ends or fails is closed at once, with its connection. A stream whose connection is broken or has had
/// its turns is closed after its replies. The others continue. `close` reports how each ended.
///
/// If the limit of open connections is reached and another stream has arrived, room may have to be made. Then the
/// stream on which no bytes were read or written for the longest time is closed, if that is at least two seconds of the
/// clock. Until then the other stream waits outside. A stream that can't be taken, or whose allocation fails, waits
/// too: a connection takes 131,072 bytes of `alloc` besides the hub's. It is tried again in the next turn, which comes
/// within a second.
pub fn serve_all<A: Allocator + Copy, S: Streams<A>, C: Clock>(
    alloc: A,
    hub: &mut Hub<A>,
    streams: &mut S,
    clock: &C,
    store: Option<Store>,
    limits: Limits,
) -> AllEnd
    ensures { (first : ServedState) (events : List Event) → IsHistoryOf first events hub.old →
        (history : List DiskAct) → IsOpen store history hub.old →
        ServesAll first events (record { limits = limits; store = store; history = history }) result
        (record { hub = hub.old; acts = S.acts streams.old }) (record { hub = hub.new; acts = S.acts streams.new }) }
{
    let Ok(mut places) = free_places(alloc, limits) else {
        return AllEnd::Memory;
    };
    let accept = AcceptState {
        alloc,
        limits,
        left: limits.connections,
        refused: false,
        unmarked: first_mark(&store, clock),
        store,
        book: None,
    };
    serve_at(hub, streams, clock, &mut places[..], accept)
}
