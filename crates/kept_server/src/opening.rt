//! Opens the store of a disk, and makes a hub from its content.
ghost use Rattle.std.specs.Prelude.{◌≡◌, ◌≢◌, ◌⊎◌, true, Option, MatchBool, MatchOption};
ghost use Rattle.store_journal.specs.Passage.{passage};
ghost use Rattle.kept_server.specs.Steps.{BeginsAnew, GoesOnFrom, GoesOnIf, IsCurrent, KeepsLogged, OpensTo};

use crate::serving::KeptEnd;
use call_store::{MACHINE, Opened, Restarted, Store, StoreFault, open};
use nfs_hub::{Hub, HubFault, Restart};
use nfs_types::Limits;
use std::alloc::{Allocator, Global};
use std::hash::RandomState;
use store_journal::{Current, Disk, Identity};
use who_book::Book;

/// The inputs of a server's start.
#[derive(Drop)]
pub struct Start {
    /// The limits of the profile. A new store is of this profile, and one of another profile is refused.
    pub limits: Limits,
    /// The book of names. It judges each call until another book is loaded.
    pub book: Book,
    /// The identity of a new store, drawn at random. `None`: none could be drawn, and no store is begun.
    pub identity: Option<Identity>,
    /// The hasher of the server's cache of ACL (access control list) summaries.
    pub hasher: RandomState,
}

/// A hub whose log was begun, and the store that keeps it.
#[derive(Drop)]
pub(crate) struct Kept<A: Allocator + Copy> {
    pub(crate) hub: Hub<A>,
    pub(crate) store: Store,
}

/// The end of a run whose book couldn't be loaded.
fn unloaded_end(fault: HubFault) -> KeptEnd
    ensures { (result ≡ KeptEnd.Exhausted) ⊎ (result ≡ KeptEnd.Memory) }
{
    match fault {
        HubFault::Exhausted => KeptEnd::Exhausted,
        HubFault::Memory | HubFault::NoSuch | HubFault::Broken | HubFault::TooMany => {
            KeptEnd::Memory
        }
    }
}

/// Begins a new store of a server that has only a root, under these limits.
fn begin_store<D: Disk, A: Allocator + Copy>(
    disk: &mut D,
    alloc: A,
    current: Current,
    limits: Limits,
    book: Book,
    hasher: RandomState,
) -> Result<Kept<A>, KeptEnd>
    ensures { BeginsAnew (passage D.adds disk.old disk.new) current limits book result }
{
    let Ok(mut hub) = Hub::lasting(alloc, limits, book, hasher) else {
        return Err(KeptEnd::Memory);
    };
    hub.begin_log();
    match Store::begin(disk, alloc, current, hub.server()) {
        Ok(store) => Ok(Kept { hub, store }),
        Err(fault) => Err(KeptEnd::Unopened(fault)),
    }
}

/// Whether two books were read from the same text.
fn is_same(book: &Book, other: &Book) -> bool
    ensures { result ≡ true → book.now ≡ other.now }
{
    book.text() == other.text()
}

/// Keeps what the hub has logged, and begins its log anew. `Memory`: it has logged nothing, since an allocation failed.
fn keep_logged<D: Disk, A: Allocator + Copy>(
    disk: &mut D,
    alloc: A,
    kept: &mut Kept<A>,
) -> Result<(), KeptEnd>
    ensures { KeepsLogged (passage D.adds disk.old disk.new) kept.old result kept.new }
{
    let Some(log) = kept.hub.log() else {
        return Err(KeptEnd::Memory);
    };
    if log.is_empty() {
        return Err(KeptEnd::Memory);
    }
    match kept.store.keep(disk, alloc, log, kept.hub.server()) {
        Ok(()) => {
            kept.hub.begin_log();
            Ok(())
        }
        Err(fault) => Err(KeptEnd::Unopened(fault)),
    }
}

/// Resumes from what was kept. If another book was kept, the book of this start is loaded, and kept at once.
fn go_on<D: Disk, A: Allocator + Copy>(
    disk: &mut D,
    alloc: A,
    found: Restarted<A>,
    book: Book,
) -> Result<Kept<A>, KeptEnd>
    ensures { GoesOnFrom (passage D.adds disk.old disk.new) found.store found.restart book result }
{
    let Restarted { store, restart } = found;
    let mut hub = Hub::started(alloc, restart);
    hub.begin_log();
    if is_same(hub.server().book(), &book) {
        return Ok(Kept { hub, store });
    }
    if let Err(unloaded) = hub.reload(book) {
        return Err(unloaded_end(unloaded.fault));
    }
    let mut kept = Kept { hub, store };
    match keep_logged(disk, alloc, &mut kept) {
        Ok(()) => Ok(kept),
        Err(end) => Err(end),
    }
}

/// Whether a server has these limits: profiles with equal numbers have equal limits.
fn has_limits<A: Allocator + Copy>(restart: &Restart<A>, limits: Limits) -> bool
    ensures { MatchBool result (restart.now.realm.world.limits ≡ limits) (restart.now.realm.world.limits ≢ limits) }
{
    let kept = restart.server().tree().limits();
    if kept.profile() == limits.profile() {
        return true;
    }
    false
}

/// Resumes from what was kept, if it is of this profile.
fn go_on_if<D: Disk, A: Allocator + Copy>(
    disk: &mut D,
    alloc: A,
    found: Restarted<A>,
    limits: Limits,
    book: Book,
) -> Result<Kept<A>, KeptEnd>
    ensures { GoesOnIf (passage D.adds disk.old disk.new) found.store found.restart limits book result }
{
    if !has_limits(&found.restart, limits) {
        return Err(KeptEnd::OtherProfile);
    }
    go_on(disk, alloc, found, book)
}

/// The CURRENT of a new store: the one that was found, or a new one of this identity.
fn new_current(current: Option<Current>, identity: Option<Identity>) -> Option<Current>
    ensures { MatchOption result (Unit {0}) (λ c. IsCurrent current c) }
{
    match (current, identity) {
        (Some(current), _) => Some(current),
        (None, Some(identity)) => Some(Current::new(identity, MACHINE)),
        (None, None) => None,
    }
}

/// Opens the store of a disk, and makes a hub from its content. The leases of all clients begin in `second`, which is
/// of a monotonic clock.
pub(crate) fn open_kept<D: Disk, A: Allocator + Copy>(
    disk: &mut D,
    alloc: A,
    global: Global,
    second: u64,
    start: Start,
) -> Result<Kept<A>, KeptEnd>
    ensures { OpensTo (passage D.adds disk.old disk.new) start.limits start.book result }
{
    match open(disk, alloc, global, start.hasher, second) {
        Ok(Opened::New(current)) => match new_current(current, start.identity) {
            Some(current) => begin_store(
                disk,
                alloc,
                current,
                start.limits,
                start.book,
                start.hasher,
            ),
            None => Err(KeptEnd::Unopened(StoreFault::Failed)),
        },
        Ok(Opened::Kept(found)) => go_on_if(disk, alloc, found, start.limits, start.book),
        Err(fault) => Err(KeptEnd::Unopened(fault)),
    }
}
