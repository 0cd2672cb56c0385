//! Opens a store.
ghost use Rattle.std.specs.Prelude.{◌≡◌, map};
ghost use Rattle.store_journal.specs.Passage.{passage};
ghost use Rattle.call_store.specs.Opening.{GoesOn, OpenGives, ended};
ghost use Rattle.call_store.specs.Replaying.{sight_of};

use crate::fault::{StoreFault, fault_of_journal, fault_of_load};
use crate::replaying::start;
use crate::store::Store;
use nfs_hub::Restart;
use std::alloc::{Allocator, Global};
use std::hash::RandomState;
use store_journal::{Chosen, Current, Disk, Journal, choose, load};

/// A store and the server that was restarted from it.
#[derive(Drop)]
pub struct Restarted<A: Allocator + Copy = Global> {
    pub store: Store,
    /// The server that is restored from the checkpoint. The calls after it were run again.
    pub restart: Restart<A>,
}

/// The state of a store when it is opened.
#[derive(Drop)]
pub enum Opened<A: Allocator + Copy = Global> {
    /// No checkpoint was finished yet, and the store is begun with [`Store::begin`]. CURRENT is missing, or it is this
    /// one.
    New(Option<Current>),
    /// The store keeps this.
    Kept(Restarted<A>),
}

/// Starts from the chosen content, and resumes its journal.
fn go_on<D: Disk, A: Allocator + Copy>(
    disk: &mut D,
    alloc: A,
    global: Global,
    hasher: RandomState,
    second: u64,
    chosen: &Chosen<'_, A>,
) -> Result<Opened<A>, StoreFault>
    ensures { GoesOn (passage D.adds disk.old disk.new) (sight_of chosen.now) (ended result) }
{
    let machine = chosen.current.machine;
    let restart = match start(
        alloc,
        global,
        hasher,
        second,
        machine,
        &chosen.parts,
        &chosen.records,
    ) {
        Ok(restart) => restart,
        Err(fault) => return Err(fault),
    };
    match Journal::resume(disk, alloc, chosen) {
        Ok(journal) => Ok(Opened::Kept(Restarted {
            store: Store::resumed(journal, &chosen.parts, &chosen.records),
            restart,
        })),
        Err(fault) => Err(fault_of_journal(fault)),
    }
}

/// Opens a store. It reads CURRENT and the file that it names, restores a server from the checkpoint, and runs the
/// calls after it again. Then it resumes the journal. `hasher` hashes the server's cache of ACL (access control list)
/// summaries. The book is allocated by the global allocator. The leases of all clients begin in `second`, which is of a
/// monotonic clock.
///
/// `Version`: CURRENT is of another format, or the checkpoint is of another profile. Or the entries after it are of
/// another machine than [`crate::MACHINE`]. `Corrupt` names what is corrupt or missing. `Memory`: nothing was written.
/// `Failed`: the disk can't be read, or it failed when the journal was to be resumed. Nothing else is written.
pub fn open<D: Disk, A: Allocator + Copy>(
    disk: &mut D,
    alloc: A,
    global: Global,
    hasher: RandomState,
    second: u64,
) -> Result<Opened<A>, StoreFault>
    ensures { OpenGives (passage D.adds disk.old disk.new) (ended result) }
{
    let loaded = match load(disk, alloc) {
        Ok(loaded) => loaded,
        Err(fault) => return Err(fault_of_load(fault)),
    };
    let Some(current) = loaded.current else {
        return Ok(Opened::New(None));
    };
    if current.generation == 0 {
        return Ok(Opened::New(Some(current)));
    }
    match choose(alloc, current, &loaded.bytes) {
        Ok(chosen) => go_on(disk, alloc, global, hasher, second, &chosen),
        Err(fault) => Err(fault_of_load(fault)),
    }
}
