//! A look at a store, which isn't resumed.
ghost use Rattle.std.specs.Prelude.{map};
ghost use Rattle.store_journal.specs.Passage.{passage};
ghost use Rattle.call_store.specs.Looking.{BeginningGives, FileGives, LookGives, looked};
ghost use Rattle.call_store.specs.Replaying.{content_of};

use crate::fault::{StoreFault, fault_of_load};
use crate::replaying::{begin, start};
use nfs_hub::Restart;
use std::alloc::{Allocator, Global};
use std::hash::RandomState;
use store_journal::{Chosen, Current, Disk, choose, load};

/// The second of lease renewals, for a server that doesn't serve.
const NO_SECOND: u64 = 0;

/// The content of a store.
#[derive(Drop)]
pub struct Looked<A: Allocator + Copy = Global> {
    pub current: Current,
    /// The bytes of the file that CURRENT names.
    pub file: Vec<u8, A>,
    /// The server that is restored from the checkpoint. The calls after it were run again.
    pub restart: Restart<A>,
}

/// Starts a server from the file that CURRENT names.
fn start_in<A: Allocator + Copy>(
    alloc: A,
    global: Global,
    hasher: RandomState,
    current: Current,
    file: &[u8],
) -> Result<Restart<A>, StoreFault>
    ensures { FileGives current file.now result }
{
    match choose(alloc, current, file) {
        Ok(chosen) => start(
            alloc,
            global,
            hasher,
            NO_SECOND,
            current.machine,
            &chosen.parts,
            &chosen.records,
        ),
        Err(fault) => Err(fault_of_load(fault)),
    }
}

/// Looks at a store: starts a server from it as [`crate::open`] does, and doesn't resume its journal. Nothing is
/// written. `None`: no checkpoint was finished yet.
///
/// `Version`, `Corrupt` and `Memory` are those of [`crate::open`]. `Failed`: the disk can't be read.
pub fn look<D: Disk, A: Allocator + Copy>(
    disk: &mut D,
    alloc: A,
    global: Global,
    hasher: RandomState,
) -> Result<Option<Looked<A>>, StoreFault>
    ensures { LookGives (passage D.adds disk.old disk.new) (looked result) }
{
    let loaded = match load(disk, alloc) {
        Ok(loaded) => loaded,
        Err(fault) => return Err(fault_of_load(fault)),
    };
    let Some(current) = loaded.current else {
        return Ok(None);
    };
    if current.generation == 0 {
        return Ok(None);
    }
    let file = loaded.bytes;
    match start_in(alloc, global, hasher, current, &file) {
        Ok(restart) => Ok(Some(Looked {
            current,
            file,
            restart,
        })),
        Err(fault) => Err(fault),
    }
}

/// Restores a server from the checkpoint that was chosen. The entries of its records aren't replayed. The caller
/// replays them one after the other ([`Restart::replay`]), and examines the server between them.
///
/// `Version`: the entries after the checkpoint are of another machine than [`crate::MACHINE`], or the checkpoint is of
/// another profile. `Corrupt`: no server can be restored from it. `Memory`: an allocation failed.
pub fn restore<A: Allocator + Copy>(
    alloc: A,
    global: Global,
    hasher: RandomState,
    chosen: &Chosen<'_, A>,
) -> Result<Restart<A>, StoreFault>
    ensures { BeginningGives chosen.now.current.machine
        (content_of (map (λ b. b.now) chosen.now.parts.items) (map (λ b. b.now) chosen.now.records.items)) result }
{
    let machine = chosen.current.machine;
    begin(
        alloc,
        global,
        hasher,
        NO_SECOND,
        machine,
        &chosen.parts,
        &chosen.records,
    )
}
