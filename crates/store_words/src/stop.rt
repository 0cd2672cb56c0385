//! Why a program can't use a store, given the errors of its calls.
ghost use Rattle.std.specs.Prelude.{◌≡◌};
ghost use Rattle.store_words.specs.Stops.{IsLoadedStop, IsStopOf, IsVersionStop, number_of};

use call_store::{Corruption, EntryPlace, MACHINE, StoreFault};
use std::alloc::Allocator;
use std::fmt;
use std::fmt::{Display, Formatter};
use std::fs::File;
use std::rt::Files;
use store_folder::{StoreFolder, StoreStop, Unknown};
use store_journal::{Loaded, OpenFault, load};

/// Why a program can't use a store. The text follows the folder's path.
#[derive(Debug, Drop)]
pub enum Stop {
    /// The reason that the folder reports.
    Folder(StoreStop),
    /// The checkpoint has an unknown profile.
    Profile,
    /// The bytes at this place are no entry, or the entry's replay has another result than its call had.
    Entry(EntryPlace),
    /// No number is left for a frame or a generation, or a part of a checkpoint is too long.
    Full,
    /// No server could be restored from a checkpoint of this one.
    Unfit,
}

/// Why a store isn't opened: its format, its profile or its machine is unknown. The store is loaded again to find
/// which.
fn version_stop<R: Files<File = File>, A: Allocator, B: Allocator + Copy>(
    alloc: B,
    folder: &mut StoreFolder<R, A>,
) -> Stop
    ensures { IsVersionStop result }
{
    match load(folder, alloc) {
        Ok(
            Loaded {
                current: Some(current),
                ..
            },
        ) if current.machine != MACHINE => {
            Stop::Folder(StoreStop::Version(Unknown::Machine(current.machine)))
        }
        Ok(_) => Stop::Profile,
        Err(OpenFault::Version) => Stop::Folder(StoreStop::Version(Unknown::Form)),
        Err(OpenFault::Memory) => Stop::Folder(StoreStop::Memory),
        Err(_) => Stop::Folder(StoreStop::failed(folder)),
    }
}

/// The corruption of a store when it is loaded again.
fn loaded_stop<R: Files<File = File>, A: Allocator, B: Allocator + Copy>(
    alloc: B,
    folder: &mut StoreFolder<R, A>,
) -> Stop
    ensures { IsLoadedStop folder.old result folder.new }
{
    Stop::Folder(StoreStop::locate_corruption(alloc, folder))
}

impl Stop {
    /// Why a store isn't opened, or an entry isn't logged. The folder's failure is taken from the folder. A store
    /// that is corrupt or of another version is loaded again.
    pub fn of<R: Files<File = File>, A: Allocator, B: Allocator + Copy>(
        alloc: B,
        folder: &mut StoreFolder<R, A>,
        fault: StoreFault,
    ) -> Self
        ensures { IsStopOf fault folder.old result folder.new }
    {
        match fault {
            StoreFault::Failed => Stop::Folder(StoreStop::failed(folder)),
            StoreFault::Version => version_stop(alloc, folder),
            StoreFault::Corrupt(Corruption::Entry { place }) => Stop::Entry(place),
            StoreFault::Corrupt(Corruption::Journal) => loaded_stop(alloc, folder),
            StoreFault::Corrupt(Corruption::Checkpoint) => loaded_stop(alloc, folder),
            StoreFault::Memory => Stop::Folder(StoreStop::Memory),
            StoreFault::Full => Stop::Full,
            StoreFault::Unfit => Stop::Unfit,
        }
    }

    /// The number in `nfsd: store N`: 1 to 5.
    pub fn number(&self) -> u8
        ensures { result ≡ number_of self.now }
    {
        match self {
            Stop::Folder(stop) => stop.number(),
            Stop::Profile => 3,
            Stop::Entry(_) => 4,
            Stop::Full | Stop::Unfit => 2,
        }
    }
}

impl Display for Stop {
    fn fmt<W: fmt::Write>(&self, f: &mut Formatter<W>) -> fmt::Result {
        match self {
            Stop::Folder(stop) => write!(f, "{stop}"),
            Stop::Profile => f.write_str(": its checkpoint is of a profile that isn't known"),
            Stop::Entry(place) => {
                let EntryPlace {
                    record_number,
                    entry_number,
                } = *place;
                write!(
                    f,
                    ": entry {entry_number} of record {record_number} isn't one that gives what it gave"
                )
            }
            Stop::Full => f.write_str(": no number is left, or an object is too long for a part"),
            Stop::Unfit => f.write_str(": what is known of clients couldn't be restored"),
        }
    }
}
