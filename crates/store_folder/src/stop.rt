//! Why a program doesn't open a store or ends, in the words that it prints.
ghost use Rattle.std.specs.Prelude.{◌≡◌};
ghost use Rattle.store_folder.specs.Held.{without_failure};
ghost use Rattle.store_folder.specs.Stops.{number_of, IsCorruptionStop, IsChoiceStop, IsLoadedStop, IsRefusalStop};

use crate::corruption::{Corruption, spot_in};
use crate::fault::{Failure, FolderFault, Part, part_of};
use crate::folder::StoreFolder;
use std::alloc::Allocator;
use std::fmt;
use std::fmt::{Display, Formatter};
use std::fs::File;
use std::rt::Files;
use store_journal::{Current, Loaded, OpenFault, choose, load};

/// A version that this program doesn't know.
#[derive(Clone, Copy, Debug, PartialEq, Eq)]
pub enum Unknown {
    /// An earlier form of store.
    Earlier,
    /// CURRENT is intact, and of another form.
    Form,
    /// The caller's own number in CURRENT: what the parts and records mean.
    Machine(u64),
}

/// Why a program doesn't open a store or ends. The text follows the folder's path.
#[derive(Debug, Drop)]
pub enum StoreStop {
    /// Another program has it.
    InUse,
    /// It can't be read, written or synced, by this failure, if it is known.
    Failed(Option<Failure>),
    /// It has a version or profile that isn't this program's.
    Version(Unknown),
    /// It is corrupt.
    Corrupt(Corruption),
    /// An allocation failed.
    Memory,
}

/// The corruption of the file that CURRENT names.
fn choice_stop<A: Allocator + Copy>(alloc: A, current: Current, file: &[u8]) -> StoreStop
    ensures { IsChoiceStop current file.now result }
{
    let part = part_of(current.slot);
    match choose(alloc, current, file) {
        Ok(_) => StoreStop::Corrupt(Corruption::Content(part)),
        Err(OpenFault::Corrupt) => {
            StoreStop::Corrupt(Corruption::Rotten(spot_in(current, part, file)))
        }
        Err(_) => StoreStop::Memory,
    }
}

/// The corruption of the loaded store.
fn loaded_stop<A: Allocator + Copy>(alloc: A, loaded: &Loaded<A>) -> StoreStop
    ensures { IsLoadedStop loaded.now.current loaded.now.bytes.items result }
{
    let Some(current) = loaded.current else {
        return StoreStop::Corrupt(Corruption::NoCheckpoint);
    };
    if current.generation == 0 {
        return StoreStop::Corrupt(Corruption::NoCheckpoint);
    }
    choice_stop(alloc, current, loaded.bytes.as_slice())
}

impl StoreStop {
    /// The number in `nfsd: store N`.
    pub fn number(&self) -> u8
        ensures { result ≡ number_of self.now }
    {
        match self {
            StoreStop::InUse => 1,
            StoreStop::Failed(_) => 2,
            StoreStop::Version(_) => 3,
            StoreStop::Corrupt(_) => 4,
            StoreStop::Memory => 5,
        }
    }

    /// A call of the disk has failed.
    pub fn failed<R, A: Allocator>(folder: &mut StoreFolder<R, A>) -> Self
        ensures result { result ≡ StoreStop.Failed folder.old.held.failure }
        ensures after { folder.new ≡ without_failure folder.old }
    {
        StoreStop::Failed(folder.take_failure())
    }

    /// `load` or `choose` of the journal refuses the store.
    pub fn refused<R: Files<File = File>, A: Allocator, B: Allocator + Copy>(
        alloc: B,
        folder: &mut StoreFolder<R, A>,
        fault: OpenFault,
    ) -> Self
        ensures { IsRefusalStop folder.old fault result folder.new }
    {
        match fault {
            OpenFault::Failed => StoreStop::failed(folder),
            OpenFault::Version => StoreStop::Version(Unknown::Form),
            OpenFault::Corrupt => StoreStop::locate_corruption(alloc, folder),
            OpenFault::Memory => StoreStop::Memory,
        }
    }

    /// CURRENT, the file that it names or the content of that file is corrupt. The store is loaded again to find
    /// where. If that fails the reason is reported, also if an allocation fails.
    pub fn locate_corruption<R: Files<File = File>, A: Allocator, B: Allocator + Copy>(
        alloc: B,
        folder: &mut StoreFolder<R, A>,
    ) -> Self
        ensures { IsCorruptionStop folder.old result folder.new }
    {
        match load(folder, alloc) {
            Ok(loaded) => loaded_stop(alloc, &loaded),
            Err(OpenFault::Corrupt) => StoreStop::Corrupt(Corruption::Current),
            Err(OpenFault::Version) => StoreStop::Version(Unknown::Form),
            Err(OpenFault::Memory) => StoreStop::Memory,
            Err(OpenFault::Failed) => StoreStop::failed(folder),
        }
    }
}

impl From<FolderFault> for StoreStop {
    ghost use Rattle.store_folder.specs.Stops.{stop_by};

    ghost from_gives = { λ fault stop. stop ≡ stop_by fault };

    fn from(fault: FolderFault) -> Self {
        match fault {
            FolderFault::InUse => StoreStop::InUse,
            FolderFault::Failed(failure) => StoreStop::Failed(Some(failure)),
            FolderFault::Earlier => StoreStop::Version(Unknown::Earlier),
            FolderFault::Corrupt(part, flaw) => StoreStop::Corrupt(Corruption::Part(part, flaw)),
            FolderFault::Memory => StoreStop::Memory,
        }
    }
}

impl Display for Unknown {
    fn fmt<W: fmt::Write>(&self, f: &mut Formatter<W>) -> fmt::Result {
        match self {
            Unknown::Earlier => write!(f, "{}", FolderFault::Earlier),
            Unknown::Form => write!(f, "{}: a version that isn't known", Part::Current),
            Unknown::Machine(machine) => {
                write!(
                    f,
                    ": its records are of version {machine}, which isn't known; \
                     `nfstore FOLDER --close` of the program that wrote them makes them a checkpoint"
                )
            }
        }
    }
}

impl Display for StoreStop {
    fn fmt<W: fmt::Write>(&self, f: &mut Formatter<W>) -> fmt::Result {
        match self {
            StoreStop::InUse => write!(f, "{}", FolderFault::InUse),
            StoreStop::Failed(Some(failure)) => write!(f, "{failure}"),
            StoreStop::Failed(None) => { f.write_str(": it can't be read, written or synced") }
            StoreStop::Version(unknown) => write!(f, "{unknown}"),
            StoreStop::Corrupt(corruption) => write!(f, "{corruption}"),
            StoreStop::Memory => write!(f, "{}", FolderFault::Memory),
        }
    }
}
