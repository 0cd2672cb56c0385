//! Reading a store. Nothing is written.
use call_store::Looked;
use std::alloc::Global;
use std::hash::RandomState;
use store_folder::{StoreFolder, StoreStop};
use store_journal::{Chosen, Loaded, OpenFault, choose, load};
use store_words::Stop;

/// The folder of a store, on the host's file system.
pub(crate) type Folder<'r> = StoreFolder<&'r HostRuntime>;

/// Opens the folder of a store to read it.
fn open_to_read<'r>(rt: &'r HostRuntime, path: &str) -> Result<Folder<'r>, Stop> {
    match StoreFolder::open_to_read(rt, path) {
        Ok(folder) => Ok(folder),
        Err(fault) => Err(Stop::Folder(StoreStop::from(fault))),
    }
}

/// Reads the store of a folder. `None`: no checkpoint was finished yet.
pub(crate) fn look(
    rt: &HostRuntime,
    alloc: Global,
    path: &str,
    hasher: RandomState,
) -> Result<Option<Looked>, Stop> {
    let mut folder = open_to_read(rt, path)?;
    match call_store::look(&mut folder, alloc, alloc, hasher) {
        Ok(looked) => Ok(looked),
        Err(fault) => Err(Stop::of(alloc, &mut folder, fault)),
    }
}

/// The folder of a store that was loaded.
#[derive(Drop)]
pub(crate) struct Opened<'r> {
    pub(crate) folder: Folder<'r>,
    pub(crate) loaded: Loaded<Global>,
}

impl<'r> Opened<'r> {
    /// Loads the store of a folder.
    pub(crate) fn load(rt: &'r HostRuntime, alloc: Global, path: &str) -> Result<Self, Stop> {
        let mut folder = open_to_read(rt, path)?;
        match load(&mut folder, alloc) {
            Ok(loaded) => Ok(Opened { folder, loaded }),
            Err(fault) => Err(refused(alloc, &mut folder, fault)),
        }
    }
}

/// Why a store isn't read, by the fault of its journal.
pub(crate) fn refused(alloc: Global, folder: &mut Folder<'_>, fault: OpenFault) -> Stop {
    Stop::Folder(StoreStop::refused(alloc, folder, fault))
}

/// The content of the active file. `None`: no checkpoint was finished yet.
pub(crate) fn chosen<'a>(
    alloc: Global,
    loaded: &'a Loaded<Global>,
) -> Result<Option<Chosen<'a, Global>>, OpenFault> {
    let Some(current) = loaded.current else {
        return Ok(None);
    };
    if current.generation == 0 {
        return Ok(None);
    }
    match choose(alloc, current, &loaded.bytes) {
        Ok(chosen) => Ok(Some(chosen)),
        Err(fault) => Err(fault),
    }
}
