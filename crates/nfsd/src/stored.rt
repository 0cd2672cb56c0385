//! The folder of a store, and why the server can't use it.
use crate::Fault;
use call_store::StoreFault;
use std::alloc::Global;
use store_folder::{StoreFolder, StoreStop};
use store_words::Stop;

/// The folder of a store, on the host's file system.
pub(crate) type Folder<'r> = StoreFolder<&'r HostRuntime>;

/// Opens the folder of a store. A refused folder is left as it was.
pub(crate) fn open_folder<'r>(rt: &'r HostRuntime, path: &str) -> Result<Folder<'r>, Fault> {
    match StoreFolder::open(rt, path) {
        Ok(folder) => Ok(folder),
        Err(fault) => Err(Fault::Store(Stop::Folder(StoreStop::from(fault)))),
    }
}

/// Why a store can't be opened, and why an entry can't be logged.
pub(crate) fn stop_of(alloc: Global, folder: &mut Folder<'_>, fault: StoreFault) -> Fault {
    Fault::Store(Stop::of(alloc, folder, fault))
}
