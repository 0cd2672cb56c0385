//! Writing a checkpoint, so that no entry is left after it.
use crate::looking::Folder;
use call_store::{Opened, Restarted, open};
use nfs_hub::Hub;
use std::alloc::Global;
use std::hash::RandomState;
use store_folder::{StoreFolder, StoreStop};
use store_words::Stop;

/// The second of lease renewals, for a server that doesn't serve.
const NO_SECOND: u64 = 0;

/// Closes the store that was opened, with the server that was restarted from it.
fn close_found(alloc: Global, folder: &mut Folder<'_>, found: Restarted) -> Result<(), Stop> {
    let Restarted { mut store, restart } = found;
    let hub = Hub::started(alloc, restart);
    match store.close(folder, alloc, hub.server()) {
        Ok(()) => Ok(()),
        Err(fault) => Err(Stop::of(alloc, folder, fault)),
    }
}

/// Closes the store of a folder: a checkpoint is written if it has entries. `false`: no checkpoint was finished yet.
pub(crate) fn close(
    rt: &HostRuntime,
    alloc: Global,
    path: &str,
    hasher: RandomState,
) -> Result<bool, Stop> {
    let mut folder = match StoreFolder::open(rt, path) {
        Ok(folder) => folder,
        Err(fault) => return Err(Stop::Folder(StoreStop::from(fault))),
    };
    match open(&mut folder, alloc, alloc, hasher, NO_SECOND) {
        Ok(Opened::Kept(found)) => {
            close_found(alloc, &mut folder, found)?;
            Ok(true)
        }
        Ok(Opened::New(_)) => Ok(false),
        Err(fault) => Err(Stop::of(alloc, &mut folder, fault)),
    }
}
