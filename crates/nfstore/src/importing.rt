//! Making a new store from a directory of this system.
use crate::fault::{Fault, Stopped};
use crate::looking::{Folder, refused};
use crate::survey::{Item, Survey};
use acl_list::{AclList, Kind};
use acl_shape::set_mode;
use call_store::{MACHINE, Store, StoreFault};
use compound_run::ClientState;
use nfs_hub::Hub;
use nfs_types::Limits;
use node_tree::{Kept, Moment, NewObject, RestoreFault, Restoring, Tree};
use session_slots::RestoreFault as Unrestored;
use std::alloc::Global;
use std::fs;
use std::hash::RandomState;
use std::os::unix::fs::MetadataExt;
use store_folder::{StoreFolder, StoreStop};
use store_journal::{Current, load};
use store_words::Stop;
use who_book::Book;

/// The bits of a mode that no ACE (access control entry) represents.
const HIGH: u32 = 0o7000;

/// The bits of a mode that make an ACL (access control list).
const PERMISSIONS: u32 = 0o777;

/// The cookie of the first name.
const FIRST_COOKIE: u64 = 3;

/// The number of the object at a place in the survey: the root's is 1.
fn number_of(place: usize) -> u64 {
    (place as u64).saturating_add(1)
}

/// A moment of this system, with nanoseconds below 1,000,000,000.
fn moment(seconds: i64, nanoseconds: i64) -> Moment {
    Moment {
        seconds,
        nanoseconds: nanoseconds.clamp(0, 999_999_999) as u32,
    }
}

/// The bytes of a file, or the text of a link.
fn bytes_of(rt: &HostRuntime, alloc: Global, item: &Item) -> Result<Vec<u8>, Fault> {
    match item.kind {
        Kind::Directory => Ok(Vec::new(alloc)),
        Kind::File => Ok(fs::read(rt, item.path.as_str())?),
        Kind::Link => {
            let text = fs::read_link(rt, item.path.as_str())?;
            let Some(text) = text.as_path().to_str() else {
                return Err(Fault::Text);
            };
            Ok(Vec::from_slice(alloc, text.as_bytes())?)
        }
    }
}

/// The parts of a new object. Its ACL is that of its mode.
fn object_of(rt: &HostRuntime, alloc: Global, item: &Item) -> Result<NewObject<Global>, Fault> {
    let mode = item.metadata.mode();
    let none = AclList::from_vec(Vec::new(alloc));
    Ok(NewObject {
        kind: item.kind,
        bytes: bytes_of(rt, alloc, item)?,
        owner: item.metadata.uid(),
        group: item.metadata.gid(),
        list: set_mode(alloc, &none, item.kind, mode & PERMISSIONS)?,
        high: mode & HIGH,
        time_access: None,
        time_modify: moment(item.metadata.mtime(), item.metadata.mtime_nsec()),
    })
}

fn kept_of(item: &Item, number: u64) -> Kept {
    Kept {
        change: number,
        time_access: None,
        time_modify: moment(item.metadata.mtime(), item.metadata.mtime_nsec()),
        time_metadata: moment(item.metadata.ctime(), item.metadata.ctime_nsec()),
        stamp: number,
    }
}

/// Adds an object to the tree.
fn take_object(
    rt: &HostRuntime,
    alloc: Global,
    restoring: Restoring<Global>,
    item: &Item,
    number: u64,
) -> Result<Restoring<Global>, Fault> {
    let new = object_of(rt, alloc, item)?;
    Ok(restoring.object(number, new, kept_of(item, number))?)
}

/// Adds all objects to the tree.
fn take_objects(
    rt: &HostRuntime,
    alloc: Global,
    survey: &Survey<'_>,
    begun: Restoring<Global>,
) -> Result<Restoring<Global>, Stopped> {
    let mut restoring = begun;
    for (place, item) in survey.items.iter().enumerate() {
        restoring = match take_object(rt, alloc, restoring, item, number_of(place)) {
            Ok(more) => more,
            Err(fault) => {
                let path = String::from_str(alloc, item.path.as_str())?;
                return Err(Stopped::at(Some(path), fault));
            }
        };
    }
    Ok(restoring)
}

/// Adds all names to the tree.
fn take_names(
    survey: &Survey<'_>,
    begun: Restoring<Global>,
) -> Result<Restoring<Global>, RestoreFault> {
    let mut restoring = begun;
    let mut cookie = FIRST_COOKIE;
    for named in survey.names.iter() {
        let (directory, child) = (number_of(named.directory), number_of(named.child));
        restoring = restoring.name(cookie, directory, named.name.as_str().as_bytes(), child)?;
        cookie = cookie.saturating_add(1);
    }
    Ok(restoring)
}

/// The tree of a directory of this system.
fn tree_of(rt: &HostRuntime, alloc: Global, survey: &Survey<'_>) -> Result<Tree, Stopped> {
    let next = number_of(survey.items.len());
    let cookie = FIRST_COOKIE.saturating_add(survey.names.len() as u64);
    let Some(begun) = Restoring::begin(alloc, Limits::standard(), next, next, next, cookie) else {
        return Err(Stopped::from(Fault::Changed));
    };
    let objects = take_objects(rt, alloc, survey, begun)?;
    let restoring = match take_names(survey, objects) {
        Ok(restoring) => restoring,
        Err(fault) => return Err(Stopped::from(Fault::from(fault))),
    };
    match restoring.finish() {
        Some(tree) => Ok(tree),
        None => Err(Stopped::from(Fault::Changed)),
    }
}

/// Why a store isn't made.
#[derive(Drop)]
pub(crate) enum Unmade {
    /// The directory has something that a tree can't have: this stopped it.
    Stopped(Stopped),
    /// The folder has a store.
    Taken,
    /// The store can't be written.
    Store(Stop),
}

/// A server over a tree, which has no client and no book.
fn hub_over(alloc: Global, tree: Tree, hasher: RandomState) -> Result<Hub, StoreFault> {
    let nobody = ClientState::nothing(alloc, Limits::standard());
    match Hub::restored(alloc, tree, nobody, Book::default(alloc), hasher) {
        Ok(hub) => Ok(hub),
        Err(Unrestored::Misfit) => Err(StoreFault::Unfit),
        Err(Unrestored::Memory) => Err(StoreFault::Memory),
    }
}

/// CURRENT of the new store of a folder.
fn new_current(alloc: Global, folder: &mut Folder<'_>) -> Result<Current, Unmade> {
    let loaded = match load(folder, alloc) {
        Ok(loaded) => loaded,
        Err(fault) => return Err(Unmade::Store(refused(alloc, folder, fault))),
    };
    match (loaded.current, folder.new_identity()) {
        (Some(current), _) if current.generation != 0 => Err(Unmade::Taken),
        (Some(current), _) => Ok(current),
        (None, Some(identity)) => Ok(Current::new(identity, MACHINE)),
        (None, None) => Err(Unmade::Store(Stop::Folder(StoreStop::Failed(None)))),
    }
}

/// Writes a tree to a new store.
fn write_store(
    alloc: Global,
    folder: &mut Folder<'_>,
    current: Current,
    tree: Tree,
    hasher: RandomState,
) -> Result<(), StoreFault> {
    let hub = hub_over(alloc, tree, hasher)?;
    let _store = Store::begin(folder, alloc, current, hub.server())?;
    Ok(())
}

/// Makes a new store from the survey.
pub(crate) fn import(
    rt: &HostRuntime,
    alloc: Global,
    path: &str,
    survey: &Survey<'_>,
    hasher: RandomState,
) -> Result<(), Unmade> {
    let tree = match tree_of(rt, alloc, survey) {
        Ok(tree) => tree,
        Err(stopped) => return Err(Unmade::Stopped(stopped)),
    };
    let mut folder = match StoreFolder::open(rt, path) {
        Ok(folder) => folder,
        Err(fault) => return Err(Unmade::Store(Stop::Folder(StoreStop::from(fault)))),
    };
    let current = new_current(alloc, &mut folder)?;
    match write_store(alloc, &mut folder, current, tree, hasher) {
        Ok(()) => Ok(()),
        Err(fault) => Err(Unmade::Store(Stop::of(alloc, &mut folder, fault))),
    }
}
