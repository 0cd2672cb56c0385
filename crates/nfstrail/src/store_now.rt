//! The tree of a store as it is now, read while a server may write it. No lock is taken and nothing is written or
//! synced, so no server is hindered.
//!
//! CURRENT is read before the file that it names, and again after that. If it is another one by then, or something
//! isn't valid, a checkpoint was written meanwhile, and everything is read again.
use crate::fault::Fault;
use crate::home::{Home, Part};
use call_store::{StoreFault, look};
use nfs_hub::Restart;
use std::alloc::{Allocator, Global};
use std::fmt;
use std::fmt::{Display, Formatter};
use std::fs::File;
use std::hash::RandomState;
use std::io::Read;
use std::rt::Files;
use store_journal::{Disk, LoadFault, Slot};

/// How many times a store is read while a server changes it.
const TRIES: u32 = 16;

/// More bytes than CURRENT has.
const MOST_OF_CURRENT: u64 = 4096;

/// Why the tree isn't known.
#[derive(Drop)]
pub(crate) enum Unknown {
    /// A file can't be read.
    Unread(Part, Fault),
    /// It is an earlier form of store.
    Earlier,
    /// It has an unknown format, machine or profile.
    Version,
    /// It is corrupt, or a server has changed it each time.
    Changing,
    /// An allocation failed.
    Memory,
}

impl Display for Unknown {
    fn fmt<W: fmt::Write>(&self, f: &mut Formatter<W>) -> fmt::Result {
        match self {
            Unknown::Unread(part, fault) => write!(f, "{part}: {fault}"),
            Unknown::Earlier => f.write_str("store: it was written by an earlier nfsd"),
            Unknown::Version => f.write_str("store: it has a version that isn't known"),
            Unknown::Changing => f.write_str("store: it is damaged, or changes all the while"),
            Unknown::Memory => f.write_str("store: there is no memory for it"),
        }
    }
}

/// Appends a part of a home, at most `most` bytes. `false`: the part is missing.
fn read_part<R: Files<File = File>, A: Allocator>(
    home: &Home<'_, R>,
    part: Part,
    most: u64,
    bytes: &mut Vec<u8, A>,
) -> Result<bool, Fault> {
    let Some(file) = home.find(part)? else {
        return Ok(false);
    };
    file.take(most).read_to_end(bytes)?;
    Ok(true)
}

/// The files of a home's store, only to be read.
#[derive(Drop)]
struct Copies<'a, 'h, R> {
    home: &'a Home<'h, R>,
    /// Why a file wasn't read.
    unread: Option<(Part, Fault)>,
}

impl<R> Copies<'_, '_, R> {
    /// Notes that a part isn't read.
    fn miss(&mut self, part: Part, fault: Fault) -> LoadFault {
        let why = match fault {
            Fault::Memory => LoadFault::Memory,
            _ => LoadFault::Failed,
        };
        self.unread = Some((part, fault));
        why
    }
}

impl<R: Files<File = File>> Disk for Copies<'_, '_, R> {
    fn load_current<A: Allocator>(&mut self, alloc: A) -> Result<Option<Vec<u8, A>>, LoadFault> {
        let mut bytes = Vec::new(alloc);
        match read_part(self.home, Part::Current, MOST_OF_CURRENT, &mut bytes) {
            Ok(true) => Ok(Some(bytes)),
            Ok(false) => Ok(None),
            Err(fault) => Err(self.miss(Part::Current, fault)),
        }
    }

    fn load<A: Allocator>(&mut self, alloc: A, slot: Slot) -> Result<Vec<u8, A>, LoadFault> {
        let part = match slot {
            Slot::A => Part::A,
            Slot::B => Part::B,
        };
        let mut bytes = Vec::new(alloc);
        match read_part(self.home, part, u64::MAX, &mut bytes) {
            Ok(_) => Ok(bytes),
            Err(fault) => Err(self.miss(part, fault)),
        }
    }

    fn write(&mut self, _slot: Slot, _at: u64, _prefix: &[u8], _body: &[u8], _back: &[u8]) -> bool {
        false
    }

    fn sync(&mut self, _slot: Slot) -> bool {
        false
    }

    fn turn(&mut self, _bytes: &[u8]) -> bool {
        false
    }
}

/// The server of the store. `None`: no checkpoint was finished yet.
fn server_of<R: Files<File = File>>(
    home: &Home<'_, R>,
    hasher: RandomState,
) -> Result<Option<Restart>, Unknown> {
    let mut copies = Copies { home, unread: None };
    match look(&mut copies, home.alloc, home.alloc, hasher) {
        Ok(Some(found)) => Ok(Some(found.restart)),
        Ok(None) => Ok(None),
        Err(StoreFault::Version) => Err(Unknown::Version),
        Err(StoreFault::Memory) => Err(Unknown::Memory),
        Err(_) => match copies.unread {
            Some((part, fault)) => Err(Unknown::Unread(part, fault)),
            None => Err(Unknown::Changing),
        },
    }
}

/// The bytes of CURRENT. `None`: it is missing.
fn current_of<R: Files<File = File>>(home: &Home<'_, R>) -> Result<Option<Vec<u8>>, Unknown> {
    let mut bytes = Vec::new(home.alloc);
    match read_part(home, Part::Current, MOST_OF_CURRENT, &mut bytes) {
        Ok(true) => Ok(Some(bytes)),
        Ok(false) => Ok(None),
        Err(fault) => Err(Unknown::Unread(Part::Current, fault)),
    }
}

/// Whether CURRENT is the same.
fn is_same(before: &Option<Vec<u8>>, after: &Option<Vec<u8>>) -> bool {
    match (before, after) {
        (Some(before), Some(after)) => before.as_slice() == after.as_slice(),
        (None, None) => true,
        _ => false,
    }
}

/// The server of the store, if CURRENT isn't replaced meanwhile.
fn read_once<R: Files<File = File>>(
    home: &Home<'_, R>,
    hasher: RandomState,
) -> Result<Option<Restart>, Unknown> {
    let before = current_of(home)?;
    let found = server_of(home, hasher);
    let after = current_of(home)?;
    if is_same(&before, &after) {
        found
    } else {
        Err(Unknown::Changing)
    }
}

/// The server of a home's store as it is now, which a server may change meanwhile. `None`: no checkpoint was finished
/// yet.
pub(crate) fn read_server<R: Files<File = File>>(
    home: &Home<'_, R>,
    hasher: RandomState,
) -> Result<Option<Restart>, Unknown> {
    if let Ok(Some(_)) = home.find(Part::Key) {
        return Err(Unknown::Earlier);
    }
    for _try in 1..TRIES {
        match read_once(home, hasher) {
            Err(Unknown::Changing) => {}
            settled => return settled,
        }
    }
    read_once(home, hasher)
}
