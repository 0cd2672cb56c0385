//! An open folder, and what the calls of a disk do with it.
ghost use Rattle.std.specs.Prelude.{◌≡◌, None, length, MatchResult, ◌++◌, option_map};
ghost use Rattle.store_journal.specs.Disk.{Read, Found, Wrote, Synced, Turned};
ghost use Rattle.store_folder.specs.Faults.{part_in};
ghost use Rattle.store_folder.specs.Held.{Keeps, LoadingFailed, CallGave, NotReplaced, PuttingGives, bar_of, fitting};
ghost use Rattle.store_folder.specs.Held.{without_spare};

use crate::fault::{Failure, Operation, Part, part_of};
use crate::names::Names;
use crate::store_file::StoreFile;
use crate::turning::{SmallFile, make_fresh, make_spare};
use std::alloc::Allocator;
use std::fs::File;
use std::io::ErrorKind;
use std::rt::Files;
use std::{fs, io};
use store_journal::{Identity, LoadFault, Slot};

/// The open files of a folder, and its state.
#[derive(Drop)]
pub(crate) struct Held {
    /// `LOCK`, which is locked.
    pub locked: File,
    /// The folder itself, which is locked too. A sync of it makes its names durable.
    pub folder: File,
    /// `None`: CURRENT was never written.
    pub current: Option<SmallFile>,
    /// The identity that was drawn for a new store.
    pub identity: Option<Identity>,
    /// The folder was opened to be written.
    pub may_write: bool,
    /// The greatest size of a file.
    pub limit: u64,
    pub a: StoreFile,
    pub b: StoreFile,
    pub spare: Option<SmallFile>,
    pub failure: Option<Failure>,
}

impl Held {
    /// Reads CURRENT, if any.
    pub(crate) fn read_current<A: Allocator>(&self, alloc: A) -> io::Result<Option<Vec<u8, A>>>
        ensures { MatchResult result (λ found. Keeps self.now (Read (option_map (λ bytes. bytes.items) found)) self.now)
            (λ e. Unit {0}) }
    {
        match &self.current {
            Some(file) => Ok(Some(file.read(alloc)?)),
            None => Ok(None),
        }
    }

    /// Reads all bytes of a file.
    pub(crate) fn read_file<A: Allocator>(&self, alloc: A, slot: Slot) -> io::Result<Vec<u8, A>>
        ensures { MatchResult result (λ bytes. Keeps self.now (Found slot bytes.items) self.now) (λ e. Unit {0}) }
    {
        match slot {
            Slot::A => self.a.load(alloc),
            Slot::B => self.b.load(alloc),
        }
    }

    /// Writes bytes at an offset of a file.
    pub(crate) fn write_to(
        &mut self,
        slot: Slot,
        at: u64,
        prefix: &[u8],
        body: &[u8],
        back: &[u8],
    ) -> io::Result<()>
        ensures { MatchResult result
            (λ done. Keeps self.old (Wrote slot at (prefix.now ++ body.now ++ back.now)) self.new)
            (λ e. self.new ≡ self.old) }
    {
        if self.may_write {
            match slot {
                Slot::A => self.a.write(at, prefix, body, back),
                Slot::B => self.b.write(at, prefix, body, back),
            }
        } else {
            Err(ErrorKind::ReadOnlyFilesystem.into())
        }
    }

    /// Waits until what was written to a file is on the disk.
    pub(crate) fn sync_file(&mut self, slot: Slot) -> io::Result<()>
        ensures { MatchResult result (λ done. Keeps self.old (Synced slot) self.new) (λ e. self.new ≡ self.old) }
    {
        match slot {
            Slot::A => self.a.sync(),
            Slot::B => self.b.sync(),
        }
    }

    /// Takes the spare, and returns it if it has the length of `bytes`.
    fn take_spare(&mut self, bytes: &[u8]) -> Option<SmallFile>
        ensures result { result ≡ fitting (length bytes.now) self.old.spare }
        ensures after { self.new ≡ without_spare self.old }
    {
        match self.spare.take() {
            Some(spare) if spare.fits(bytes) => Some(spare),
            _ => None,
        }
    }

    /// Why `count` bytes can't become CURRENT: the folder was opened to be read, or they would pass the limit.
    fn bar(&self, count: usize) -> Option<ErrorKind>
        ensures { result ≡ bar_of count self.now }
    {
        if !self.may_write {
            return Some(ErrorKind::ReadOnlyFilesystem);
        }
        if count as u64 > self.limit {
            return Some(ErrorKind::FileTooLarge);
        }
        None
    }

    /// Writes the next CURRENT, syncs it, and renames it to CURRENT.
    fn put<R: Files<File = File>, A: Allocator>(
        &mut self,
        rt: &R,
        names: &Names<A>,
        bytes: &[u8],
    ) -> Result<SmallFile, Failure>
        ensures { PuttingGives (length bytes.now) self.old result self.new }
    {
        let (file, name) = match self.take_spare(bytes) {
            Some(spare) => (spare.fill(bytes)?, names.spare.as_str()),
            None => {
                let name = names.fresh.as_str();
                (make_fresh(rt, name, bytes)?, name)
            }
        };
        match fs::rename(rt, name, names.current.as_str()) {
            Ok(()) => Ok(file),
            Err(error) => Err(Failure::new(Part::Current, Operation::Rename, error)),
        }
    }

    /// Replaces CURRENT as a whole, and makes the next spare.
    pub(crate) fn replace<R: Files<File = File>, A: Allocator>(
        &mut self,
        rt: &R,
        names: &Names<A>,
        bytes: &[u8],
    ) -> Result<(), Failure>
        ensures { MatchResult result (λ done. Keeps self.old (Turned bytes.now) self.new)
            (λ failure. NotReplaced (length bytes.now) self.old failure self.new) }
    {
        if let Some(bar) = self.bar(bytes.len()) {
            return Err(Failure::new(Part::Current, Operation::Write, bar.into()));
        }
        let file = self.put(rt, names, bytes)?;
        if let Err(error) = self.folder.sync_all() {
            return Err(Failure::new(Part::Folder, Operation::Sync, error));
        }
        self.current = Some(file);
        self.spare = make_spare(rt, names.spare.as_str(), bytes.len());
        Ok(())
    }

    /// Why a part isn't loaded. The system's error is kept, unless it is a failed allocation.
    pub(crate) fn unloaded(&mut self, part: Part, error: io::Error) -> LoadFault
        ensures { LoadingFailed part error result self.old self.new }
    {
        if error.kind() == ErrorKind::OutOfMemory {
            return LoadFault::Memory;
        }
        self.failure = Some(Failure::new(part, Operation::Read, error));
        LoadFault::Failed
    }

    /// Whether a call on a file succeeded. If not, the system's error is kept.
    pub(crate) fn went_well(
        &mut self,
        slot: Slot,
        operation: Operation,
        gave: io::Result<()>,
    ) -> bool
        ensures { CallGave slot operation gave result self.old self.new }
    {
        match gave {
            Ok(()) => true,
            Err(error) => {
                self.failure = Some(Failure::new(part_of(slot), operation, error));
                false
            }
        }
    }
}
