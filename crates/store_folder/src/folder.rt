//! The folder of a store, as the disk of a journal.
ghost use Rattle.std.specs.Prelude.{◌≡◌, ◌↔◌, Ok, Some, None, IfOk, IfErr, MatchResult};
ghost use Rattle.std.specs.Prelude.{◌++◌, option_map};
ghost use Rattle.store_journal.specs.Disk.{Read, Unread, Found, Unfound};
ghost use Rattle.store_folder.specs.Faults.{IsFault, part_in};
ghost use Rattle.store_folder.specs.Judging.{JudgingGives, length_of};
ghost use Rattle.store_folder.specs.Held.{IdentityFor, IsOpen, IsReadable, IsThere};
ghost use Rattle.store_folder.specs.Held.{IsUnloaded, KeepsIn, without_failure};

use crate::bounded::file_limit;
use crate::fault::{Failure, FolderFault, Operation, Part, part_of};
use crate::held::Held;
use crate::identity::draw_identity;
use crate::judging::{FileStat, Kind, Seen, judge};
use crate::making::{
    Opening, failed, lock_to_read, lock_to_write, look, look_at, make_folder, make_part,
    open_folder, open_part, refuse_earlier, sync_names,
};
use crate::names::Names;
use crate::store_file::StoreFile;
use crate::turning::SmallFile;
use std::alloc::{Allocator, Global};
use std::fs::File;
use std::random::RandomSource;
use std::rt::Files;
use store_journal::{Disk, Identity, LoadFault, Slot};

/// The folder of a store. No other program has it as long as this is held. `R` is the handle of the file system, as
/// `&HostRuntime`.
#[derive(Drop)]
pub struct StoreFolder<R, A: Allocator = Global> {
    rt: R,
    names: Names<A>,
    held: Held,
}

/// Draws the identity of a new store. An existing store has its own.
fn identity_for<R: RandomSource>(rt: &R, kind: Kind) -> Result<Option<Identity>, FolderFault>
    ensures { MatchResult result (λ identity. IdentityFor kind identity) IsFault }
{
    match kind {
        Kind::Kept => Ok(None),
        Kind::New => match draw_identity(rt) {
            Ok(identity) => Ok(Some(identity)),
            Err(error) => Err(failed(Part::Folder, Operation::Draw, error)),
        },
    }
}

/// Opens CURRENT to read it, if it exists. It is never written over.
fn open_current<R: Files<File = File> + Alloc>(
    rt: &R,
    path: &str,
    seen: Option<FileStat>,
) -> Result<Option<SmallFile>, FolderFault>
    ensures { MatchResult result (λ file. (file ≡ None) ↔ (seen ≡ None)) IsFault }
{
    match seen {
        Some(found) => {
            let opened = open_part(rt, path, Part::Current, Opening::Read, found)?;
            Ok(Some(SmallFile::new(opened)))
        }
        None => Ok(None),
    }
}

/// Opens a file of the journal, or makes it if it is missing.
fn open_or_make<R: Files<File = File> + Alloc>(
    rt: &R,
    path: &str,
    part: Part,
    limit: u64,
    seen: Option<FileStat>,
) -> Result<StoreFile, FolderFault>
    ensures { MatchResult result (λ file. IsThere (length_of seen) file) IsFault }
{
    match seen {
        Some(found) => {
            let opened = open_part(rt, path, part, Opening::Write, found)?;
            Ok(StoreFile::new(opened, limit))
        }
        None => Ok(StoreFile::empty(make_part(rt, path, part)?, limit)),
    }
}

/// Opens a file of the journal to read it, if it exists.
fn open_if_there<R: Files<File = File> + Alloc>(
    rt: &R,
    path: &str,
    part: Part,
    seen: Option<FileStat>,
) -> Result<StoreFile, FolderFault>
    ensures { MatchResult result (λ file. (file.file ≡ None) ↔ (seen ≡ None)) IsFault }
{
    match seen {
        Some(found) => {
            let opened = open_part(rt, path, part, Opening::Read, found)?;
            Ok(StoreFile::new(opened, 0))
        }
        None => Ok(StoreFile::none()),
    }
}

/// The spare that an earlier program left, if it is a regular file with one name.
fn find_spare<R: Files<File = File> + Alloc>(rt: &R, path: &str) -> Option<SmallFile> {
    let seen = look_at(rt, path, Part::Spare).ok()??;
    let opened = open_part(rt, path, Part::Spare, Opening::Write, seen).ok()?;
    Some(SmallFile::new(opened))
}

/// Opens the files of a store, to write them. The two files are made if they are missing. All names are synced.
fn open_held<R: Files<File = File> + RandomSource + Alloc>(
    rt: &R,
    path: &str,
    folder: File,
    locked: File,
    seen: Seen,
    kind: Kind,
) -> Result<Held, FolderFault>
    requires { JudgingGives seen (Ok kind) }
    ensures { MatchResult result IsOpen IsFault }
{
    let identity = identity_for(rt, kind)?;
    let limit = file_limit(rt);
    let current = open_current(rt, path, seen.current)?;
    let a = open_or_make(rt, path, Part::A, limit, seen.a)?;
    let b = open_or_make(rt, path, Part::B, limit, seen.b)?;
    sync_names(&folder)?;
    Ok(Held {
        locked,
        folder,
        current,
        identity,
        may_write: true,
        limit,
        a,
        b,
        spare: find_spare(rt, path),
        failure: None,
    })
}

/// Opens the files of a store, to read them. Nothing is made.
fn open_held_to_read<R: Files<File = File> + Alloc>(
    rt: &R,
    path: &str,
    folder: File,
    locked: File,
    seen: Seen,
    kind: Kind,
) -> Result<Held, FolderFault>
    requires { JudgingGives seen (Ok kind) }
    ensures { MatchResult result IsReadable IsFault }
{
    let current = open_current(rt, path, seen.current)?;
    let a = open_if_there(rt, path, Part::A, seen.a)?;
    let b = open_if_there(rt, path, Part::B, seen.b)?;
    Ok(Held {
        locked,
        folder,
        current,
        identity: None,
        may_write: false,
        limit: 0,
        a,
        b,
        spare: None,
        failure: None,
    })
}

impl<R: Files<File = File> + Alloc + Drop> StoreFolder<R, R::A> {
    /// Opens the folder of a path, and locks it and its `LOCK`. The folder is made if it is missing (mode 0700), as are
    /// `LOCK` and the two files (0600).
    ///
    /// A refused call has changed no existing file, and has made at most `LOCK` and empty files.
    /// [`FolderFault::InUse`]: another program has it. [`FolderFault::Failed`]: a call of the system failed.
    /// [`FolderFault::Earlier`]: the folder has the key of an earlier form of store. [`FolderFault::Corrupt`]:
    /// something is missing, is a link, or isn't a regular file. [`FolderFault::Memory`]: an allocation failed.
    pub fn open(rt: R, path: &str) -> Result<Self, FolderFault>
    where
        R: RandomSource,
        ensures { MatchResult result (λ folder. IsOpen folder.held) IsFault }
    {
        make_folder(&rt, path)?;
        refuse_earlier(&rt, path)?;
        let folder = open_folder(&rt, path, Opening::Write)?;
        let locked = lock_to_write(&rt, path, &folder)?;
        let seen = look(&rt, path)?;
        let kind = judge(seen)?;
        let names = Names::new(&rt, path)?;
        let held = open_held(&rt, path, folder, locked, seen, kind)?;
        Ok(StoreFolder { rt, names, held })
    }

    /// Opens the folder of a path only to read it, and locks it against programs that write. Nothing is made. If the
    /// folder or its `LOCK` is missing, it is refused by [`FolderFault::Failed`]. All else is refused as by
    /// [`StoreFolder::open`].
    pub fn open_to_read(rt: R, path: &str) -> Result<Self, FolderFault>
        ensures { MatchResult result (λ folder. IsReadable folder.held) IsFault }
    {
        refuse_earlier(&rt, path)?;
        let folder = open_folder(&rt, path, Opening::Read)?;
        let locked = lock_to_read(&rt, path)?;
        let seen = look(&rt, path)?;
        let kind = judge(seen)?;
        let names = Names::new(&rt, path)?;
        let held = open_held_to_read(&rt, path, folder, locked, seen, kind)?;
        Ok(StoreFolder { rt, names, held })
    }
}

impl<R, A: Allocator> StoreFolder<R, A> {
    /// The identity that was drawn for a new store. `None`: CURRENT existed when the folder was opened, and has the
    /// identity; or the folder was opened to be read.
    pub fn new_identity(&self) -> Option<Identity>
        ensures { result ≡ self.now.held.identity }
    {
        self.held.identity
    }

    /// Takes the system's error of a failed call of the disk, if any. It is returned once.
    pub fn take_failure(&mut self) -> Option<Failure>
        ensures result { result ≡ self.old.held.failure }
        ensures after { self.new ≡ without_failure self.old }
    {
        self.held.failure.take()
    }
}

impl<R: Files<File = File>, A: Allocator> Disk for StoreFolder<R, A> {
    ghost use Rattle.store_folder.specs.Held.{KeepsIn as KeepsWhat};

    ghost adds = { KeepsWhat };

    fn load_current<B: Allocator>(&mut self, alloc: B) -> Result<Option<Vec<u8, B>>, LoadFault>
        ensures keeps { MatchResult result
            (λ found. KeepsIn self.old (Read (option_map (λ bytes. bytes.items) found)) self.new)
            (λ fault. KeepsIn self.old Unread self.new) }
        ensures unloaded { IfErr result (λ fault. IsUnloaded Part.Current fault self.old.held self.new.held) }
    {
        match self.held.read_current(alloc) {
            Ok(found) => Ok(found),
            Err(error) => Err(self.held.unloaded(Part::Current, error)),
        }
    }

    fn load<B: Allocator>(&mut self, alloc: B, slot: Slot) -> Result<Vec<u8, B>, LoadFault>
        ensures keeps { MatchResult result (λ bytes. KeepsIn self.old (Found slot bytes.items) self.new)
            (λ fault. KeepsIn self.old (Unfound slot) self.new) }
        ensures unloaded { IfErr result (λ fault. IsUnloaded (part_in slot) fault self.old.held self.new.held) }
    {
        match self.held.read_file(alloc, slot) {
            Ok(bytes) => Ok(bytes),
            Err(error) => Err(self.held.unloaded(part_of(slot), error)),
        }
    }

    fn write(&mut self, slot: Slot, at: u64, prefix: &[u8], body: &[u8], back: &[u8]) -> bool {
        let gave = self.held.write_to(slot, at, prefix, body, back);
        self.held.went_well(slot, Operation::Write, gave)
    }

    fn sync(&mut self, slot: Slot) -> bool {
        let gave = self.held.sync_file(slot);
        self.held.went_well(slot, Operation::Sync, gave)
    }

    fn turn(&mut self, bytes: &[u8]) -> bool {
        match self.held.replace(&self.rt, &self.names, bytes) {
            Ok(()) => true,
            Err(failure) => {
                self.held.failure = Some(failure);
                false
            }
        }
    }
}
