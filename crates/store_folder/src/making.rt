//! Finding and making the folder and its files.
ghost use Rattle.std.specs.Prelude.{IfErr, MatchResult};
ghost use Rattle.store_folder.specs.Faults.{IsFault, IsFaultOf};
ghost use Rattle.store_folder.specs.Judging.{IsAsSeen};

use crate::fault::{Failure, Flaw, FolderFault, Operation, Part};
use crate::judging::{FileStat, Seen};
use crate::names::path_of;
use std::fs::{DirBuilder, File, OpenOptions, TryLockError};
use std::io::ErrorKind;
use std::os::unix::fs::{DirBuilderExt, OpenOptionsExt};
use std::path::Path;
use std::rt::Files;
use std::{fs, io};

/// How a file is opened.
#[derive(Clone, Copy, PartialEq, Eq)]
pub(crate) enum Opening {
    /// To be read.
    Read,
    /// To be read and written.
    Write,
}

/// An open file, and its metadata.
#[derive(Drop)]
pub(crate) struct Opened {
    pub file: File,
    pub found: FileStat,
}

/// The mode of a folder that is made: its owner's alone.
const FOLDER_MODE: u32 = 0o700;

/// The mode of a file that is made.
const FILE_MODE: u32 = 0o600;

/// The fault of a part, by the system's error.
pub(crate) fn failed(part: Part, operation: Operation, error: io::Error) -> FolderFault
    ensures of { IsFaultOf part operation error result }
    ensures fault { IsFault result }
{
    if error.kind() == ErrorKind::OutOfMemory {
        FolderFault::Memory
    } else {
        FolderFault::Failed(Failure::new(part, operation, error))
    }
}

/// The metadata of a part. A symbolic link isn't followed. `None`: the part is missing.
pub(crate) fn look_at<R: Files + Alloc>(
    rt: &R,
    path: &str,
    part: Part,
) -> Result<Option<FileStat>, FolderFault>
    ensures { IfErr result IsFault }
{
    let name = path_of(rt, path, part)?;
    match fs::symlink_metadata(rt, name.as_str()) {
        Ok(found) => Ok(Some(FileStat::new(&found))),
        Err(error) if error.kind() == ErrorKind::NotFound => Ok(None),
        Err(error) => Err(failed(part, Operation::Look, error)),
    }
}

/// Reads the metadata of all files of a store.
pub(crate) fn look<R: Files + Alloc>(rt: &R, path: &str) -> Result<Seen, FolderFault>
    ensures { IfErr result IsFault }
{
    Ok(Seen {
        is_earlier: look_at(rt, path, Part::Key)?.is_some(),
        current: look_at(rt, path, Part::Current)?,
        a: look_at(rt, path, Part::A)?,
        b: look_at(rt, path, Part::B)?,
    })
}

/// Refuses the folder of an earlier form of store, before anything is made in it.
pub(crate) fn refuse_earlier<R: Files + Alloc>(rt: &R, path: &str) -> Result<(), FolderFault>
    ensures { IfErr result IsFault }
{
    match look_at(rt, path, Part::Key)? {
        Some(_) => Err(FolderFault::Earlier),
        None => Ok(()),
    }
}

/// Whether the opened file is the one that was examined, unchanged, and is what the part has to be.
fn judge_opened(part: Part, seen: FileStat, found: FileStat) -> Result<(), FolderFault>
    ensures { MatchResult result (λ done. IsAsSeen seen found) IsFault }
{
    if let Some(flaw) = found.flaw() {
        return Err(FolderFault::Corrupt(part, flaw));
    }
    if !seen.is(found) || seen.len != found.len {
        return Err(FolderFault::Corrupt(part, Flaw::Replaced));
    }
    Ok(())
}

/// Opens a part that was examined. What isn't a regular file isn't opened: opening a pipe would block.
pub(crate) fn open_part<R: Files<File = File> + Alloc>(
    rt: &R,
    path: &str,
    part: Part,
    how: Opening,
    seen: FileStat,
) -> Result<Opened, FolderFault>
    ensures { MatchResult result (λ opened. IsAsSeen seen opened.found) IsFault }
{
    if let Some(flaw) = seen.flaw() {
        return Err(FolderFault::Corrupt(part, flaw));
    }
    let name = path_of(rt, path, part)?;
    let mut options = OpenOptions::new();
    options.read(true).write(how == Opening::Write);
    let file = match options.open(rt, name.as_str()) {
        Ok(file) => file,
        Err(error) => return Err(failed(part, Operation::Open, error)),
    };
    let found = match file.metadata() {
        Ok(found) => FileStat::new(&found),
        Err(error) => return Err(failed(part, Operation::Look, error)),
    };
    judge_opened(part, seen, found)?;
    Ok(Opened { file, found })
}

/// Makes a file that is missing, to be read and written. No link is followed.
pub(crate) fn make_file<R: Files<File = File>>(rt: &R, name: &str) -> io::Result<File> {
    let mut options = OpenOptions::new();
    options.read(true).write(true).create_new(true);
    options.mode(FILE_MODE);
    options.open(rt, name)
}

/// Makes an empty part that is missing, and syncs it.
pub(crate) fn make_part<R: Files<File = File> + Alloc>(
    rt: &R,
    path: &str,
    part: Part,
) -> Result<File, FolderFault>
    ensures { IfErr result IsFault }
{
    let name = path_of(rt, path, part)?;
    let file = match make_file(rt, name.as_str()) {
        Ok(file) => file,
        Err(error) => return Err(failed(part, Operation::Make, error)),
    };
    match file.sync_all() {
        Ok(()) => Ok(file),
        Err(error) => Err(failed(part, Operation::Sync, error)),
    }
}

/// Opens the folder itself, to sync its names, and locks it.
pub(crate) fn open_folder<R: Files<File = File>>(
    rt: &R,
    path: &str,
    how: Opening,
) -> Result<File, FolderFault>
    ensures { IfErr result IsFault }
{
    match File::open(rt, path) {
        Ok(folder) => {
            lock(Part::Folder, &folder, how)?;
            Ok(folder)
        }
        Err(error) => Err(failed(Part::Folder, Operation::Open, error)),
    }
}

/// Waits until the names of a folder are on the disk.
pub(crate) fn sync_names(folder: &File) -> Result<(), FolderFault>
    ensures { IfErr result IsFault }
{
    match folder.sync_all() {
        Ok(()) => Ok(()),
        Err(error) => Err(failed(Part::Folder, Operation::Sync, error)),
    }
}

/// The parent of a folder.
fn parent_of(path: &str) -> &str {
    match Path::new(path).parent() {
        Some(parent) => match parent.to_str() {
            Some("") | None => ".",
            Some(text) => text,
        },
        None => "/",
    }
}

/// Syncs the parent of a folder.
fn sync_parent<R: Files<File = File>>(rt: &R, path: &str) -> io::Result<()> {
    File::open(rt, parent_of(path))?.sync_all()
}

/// Makes the folder, which was missing, and syncs its name. Another program may have made it meanwhile.
fn create_folder<R: Files<File = File>>(rt: &R, path: &str) -> Result<(), FolderFault>
    ensures { IfErr result IsFault }
{
    match DirBuilder::new().mode(FOLDER_MODE).create(rt, path) {
        Ok(()) => match sync_parent(rt, path) {
            Ok(()) => Ok(()),
            Err(error) => Err(failed(Part::Folder, Operation::Sync, error)),
        },
        Err(error) if error.kind() == ErrorKind::AlreadyExists => Ok(()),
        Err(error) => Err(failed(Part::Folder, Operation::Make, error)),
    }
}

/// Finds the folder, or makes it. Its parent is synced, and the folder's name is then durable. If the folder existed
/// already, an error of that sync is ignored.
pub(crate) fn make_folder<R: Files<File = File>>(rt: &R, path: &str) -> Result<(), FolderFault>
    ensures { IfErr result IsFault }
{
    match fs::metadata(rt, path) {
        Ok(found) if found.is_dir() => {
            let _ = sync_parent(rt, path);
            Ok(())
        }
        Ok(_) => {
            let error = ErrorKind::NotADirectory.into();
            Err(failed(Part::Folder, Operation::Open, error))
        }
        Err(error) if error.kind() == ErrorKind::NotFound => create_folder(rt, path),
        Err(error) => Err(failed(Part::Folder, Operation::Look, error)),
    }
}

/// Locks the folder or its `LOCK`: to write, exclusively; to read, shared with other readers.
fn lock(part: Part, file: &File, how: Opening) -> Result<(), FolderFault>
    ensures { IfErr result IsFault }
{
    let locked = match how {
        Opening::Read => file.try_lock_shared(),
        Opening::Write => file.try_lock(),
    };
    match locked {
        Ok(()) => Ok(()),
        Err(TryLockError::WouldBlock) => Err(FolderFault::InUse),
        Err(TryLockError::Error(error)) => Err(failed(part, Operation::Lock, error)),
    }
}

/// Locks the folder's `LOCK`, which has been examined. Its name is examined again under the lock. No other program then
/// has the lock of a file of the same name.
fn lock_seen<R: Files<File = File> + Alloc>(
    rt: &R,
    path: &str,
    how: Opening,
    seen: FileStat,
) -> Result<File, FolderFault>
    ensures { IfErr result IsFault }
{
    let opened = open_part(rt, path, Part::Lock, how, seen)?;
    lock(Part::Lock, &opened.file, how)?;
    match look_at(rt, path, Part::Lock)? {
        Some(found) if found.is(opened.found) => Ok(opened.file),
        _ => Err(FolderFault::Corrupt(Part::Lock, Flaw::Replaced)),
    }
}

/// The fault if `LOCK` is missing.
fn no_lock() -> FolderFault
    ensures { IsFault result }
{
    failed(Part::Lock, Operation::Open, ErrorKind::NotFound.into())
}

/// Locks the folder to read it. Nothing is made.
pub(crate) fn lock_to_read<R: Files<File = File> + Alloc>(
    rt: &R,
    path: &str,
) -> Result<File, FolderFault>
    ensures { IfErr result IsFault }
{
    match look_at(rt, path, Part::Lock)? {
        Some(seen) => lock_seen(rt, path, Opening::Read, seen),
        None => Err(no_lock()),
    }
}

/// Makes `LOCK`, which was missing. Another program may have made it meanwhile.
fn make_lock<R: Files<File = File> + Alloc>(rt: &R, path: &str) -> Result<(), FolderFault>
    ensures { IfErr result IsFault }
{
    match make_part(rt, path, Part::Lock) {
        Ok(_) => Ok(()),
        Err(FolderFault::Failed(failure)) if failure.error.kind() == ErrorKind::AlreadyExists => {
            Ok(())
        }
        Err(fault) => Err(fault),
    }
}

/// Locks the folder for this program alone. `LOCK` is made if it is missing.
pub(crate) fn lock_to_write<R: Files<File = File> + Alloc>(
    rt: &R,
    path: &str,
    folder: &File,
) -> Result<File, FolderFault>
    ensures { IfErr result IsFault }
{
    if let Some(seen) = look_at(rt, path, Part::Lock)? {
        return lock_seen(rt, path, Opening::Write, seen);
    }
    make_lock(rt, path)?;
    sync_names(folder)?;
    match look_at(rt, path, Part::Lock)? {
        Some(seen) => lock_seen(rt, path, Opening::Write, seen),
        None => Err(no_lock()),
    }
}
