//! Replacing CURRENT as a whole, also on a disk that is full.
ghost use Rattle.std.specs.Prelude.{◌≡◌, length, IfOk, IfSome, MatchResult};
ghost use Rattle.store_folder.specs.Held.{has_length};

use crate::fault::{Failure, Operation, Part};
use crate::making::{Opened, make_file};
use crate::store_file::{read_all, write_zeros};
use std::alloc::Allocator;
use std::fs::File;
use std::io::ErrorKind;
use std::os::unix::fs::FileExt;
use std::rt::Files;
use std::{fs, io};

/// A file that is replaced as a whole: CURRENT, or its spare. The bytes of a spare are never read. The next CURRENT
/// is written over them. Replacing CURRENT then takes no new room.
#[derive(Drop)]
pub(crate) struct SmallFile {
    file: File,
    /// The number of its bytes.
    len: u64,
}

impl SmallFile {
    /// A file that is open.
    pub(crate) fn new(opened: Opened) -> Self
        ensures { result ≡ record { file = opened.file; len = opened.found.len } }
    {
        SmallFile {
            file: opened.file,
            len: opened.found.len,
        }
    }

    /// All its bytes.
    pub(crate) fn read<A: Allocator>(&self, alloc: A) -> io::Result<Vec<u8, A>>
        ensures { IfOk result (λ bytes. length bytes.items ≡ self.now.len) }
    {
        read_all(&self.file, self.len, alloc)
    }

    /// Whether it has exactly the length of `bytes`. If it were longer, its own bytes would follow the new ones.
    pub(crate) fn fits(&self, bytes: &[u8]) -> bool
        ensures { result ≡ has_length (length bytes.now) self.now }
    {
        self.len == bytes.len() as u64
    }

    /// Writes the next CURRENT over the bytes of a spare, and syncs it. The spare's length and blocks are on the disk
    /// already. Only data is therefore written.
    pub(crate) fn fill(self, bytes: &[u8]) -> Result<SmallFile, Failure>
        ensures { MatchResult result (λ file. file ≡ self) (λ failure. failure.part ≡ Part.Spare) }
    {
        if let Err(error) = self.file.write_all_at(bytes, 0) {
            return Err(Failure::new(Part::Spare, Operation::Write, error));
        }
        if let Err(error) = self.file.sync_data() {
            return Err(Failure::new(Part::Spare, Operation::Sync, error));
        }
        Ok(self)
    }
}

/// Removes a name, if it exists. The target of a link isn't touched.
fn remove<R: Files>(rt: &R, name: &str) -> io::Result<()> {
    match fs::remove_file(rt, name) {
        Err(error) if error.kind() != ErrorKind::NotFound => Err(error),
        _ => Ok(()),
    }
}

/// Makes the file that is to become CURRENT, writes it and syncs it. A file that a crash left under its name is
/// removed.
pub(crate) fn make_fresh<R: Files<File = File>>(
    rt: &R,
    name: &str,
    bytes: &[u8],
) -> Result<SmallFile, Failure>
    ensures { MatchResult result (λ file. file.len ≡ length bytes.now) (λ failure. failure.part ≡ Part.Fresh) }
{
    if let Err(error) = remove(rt, name) {
        return Err(Failure::new(Part::Fresh, Operation::Remove, error));
    }
    let file = match make_file(rt, name) {
        Ok(file) => file,
        Err(error) => return Err(Failure::new(Part::Fresh, Operation::Make, error)),
    };
    if let Err(error) = file.write_all_at(bytes, 0) {
        return Err(Failure::new(Part::Fresh, Operation::Write, error));
    }
    match file.sync_all() {
        Ok(()) => Ok(SmallFile {
            file,
            len: bytes.len() as u64,
        }),
        Err(error) => Err(Failure::new(Part::Fresh, Operation::Sync, error)),
    }
}

/// Makes a file of `len` zero bytes, and syncs it.
fn make_zeros<R: Files<File = File>>(rt: &R, name: &str, len: usize) -> io::Result<File> {
    remove(rt, name)?;
    let file = make_file(rt, name)?;
    if write_zeros(&file, 0, len as u64) < len as u64 {
        return Err(ErrorKind::StorageFull.into());
    }
    file.sync_all()?;
    Ok(file)
}

/// Makes a spare of `len` bytes. They are zero: no CURRENT that a person could take for the store's. `None`: it doesn't
/// fit.
pub(crate) fn make_spare<R: Files<File = File>>(rt: &R, name: &str, len: usize) -> Option<SmallFile>
    ensures { IfSome result (λ spare. spare.len ≡ len) }
{
    match make_zeros(rt, name, len) {
        Ok(file) => Some(SmallFile {
            file,
            len: len as u64,
        }),
        Err(_) => {
            let _ = remove(rt, name);
            None
        }
    }
}
