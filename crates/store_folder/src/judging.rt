//! Whether a folder has a store, a new store, or corruption.
ghost use Rattle.std.specs.Prelude.{◌≡◌, ◌↔◌, IsTrue};
ghost use Rattle.std.specs.Fs.{IsFile, file_type, metadata_len};
ghost use Rattle.store_folder.specs.Judging.{flaw_of, file_flaw, is_vacant, is_same, are_same, JudgingGives};
ghost use Rattle.store_folder.specs.Judging.{LinkingGives};

use crate::fault::{Flaw, FolderFault, Part};
use std::fs::Metadata;
use std::os::unix::fs::MetadataExt;

/// The metadata of a file.
#[derive(Clone, Copy, PartialEq, Eq)]
pub(crate) struct FileStat {
    pub is_regular: bool,
    /// The number of its names.
    pub links: u64,
    /// Its device, and its number on the device.
    pub device: u64,
    pub number: u64,
    /// The number of bytes.
    pub len: u64,
}

impl FileStat {
    pub(crate) fn new(found: &Metadata) -> Self
        ensures regular { IsTrue result.is_regular ↔ IsFile (file_type found.now) }
        ensures len { result.len ≡ metadata_len found.now }
    {
        FileStat {
            is_regular: found.is_file(),
            links: found.nlink(),
            device: found.dev(),
            number: found.ino(),
            len: found.len(),
        }
    }

    /// The flaw of a file: it isn't a regular file, or has a second name.
    pub(crate) fn flaw(self) -> Option<Flaw>
        ensures { result ≡ file_flaw self }
    {
        if !self.is_regular {
            return Some(Flaw::NotRegular);
        }
        if self.links > 1 {
            return Some(Flaw::Linked);
        }
        None
    }

    /// Whether two names are of one file.
    pub(crate) fn is(self, other: FileStat) -> bool
        ensures { result ≡ is_same self other }
    {
        self.device == other.device && self.number == other.number
    }
}

/// The metadata of the files of a store, if they exist.
#[derive(Clone, Copy, PartialEq, Eq)]
pub(crate) struct Seen {
    /// The folder has the key of an earlier form of store.
    pub is_earlier: bool,
    pub current: Option<FileStat>,
    pub a: Option<FileStat>,
    pub b: Option<FileStat>,
}

/// Whether the folder has a store already.
#[derive(Clone, Copy, Debug, PartialEq, Eq)]
pub(crate) enum Kind {
    /// It has none yet: CURRENT is missing, and the two files are empty or missing.
    New,
    /// CURRENT and both files exist.
    Kept,
}

/// The flaw of a file, if it exists.
fn flaw_of(found: Option<FileStat>) -> Option<Flaw>
    ensures { result ≡ flaw_of found }
{
    match found {
        Some(found) => found.flaw(),
        None => None,
    }
}

/// Whether a file is missing or empty.
fn is_vacant(found: Option<FileStat>) -> bool
    ensures { result ≡ is_vacant found }
{
    match found {
        Some(found) => found.len == 0,
        None => true,
    }
}

/// Whether both exist and are one file.
fn are_same(a: Option<FileStat>, b: Option<FileStat>) -> bool
    ensures { result ≡ are_same a b }
{
    match (a, b) {
        (Some(a), Some(b)) => a.is(b),
        _ => false,
    }
}

/// Whether an existing file isn't a regular file, or has a second name.
fn judge_links(seen: Seen) -> Result<(), FolderFault>
    ensures { LinkingGives seen result }
{
    if let Some(flaw) = flaw_of(seen.current) {
        return Err(FolderFault::Corrupt(Part::Current, flaw));
    }
    if let Some(flaw) = flaw_of(seen.a) {
        return Err(FolderFault::Corrupt(Part::A, flaw));
    }
    if let Some(flaw) = flaw_of(seen.b) {
        return Err(FolderFault::Corrupt(Part::B, flaw));
    }
    if are_same(seen.a, seen.b) {
        return Err(FolderFault::Corrupt(Part::B, Flaw::Same));
    }
    Ok(())
}

/// Judges the files of a folder. A store with CURRENT has both files, since they are made before it. Without CURRENT
/// both are empty, since CURRENT is made before they are written.
pub(crate) fn judge(seen: Seen) -> Result<Kind, FolderFault>
    ensures { JudgingGives seen result }
{
    if seen.is_earlier {
        return Err(FolderFault::Earlier);
    }
    judge_links(seen)?;
    if seen.current.is_none() {
        if !is_vacant(seen.a) {
            return Err(FolderFault::Corrupt(Part::Current, Flaw::Missing));
        }
        if !is_vacant(seen.b) {
            return Err(FolderFault::Corrupt(Part::Current, Flaw::Missing));
        }
        return Ok(Kind::New);
    }
    if seen.a.is_none() {
        return Err(FolderFault::Corrupt(Part::A, Flaw::Missing));
    }
    if seen.b.is_none() {
        return Err(FolderFault::Corrupt(Part::B, Flaw::Missing));
    }
    Ok(Kind::Kept)
}
