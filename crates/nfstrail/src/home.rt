//! The files of a home.
use crate::fault::Fault;
use std::alloc::{AllocError, Global};
use std::fmt::{Display, Formatter};
use std::fs::{File, Metadata};
use std::rt::Files;
use std::{fmt, fs};

/// A file of a home.
#[derive(Clone, Copy, PartialEq, Eq)]
pub(crate) enum Part {
    /// The trail.
    Trail,
    /// The book of names.
    Book,
    /// CURRENT of the store.
    Current,
    /// The key of an earlier form of store.
    Key,
    /// The first file of the store.
    A,
    /// The second file of the store.
    B,
}

impl Display for Part {
    fn fmt<W: fmt::Write>(&self, f: &mut Formatter<W>) -> fmt::Result {
        f.write_str(match self {
            Part::Trail => "trail.txt",
            Part::Book => "book.toml",
            Part::Current => "store/CURRENT",
            Part::Key => "store/tree.key",
            Part::A => "store/tree.a",
            Part::B => "store/tree.b",
        })
    }
}

/// The folder of a home.
#[derive(Clone, Copy)]
pub(crate) struct Home<'a, R> {
    pub(crate) rt: &'a R,
    pub(crate) alloc: Global,
    pub(crate) folder: &'a str,
}

impl<'a, R: Files<File = File>> Home<'a, R> {
    /// The path of a file.
    pub(crate) fn path_of(&self, part: Part) -> Result<String, AllocError> {
        let folder = self.folder;
        format!(in self.alloc; "{folder}/{part}")
    }

    /// Opens a file to be read.
    pub(crate) fn open(&self, part: Part) -> Result<File, Fault> {
        let path = self.path_of(part)?;
        open_regular(self.rt, path.as_str())
    }

    /// What the system keeps of a file.
    pub(crate) fn metadata(&self, part: Part) -> Result<Metadata, Fault> {
        let path = self.path_of(part)?;
        match fs::metadata(self.rt, path.as_str()) {
            Ok(metadata) => Ok(metadata),
            Err(error) => Err(Fault::from(error)),
        }
    }

    /// Opens a file to be read, if it exists.
    pub(crate) fn find(&self, part: Part) -> Result<Option<File>, Fault> {
        match self.open(part) {
            Ok(file) => Ok(Some(file)),
            Err(fault) if fault.is_missing() => Ok(None),
            Err(fault) => Err(fault),
        }
    }
}

/// Opens a regular file to be read.
fn open_regular<R: Files<File = File>>(rt: &R, path: &str) -> Result<File, Fault> {
    let metadata = fs::metadata(rt, path)?;
    if !metadata.is_file() {
        return Err(Fault::Irregular);
    }
    match File::open(rt, path) {
        Ok(file) => Ok(file),
        Err(error) => Err(Fault::from(error)),
    }
}
