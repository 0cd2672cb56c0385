//! A home: one folder for the store, the trail and the book.
use crate::Fault;
use crate::book_rule::{Start, start_for};
use nfsd_options::Options;
use std::alloc::{AllocError, Global};
use std::fmt::{Display, Formatter};
use std::fs::{DirBuilder, OpenFile, OpenOptions};
use std::io::Write;
use std::os::unix::fs::{DirBuilderExt, OpenOptionsExt};
use std::rt::Files;
use std::{fmt, fs, io};

/// The mode of a home that is made: only its owner has access.
const FOLDER_MODE: u32 = 0o700;

/// The mode of a file that is made in a home: only its owner reads and writes it.
pub(crate) const FILE_MODE: u32 = 0o600;

/// The text of the note that a home had a book.
const NOTE: &[u8] =
    b"nfsd has served this folder with a book. While this file is here, it doesn't serve it without one.\n";

/// A home: its folder, and the paths in it.
#[derive(Drop)]
pub(crate) struct Home<'a> {
    folder: &'a str,
    store: String,
    trail: String,
    book: String,
    /// The note that there was a book.
    note: String,
}

/// Why the folder of a home can't be made. The text follows its path.
#[derive(Drop)]
pub(crate) struct Unmade(io::Error);

impl Display for Unmade {
    fn fmt<W: fmt::Write>(&self, f: &mut Formatter<W>) -> fmt::Result {
        let Unmade(error) = self;
        write!(f, ": it can't be made: {error}")
    }
}

/// Makes the folder of a home.
fn create_folder<R: Files>(rt: &R, folder: &str) -> io::Result<()> {
    DirBuilder::new().mode(FOLDER_MODE).create(rt, folder)
}

/// Makes the folder of a home if it is missing. Its parent is synced then, so that the folder's name is durable. If it
/// can't be made, the store in it can't be opened, and [`home_fault`] finds the reason.
fn make_folder<R: Files>(rt: &R, alloc: Global, folder: &str) -> Result<(), AllocError> {
    if create_folder(rt, folder).is_err() {
        return Ok(());
    }
    let parent = format!(in alloc; "{folder}/..")?;
    if let Ok(parent) = fs::open(rt, parent.as_str()) {
        let _ = parent.sync_all();
    }
    Ok(())
}

/// Whether a name refers to an object. It counts as one if the system can't answer.
fn is_there<R: Files>(rt: &R, path: &str) -> bool {
    fs::exists(rt, path).unwrap_or(true)
}

impl<'a> Home<'a> {
    /// The home of a folder, which is made if it is missing.
    pub(crate) fn open<R: Files>(
        rt: &R,
        alloc: Global,
        folder: &'a str,
    ) -> Result<Self, AllocError> {
        make_folder(rt, alloc, folder)?;
        Ok(Home {
            folder,
            store: format!(in alloc; "{folder}/store")?,
            trail: format!(in alloc; "{folder}/trail.txt")?,
            book: format!(in alloc; "{folder}/book.toml")?,
            note: format!(in alloc; "{folder}/had-book")?,
        })
    }

    /// The options that the home stands for, and those that were given beside it.
    pub(crate) fn options<'b>(&'b self, given: Options<'b>) -> Options<'b> {
        Options {
            book: Some(self.book.as_str()),
            concurrent: true,
            trail: Some(self.trail.as_str()),
            stamped: true,
            store: Some(self.store.as_str()),
            leases: true,
            ..given
        }
    }

    /// How a start treats the book, given the files of the folder.
    pub(crate) fn start<R: Files>(&self, rt: &R) -> Start {
        start_for(
            is_there(rt, self.book.as_str()),
            is_there(rt, self.note.as_str()),
        )
    }

    /// Writes the note that the home has a book. After `Ok` the note and its name are durable.
    pub(crate) fn note_book<R: Files>(&self, rt: &R) -> io::Result<()> {
        let mut how = OpenOptions::new();
        how.write(true).create(true);
        how.mode(FILE_MODE);
        let mut note = how.open(rt, self.note.as_str())?;
        note.write_all(NOTE)?;
        note.sync_all()?;
        fs::open(rt, self.folder)?.sync_all()
    }
}

/// Why the folder of the options' home can't be made. `None`: the options have no home, or the folder is there.
pub(crate) fn home_fault<R: Files>(rt: &R, options: &Options<'_>) -> Option<Fault> {
    let folder = options.home?;
    if is_there(rt, folder) {
        return None;
    }
    let error = create_folder(rt, folder).err()?;
    Some(Fault::Home(Unmade(error)))
}
