//! A backup: a whole copy of a home or of a store, also while a server writes it. No lock is taken, and nothing is
//! written there.
//!
//! The copy is written under another name, synced and read whole. Only then it gets its name.
use crate::checking::{Whole, check};
use crate::fault::{Fault, Stopped};
use crate::places::{Source, Target};
use crate::unlocked::{Content, Unlocked, Unread, part_of};
use std::alloc::{AllocError, Global};
use std::fs::{DirBuilder, File, OpenOptions};
use std::hash::RandomState;
use std::io::{BufRead, BufReader, BufWriter, ErrorKind, Read, Write};
use std::os::unix::fs::{DirBuilderExt, MetadataExt, OpenOptionsExt, lchown};
use std::{fs, io};
use store_folder::{Corruption, Part, StoreStop, file_limit};
use store_journal::Slot;
use store_words::Stop;

/// The mode of a folder that is made: its owner's alone.
const FOLDER_MODE: u32 = 0o700;

/// The mode of a file that is made.
const FILE_MODE: u32 = 0o600;

/// The files of a home that a start reads: the book, and the note that there was one.
const OF_HOME: [&str; 2] = ["book.toml", "had-book"];

/// The trail of a home.
const TRAIL: &str = "trail.txt";

/// A backup that was made.
#[derive(Clone, Copy)]
pub(crate) struct Made {
    /// The second since 1970 in which it began. Everything that was answered before is there.
    pub(crate) begun: i64,
    /// The counts of the copy's store.
    pub(crate) whole: Whole,
}

/// Why no backup is made.
#[derive(Drop)]
pub(crate) enum Refused {
    /// The destination is there already.
    Taken,
    /// The name that a copy has until it is whole is there already.
    Begun,
    /// No checkpoint was finished yet.
    Nothing,
    /// The store isn't read.
    Unread(Unread),
    /// The store's files are valid, and a server doesn't start from what they keep.
    Source(Stop),
    /// The copy isn't whole.
    Copy(Stop),
    /// A file of the home isn't read, or one of the copy isn't written.
    Stopped(Stopped),
}

impl From<Stopped> for Refused {
    fn from(stopped: Stopped) -> Self {
        Refused::Stopped(stopped)
    }
}

impl From<AllocError> for Refused {
    fn from(error: AllocError) -> Self {
        Refused::Stopped(Stopped::from(error))
    }
}

/// Waits until the names of a folder are on the disk.
fn sync_folder(rt: &HostRuntime, folder: &str) -> io::Result<()> {
    File::open(rt, folder)?.sync_all()
}

/// Whether the content of a copy stops a server. The source has the same content.
fn is_of_content(stop: &Stop) -> bool {
    match stop {
        Stop::Folder(StoreStop::Corrupt(Corruption::Content(_))) => true,
        Stop::Folder(StoreStop::Version(_)) => true,
        Stop::Folder(_) => false,
        Stop::Profile | Stop::Entry(_) | Stop::Full | Stop::Unfit => true,
    }
}

/// Reads the next line with its newline. `false`: there is none, or it has no newline yet.
fn next_line<R: Read>(lines: &mut BufReader<R>, line: &mut Vec<u8>) -> Result<bool, Fault> {
    line.clear();
    match lines.read_until(b'\n', line) {
        Ok(_) => Ok(line.last() == Some(&b'\n')),
        Err(error) => Err(Fault::Unread(error)),
    }
}

/// Copies the whole lines of a file. A line that a server is just writing is left out.
fn copy_lines<R: Read, W: Write>(
    alloc: Global,
    lines: &mut BufReader<R>,
    out: &mut W,
) -> Result<(), Fault> {
    let mut line = Vec::new(alloc);
    for _line in 0..u64::MAX {
        if !next_line(lines, &mut line)? {
            break;
        }
        out.write_all(line.as_slice()).map_err(Fault::Unwritten)?;
    }
    out.flush().map_err(Fault::Unwritten)
}

/// A backup that is being made.
#[derive(Clone, Copy)]
struct Backup<'a> {
    rt: &'a HostRuntime,
    alloc: Global,
    source: &'a Source<'a>,
    target: &'a Target<'a>,
    /// The greatest length that a file may have. The system ends a program that writes past it.
    limit: u64,
}

impl Backup<'_> {
    /// Refuses a destination that is there.
    fn find_target(&self) -> Result<(), Refused> {
        let folder = self.target.folder;
        match fs::symlink_metadata(self.rt, folder) {
            Ok(_) => Err(Refused::Taken),
            Err(error) if error.kind() == ErrorKind::NotFound && !folder.is_empty() => Ok(()),
            Err(error) => Err(Refused::Stopped(Stopped::from(Fault::Unmade(error)))),
        }
    }

    /// Makes the folder of the copy.
    fn make_target(&self) -> Result<(), Refused> {
        let fresh = self.target.fresh.as_str();
        match DirBuilder::new().mode(FOLDER_MODE).create(self.rt, fresh) {
            Ok(()) => Ok(()),
            Err(error) if error.kind() == ErrorKind::AlreadyExists => Err(Refused::Begun),
            Err(error) => {
                let path = String::from_str(self.alloc, fresh)?;
                Err(Refused::Stopped(Stopped::at(Some(path), Fault::Unmade(error))))
            }
        }
    }

    /// Makes the folder of the copy's store, if that isn't the copy itself.
    fn make_store(&self) -> Result<(), Stopped> {
        if !self.source.is_home {
            return Ok(());
        }
        let store = self.target.store.as_str();
        match DirBuilder::new().mode(FOLDER_MODE).create(self.rt, store) {
            Ok(()) => Ok(()),
            Err(error) => {
                let path = String::from_str(self.alloc, store)?;
                Err(Stopped::at(Some(path), Fault::Unmade(error)))
            }
        }
    }

    /// Makes a file of the copy.
    fn create(&self, path: &str) -> Result<File, Fault> {
        let mut options = OpenOptions::new();
        options.write(true).create_new(true).mode(FILE_MODE);
        options.open(self.rt, path).map_err(Fault::Unmade)
    }

    /// Whether a file may have so many bytes.
    fn allow(&self, len: u64) -> Result<(), Fault> {
        if len > self.limit {
            return Err(Fault::Unwritten(ErrorKind::FileTooLarge.into()));
        }
        Ok(())
    }

    /// Writes a file of the copy, and waits until it is on the disk.
    fn write(&self, path: &str, bytes: &[u8]) -> Result<(), Fault> {
        self.allow(bytes.len() as u64)?;
        let mut file = self.create(path)?;
        file.write_all(bytes).map_err(Fault::Unwritten)?;
        file.sync_all().map_err(Fault::Unsynced)
    }

    /// Writes a part of the copy's store.
    fn put_part(&self, part: Part, bytes: &[u8]) -> Result<(), Stopped> {
        let folder = self.target.store.as_str();
        let path = format!(in self.alloc; "{folder}{part}")?;
        match self.write(path.as_str(), bytes) {
            Ok(()) => Ok(()),
            Err(fault) => Err(Stopped::at(Some(path), fault)),
        }
    }

    /// Writes the files of the copy's store. The inactive file is empty: nothing of it is read. The content is dropped
    /// then, since reading the copy needs as much memory again.
    fn put_store(&self, content: Content) -> Result<(), Stopped> {
        let inactive = match content.log.slot {
            Slot::A => Slot::B,
            Slot::B => Slot::A,
        };
        self.put_part(Part::Lock, b"")?;
        self.put_part(part_of(inactive), b"")?;
        self.put_part(part_of(content.log.slot), content.log.bytes.as_slice())?;
        self.put_part(Part::Current, content.current.as_slice())
    }

    /// Opens a file of the home to read it, and how many bytes it has now. `None`: it is missing.
    fn find(&self, path: &str) -> Result<Option<(File, u64)>, Fault> {
        match fs::metadata(self.rt, path) {
            Ok(found) if found.is_file() => {}
            Ok(_) => return Err(Fault::Irregular),
            Err(error) if error.kind() == ErrorKind::NotFound => return Ok(None),
            Err(error) => return Err(Fault::Unread(error)),
        }
        let file = File::open(self.rt, path).map_err(Fault::Unread)?;
        let len = file.metadata().map_err(Fault::Unread)?.len();
        Ok(Some((file, len)))
    }

    /// Copies the whole lines of a file of the home, if it is there.
    fn copy_trail(&self, from: &str, to: &str) -> Result<(), Fault> {
        let Some((file, len)) = self.find(from)? else {
            return Ok(());
        };
        self.allow(len)?;
        let mut lines = BufReader::new(self.alloc, file.take(len))?;
        let mut out = BufWriter::new(self.alloc, self.create(to)?)?;
        copy_lines(self.alloc, &mut lines, &mut out)?;
        out.get_ref().sync_all().map_err(Fault::Unsynced)
    }

    /// Copies a file of the home, if it is there.
    fn copy_file(&self, from: &str, to: &str) -> Result<(), Fault> {
        let Some((mut file, _)) = self.find(from)? else {
            return Ok(());
        };
        let mut bytes = Vec::new(self.alloc);
        file.read_to_end(&mut bytes).map_err(Fault::Unread)?;
        self.write(to, bytes.as_slice())
    }

    /// Copies a file of this name in the home, if it is there.
    fn copy(&self, name: &str) -> Result<(), Stopped> {
        let (home, fresh) = (self.source.folder, self.target.fresh.as_str());
        let from = format!(in self.alloc; "{home}/{name}")?;
        let to = format!(in self.alloc; "{fresh}/{name}")?;
        let copied = if name == TRAIL {
            self.copy_trail(from.as_str(), to.as_str())
        } else {
            self.copy_file(from.as_str(), to.as_str())
        };
        match copied {
            Ok(()) => {
                self.give(from.as_str(), to.as_str());
                Ok(())
            }
            Err(fault) if fault.is_of_source() => Err(Stopped::at(Some(from), fault)),
            Err(fault) => Err(Stopped::at(Some(to), fault)),
        }
    }

    /// Copies the files of a home beside its store.
    fn copy_home(&self) -> Result<(), Stopped> {
        if !self.source.is_home {
            return Ok(());
        }
        for name in OF_HOME {
            self.copy(name)?;
        }
        self.copy(TRAIL)
    }

    /// Gives a copy the owner and the group of what it is a copy of, if the system allows it.
    fn give(&self, from: &str, to: &str) {
        if let Ok(found) = fs::metadata(self.rt, from) {
            let _ = lchown(self.rt, to, Some(found.uid()), Some(found.gid()));
        }
    }

    /// Gives a part of the copy's store its owner.
    fn give_part(&self, part: Part) -> Result<(), Stopped> {
        let (store, copy) = (self.source.store.as_str(), self.target.store.as_str());
        let to = format!(in self.alloc; "{copy}{part}")?;
        self.give(store, to.as_str());
        Ok(())
    }

    /// Gives the copy and its store their owners, and waits until their names are on the disk.
    fn settle(&self) -> Result<(), Stopped> {
        for part in [Part::Lock, Part::A, Part::B, Part::Current, Part::Folder] {
            self.give_part(part)?;
        }
        let (fresh, store) = (self.target.fresh.as_str(), self.target.store.as_str());
        self.give(self.source.folder, fresh);
        for folder in [store, fresh] {
            if let Err(error) = sync_folder(self.rt, folder) {
                let path = String::from_str(self.alloc, folder)?;
                return Err(Stopped::at(Some(path), Fault::Unsynced(error)));
            }
        }
        Ok(())
    }

    /// Gives a whole copy its name, and waits until that is on the disk.
    fn name(&self) -> Result<(), Stopped> {
        let folder = self.target.folder;
        if let Err(error) = fs::rename(self.rt, self.target.fresh.as_str(), folder) {
            return Err(Stopped::from(Fault::Unmade(error)));
        }
        let above = format!(in self.alloc; "{folder}/..")?;
        match sync_folder(self.rt, above.as_str()) {
            Ok(()) => Ok(()),
            Err(error) => Err(Stopped::at(Some(above), Fault::Unsynced(error))),
        }
    }

    /// Reads the copy's store whole.
    fn check(&self, hasher: RandomState) -> Result<Whole, Refused> {
        match check(self.rt, self.alloc, self.target.store.as_str(), hasher) {
            Ok(Some(whole)) => Ok(whole),
            Ok(None) => Err(Refused::Nothing),
            Err(stop) if is_of_content(&stop) => Err(Refused::Source(stop)),
            Err(stop) => Err(Refused::Copy(stop)),
        }
    }

    /// Makes the copy of a store whose content was read, in a folder that was made.
    fn fill(&self, content: Content, hasher: RandomState) -> Result<Made, Refused> {
        let begun = content.begun;
        self.make_store()?;
        self.put_store(content)?;
        let whole = self.check(hasher)?;
        self.copy_home()?;
        self.settle()?;
        self.name()?;
        Ok(Made { begun, whole })
    }

    /// Makes the copy. What was begun is removed if it isn't whole.
    fn make(&self, hasher: RandomState) -> Result<Made, Refused> {
        self.find_target()?;
        let files = Unlocked {
            rt: self.rt,
            alloc: self.alloc,
            folder: self.source.store.as_str(),
        };
        let content = match files.read() {
            Ok(Some(content)) => content,
            Ok(None) => return Err(Refused::Nothing),
            Err(unread) => return Err(Refused::Unread(unread)),
        };
        self.make_target()?;
        let made = self.fill(content, hasher);
        if made.is_err() {
            let _ = fs::remove_dir_all(self.rt, self.target.fresh.as_str());
        }
        made
    }
}

/// Makes a whole copy of a home or a store, as it is at a moment after this call began.
pub(crate) fn back_up(
    rt: &HostRuntime,
    alloc: Global,
    source: &Source<'_>,
    target: &Target<'_>,
    hasher: RandomState,
) -> Result<Made, Refused> {
    let backup = Backup {
        rt,
        alloc,
        source,
        target,
        limit: file_limit(rt),
    };
    backup.make(hasher)
}
