//! The store of a folder, read without a lock while a server may write it. Nothing is written.
//!
//! CURRENT is read before the file that it names, and again after that. No file is written over while CURRENT names it.
//! So if CURRENT is the same both times, the file's frames are the first ones of its log. All frames that were synced
//! before the first reading are among them. A frame that was being written may be torn, and a later one whole: then the
//! file looks corrupt. So what looks corrupt is read again, and is corrupt if it looks the same.
use std::alloc::{Allocator, Global};
use std::fs::{File, Metadata};
use std::io::ErrorKind;
use std::os::unix::fs::{FileExt, MetadataExt};
use std::rt::{Clock, Files};
use std::time::{SystemTime, UNIX_EPOCH};
use std::{fs, io};
use store_folder::{
    Corruption, Failure, Flaw, FolderFault, Operation, Part, Spot, StoreStop, Unknown, frames_of,
};
use store_journal::{Current, Disk, LoadFault, OpenFault, Slot, choose, load};

/// How many times a store is read that a server changes meanwhile.
pub(crate) const TRIES: u32 = 16;

/// The zero bytes after the last frame: as many as a start writes there.
const END_OF_LOG: usize = 64;

/// What a store keeps at a moment.
#[derive(Drop)]
pub(crate) struct Content {
    /// The second since 1970 in which its reading began. Everything that was answered before is there.
    pub(crate) begun: i64,
    /// The bytes of CURRENT.
    pub(crate) current: Vec<u8>,
    /// The bytes of the active file.
    pub(crate) log: Log,
}

/// The active file.
#[derive(Drop)]
pub(crate) struct Log {
    pub(crate) slot: Slot,
    /// Its valid frames, and the end of the log. Frames that a server writes later have been cut off: after a crash of
    /// another server they would look like frames after a corrupt one.
    pub(crate) bytes: Vec<u8>,
}

/// Why a store isn't read.
#[derive(Drop)]
pub(crate) enum Unread {
    /// It can't be read, or it is corrupt.
    Stop(StoreStop),
    /// A server has changed it each time.
    Changing,
}

impl From<FolderFault> for Unread {
    fn from(fault: FolderFault) -> Self {
        Unread::Stop(StoreStop::from(fault))
    }
}

/// The fault of a part, by the system's error.
fn failed(part: Part, operation: Operation, error: io::Error) -> FolderFault {
    if error.kind() == ErrorKind::OutOfMemory {
        return FolderFault::Memory;
    }
    FolderFault::Failed(Failure {
        part,
        operation,
        error,
    })
}

/// What is wrong with a part that is there.
fn flaw_of(found: &Metadata) -> Option<Flaw> {
    if !found.is_file() {
        Some(Flaw::NotRegular)
    } else if found.nlink() > 1 {
        Some(Flaw::Linked)
    } else {
        None
    }
}

/// Whether a part is there and isn't empty.
fn has_bytes(found: &Option<Metadata>) -> bool {
    match found {
        Some(found) => found.len() > 0,
        None => false,
    }
}

/// Reads the bytes that a file has now.
fn read_bytes<A: Allocator>(file: &File, bytes: &mut Vec<u8, A>) -> io::Result<()> {
    let len = file.metadata()?.len();
    bytes.reserve_exact(len as usize)?;
    bytes.resize(len as usize, 0)?;
    file.read_exact_at(bytes, 0)
}

/// The second since 1970, or 0 if the time can't be read.
fn second<R: Clock>(rt: &R) -> i64 {
    let Ok(now) = SystemTime::now(rt) else {
        return 0;
    };
    let Ok(since) = now.duration_since(UNIX_EPOCH) else {
        return 0;
    };
    i64::try_from(since.as_secs()).unwrap_or(0)
}

/// The folder of a store, of which no lock is taken.
#[derive(Clone, Copy)]
pub(crate) struct Unlocked<'a, R> {
    pub(crate) rt: &'a R,
    pub(crate) alloc: Global,
    pub(crate) folder: &'a str,
}

impl<R: Files<File = File>> Unlocked<'_, R> {
    /// The path of a part.
    fn path_of(&self, part: Part) -> Result<String, FolderFault> {
        let folder = self.folder;
        match format!(in self.alloc; "{folder}{part}") {
            Ok(path) => Ok(path),
            Err(_) => Err(FolderFault::Memory),
        }
    }

    /// The metadata of a part. A symbolic link isn't followed. `None`: the part is missing.
    fn look_at(&self, part: Part) -> Result<Option<Metadata>, FolderFault> {
        let path = self.path_of(part)?;
        match fs::symlink_metadata(self.rt, path.as_str()) {
            Ok(found) => Ok(Some(found)),
            Err(error) if error.kind() == ErrorKind::NotFound => Ok(None),
            Err(error) => Err(failed(part, Operation::Look, error)),
        }
    }

    /// The metadata of a part, which has to be a regular file with one name. `None`: the part is missing.
    fn look_at_regular(&self, part: Part) -> Result<Option<Metadata>, FolderFault> {
        let Some(found) = self.look_at(part)? else {
            return Ok(None);
        };
        match flaw_of(&found) {
            Some(flaw) => Err(FolderFault::Corrupt(part, flaw)),
            None => Ok(Some(found)),
        }
    }

    /// Refuses a folder that isn't there, or has the key of an earlier form of store.
    fn judge_folder(&self) -> Result<(), FolderFault> {
        if let Err(error) = fs::metadata(self.rt, self.folder) {
            return Err(failed(Part::Folder, Operation::Open, error));
        }
        match self.look_at(Part::Key)? {
            Some(_) => Err(FolderFault::Earlier),
            None => Ok(()),
        }
    }

    /// Refuses a folder that no server would open: parts that are missing, linked, or no regular files.
    fn judge(&self) -> Result<(), FolderFault> {
        self.judge_folder()?;
        let current = self.look_at_regular(Part::Current)?;
        let a = self.look_at_regular(Part::A)?;
        let b = self.look_at_regular(Part::B)?;
        if current.is_none() {
            if has_bytes(&a) || has_bytes(&b) {
                return Err(FolderFault::Corrupt(Part::Current, Flaw::Missing));
            }
            return Ok(());
        }
        if a.is_none() {
            return Err(FolderFault::Corrupt(Part::A, Flaw::Missing));
        }
        if b.is_none() {
            return Err(FolderFault::Corrupt(Part::B, Flaw::Missing));
        }
        Ok(())
    }

    /// Appends all bytes of a part. `false`: the part is missing.
    fn read_part<A: Allocator>(
        &self,
        part: Part,
        bytes: &mut Vec<u8, A>,
    ) -> Result<bool, FolderFault> {
        if self.look_at_regular(part)?.is_none() {
            return Ok(false);
        }
        let path = self.path_of(part)?;
        let file = match File::open(self.rt, path.as_str()) {
            Ok(file) => file,
            Err(error) => return Err(failed(part, Operation::Open, error)),
        };
        match read_bytes(&file, bytes) {
            Ok(()) => Ok(true),
            Err(error) => Err(failed(part, Operation::Read, error)),
        }
    }

    /// The bytes of CURRENT. A missing one has none.
    fn read_current(&self) -> Result<Vec<u8>, FolderFault> {
        let mut bytes = Vec::new(self.alloc);
        let _is_there = self.read_part(Part::Current, &mut bytes)?;
        Ok(bytes)
    }

    /// Reads CURRENT, and the file that it names. `None`: no checkpoint was finished yet.
    fn read_log(&self) -> Result<Option<Log>, StoreStop> {
        let mut reading = Reading {
            files: self,
            fault: None,
        };
        let loaded = match load(&mut reading, self.alloc) {
            Ok(loaded) => loaded,
            Err(fault) => return Err(unloaded(fault, reading.fault)),
        };
        let Some(current) = loaded.current else {
            return Ok(None);
        };
        if current.generation == 0 {
            return Ok(None);
        }
        let mut bytes = loaded.bytes;
        let end = end_of_frames(self.alloc, current, &bytes)?;
        bytes.truncate(end);
        if bytes.resize(end.saturating_add(END_OF_LOG), 0).is_err() {
            return Err(StoreStop::Memory);
        }
        Ok(Some(Log {
            slot: current.slot,
            bytes,
        }))
    }
}

impl<R: Files<File = File> + Clock> Unlocked<'_, R> {
    /// Reads the store, if CURRENT isn't replaced meanwhile.
    fn read_once(&self) -> Result<Option<Content>, Unread> {
        let begun = second(self.rt);
        self.judge()?;
        let before = self.read_current()?;
        let log = self.read_log();
        let after = self.read_current()?;
        if before.as_slice() != after.as_slice() {
            return Err(Unread::Changing);
        }
        match log {
            Ok(Some(log)) => Ok(Some(Content {
                begun,
                current: before,
                log,
            })),
            Ok(None) => Ok(None),
            Err(stop) => Err(Unread::Stop(stop)),
        }
    }

    /// Reads the store as it is at a moment after this call began. `None`: no checkpoint was finished yet.
    pub(crate) fn read(&self) -> Result<Option<Content>, Unread> {
        let mut seen = None;
        for _try in 0..TRIES {
            match self.read_once() {
                Err(Unread::Changing) => seen = None,
                Err(Unread::Stop(StoreStop::Corrupt(corruption))) => {
                    if seen == Some(corruption) {
                        return Err(Unread::Stop(StoreStop::Corrupt(corruption)));
                    }
                    seen = Some(corruption);
                }
                settled => return settled,
            }
        }
        Err(Unread::Changing)
    }
}

/// The files of a store as a disk that is only read.
#[derive(Drop)]
struct Reading<'a, 'b, R> {
    files: &'b Unlocked<'a, R>,
    /// Why a file wasn't read.
    fault: Option<FolderFault>,
}

impl<R> Reading<'_, '_, R> {
    /// Keeps why a file isn't read.
    fn miss(&mut self, fault: FolderFault) -> LoadFault {
        let why = match fault {
            FolderFault::Memory => LoadFault::Memory,
            _ => LoadFault::Failed,
        };
        self.fault = Some(fault);
        why
    }
}

impl<R: Files<File = File>> Disk for Reading<'_, '_, R> {
    fn load_current<A: Allocator>(&mut self, alloc: A) -> Result<Option<Vec<u8, A>>, LoadFault> {
        let mut bytes = Vec::new(alloc);
        match self.files.read_part(Part::Current, &mut bytes) {
            Ok(true) => Ok(Some(bytes)),
            Ok(false) => Ok(None),
            Err(fault) => Err(self.miss(fault)),
        }
    }

    fn load<A: Allocator>(&mut self, alloc: A, slot: Slot) -> Result<Vec<u8, A>, LoadFault> {
        let mut bytes = Vec::new(alloc);
        match self.files.read_part(part_of(slot), &mut bytes) {
            Ok(_) => Ok(bytes),
            Err(fault) => Err(self.miss(fault)),
        }
    }

    fn write(&mut self, _slot: Slot, _at: u64, _prefix: &[u8], _body: &[u8], _back: &[u8]) -> bool {
        false
    }

    fn sync(&mut self, _slot: Slot) -> bool {
        false
    }

    fn turn(&mut self, _bytes: &[u8]) -> bool {
        false
    }
}

/// The part of a file of the journal.
pub(crate) fn part_of(slot: Slot) -> Part {
    match slot {
        Slot::A => Part::A,
        Slot::B => Part::B,
    }
}

/// Why a store isn't loaded, given why a file of it wasn't read.
fn unloaded(fault: OpenFault, unread: Option<FolderFault>) -> StoreStop {
    match fault {
        OpenFault::Failed => match unread {
            Some(unread) => StoreStop::from(unread),
            None => StoreStop::Failed(None),
        },
        OpenFault::Version => StoreStop::Version(Unknown::Form),
        OpenFault::Corrupt => StoreStop::Corrupt(Corruption::Current),
        OpenFault::Memory => StoreStop::Memory,
    }
}

/// The place after the valid frames of the file that CURRENT names.
fn spot_in(current: Current, file: &[u8]) -> Spot {
    let found = frames_of(current.identity, current.generation, file);
    Spot {
        part: part_of(current.slot),
        frames: found.frames,
        byte: file.len().saturating_sub(found.rest),
    }
}

/// The number of bytes of the valid frames of the file that CURRENT names.
fn end_of_frames(alloc: Global, current: Current, file: &[u8]) -> Result<usize, StoreStop> {
    match choose(alloc, current, file) {
        Ok(chosen) => Ok(chosen.position.at as usize),
        Err(OpenFault::Corrupt) => {
            let spot = spot_in(current, file);
            Err(StoreStop::Corrupt(Corruption::Rotten(spot)))
        }
        Err(_) => Err(StoreStop::Memory),
    }
}
