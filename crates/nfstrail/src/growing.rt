//! The file of the trail, which is read as a server appends to it.
ghost use Rattle.std.specs.Prelude.{◌≡◌};
ghost use Rattle.nfstrail.specs.Growing as specs;

use crate::fault::Fault;
use crate::home::{Home, Part};
use std::alloc::Global;
use std::fs::{File, Metadata};
use std::io;
use std::io::{BufRead, BufReader};
use std::os::unix::fs::MetadataExt;
use std::rt::Files;

/// Which file it is: by its device and its number there.
#[derive(Clone, Copy)]
pub(crate) struct FileId {
    pub(crate) device: u64,
    pub(crate) node: u64,
}

/// What has become of the file that is read.
#[derive(Clone, Copy, PartialEq, Eq)]
pub(crate) enum Change {
    /// It is the trail, and what was read of it is still there.
    Same,
    /// It is the trail, and is shorter than what was read of it.
    Cut,
    /// The trail's name leads to another file.
    Replaced,
}

impl FileId {
    /// Whether both are one file.
    fn is(&self, other: &FileId) -> bool
        ensures { result ≡ specs.is_one_file self.now other.now }
    {
        self.device == other.device && self.node == other.node
    }
}

/// Compares the file that is read, by its first `position` bytes so far, with the file that its name leads to now.
fn change_of(read: &FileId, position: u64, found: &FileId, len: u64) -> Change
    ensures { result ≡ specs.change read.now position found.now len }
{
    if !read.is(found) {
        Change::Replaced
    } else if len < position {
        Change::Cut
    } else {
        Change::Same
    }
}

/// A file of the trail, and how far it was read. While it is open, no other file gets its number.
#[derive(Drop)]
pub(crate) struct Growing {
    reader: BufReader<File>,
    id: FileId,
    /// The number of bytes that were read.
    position: u64,
    /// The line that was read last, with its newline; or the bytes after the last newline.
    line: Vec<u8>,
}

fn id_of(metadata: &Metadata) -> FileId {
    FileId {
        device: metadata.dev(),
        node: metadata.ino(),
    }
}

impl Growing {
    /// A file that is read from its beginning.
    pub(crate) fn new(alloc: Global, file: File) -> io::Result<Self> {
        let metadata = file.metadata()?;
        Ok(Growing {
            reader: BufReader::new(alloc, file)?,
            id: id_of(&metadata),
            position: 0,
            line: Vec::new(alloc),
        })
    }

    /// The length of the file now.
    pub(crate) fn file_len(&self) -> io::Result<u64> {
        let metadata = self.reader.get_ref().metadata()?;
        Ok(metadata.len())
    }

    /// The number of bytes that were read: the end of the last line.
    pub(crate) fn position(&self) -> u64 {
        self.position
    }

    /// The line that was read last, with its newline; or the bytes after the last newline.
    pub(crate) fn line(&self) -> &[u8] {
        self.line.as_slice()
    }

    /// Whether the last line has its newline.
    fn is_ended(&self) -> bool {
        self.line.as_slice().ends_with(b"\n".as_slice())
    }

    /// The bytes after the last newline.
    pub(crate) fn unended(&self) -> &[u8] {
        if self.is_ended() {
            b"".as_slice()
        } else {
            self.line.as_slice()
        }
    }

    /// Reads the next line. `false`: the file has no further newline yet, and a later call continues there.
    pub(crate) fn next_line(&mut self) -> io::Result<bool> {
        if self.is_ended() {
            self.line.clear();
        }
        let count = self.reader.read_until(b'\n', &mut self.line)?;
        self.position = self.position.saturating_add(count as u64);
        Ok(self.is_ended())
    }

    /// What has become of the file. If the name leads nowhere, it is the same: a server that appends the next line
    /// makes another file before.
    pub(crate) fn change<R: Files<File = File>>(
        &self,
        home: &Home<'_, R>,
    ) -> Result<Change, Fault> {
        match home.metadata(Part::Trail) {
            Ok(found) => Ok(change_of(&self.id, self.position, &id_of(&found), found.len())),
            Err(fault) if fault.is_missing() => Ok(Change::Same),
            Err(fault) => Err(fault),
        }
    }
}
