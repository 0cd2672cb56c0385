//! A file of a journal on a file system.
ghost use Rattle.std.specs.Prelude.{◌≡◌, ◌+◌, ◌-◌, ◌≤◌, ◌<◌, ◌^◌, Some, None, length, IfOk, IsErrAnd};
ghost use Rattle.std.specs.Prelude.{MatchOption, MatchResult};
ghost use Rattle.std.specs.IoError.{error_kind};
ghost use Rattle.store_folder.specs.Held.{IsFound, IsSynced, IsWritten, ahead, opened_file, new_file, no_file};

use crate::making::Opened;
use std::alloc::Allocator;
use std::fs::File;
use std::io;
use std::io::ErrorKind;
use std::os::unix::fs::FileExt;

/// The most bytes that are preallocated at once.
const MOST_AHEAD: u64 = 4_194_304;

/// The fewest, if the limit leaves room for them.
const LEAST_AHEAD: u64 = 65_536;

/// A file that is written over, and is never truncated or emptied. After the written bytes it may have preallocated
/// zero bytes, over which more is written. A sync of bytes in preallocated room is quicker. The file gets no new
/// length and no new blocks, which the system would have to sync too.
#[derive(Drop)]
pub(crate) struct StoreFile {
    /// `None`: it is missing, and isn't made.
    file: Option<File>,
    /// The number of its bytes, with the preallocated ones.
    len: u64,
    /// Its length when it was opened, or at the last sync.
    synced: u64,
    /// The greatest length that it may have.
    limit: u64,
}

/// Writes `count` zero bytes at an offset of a file, or fewer if the system takes no more. Returns the offset after
/// them.
pub(crate) fn write_zeros(file: &File, place: u64, count: u64) -> u64
    requires { place + count < 2 ^ 64 }
    ensures least { place ≤ result }
    ensures most { result ≤ place + count }
{
    let zeros = [0u8; 16_384];
    let to = place + count;
    let mut at = place;
    while at < to {
        let more = zeros.len().min((to - at) as usize);
        match file.write_at(&zeros[..more], at) {
            Ok(0) | Err(_) => return at,
            Ok(written) => at += written as u64,
        }
    }
    at
}

/// The first `len` bytes of a file. The length is known, and one allocation suffices.
pub(crate) fn read_all<A: Allocator>(file: &File, len: u64, alloc: A) -> io::Result<Vec<u8, A>>
    ensures { IfOk result (λ bytes. length bytes.items ≡ len) }
{
    let mut bytes = Vec::new(alloc);
    bytes.reserve_exact(len as usize)?;
    bytes.resize(len as usize, 0)?;
    file.read_exact_at(&mut bytes, 0)?;
    Ok(bytes)
}

impl StoreFile {
    /// A file that is open, and the greatest length that it may have.
    pub(crate) fn new(opened: Opened, limit: u64) -> Self
        ensures { result ≡ opened_file opened limit }
    {
        StoreFile {
            file: Some(opened.file),
            len: opened.found.len,
            synced: opened.found.len,
            limit,
        }
    }

    /// A file that was just made.
    pub(crate) fn empty(file: File, limit: u64) -> Self
        ensures { result ≡ new_file file limit }
    {
        StoreFile {
            file: Some(file),
            len: 0,
            synced: 0,
            limit,
        }
    }

    /// A missing file.
    pub(crate) fn none() -> Self
        ensures { result ≡ no_file }
    {
        StoreFile {
            file: None,
            len: 0,
            synced: 0,
            limit: 0,
        }
    }

    /// Reads all its bytes. A missing file has none.
    pub(crate) fn load<A: Allocator>(&self, alloc: A) -> io::Result<Vec<u8, A>>
        ensures { IfOk result (λ bytes. IsFound self.now bytes.items) }
    {
        match &self.file {
            Some(file) => read_all(file, self.len, alloc),
            None => Ok(Vec::new(alloc)),
        }
    }

    /// The offset after bytes that are written at `at`. `None`: they would pass the limit.
    fn place_after(&self, at: u64, prefix: &[u8], body: &[u8], back: &[u8]) -> Option<u64>
        ensures { let end = at + (length prefix.now + length body.now + length back.now) in
            MatchOption result (self.now.limit < end) (λ place. (place ≡ end) × (end ≤ self.now.limit)) }
    {
        let limit = self.limit;
        let after_prefix = at.checked_add(prefix.len() as u64)?;
        let after_body = after_prefix.checked_add(body.len() as u64)?;
        let end = after_body.checked_add(back.len() as u64)?;
        if end > limit {
            return None;
        }
        Some(end)
    }

    /// Writes bytes at an offset, over existing bytes or past the end. Bytes that would pass the limit are refused, and
    /// none of them is written. The system would end the program by a signal (SIGXFSZ).
    pub(crate) fn write(
        &mut self,
        at: u64,
        prefix: &[u8],
        body: &[u8],
        back: &[u8],
    ) -> io::Result<()>
        ensures written { MatchResult result
            (λ done. IsWritten at (length prefix.now + length body.now + length back.now) self.old self.new)
            (λ e. self.new ≡ self.old) }
        ensures full { self.old.limit < at + (length prefix.now + length body.now + length back.now) →
            IsErrAnd result (λ e. error_kind e ≡ ErrorKind.FileTooLarge) }
    {
        let Some(end) = self.place_after(at, prefix, body, back) else {
            return Err(ErrorKind::FileTooLarge.into());
        };
        let Some(file) = &self.file else {
            return Err(ErrorKind::ReadOnlyFilesystem.into());
        };
        file.write_all_at(prefix, at)?;
        file.write_all_at(body, at + prefix.len() as u64)?;
        file.write_all_at(back, at + prefix.len() as u64 + body.len() as u64)?;
        if self.len < end {
            self.len = end;
        }
        Ok(())
    }

    /// How many bytes are preallocated: as many as the file has, within bounds.
    fn ahead(&self) -> u64
        ensures count { result ≡ ahead self.now }
        ensures fits { self.now.len + result < 2 ^ 64 }
    {
        let wanted = if self.len < LEAST_AHEAD {
            LEAST_AHEAD
        } else if MOST_AHEAD < self.len {
            MOST_AHEAD
        } else {
            self.len
        };
        let room = self.limit.saturating_sub(self.len);
        if room < wanted { room } else { wanted }
    }

    /// Waits until everything that was written is on the disk. If the file has grown, room is preallocated before, as
    /// far as the system has it. The same sync then makes it durable, and a checkpoint of many parts gets room once.
    pub(crate) fn sync(&mut self) -> io::Result<()>
        ensures { MatchResult result (λ done. IsSynced self.old self.new) (λ e. self.new ≡ self.old) }
    {
        let Some(file) = &self.file else {
            return Ok(());
        };
        let mut len = self.len;
        if self.synced < len {
            len = write_zeros(file, len, self.ahead());
        }
        file.sync_data()?;
        self.len = len;
        self.synced = len;
        Ok(())
    }
}
