//! CURRENT and the two files of a journal on a disk.
ghost use Rattle.std.specs.Prelude.{Option, option_map, MatchResult, ◌++◌};
ghost use Rattle.store_journal.specs.Disk.{Act, Read, Unread, Found, Unfound, wrote, synced, turned};

use std::alloc::Allocator;
use thiserror::Error;

/// One of the two files.
#[derive(Clone, Copy, Debug, PartialEq, Eq)]
pub enum Slot {
    A,
    B,
}

/// Why CURRENT or a file isn't loaded.
#[derive(Clone, Copy, Debug, PartialEq, Eq, Error)]
pub enum LoadFault {
    /// It can't be read.
    #[error("the file can't be read")]
    Failed,
    /// The allocation of its bytes fails.
    #[error("no memory for the file")]
    Memory,
}

/// CURRENT, a small file that is replaced as a whole, and two files that are written over. After a failed call the
/// caller makes no other.
///
/// An implementation states by `adds` which act a call adds to a list of acts, wherever that list is kept. One list can
/// therefore hold the acts of a disk beside others. A real file claims nothing.
pub trait Disk {
    // this act makes the second disk of the first one
    ghost adds: { Self → Act → Self → Type 0 } = { λ old act new. Unit {0} };

    /// Reads CURRENT. `None`: it is missing.
    fn load_current<A: Allocator>(&mut self, alloc: A) -> Result<Option<Vec<u8, A>>, LoadFault>
        ensures { MatchResult result
            (λ found. adds self.old (Read (option_map (λ bytes. bytes.items) found)) self.new)
            (λ fault. adds self.old Unread self.new) };

    /// Reads all bytes of a file. A missing file has none.
    fn load<A: Allocator>(&mut self, alloc: A, slot: Slot) -> Result<Vec<u8, A>, LoadFault>
        ensures { MatchResult result (λ bytes. adds self.old (Found slot bytes.items) self.new)
            (λ fault. adds self.old (Unfound slot) self.new) };

    /// Writes `prefix`, `body` and `back`, one after the other, at offset `at` of a file. They replace the bytes
    /// at that offset, or extend the file. `false`: the write failed, and any part of them may have been written.
    fn write(&mut self, slot: Slot, at: u64, prefix: &[u8], body: &[u8], back: &[u8]) -> bool
        ensures { adds self.old (wrote result slot at (prefix.now ++ body.now ++ back.now)) self.new };

    /// Waits until everything that was written to a file is on the disk. `false`: the sync failed, and what was
    /// written since the last sync may be lost.
    fn sync(&mut self, slot: Slot) -> bool
        ensures { adds self.old (synced result slot) self.new };

    /// Replaces CURRENT: writes the bytes beside it, syncs them, renames them to CURRENT, and syncs the folder.
    /// `false`: that failed, and CURRENT has its old bytes or these.
    fn turn(&mut self, bytes: &[u8]) -> bool
        ensures { adds self.old (turned result bytes.now) self.new };
}
