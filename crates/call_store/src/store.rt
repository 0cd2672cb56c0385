//! The store of a running server.
ghost use Rattle.std.specs.Prelude.{◌≡◌, ◌==◌, ◌&&◌, length, map, true, if◌then◌else◌};
ghost use Rattle.store_journal.specs.Passage.{passage};
ghost use Rattle.call_store.specs.Keeping.{AppendsTo, BeginsTo, CloseGives, KeepGives, MarkGives, RenewsTo};
ghost use Rattle.call_store.specs.Keeping.{after_refusal};
ghost use Rattle.call_store.specs.Keeping as keeping;
ghost use Rattle.call_store.specs.Opening as opening;
ghost use Rattle.call_store.specs.Replaying.{content_of};
ghost use Rattle.call_store.specs.Sizes.{renewed, resumed_store, stopped, takes};

use crate::MACHINE;
use crate::fault::{StoreFault, fault_of_journal, fault_of_write, is_memory};
use crate::sizes::size_of;
use checkpoint::{WriteFault, write_checkpoint};
use compound_run::Server;
use std::alloc::Allocator;
use store_journal::{Current, Disk, Journal, JournalFault};

/// The most bytes of a record: those of a frame.
const MAX_RECORD: usize = 64 * 1024 * 1024;

/// The least limit of the bytes of records after a checkpoint. A larger checkpoint allows as many bytes as it has.
const LEAST: u64 = 64 * 1024 * 1024;

/// A server's state on a disk: a checkpoint, and the calls after it. After a fault other than `Memory`, and after
/// `Memory` in the middle of a checkpoint, each call is `Failed` and does nothing.
#[derive(Drop)]
pub struct Store {
    pub(crate) journal: Journal,
    /// The bytes of the checkpoint's parts.
    pub(crate) size: u64,
    /// The bytes of the records after it.
    pub(crate) logged: u64,
    /// A record was appended after the checkpoint.
    pub(crate) has_records: bool,
    /// No record was appended since the last mark or checkpoint.
    pub(crate) is_marked: bool,
}

impl Store {
    /// A store that is resumed from what a start found.
    pub(crate) fn resumed(journal: Journal, parts: &[&[u8]], records: &[&[u8]]) -> Self
        ensures { result ≡ resumed_store journal
            (content_of (map (λ b. b.now) parts.now) (map (λ b. b.now) records.now)) }
    {
        Store {
            journal,
            size: size_of(parts),
            logged: size_of(records),
            has_records: !records.is_empty(),
            is_marked: records.is_empty(),
        }
    }

    /// A store with a checkpoint of `size` bytes, and no record.
    fn renewed(journal: Journal, size: u64) -> Self
        ensures { result ≡ renewed journal size }
    {
        Store {
            journal,
            size,
            logged: 0,
            has_records: false,
            is_marked: true,
        }
    }

    /// Begins a new store: writes the first checkpoint of a server. `current` is what [`crate::open`] found. Or it is
    /// `Current::new` of an identity that is drawn at random, and of [`crate::MACHINE`]. No call may be answered before
    /// `begin` returns.
    ///
    /// `Failed`: the disk has failed. `Memory`, `Full`. `Unfit`: no server can be restored from a checkpoint of this
    /// one. The next start finds no checkpoint. If the disk has failed, it may find this one.
    pub fn begin<D: Disk, A: Allocator + Copy>(
        disk: &mut D,
        alloc: A,
        current: Current,
        server: &Server<A>,
    ) -> Result<Self, StoreFault>
        ensures { BeginsTo (passage D.adds disk.old disk.new) current server.now result }
    {
        let mut journal = Journal::new(current);
        match write_checkpoint(disk, alloc, &mut journal, MACHINE, server) {
            Ok(size) => Ok(Store::renewed(journal, size)),
            Err(fault) => Err(fault_of_write(fault)),
        }
    }

    /// Stops the store: it doesn't call the disk any more.
    fn stop(&mut self)
        ensures { self.new ≡ stopped self.old }
    {
        self.journal.has_failed = true;
    }

    /// After a refused frame.
    fn refuse(&mut self, fault: JournalFault) -> StoreFault
        ensures fault { result ≡ opening.fault_of_journal fault }
        ensures then_is { self.new ≡ after_refusal fault self.old }
    {
        if fault != JournalFault::Memory {
            self.stop();
        }
        fault_of_journal(fault)
    }

    /// After a checkpoint wasn't written. `begun` is the generation that was begun last before it.
    fn leave(&mut self, fault: WriteFault, begun: u64) -> StoreFault
        ensures fault { result ≡ keeping.fault_of_write fault }
        ensures then_is { self.new ≡ (if keeping.is_memory fault && self.old.journal.current.begun == begun
            then self.old else stopped self.old) }
    {
        let is_untouched = is_memory(fault) && self.journal.current.begun == begun;
        if !is_untouched {
            self.stop();
        }
        fault_of_write(fault)
    }

    /// Whether a record of `bytes` bytes may be appended. The checkpoint is of this machine. The record fits a frame,
    /// and the room that remains for records.
    fn takes(&self, bytes: usize) -> bool
        ensures { result ≡ takes self.now bytes }
    {
        let room = self.size.max(LEAST).saturating_sub(self.logged);
        self.journal.current.machine == MACHINE && (bytes <= MAX_RECORD && bytes as u64 <= room)
    }

    /// Appends a record.
    fn append<D: Disk, A: Allocator + Copy>(
        &mut self,
        disk: &mut D,
        alloc: A,
        log: &[u8],
    ) -> Result<(), StoreFault>
        requires { takes self.old (length log.now) ≡ true }
        ensures { AppendsTo (passage D.adds disk.old disk.new) self.old log.now result self.new }
    {
        match self.journal.append(disk, alloc, log) {
            Ok(()) => {
                self.logged += log.len() as u64;
                self.has_records = true;
                self.is_marked = false;
                Ok(())
            }
            Err(fault) => Err(self.refuse(fault)),
        }
    }

    /// Writes a checkpoint of the server's present state.
    fn renew<D: Disk, A: Allocator + Copy>(
        &mut self,
        disk: &mut D,
        alloc: A,
        server: &Server<A>,
    ) -> Result<(), StoreFault>
        ensures { RenewsTo (passage D.adds disk.old disk.new) self.old server.now result self.new }
    {
        let begun = self.journal.current.begun;
        match write_checkpoint(disk, alloc, &mut self.journal, MACHINE, server) {
            Ok(size) => {
                self.size = size;
                self.logged = 0;
                self.has_records = false;
                self.is_marked = true;
                Ok(())
            }
            Err(fault) => Err(self.leave(fault, begun)),
        }
    }

    /// Keeps what a server logged since the last call. `server` is its present state. A record of the log is appended
    /// and synced. A checkpoint is written instead in three cases. The records would exceed both 64 MiB and the bytes
    /// of the checkpoint. The record alone exceeds 64 MiB. Or the checkpoint is of another machine. If nothing was
    /// logged nothing is done.
    ///
    /// Replies to the calls of the record may be sent only after `Ok`. A crash leaves the record or not, and everything
    /// before it in any case. `Memory`: nothing has changed, or the store stops. After `Failed`, `Full` and `Unfit` it
    /// stops.
    pub fn keep<D: Disk, A: Allocator + Copy>(
        &mut self,
        disk: &mut D,
        alloc: A,
        log: &[u8],
        server: &Server<A>,
    ) -> Result<(), StoreFault>
        ensures { KeepGives (passage D.adds disk.old disk.new) self.old log.now server.now result self.new }
    {
        if self.journal.has_failed {
            return Err(StoreFault::Failed);
        }
        if log.is_empty() {
            return Ok(());
        }
        if self.takes(log.len()) {
            return self.append(disk, alloc, log);
        }
        self.renew(disk, alloc, server)
    }

    /// Appends a mark, if a record was appended since the last mark or checkpoint. The mark records that everything
    /// before it is durable. Later damage before it is then reported as corruption. `Memory`: nothing has changed.
    /// After `Failed` and `Full` the store stops.
    pub fn mark<D: Disk, A: Allocator + Copy>(
        &mut self,
        disk: &mut D,
        alloc: A,
    ) -> Result<(), StoreFault>
        ensures { MarkGives (passage D.adds disk.old disk.new) self.old result self.new }
    {
        if self.journal.has_failed {
            return Err(StoreFault::Failed);
        }
        if self.is_marked {
            return Ok(());
        }
        match self.journal.mark(disk, alloc) {
            Ok(()) => {
                self.is_marked = true;
                Ok(())
            }
            Err(fault) => Err(self.refuse(fault)),
        }
    }

    /// Closes a store after all its records were kept. A checkpoint is written, with no entries after it. A program of
    /// another machine can then continue. Nothing is done if the store has no entries, and the checkpoint is of this
    /// machine. Faults are those of [`Store::keep`].
    pub fn close<D: Disk, A: Allocator + Copy>(
        &mut self,
        disk: &mut D,
        alloc: A,
        server: &Server<A>,
    ) -> Result<(), StoreFault>
        ensures { CloseGives (passage D.adds disk.old disk.new) self.old server.now result self.new }
    {
        if self.journal.has_failed {
            return Err(StoreFault::Failed);
        }
        if !self.has_records && self.journal.current.machine == MACHINE {
            return Ok(());
        }
        self.renew(disk, alloc, server)
    }
}
