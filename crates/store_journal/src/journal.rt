//! Writing a checkpoint, and records after it.
ghost use Rattle.std.specs.Prelude.{◌≡◌, []};
ghost use Rattle.store_journal.specs.Frames.{MARK, PART, RECORD, frame_with, lent};
ghost use Rattle.store_journal.specs.Keeping.{AppendGives, BeginGives, FinishGives, PartGives, new_journal};
ghost use Rattle.store_journal.specs.internal.Keeping.{noted};
ghost use Rattle.store_journal.specs.Passage.{passage};

use crate::current::{Current, other_slot};
use crate::disk::Disk;
use crate::fault::JournalFault;
use crate::frames::{END, Frame, MARK, PART, RECORD};
use crate::writing::{Position, write_frame};
use std::alloc::Allocator;

/// A journal that takes records and checkpoints.
#[derive(Drop)]
pub struct Journal {
    /// The content of CURRENT.
    pub current: Current,
    /// The position of the next record in the active file.
    pub position: Position,
    /// The position of the next part in the inactive file, while a checkpoint is being written.
    pub next: Option<Position>,
    /// The disk has failed. The journal doesn't call it again.
    pub has_failed: bool,
}

impl Journal {
    /// The journal of a new store, or of one without a finished checkpoint. Nothing is read or written.
    pub fn new(current: Current) -> Self
        ensures { result ≡ new_journal current }
    {
        Journal {
            current,
            position: Position::start(0),
            next: None,
            has_failed: false,
        }
    }

    /// Notes the fault of a frame: after `Failed` the disk isn't called again.
    fn noted(&mut self, fault: JournalFault) -> JournalFault
        ensures result { result ≡ fault }
        ensures noted { self.new ≡ noted fault self.old }
    {
        if fault == JournalFault::Failed {
            self.has_failed = true;
        }
        fault
    }

    /// Writes a frame after the last one of the active file, and syncs it.
    fn add<D: Disk, A: Allocator>(
        &mut self,
        disk: &mut D,
        alloc: A,
        frame: Frame<'_>,
    ) -> Result<(), JournalFault>
        ensures { AppendGives (passage D.adds disk.old disk.new) self.old (lent frame.entry) result self.new }
    {
        if self.has_failed {
            return Err(JournalFault::Failed);
        }
        if self.current.generation == 0 {
            return Err(JournalFault::NoCheckpoint);
        }
        let Current { identity, slot, .. } = self.current;
        let position = match write_frame(disk, alloc, identity, slot, self.position, frame) {
            Ok(position) => position,
            Err(fault) => return Err(self.noted(fault)),
        };
        if !disk.sync(slot) {
            self.has_failed = true;
            return Err(JournalFault::Failed);
        }
        self.position = position;
        self.next = None;
        Ok(())
    }

    /// Appends a record and syncs it. After that every crash keeps the record. A checkpoint in progress is abandoned.
    pub fn append<D: Disk, A: Allocator>(
        &mut self,
        disk: &mut D,
        alloc: A,
        bytes: &[u8],
    ) -> Result<(), JournalFault>
        ensures { AppendGives (passage D.adds disk.old disk.new) self.old (frame_with RECORD bytes.now) result
            self.new }
    {
        let frame = Frame {
            kind: RECORD,
            body: bytes,
        };
        self.add(disk, alloc, frame)
    }

    /// Appends a mark and syncs it. From then on a start detects corruption of any frame before it.
    pub fn mark<D: Disk, A: Allocator>(
        &mut self,
        disk: &mut D,
        alloc: A,
    ) -> Result<(), JournalFault>
        ensures { AppendGives (passage D.adds disk.old disk.new) self.old (frame_with MARK []) result self.new }
    {
        let frame = Frame {
            kind: MARK,
            body: &[],
        };
        self.add(disk, alloc, frame)
    }

    /// Begins a checkpoint of the next generation, over the bytes of the inactive file. A checkpoint in progress is
    /// abandoned. The other file stays active until `finish`.
    pub fn begin<D: Disk, A: Allocator>(
        &mut self,
        disk: &mut D,
        alloc: A,
    ) -> Result<(), JournalFault>
        ensures { BeginGives (passage D.adds disk.old disk.new) self.old result self.new }
    {
        if self.has_failed {
            return Err(JournalFault::Failed);
        }
        if self.current.begun == u64::MAX {
            return Err(JournalFault::Full);
        }
        let current = self.current.begin_next();
        let Ok(writer) = current.bytes(alloc) else {
            return Err(JournalFault::Memory);
        };
        if !disk.turn(writer.bytes()) {
            self.has_failed = true;
            return Err(JournalFault::Failed);
        }
        self.current = current;
        self.next = Some(Position::start(current.begun));
        Ok(())
    }

    /// Writes a part of the checkpoint in progress.
    pub fn part<D: Disk, A: Allocator>(
        &mut self,
        disk: &mut D,
        alloc: A,
        bytes: &[u8],
    ) -> Result<(), JournalFault>
        ensures { PartGives (passage D.adds disk.old disk.new) self.old (frame_with PART bytes.now) result self.new }
    {
        if self.has_failed {
            return Err(JournalFault::Failed);
        }
        let Some(at) = self.next else {
            return Err(JournalFault::NoCheckpoint);
        };
        let Current { identity, slot, .. } = self.current;
        let frame = Frame {
            kind: PART,
            body: bytes,
        };
        let position = match write_frame(disk, alloc, identity, other_slot(slot), at, frame) {
            Ok(position) => position,
            Err(fault) => return Err(self.noted(fault)),
        };
        self.next = Some(position);
        Ok(())
    }

    /// Ends the checkpoint in progress, syncs its file, and replaces CURRENT to name it, with the caller's number
    /// `machine`. From then on the file is active, and records go after the checkpoint.
    pub fn finish<D: Disk, A: Allocator + Copy>(
        &mut self,
        disk: &mut D,
        alloc: A,
        machine: u64,
    ) -> Result<(), JournalFault>
        ensures { FinishGives (passage D.adds disk.old disk.new) machine self.old result self.new }
    {
        if self.has_failed {
            return Err(JournalFault::Failed);
        }
        let Some(at) = self.next else {
            return Err(JournalFault::NoCheckpoint);
        };
        let current = self.current.turn_to_begun(machine);
        let Ok(writer) = current.bytes(alloc) else {
            return Err(JournalFault::Memory);
        };
        let frame = Frame {
            kind: END,
            body: &[],
        };
        let position = match write_frame(disk, alloc, current.identity, current.slot, at, frame) {
            Ok(position) => position,
            Err(fault) => return Err(self.noted(fault)),
        };
        if !disk.sync(current.slot) {
            self.has_failed = true;
            return Err(JournalFault::Failed);
        }
        if !disk.turn(writer.bytes()) {
            self.has_failed = true;
            return Err(JournalFault::Failed);
        }
        *self = Journal {
            current,
            position,
            next: None,
            has_failed: false,
        };
        Ok(())
    }
}
