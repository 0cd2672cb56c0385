//! Opening a journal after a start has read it.
ghost use Rattle.std.specs.Prelude.{◌≡◌};
ghost use Rattle.store_journal.specs.Keeping.{ResumeGives};
ghost use Rattle.store_journal.specs.Passage.{passage};

use crate::current::Current;
use crate::disk::Disk;
use crate::fault::JournalFault;
use crate::journal::Journal;
use crate::opening::Chosen;
use crate::writing::wiped;
use std::alloc::Allocator;

impl Journal {
    /// Opens a journal on the content that a start found. The bytes that were read may be in the page cache alone, if a
    /// program ended before its sync or the sync failed. All frames but the last were durable before the last was
    /// written. The last frame is therefore written again and synced, and CURRENT is replaced by the same bytes. The
    /// bytes of a head after it are zeroed. A frame that an earlier program lost then never becomes valid again.
    pub fn resume<D: Disk, A: Allocator>(
        disk: &mut D,
        alloc: A,
        chosen: &Chosen<'_, A>,
    ) -> Result<Self, JournalFault>
        ensures { ResumeGives (passage D.adds disk.old disk.new) chosen.now.current chosen.now.position
            chosen.now.last_at chosen.now.last.now result }
    {
        let current: Current = chosen.current;
        let Ok(writer) = current.bytes(alloc) else {
            return Err(JournalFault::Memory);
        };
        if !disk.write(current.slot, chosen.last_at, chosen.last, &[], wiped()) {
            return Err(JournalFault::Failed);
        }
        if !disk.sync(current.slot) {
            return Err(JournalFault::Failed);
        }
        if !disk.turn(writer.bytes()) {
            return Err(JournalFault::Failed);
        }
        Ok(Journal {
            current,
            position: chosen.position,
            next: None,
            has_failed: false,
        })
    }
}
