//! CURRENT and two files in memory, with all events, so that each crash can be played.

use crate::image::{Image, lent};
use std::alloc::{AllocError, Allocator, Global};
use store_journal::{Disk, LoadFault, Slot};

/// An event.
#[derive(Drop)]
pub(crate) enum Done {
    Wrote(Slot, u64, Vec<u8>),
    Synced(Slot),
    Turned(Vec<u8>),
}

/// An event, and the last directories that had been answered and made before it.
#[derive(Drop)]
pub(crate) struct Event {
    pub done: Done,
    pub kept: u8,
    pub all: u8,
}

/// A disk on which the first `good` calls succeed. An allocation for an event that fails counts as a call after a
/// failed one.
#[derive(Drop)]
pub(crate) struct Memory {
    alloc: Global,
    /// The image before the first event.
    pub before: Image,
    pub events: Vec<Event>,
    /// The number of further calls that succeed.
    pub good: u32,
    pub has_failed: bool,
    /// The number of calls after one that failed.
    pub late: u32,
    /// The last directory whose call was answered.
    pub kept: u8,
    /// The last directory that was made.
    pub all: u8,
}

impl Memory {
    pub(crate) fn new(alloc: Global, before: Image, good: u32) -> Self {
        Memory {
            alloc,
            before,
            events: Vec::new(alloc),
            good,
            has_failed: false,
            late: 0,
            kept: 0,
            all: 0,
        }
    }

    fn note(&mut self, done: Done) {
        let event = Event {
            done,
            kept: self.kept,
            all: self.all,
        };
        if self.events.push(event).is_err() {
            self.late = self.late.saturating_add(1);
        }
    }

    /// Whether this call succeeds.
    fn is_good(&mut self) -> bool {
        if self.has_failed {
            self.late = self.late.saturating_add(1);
        }
        if self.good == 0 {
            self.has_failed = true;
            return false;
        }
        self.good -= 1;
        true
    }

    /// The image that a read returns now.
    fn seen(&self) -> Result<Image, AllocError> {
        let left = left_of(self.alloc, &self.before, &self.events)?;
        let mut image = left.safe;
        for write in &left.loose {
            put(image.file_mut(write.slot), write.at, &write.bytes)?;
        }
        Ok(image)
    }
}

impl Disk for Memory {
    fn load_current<A: Allocator>(&mut self, alloc: A) -> Result<Option<Vec<u8, A>>, LoadFault> {
        if !self.is_good() {
            return Err(LoadFault::Failed);
        }
        let Ok(image) = self.seen() else {
            return Err(LoadFault::Memory);
        };
        match &image.current {
            Some(bytes) => Ok(Some(lent(alloc, bytes)?)),
            None => Ok(None),
        }
    }

    fn load<A: Allocator>(&mut self, alloc: A, slot: Slot) -> Result<Vec<u8, A>, LoadFault> {
        if !self.is_good() {
            return Err(LoadFault::Failed);
        }
        let Ok(image) = self.seen() else {
            return Err(LoadFault::Memory);
        };
        lent(alloc, image.file(slot))
    }

    fn write(&mut self, slot: Slot, at: u64, prefix: &[u8], body: &[u8], back: &[u8]) -> bool {
        let is_good = self.is_good();
        match joined(self.alloc, prefix, body, back) {
            Ok(bytes) => self.note(Done::Wrote(slot, at, bytes)),
            Err(AllocError) => self.late = self.late.saturating_add(1),
        }
        is_good
    }

    fn sync(&mut self, slot: Slot) -> bool {
        if self.is_good() {
            self.note(Done::Synced(slot));
            return true;
        }
        false
    }

    fn turn(&mut self, bytes: &[u8]) -> bool {
        if self.is_good() {
            match bytes.to_vec(self.alloc) {
                Ok(bytes) => self.note(Done::Turned(bytes)),
                Err(AllocError) => self.late = self.late.saturating_add(1),
            }
            return true;
        }
        false
    }
}

fn joined(alloc: Global, prefix: &[u8], body: &[u8], back: &[u8]) -> Result<Vec<u8>, AllocError> {
    let mut bytes = prefix.to_vec(alloc)?;
    bytes.extend_from_slice(body)?;
    bytes.extend_from_slice(back)?;
    Ok(bytes)
}

/// Puts bytes over those of a file, which is extended if it is too short.
pub(crate) fn put(file: &mut Vec<u8>, at: usize, bytes: &[u8]) -> Result<(), AllocError> {
    while file.len() < at.saturating_add(bytes.len()) {
        file.push(0)?;
    }
    for (place, byte) in bytes.iter().enumerate() {
        if let Some(old) = file.get_mut(at.saturating_add(place)) {
            *old = *byte;
        }
    }
    Ok(())
}

/// An unsynced write.
#[derive(Drop)]
pub(crate) struct Loose {
    pub slot: Slot,
    pub at: usize,
    pub bytes: Vec<u8>,
}

/// The durable bytes, and the unsynced writes.
#[derive(Drop)]
pub(crate) struct Left {
    pub safe: Image,
    pub loose: Vec<Loose>,
}

/// The state of the disk after these events.
pub(crate) fn left_of(alloc: Global, before: &Image, events: &[Event]) -> Result<Left, AllocError> {
    let mut left = Left {
        safe: before.copy(alloc)?,
        loose: Vec::new(alloc),
    };
    for event in events {
        apply(alloc, &mut left, &event.done)?;
    }
    Ok(left)
}

/// Applies one more event.
pub(crate) fn apply(alloc: Global, left: &mut Left, done: &Done) -> Result<(), AllocError> {
    match done {
        Done::Wrote(slot, at, bytes) => {
            let write = Loose {
                slot: *slot,
                at: *at as usize,
                bytes: bytes.to_vec(alloc)?,
            };
            left.loose.push(write)?;
        }
        Done::Synced(slot) => {
            let mut others = Vec::new(alloc);
            let writes = std::mem::replace(&mut left.loose, Vec::new(alloc));
            for write in writes {
                if write.slot == *slot {
                    put(left.safe.file_mut(*slot), write.at, &write.bytes)?;
                } else {
                    others.push(write)?;
                }
            }
            left.loose = others;
        }
        Done::Turned(bytes) => left.safe.current = Some(bytes.to_vec(alloc)?),
    }
    Ok(())
}
