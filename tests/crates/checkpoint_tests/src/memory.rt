//! CURRENT and two files in memory. A number of their calls succeed.

use std::alloc::{AllocError, Allocator, Global};
use store_journal::{Disk, LoadFault, Slot};

/// A disk on which each write is durable at once. An allocation for bytes that fails counts as a call that failed.
#[derive(Drop)]
pub(crate) struct Memory {
    alloc: Global,
    current: Option<Vec<u8>>,
    a: Vec<u8>,
    b: Vec<u8>,
    /// The number of requested writes, syncs and turns.
    pub acts: u32,
    /// The number of further ones that succeed.
    pub good: u32,
}

/// Puts bytes over those of a file, which is extended if it is too short.
fn put(file: &mut Vec<u8>, at: usize, bytes: &[u8]) -> Result<(), AllocError> {
    while file.len() < at.saturating_add(bytes.len()) {
        file.push(0)?;
    }
    for (place, byte) in bytes.iter().enumerate() {
        if let Some(old) = file.get_mut(at.saturating_add(place)) {
            *old = *byte;
        }
    }
    Ok(())
}

fn lent<A: Allocator>(alloc: A, bytes: &[u8]) -> Result<Vec<u8, A>, LoadFault> {
    match bytes.to_vec(alloc) {
        Ok(bytes) => Ok(bytes),
        Err(AllocError) => Err(LoadFault::Memory),
    }
}

impl Memory {
    /// An empty disk.
    pub(crate) fn new(alloc: Global) -> Self {
        Memory {
            alloc,
            current: None,
            a: Vec::new(alloc),
            b: Vec::new(alloc),
            acts: 0,
            good: 1_000_000,
        }
    }

    /// Whether this call succeeds.
    fn is_good(&mut self) -> bool {
        self.acts = self.acts.saturating_add(1);
        if self.good == 0 {
            return false;
        }
        self.good -= 1;
        true
    }

    fn file_mut(&mut self, slot: Slot) -> &mut Vec<u8> {
        match slot {
            Slot::A => &mut self.a,
            Slot::B => &mut self.b,
        }
    }
}

impl Disk for Memory {
    fn load_current<A: Allocator>(&mut self, alloc: A) -> Result<Option<Vec<u8, A>>, LoadFault> {
        match &self.current {
            Some(bytes) => Ok(Some(lent(alloc, bytes)?)),
            None => Ok(None),
        }
    }

    fn load<A: Allocator>(&mut self, alloc: A, slot: Slot) -> Result<Vec<u8, A>, LoadFault> {
        lent(alloc, self.file_mut(slot))
    }

    fn write(&mut self, slot: Slot, at: u64, prefix: &[u8], body: &[u8], back: &[u8]) -> bool {
        if !self.is_good() {
            return false;
        }
        let file = self.file_mut(slot);
        let start = at as usize;
        let middle = start.saturating_add(prefix.len());
        put(file, start, prefix).is_ok()
            && put(file, middle, body).is_ok()
            && put(file, middle.saturating_add(body.len()), back).is_ok()
    }

    fn sync(&mut self, _slot: Slot) -> bool {
        self.is_good()
    }

    fn turn(&mut self, bytes: &[u8]) -> bool {
        if !self.is_good() {
            return false;
        }
        match bytes.to_vec(self.alloc) {
            Ok(bytes) => {
                self.current = Some(bytes);
                true
            }
            Err(AllocError) => false,
        }
    }
}
