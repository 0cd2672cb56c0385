//! The files after a crash: CURRENT and two files, to be read.

use std::alloc::{AllocError, Allocator, Global};
use store_journal::{Disk, LoadFault, Slot};

#[derive(Drop)]
pub(crate) struct Image {
    pub current: Option<Vec<u8>>,
    pub a: Vec<u8>,
    pub b: Vec<u8>,
}

impl Image {
    /// A copy of the image.
    pub(crate) fn copy(&self, alloc: Global) -> Result<Image, AllocError> {
        let current = match &self.current {
            Some(bytes) => Some(bytes.to_vec(alloc)?),
            None => None,
        };
        Ok(Image {
            current,
            a: self.a.to_vec(alloc)?,
            b: self.b.to_vec(alloc)?,
        })
    }

    pub(crate) fn file(&self, slot: Slot) -> &[u8] {
        match slot {
            Slot::A => self.a.as_slice(),
            Slot::B => self.b.as_slice(),
        }
    }

    pub(crate) fn file_mut(&mut self, slot: Slot) -> &mut Vec<u8> {
        match slot {
            Slot::A => &mut self.a,
            Slot::B => &mut self.b,
        }
    }
}

/// The bytes, or `Memory`.
pub(crate) fn lent<A: Allocator>(alloc: A, bytes: &[u8]) -> Result<Vec<u8, A>, LoadFault> {
    match bytes.to_vec(alloc) {
        Ok(bytes) => Ok(bytes),
        Err(AllocError) => Err(LoadFault::Memory),
    }
}

/// The image can't be written.
impl Disk for Image {
    fn load_current<A: Allocator>(&mut self, alloc: A) -> Result<Option<Vec<u8, A>>, LoadFault> {
        match &self.current {
            Some(bytes) => Ok(Some(lent(alloc, bytes)?)),
            None => Ok(None),
        }
    }

    fn load<A: Allocator>(&mut self, alloc: A, slot: Slot) -> Result<Vec<u8, A>, LoadFault> {
        lent(alloc, self.file(slot))
    }

    fn write(&mut self, _slot: Slot, _at: u64, _prefix: &[u8], _body: &[u8], _back: &[u8]) -> bool {
        false
    }

    fn sync(&mut self, _slot: Slot) -> bool {
        false
    }

    fn turn(&mut self, _bytes: &[u8]) -> bool {
        false
    }
}
