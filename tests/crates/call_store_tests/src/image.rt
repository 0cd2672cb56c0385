//! CURRENT and two files.

use std::alloc::{AllocError, Allocator, Global};
use store_journal::{LoadFault, Slot};

#[derive(Drop)]
pub(crate) struct Image {
    pub current: Option<Vec<u8>>,
    pub a: Vec<u8>,
    pub b: Vec<u8>,
}

impl Image {
    /// A copy of the image.
    pub(crate) fn copy(&self, alloc: Global) -> Result<Image, AllocError> {
        let current = match &self.current {
            Some(bytes) => Some(bytes.to_vec(alloc)?),
            None => None,
        };
        Ok(Image {
            current,
            a: self.a.to_vec(alloc)?,
            b: self.b.to_vec(alloc)?,
        })
    }

    pub(crate) fn file(&self, slot: Slot) -> &[u8] {
        match slot {
            Slot::A => self.a.as_slice(),
            Slot::B => self.b.as_slice(),
        }
    }

    pub(crate) fn file_mut(&mut self, slot: Slot) -> &mut Vec<u8> {
        match slot {
            Slot::A => &mut self.a,
            Slot::B => &mut self.b,
        }
    }
}

/// The bytes, or `Memory`.
pub(crate) fn lent<A: Allocator>(alloc: A, bytes: &[u8]) -> Result<Vec<u8, A>, LoadFault> {
    match bytes.to_vec(alloc) {
        Ok(bytes) => Ok(bytes),
        Err(AllocError) => Err(LoadFault::Memory),
    }
}
