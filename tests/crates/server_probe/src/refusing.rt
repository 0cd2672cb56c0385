//! Memory in which one growth fails.

use std::alloc::{AllocError, Allocator};
use std::cell::Cell;

/// Takes its memory from another allocator, and fails one growth.
pub struct Refusing<B: Allocator> {
    inner: B,
    /// The number of growths since one was chosen.
    growths: Cell<u64>,
    /// The number of the growth that fails, from 1 on; 0: none fails.
    refused: Cell<u64>,
    /// The bytes that are in use.
    used: Cell<usize>,
}

impl<B: Allocator> Refusing<B> {
    /// Memory in which no growth fails yet.
    pub fn new(inner: B) -> Self {
        Refusing {
            inner,
            growths: Cell::new(0),
            refused: Cell::new(0),
            used: Cell::new(0),
        }
    }

    /// Chooses the growth that fails, counted from now on.
    pub fn refuse(&self, number: u64) {
        self.growths.set(0);
        self.refused.set(number);
    }

    /// Whether a growth failed.
    pub fn has_refused(&self) -> bool {
        (1..=self.growths.get()).contains(&self.refused.get())
    }

    pub fn used(&self) -> usize {
        self.used.get()
    }

    /// Counts a growth. Returns whether it is the one that fails.
    fn is_refused(&self) -> bool {
        let number = self.growths.get().saturating_add(1);
        self.growths.set(number);
        number == self.refused.get()
    }
}

impl<B: Allocator> Drop for Refusing<B> {
    fn drop(self) {
        let Self {
            inner: _,
            growths: _,
            refused: _,
            used: _,
        } = self;
    }
}

unsafe impl<B: Allocator> Allocator for Refusing<B> {
    ghost dealloc_token = { λ heap ty ptr. B.dealloc_token heap.inner ty ptr };

    fn allocate(&self, size: usize, align: usize) -> Result<*mut u8, AllocError> {
        if self.is_refused() {
            return Err(AllocError);
        }
        let block = self.inner.allocate(size, align)?;
        self.used.set(self.used.get().saturating_add(size));
        Ok(block)
    }

    unsafe fn deallocate(&self, ptr: *mut u8, size: usize, align: usize) {
        self.used.set(self.used.get().saturating_sub(size));
        self.inner.deallocate(ptr, size, align);
    }
}
