//! Allocations that fail.

use crate::image::Image;
use crate::memory::Memory;
use crate::script::{after_run, begun, nothing};
use call_store::{Opened, StoreFault, open};
use linked_list_allocator::LocalHeap;
use std::alloc::Global;
use std::hash::RandomState;
use std::process::Abort;
use std::test::Fail;

/// Opens a store over a heap of this size. Returns whether it was opened. If it wasn't, nothing was written.
fn opens(alloc: Global, hasher: RandomState, image: &Image, size: usize) -> Result<bool, Fail> {
    let heap = LocalHeap::new(alloc, size)?;
    let mut disk = Memory::new(alloc, image.copy(alloc)?, 1000);
    match open(&mut disk, &heap, alloc, hasher, 0) {
        Ok(Opened::Kept(_)) => Ok(true),
        Ok(Opened::New(_)) => Err(Fail::new("a store that was kept is new")),
        Err(StoreFault::Memory) => {
            if disk.events.is_empty() {
                Ok(false)
            } else {
                Err(Fail::new("a store was written to"))
            }
        }
        Err(_) => Err(Fail::new("another fault than memory")),
    }
}

/// Over a heap of each size a store is opened, or it is unchanged.
#[test]
fn it_is_opened_or_memory_is_refused(rt: HostRuntime) -> Result<(), Fail> {
    let alloc = rt.alloc();
    let hasher = RandomState::new(&rt)?;
    let image = after_run(alloc, hasher)?;
    let (mut done, mut refused) = (0u32, 0u32);
    for step in 0..160usize {
        if opens(alloc, hasher, &image, 4096 + step * 16384)? {
            done += 1;
        } else {
            refused += 1;
        }
    }
    assert!(rt; done > 0);
    assert!(rt; refused > 0);
    Ok(())
}

/// A mark is set, or an allocation fails and the store continues.
#[test]
fn a_mark_is_set_or_nothing_has_changed(rt: HostRuntime) -> Result<(), Fail> {
    let alloc = rt.alloc();
    let hasher = RandomState::new(&rt)?;
    let (mut done, mut refused) = (0u32, 0u32);
    for size in 0..40usize {
        let mut disk = Memory::new(alloc, nothing(alloc), 1000);
        let Ok(mut play) = begun(alloc, hasher, &mut disk) else {
            return Err(Fail::new("the store isn't begun"));
        };
        let count = disk.events.len();
        let heap = LocalHeap::new(alloc, 16 + size * 8)?;
        match play.store.mark(&mut disk, &heap) {
            Ok(()) => {
                assert_eq!(rt; disk.events.len(), count + 2);
                done += 1;
            }
            Err(fault) => {
                assert!(rt; fault == StoreFault::Memory);
                assert_eq!(rt; disk.events.len(), count);
                assert!(rt; play.store.mark(&mut disk, alloc).is_ok());
                refused += 1;
            }
        }
    }
    assert!(rt; done > 0);
    assert!(rt; refused > 0);
    Ok(())
}
