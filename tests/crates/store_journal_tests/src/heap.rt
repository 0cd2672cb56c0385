//! Allocations that fail.

use crate::memory::Memory;
use crate::script::{after_run, nothing, number_of, run};
use linked_list_allocator::LocalHeap;
use std::process::Abort;
use std::test::Fail;
use store_journal::{JournalFault, OpenFault, choose, load};

#[test]
fn what_is_chosen_is_whole_or_memory_is_refused(rt: HostRuntime) -> Result<(), Fail> {
    let alloc = rt.alloc();
    let mut image = after_run(alloc)?;
    let Ok(found) = load(&mut image, alloc) else {
        return Ok(());
    };
    let Some(current) = found.current else {
        return Ok(());
    };
    let mut refused = 0u32;
    let mut read = 0u32;
    for size in 0..64usize {
        let heap = LocalHeap::new(alloc, 64 + size * 16)?;
        match choose(&heap, current, &found.bytes) {
            Ok(chosen) => {
                assert_eq!(rt; number_of(&chosen), 7);
                read = read.saturating_add(1);
            }
            Err(fault) => {
                assert!(rt; fault == OpenFault::Memory);
                refused = refused.saturating_add(1);
            }
        }
    }
    assert!(rt; refused > 0);
    assert!(rt; read > 0);
    Ok(())
}

#[test]
fn a_call_succeeds_or_changes_nothing(rt: HostRuntime) -> Result<(), Fail> {
    let alloc = rt.alloc();
    let mut refused = 0u32;
    let mut done = 0u32;
    for size in 0..64usize {
        let mut disk = Memory::new(alloc, nothing(alloc), 1000);
        let Ok(mut journal) = run(alloc, &mut disk) else {
            return Ok(());
        };
        let count = disk.events.len();
        let heap = LocalHeap::new(alloc, 16 + size * 8)?;
        match journal.append(&mut disk, &heap, &[8]) {
            Ok(()) => {
                assert_eq!(rt; disk.events.len(), count + 2);
                done = done.saturating_add(1);
            }
            Err(fault) => {
                assert!(rt; fault == JournalFault::Memory);
                assert_eq!(rt; disk.events.len(), count);
                assert!(rt; journal.append(&mut disk, alloc, &[8]).is_ok());
                refused = refused.saturating_add(1);
            }
        }
    }
    assert!(rt; refused > 0);
    assert!(rt; done > 0);
    Ok(())
}

#[test]
fn each_call_of_a_checkpoint_too(rt: HostRuntime) -> Result<(), Fail> {
    let alloc = rt.alloc();
    let mut refused = 0u32;
    for size in 0..48usize {
        let mut disk = Memory::new(alloc, nothing(alloc), 1000);
        let Ok(mut journal) = run(alloc, &mut disk) else {
            return Ok(());
        };
        let heap = LocalHeap::new(alloc, 16 + size * 8)?;
        let count = disk.events.len();
        if let Err(fault) = journal.begin(&mut disk, &heap) {
            assert!(rt; fault == JournalFault::Memory && disk.events.len() == count);
            assert!(rt; journal.begin(&mut disk, alloc).is_ok());
            refused = refused.saturating_add(1);
        }
        assert_eq!(rt; disk.events.len(), count + 1);
        if let Err(fault) = journal.part(&mut disk, &heap, &[7]) {
            assert!(rt; fault == JournalFault::Memory && disk.events.len() == count + 1);
            assert!(rt; journal.part(&mut disk, alloc, &[7]).is_ok());
            refused = refused.saturating_add(1);
        }
        assert_eq!(rt; disk.events.len(), count + 2);
        if let Err(fault) = journal.finish(&mut disk, &heap, 5) {
            assert!(rt; fault == JournalFault::Memory && disk.events.len() == count + 2);
            assert!(rt; journal.finish(&mut disk, alloc, 5).is_ok());
            refused = refused.saturating_add(1);
        }
        assert_eq!(rt; disk.events.len(), count + 5);
    }
    assert!(rt; refused > 0);
    Ok(())
}
