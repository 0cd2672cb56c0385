//! Allocations that fail.

use crate::memory::Memory;
use crate::servers::{
    BOOK, MACHINE, empty, found_picture, journal, parts_in, picture_in, read_parts, server_of,
    server_picture,
};
use checkpoint::{CheckpointFault, WriteFault, write_checkpoint};
use linked_list_allocator::LocalHeap;
use std::alloc::Global;
use std::hash::RandomState;
use std::process::Abort;
use std::test::Fail;
use store_journal::JournalFault;

/// Whether the fault is an allocation that failed.
fn is_memory(fault: WriteFault) -> bool {
    fault == WriteFault::Memory || fault == WriteFault::Refused(JournalFault::Memory)
}

/// The bytes of a heap that a server needs.
fn need(alloc: Global, hasher: RandomState) -> Result<usize, Fail> {
    let heap = LocalHeap::new(alloc, 1_000_000)?;
    let Some(_server) = server_of(&heap, alloc, Some(BOOK), hasher) else {
        return Err(Fail::new("no server"));
    };
    Ok(heap.used())
}

/// Over a heap of each size a checkpoint is written completely, or the old one stays active and the journal continues.
#[test]
fn it_is_written_or_the_old_one_counts(rt: HostRuntime) -> Result<(), Fail> {
    let alloc = rt.alloc();
    let old = empty(alloc, RandomState::new(&rt)?)?;
    let before = Some(server_picture(alloc, alloc, &old)?);
    let least = need(alloc, RandomState::new(&rt)?)?;
    let (mut done, mut not_begun, mut begun) = (0u32, 0u32, 0u32);
    for step in 0..120usize {
        // around the size of the first parts, and around the additional size of a buffer
        let more = if step < 60 {
            step * 512
        } else {
            1_052_672 + (step - 60) * 512
        };
        let heap = LocalHeap::new(alloc, least + more)?;
        let Some(server) = server_of(&heap, alloc, Some(BOOK), RandomState::new(&rt)?) else {
            continue;
        };
        let mut disk = Memory::new(alloc);
        let mut journal = journal();
        assert!(rt; write_checkpoint(&mut disk, alloc, &mut journal, MACHINE, &old).is_ok());
        let acts = disk.acts;
        match write_checkpoint(&mut disk, &heap, &mut journal, MACHINE, &server) {
            Ok(_) => {
                done += 1;
                assert_eq!(rt; disk.acts, acts + 23);
            }
            Err(fault) => {
                assert!(rt; is_memory(fault));
                if disk.acts == acts {
                    not_begun += 1;
                } else {
                    begun += 1;
                }
                assert!(rt; picture_in(alloc, &mut disk)? == before);
                assert!(rt; !journal.has_failed);
                assert!(rt;
                    write_checkpoint(&mut disk, alloc, &mut journal, MACHINE, &old).is_ok()
                );
                assert!(rt; picture_in(alloc, &mut disk)? == before);
            }
        }
    }
    assert!(rt; done > 0 && not_begun > 0, "{done} {not_begun} {begun}");
    Ok(())
}

/// Over a heap of each size what was written is read, or an allocation fails.
#[test]
fn it_is_read_or_memory_is_refused(rt: HostRuntime) -> Result<(), Fail> {
    let alloc = rt.alloc();
    let Some(server) = server_of(alloc, alloc, Some(BOOK), RandomState::new(&rt)?) else {
        panic!(rt; "no server");
    };
    let right = server_picture(alloc, alloc, &server)?;
    let mut disk = Memory::new(alloc);
    let mut journal = journal();
    assert!(rt; write_checkpoint(&mut disk, alloc, &mut journal, MACHINE, &server).is_ok());
    let Some(parts) = parts_in(alloc, &mut disk) else {
        panic!(rt; "no checkpoint");
    };
    let (mut refused, mut read) = (0u32, 0u32);
    for size in 0..80usize {
        let heap = LocalHeap::new(alloc, 64 + size * 2048)?;
        match read_parts(alloc, &heap, &parts)? {
            Ok(found) => {
                if let Ok(picture) = found_picture(alloc, &heap, &found) {
                    assert!(rt; picture == right);
                    read += 1;
                }
            }
            Err(fault) => {
                assert!(rt; fault == CheckpointFault::Memory);
                refused += 1;
            }
        }
    }
    assert!(rt; refused > 0 && read > 0);
    Ok(())
}
