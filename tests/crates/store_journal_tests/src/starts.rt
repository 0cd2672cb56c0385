//! A start after each crash, and after each program that ended with a call that failed.

use crate::crashes::{bad_after, spoiled};
use crate::image::Image;
use crate::memory::{Memory, left_of};
use crate::script::{append, checkpoint, nothing, number_in, run, start};
use std::alloc::{AllocError, Global};
use std::process::Abort;
use std::test::Fail;

/// A start over what a crash left, two further records and a checkpoint, and a crash at each moment of it. The records
/// that were read are kept.
fn bad_starts(alloc: Global, image: &Image, most: u32) -> Result<u32, AllocError> {
    let number = number_in(alloc, &mut image.copy(alloc)?);
    let mut disk = Memory::new(alloc, image.copy(alloc)?, 1000);
    disk.kept = number;
    disk.all = number;
    let Some(mut journal) = start(alloc, &mut disk) else {
        return Ok(1);
    };
    if journal.current.generation == 0
        && checkpoint(alloc, &mut disk, &mut journal, number).is_err()
    {
        return Ok(1);
    }
    for _ in 0..2u32 {
        if append(alloc, &mut disk, &mut journal).is_err() {
            return Ok(1);
        }
    }
    let last = disk.all;
    if checkpoint(alloc, &mut disk, &mut journal, last).is_err() {
        return Ok(1);
    }
    let mut bad = 0u32;
    for count in 0..disk.events.len().saturating_add(1) {
        bad = bad.saturating_add(bad_after(alloc, &disk, count, most)?);
    }
    Ok(bad)
}

#[test]
fn a_start_after_each_crash_keeps_what_it_read(rt: HostRuntime) -> Result<(), Fail> {
    let alloc = rt.alloc();
    let mut disk = Memory::new(alloc, nothing(alloc), 1000);
    assert!(rt; run(alloc, &mut disk).is_ok());
    let mut bad = 0u32;
    for count in 0..disk.events.len().saturating_add(1) {
        if let Some(events) = disk.events.get(..count) {
            let left = left_of(alloc, &disk.before, events)?;
            for mask in [0u32, 1, 62, 63] {
                let image = spoiled(alloc, &left, mask, Some(0xa5))?;
                bad = bad.saturating_add(bad_starts(alloc, &image, 4)?);
            }
        }
    }
    assert_eq!(rt; bad, 0);
    Ok(())
}

/// The program ends when a call fails. The next one reads what it wrote as if it were durable, and no sync makes it so.
/// Then the power fails, at each moment.
#[test]
fn a_start_keeps_what_it_reads_of_memory(rt: HostRuntime) -> Result<(), Fail> {
    let alloc = rt.alloc();
    let mut bad = 0u32;
    for good in 0..39u32 {
        let mut disk = Memory::new(alloc, nothing(alloc), good);
        assert!(rt; run(alloc, &mut disk).is_err());
        disk.restart();
        let ended = disk.events.len();
        let number = number_in(alloc, &mut disk);
        assert!(rt; disk.kept <= number && number <= disk.all);
        if let Some(mut journal) = start(alloc, &mut disk) {
            disk.kept = number;
            disk.all = number;
            if journal.current.generation == 0 {
                assert!(rt; checkpoint(alloc, &mut disk, &mut journal, number).is_ok());
            }
            for _ in 0..2u32 {
                assert!(rt; append(alloc, &mut disk, &mut journal).is_ok());
            }
            for count in ended..disk.events.len().saturating_add(1) {
                bad = bad.saturating_add(bad_after(alloc, &disk, count, 8)?);
            }
        } else {
            bad = bad.saturating_add(1);
        }
    }
    assert_eq!(rt; bad, 0);
    Ok(())
}
