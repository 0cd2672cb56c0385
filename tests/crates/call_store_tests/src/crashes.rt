//! Each crash of a run, and each call that fails.

use crate::image::Image;
use crate::memory::{Done, Left, Memory, apply, left_of};
use crate::script::{Stopped, nothing, number_in, run};
use call_store::StoreFault;
use std::alloc::{AllocError, Global};
use std::hash::RandomState;
use std::process::Abort;
use std::test::Fail;

/// The first place at which a write changes the bytes on the disk. A crash leaves the bytes before it, since old and
/// new agree.
fn first_change(file: &[u8], at: usize, bytes: &[u8]) -> usize {
    for (place, byte) in bytes.iter().enumerate() {
        if file.get(at.saturating_add(place)) != Some(byte) {
            return at.saturating_add(place);
        }
    }
    at.saturating_add(bytes.len())
}

/// The bytes that a crash leaves: of each sixth of an unsynced write the new bytes, the old ones, or others.
fn spoiled(alloc: Global, left: &Left, mask: u32, other: Option<u8>) -> Result<Image, AllocError> {
    let mut image = left.safe.copy(alloc)?;
    for write in &left.loose {
        let first = first_change(left.safe.file(write.slot), write.at, &write.bytes);
        let sixth = write.bytes.len() / 6 + 1;
        for (place, byte) in write.bytes.iter().enumerate() {
            let at = write.at.saturating_add(place);
            let holds = (mask >> (place / sixth).min(31) as u32) & 1 == 1;
            let file = image.file_mut(write.slot);
            while file.len() <= at {
                file.push(0)?;
            }
            if let Some(old) = file.get_mut(at) {
                if holds {
                    *old = *byte;
                } else if at >= first
                    && let Some(other) = other
                {
                    *old = other;
                }
            }
        }
    }
    Ok(image)
}

/// The number of crashes after some events that leave less than was answered, more than was made, or a refusal. The
/// next event may be in progress.
pub(crate) fn bad_after(
    alloc: Global,
    hasher: RandomState,
    disk: &Memory,
    count: usize,
    most: u32,
) -> Result<u32, AllocError> {
    let Some(events) = disk.events.get(..count) else {
        return Ok(1);
    };
    let mut left = left_of(alloc, &disk.before, events)?;
    let (kept, all) = match disk.events.get(count) {
        Some(event) => (event.kept, event.all),
        None => (disk.kept, disk.all),
    };
    let mut turned = None;
    if let Some(event) = disk.events.get(count) {
        match &event.done {
            Done::Wrote(_, _, _) => apply(alloc, &mut left, &event.done)?,
            Done::Turned(bytes) => turned = Some(bytes.to_vec(alloc)?),
            Done::Synced(_) => {}
        }
    }
    let mut bad = 0u32;
    for mask in 0..most {
        for other in [None, Some(0xa5u8)] {
            let mut image = spoiled(alloc, &left, mask * 9, other)?;
            let number = number_in(alloc, hasher, &image)?;
            if number < kept || all < number {
                bad = bad.saturating_add(1);
            }
            if let Some(bytes) = &turned {
                image.current = Some(bytes.to_vec(alloc)?);
                let number = number_in(alloc, hasher, &image)?;
                if number < kept || all < number {
                    bad = bad.saturating_add(1);
                }
            }
        }
    }
    Ok(bad)
}

pub(crate) fn bad_in(
    alloc: Global,
    hasher: RandomState,
    disk: &Memory,
    most: u32,
) -> Result<u32, AllocError> {
    let mut bad = 0u32;
    for count in 0..disk.events.len().saturating_add(1) {
        bad = bad.saturating_add(bad_after(alloc, hasher, disk, count, most)?);
    }
    Ok(bad)
}

#[test]
fn each_crash_leaves_all_that_was_answered(rt: HostRuntime) -> Result<(), Fail> {
    let alloc = rt.alloc();
    let hasher = RandomState::new(&rt)?;
    let mut disk = Memory::new(alloc, nothing(alloc), 1000);
    assert!(rt; run(alloc, hasher, &mut disk).is_ok());
    assert_eq!(rt; (disk.kept, disk.all), (4, 4));
    assert_eq!(rt; bad_in(alloc, hasher, &disk, 8)?, 0);
    Ok(())
}

#[test]
fn each_call_that_fails_too(rt: HostRuntime) -> Result<(), Fail> {
    let alloc = rt.alloc();
    let hasher = RandomState::new(&rt)?;
    let mut whole = Memory::new(alloc, nothing(alloc), 1000);
    assert!(rt; run(alloc, hasher, &mut whole).is_ok());
    let calls = 1000 - whole.good;
    for good in 0..calls {
        let mut disk = Memory::new(alloc, nothing(alloc), good);
        assert!(rt;
            matches!(
                run(alloc, hasher, &mut disk),
                Err(Stopped::Store(StoreFault::Failed))
            )
        );
        assert_eq!(rt; disk.late, 0);
        let count = disk.events.len();
        assert_eq!(rt; bad_after(alloc, hasher, &disk, count, 8)?, 0);
    }
    Ok(())
}
