//! A journal of numbers: a checkpoint has the last number before it, and each record the next one.

use crate::image::Image;
use crate::memory::Memory;
use std::alloc::{AllocError, Allocator, Global};
use store_journal::{
    Chosen, Current, Disk, Identity, Journal, JournalFault, OpenFault, choose, load,
};

pub(crate) const IDENTITY: Identity = Identity {
    high: 0x0123_4567_89ab_cdef,
    low: 0xfedc_ba98_7654_3210,
};

/// The reading of a journal that is refused.
pub(crate) const REFUSED: u8 = 254;

/// The reading of a journal whose records aren't the next numbers.
pub(crate) const WRONG: u8 = 255;

/// An empty image; or an image with other bytes in each file.
pub(crate) fn nothing(alloc: Global) -> Image {
    Image {
        current: None,
        a: Vec::new(alloc),
        b: Vec::new(alloc),
    }
}

/// A checkpoint of a number in the inactive file.
pub(crate) fn checkpoint<D: Disk>(
    alloc: Global,
    disk: &mut D,
    journal: &mut Journal,
    number: u8,
) -> Result<(), JournalFault> {
    journal.begin(disk, alloc)?;
    journal.part(disk, alloc, &[number])?;
    journal.part(disk, alloc, b"the rest of the checkpoint")?;
    journal.finish(disk, alloc, 5)
}

/// A record of the next number, whose append is answered once it is durable.
pub(crate) fn append(
    alloc: Global,
    disk: &mut Memory,
    journal: &mut Journal,
) -> Result<(), JournalFault> {
    disk.all = disk.all.saturating_add(1);
    let number = disk.all;
    journal.append(disk, alloc, &[number])?;
    disk.kept = number;
    Ok(())
}

/// Three checkpoints, with records and a mark after them, and an abandoned one.
pub(crate) fn run(alloc: Global, disk: &mut Memory) -> Result<Journal, JournalFault> {
    let mut journal = Journal::new(Current::new(IDENTITY, 4));
    checkpoint(alloc, disk, &mut journal, 0)?;
    append(alloc, disk, &mut journal)?;
    append(alloc, disk, &mut journal)?;
    journal.mark(disk, alloc)?;
    append(alloc, disk, &mut journal)?;
    checkpoint(alloc, disk, &mut journal, 3)?;
    append(alloc, disk, &mut journal)?;
    journal.begin(disk, alloc)?;
    journal.part(disk, alloc, &[9])?;
    journal.part(
        disk,
        alloc,
        b"a longer part of a checkpoint that is given up",
    )?;
    journal.part(
        disk,
        alloc,
        b"and a further one, whose head stays behind the next checkpoint",
    )?;
    journal.part(
        disk,
        alloc,
        b"and one more, so that there is some length to it",
    )?;
    append(alloc, disk, &mut journal)?;
    checkpoint(alloc, disk, &mut journal, 5)?;
    append(alloc, disk, &mut journal)?;
    append(alloc, disk, &mut journal)?;
    Ok(journal)
}

/// The number that a choice has: that of its checkpoint, and one more for each record.
pub(crate) fn number_of<A: Allocator>(chosen: &Chosen<A>) -> u8 {
    let mut number = match chosen.parts.first() {
        Some([first]) => *first,
        _ => return WRONG,
    };
    for record in &chosen.records {
        number = number.saturating_add(1);
        match record {
            [this] if *this == number => {}
            _ => return WRONG,
        }
    }
    number
}

/// The number that a disk has, and 0 if it is new or no checkpoint was finished.
pub(crate) fn number_in<D: Disk>(alloc: Global, disk: &mut D) -> u8 {
    let Ok(found) = load(disk, alloc) else {
        return REFUSED;
    };
    let Some(current) = found.current else {
        return 0;
    };
    if current.generation == 0 {
        return 0;
    }
    match choose(alloc, current, &found.bytes) {
        Ok(chosen) => number_of(&chosen),
        Err(_) => REFUSED,
    }
}

/// Why a disk is refused.
pub(crate) fn fault_in<D: Disk>(alloc: Global, disk: &mut D) -> Option<OpenFault> {
    let found = match load(disk, alloc) {
        Ok(found) => found,
        Err(fault) => return Some(fault),
    };
    let current = found.current?;
    match choose(alloc, current, &found.bytes) {
        Ok(_) => None,
        Err(fault) => Some(fault),
    }
}

/// Starts from the content of a disk.
pub(crate) fn start<D: Disk>(alloc: Global, disk: &mut D) -> Option<Journal> {
    let Ok(found) = load(disk, alloc) else {
        return None;
    };
    let Some(current) = found.current else {
        return Some(Journal::new(Current::new(IDENTITY, 4)));
    };
    if current.generation == 0 {
        return Some(Journal::new(current));
    }
    let Ok(chosen) = choose(alloc, current, &found.bytes) else {
        return None;
    };
    Journal::resume(disk, alloc, &chosen).ok()
}

/// The image after a complete run.
pub(crate) fn after_run(alloc: Global) -> Result<Image, AllocError> {
    let mut disk = Memory::new(alloc, nothing(alloc), 1000);
    let _ = run(alloc, &mut disk);
    Ok(crate::memory::left_of(alloc, &disk.before, &disk.events)?.safe)
}
