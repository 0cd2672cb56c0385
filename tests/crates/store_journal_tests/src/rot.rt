//! Flipped bits, files that are cut, and files of another store.

use crate::image::Image;
use crate::memory::{Memory, left_of};
use crate::script::{REFUSED, WRONG, after_run, checkpoint, fault_in, nothing, number_in, run};
use std::alloc::{AllocError, Global};
use std::process::Abort;
use std::test::Fail;
use store_journal::{Current, Identity, Journal, OpenFault, Slot};

/// The counts of what was read over all bits of some bytes: refused, all records, a prefix of them, and something else.
#[derive(Drop, Debug, PartialEq)]
struct Seen {
    refused: u32,
    all: u32,
    prefixes: u32,
    wrong: u32,
}

/// Flips each bit of some bytes of a file.
fn turn_each(
    alloc: Global,
    image: &Image,
    slot: Slot,
    from: usize,
    to: usize,
) -> Result<Seen, AllocError> {
    let mut seen = Seen {
        refused: 0,
        all: 0,
        prefixes: 0,
        wrong: 0,
    };
    for place in from..to {
        for bit in 0..8u32 {
            let mut turned = image.copy(alloc)?;
            if let Some(byte) = turned.file_mut(slot).get_mut(place) {
                *byte ^= 1 << bit;
            }
            match number_in(alloc, &mut turned) {
                REFUSED => seen.refused = seen.refused.saturating_add(1),
                7 => seen.all = seen.all.saturating_add(1),
                WRONG => seen.wrong = seen.wrong.saturating_add(1),
                _ => seen.prefixes = seen.prefixes.saturating_add(1),
            }
        }
    }
    Ok(seen)
}

/// The checkpoint's frames have 72, 96 and 68 bytes, and each record's frame 72. After three checkpoints the first file
/// is active.
const CHECKPOINT: usize = 236;

const RECORD: usize = 72;

#[test]
fn each_bit_of_what_was_safe_is_reported(rt: HostRuntime) -> Result<(), Fail> {
    let alloc = rt.alloc();
    let image = after_run(alloc)?;
    assert_eq!(rt; number_in(alloc, &mut image.copy(alloc)?), 7);
    let safe = CHECKPOINT + RECORD;
    let first = turn_each(alloc, &image, Slot::A, 0, safe)?;
    assert_eq!(rt;
        first,
        Seen {
            refused: safe as u32 * 8,
            all: 0,
            prefixes: 0,
            wrong: 0
        }
    );
    // The last record looks like one that a crash tore.
    let last = turn_each(alloc, &image, Slot::A, safe, safe + RECORD)?;
    assert_eq!(rt;
        last,
        Seen {
            refused: 0,
            all: 0,
            prefixes: RECORD as u32 * 8,
            wrong: 0
        }
    );
    // No byte after it, and no byte of the inactive file, is examined.
    let rest = turn_each(alloc, &image, Slot::A, safe + RECORD, image.a.len())?;
    assert_eq!(rt; (rest.refused, rest.prefixes, rest.wrong), (0, 0, 0));
    let other = turn_each(alloc, &image, Slot::B, 0, image.b.len())?;
    assert_eq!(rt; (other.refused, other.prefixes, other.wrong), (0, 0, 0));
    Ok(())
}

#[test]
fn a_mark_covers_the_last_record_too(rt: HostRuntime) -> Result<(), Fail> {
    let alloc = rt.alloc();
    let mut disk = Memory::new(alloc, nothing(alloc), 1000);
    let Ok(mut journal) = run(alloc, &mut disk) else {
        return Ok(());
    };
    assert!(rt; journal.mark(&mut disk, alloc).is_ok());
    let image = left_of(alloc, &disk.before, &disk.events)?.safe;
    let safe = CHECKPOINT + 2 * RECORD;
    let first = turn_each(alloc, &image, Slot::A, 0, safe)?;
    assert_eq!(rt;
        first,
        Seen {
            refused: safe as u32 * 8,
            all: 0,
            prefixes: 0,
            wrong: 0
        }
    );
    Ok(())
}

#[test]
fn each_cut_of_the_checkpoint_is_reported(rt: HostRuntime) -> Result<(), Fail> {
    let alloc = rt.alloc();
    let image = after_run(alloc)?;
    for len in 0..image.a.len() {
        let mut cut = image.copy(alloc)?;
        cut.a.truncate(len);
        let number = number_in(alloc, &mut cut);
        if len < CHECKPOINT {
            assert_eq!(rt; number, REFUSED);
        } else {
            assert!(rt; (5..=7).contains(&number));
        }
    }
    Ok(())
}

#[test]
fn each_bit_and_length_of_current_is_reported(rt: HostRuntime) -> Result<(), Fail> {
    let alloc = rt.alloc();
    let image = after_run(alloc)?;
    let Some(current) = &image.current else {
        return Ok(());
    };
    assert_eq!(rt; current.len(), 64);
    for place in 0..current.len() {
        for bit in 0..8u32 {
            let mut turned = image.copy(alloc)?;
            let mut bytes = current.to_vec(alloc)?;
            if let Some(byte) = bytes.get_mut(place) {
                *byte ^= 1 << bit;
            }
            turned.current = Some(bytes);
            assert_eq!(rt; fault_in(alloc, &mut turned), Some(OpenFault::Corrupt));
        }
        let mut cut = image.copy(alloc)?;
        let mut bytes = current.to_vec(alloc)?;
        bytes.truncate(place);
        cut.current = Some(bytes);
        assert_eq!(rt; fault_in(alloc, &mut cut), Some(OpenFault::Corrupt));
    }
    let mut longer = image.copy(alloc)?;
    let mut bytes = current.to_vec(alloc)?;
    bytes.push(0)?;
    longer.current = Some(bytes);
    assert_eq!(rt; fault_in(alloc, &mut longer), Some(OpenFault::Corrupt));
    Ok(())
}

/// The image of another store, with another identity.
fn elsewhere(alloc: Global) -> Result<Image, AllocError> {
    let mut disk = Memory::new(alloc, nothing(alloc), 1000);
    let identity = Identity { high: 1, low: 2 };
    let mut journal = Journal::new(Current::new(identity, 4));
    let _ = checkpoint(alloc, &mut disk, &mut journal, 0);
    Ok(left_of(alloc, &disk.before, &disk.events)?.safe)
}

#[test]
fn what_is_missing_or_of_elsewhere_is_reported(rt: HostRuntime) -> Result<(), Fail> {
    let alloc = rt.alloc();
    let image = after_run(alloc)?;
    let corrupt = Some(OpenFault::Corrupt);
    // CURRENT is missing, and with it one of the files.
    let mut lost = image.copy(alloc)?;
    lost.current = None;
    assert_eq!(rt; fault_in(alloc, &mut lost), corrupt);
    lost.a.clear();
    assert_eq!(rt; fault_in(alloc, &mut lost), corrupt);
    // Without both of them the store is new.
    lost.b.clear();
    assert_eq!(rt; fault_in(alloc, &mut lost), None);
    // The active file is missing, or zeroed.
    let mut removed = image.copy(alloc)?;
    removed.a.clear();
    assert_eq!(rt; fault_in(alloc, &mut removed), corrupt);
    let mut zeroed = image.copy(alloc)?;
    for byte in zeroed.a.iter_mut() {
        *byte = 0;
    }
    assert_eq!(rt; fault_in(alloc, &mut zeroed), corrupt);
    // Both files are the same one.
    let mut linked = image.copy(alloc)?;
    linked.a = image.b.to_vec(alloc)?;
    assert_eq!(rt; fault_in(alloc, &mut linked), corrupt);
    // CURRENT is that of another store, or the file is.
    let other = elsewhere(alloc)?;
    let mut foreign = other.copy(alloc)?;
    foreign.a = image.a.to_vec(alloc)?;
    assert_eq!(rt; fault_in(alloc, &mut foreign), corrupt);
    let mut foreign = image.copy(alloc)?;
    foreign.a = other.a.to_vec(alloc)?;
    assert_eq!(rt; fault_in(alloc, &mut foreign), corrupt);
    Ok(())
}
