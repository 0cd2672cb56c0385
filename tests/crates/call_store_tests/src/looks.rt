//! Reading a store without a server.

use crate::memory::Memory;
use crate::script::{after_run, begun, nothing, number_in_tree};
use call_store::{look, restore};
use log_entries::Entries;
use std::hash::RandomState;
use std::process::Abort;
use std::test::Fail;
use store_journal::{choose, load};

/// Everything that was made is read, and nothing is written. Of a new store nothing is read.
#[test]
fn a_look_sees_what_was_made(rt: HostRuntime) -> Result<(), Fail> {
    let alloc = rt.alloc();
    let hasher = RandomState::new(&rt)?;
    let image = after_run(alloc, hasher)?;
    let mut disk = Memory::new(alloc, image.copy(alloc)?, 1000);
    let Ok(Some(found)) = look(&mut disk, alloc, alloc, hasher) else {
        return Err(Fail::new("nothing is seen"));
    };
    assert_eq!(rt; number_in_tree(found.restart.server().tree()), 4);
    assert!(rt; found.file.as_slice() == image.file(found.current.slot));
    assert_eq!(rt; found.current.generation, 2);
    assert!(rt; disk.events.is_empty());
    let mut new = Memory::new(alloc, nothing(alloc), 1000);
    let Ok(None) = look(&mut new, alloc, alloc, hasher) else {
        return Err(Fail::new("something is seen"));
    };
    assert!(rt; new.events.is_empty());
    Ok(())
}

/// Reading a store whose server runs returns what was logged so far.
#[test]
fn a_look_sees_a_store_that_runs(rt: HostRuntime) -> Result<(), Fail> {
    let alloc = rt.alloc();
    let hasher = RandomState::new(&rt)?;
    let mut disk = Memory::new(alloc, nothing(alloc), 1000);
    let Ok(mut play) = begun(alloc, hasher, &mut disk) else {
        return Err(Fail::new("the store isn't begun"));
    };
    for number in 1..4u8 {
        assert!(rt; play.make(alloc, &mut disk).is_ok());
        let count = disk.events.len();
        let Ok(Some(found)) = look(&mut disk, alloc, alloc, hasher) else {
            return Err(Fail::new("nothing is seen"));
        };
        assert_eq!(rt; number_in_tree(found.restart.server().tree()), number);
        assert_eq!(rt; disk.events.len(), count);
    }
    Ok(())
}

/// The checkpoint alone has three directories. An entry after it makes the fourth.
#[test]
fn entries_are_replayed_by_the_caller(rt: HostRuntime) -> Result<(), Fail> {
    let alloc = rt.alloc();
    let hasher = RandomState::new(&rt)?;
    let mut disk = Memory::new(alloc, after_run(alloc, hasher)?, 1000);
    let Ok(loaded) = load(&mut disk, alloc) else {
        return Err(Fail::new("nothing is loaded"));
    };
    let Some(current) = loaded.current else {
        return Err(Fail::new("no CURRENT"));
    };
    let Ok(chosen) = choose(alloc, current, &loaded.bytes) else {
        return Err(Fail::new("nothing is chosen"));
    };
    let Ok(mut restart) = restore(alloc, alloc, hasher, &chosen) else {
        return Err(Fail::new("nothing is restored"));
    };
    assert_eq!(rt; number_in_tree(restart.server().tree()), 3);
    assert_eq!(rt; chosen.records.len(), 1);
    for record in &chosen.records {
        let mut entries = Entries::new(record);
        for _entry in 0..2u32 {
            if let Some(entry) = entries.next() {
                assert!(rt; restart.replay(&entry).is_ok());
            }
        }
        assert!(rt; entries.is_empty());
    }
    assert_eq!(rt; number_in_tree(restart.server().tree()), 4);
    Ok(())
}
