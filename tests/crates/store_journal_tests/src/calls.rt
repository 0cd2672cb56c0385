//! Calls that are refused, and the state after them.

use crate::memory::Memory;
use crate::script::{IDENTITY, checkpoint, nothing, run};
use std::process::Abort;
use std::test::Fail;
use store_journal::{Current, Journal, JournalFault};

#[test]
fn a_call_out_of_turn_is_refused(rt: HostRuntime) -> Result<(), Fail> {
    let alloc = rt.alloc();
    let mut disk = Memory::new(alloc, nothing(alloc), 1000);
    let mut journal = Journal::new(Current::new(IDENTITY, 4));
    let refused = Err(JournalFault::NoCheckpoint);
    assert!(rt; journal.append(&mut disk, alloc, b"early") == refused);
    assert!(rt; journal.mark(&mut disk, alloc) == refused);
    assert!(rt; journal.part(&mut disk, alloc, b"early") == refused);
    assert!(rt; journal.finish(&mut disk, alloc, 4) == refused);
    assert_eq!(rt; disk.events.len(), 0);
    assert!(rt; checkpoint(alloc, &mut disk, &mut journal, 0).is_ok());
    assert_eq!(rt;
        (
            journal.current.generation,
            journal.current.begun,
            journal.current.machine
        ),
        (1, 1, 5)
    );
    // A record abandons the checkpoint that was begun.
    assert!(rt; journal.begin(&mut disk, alloc).is_ok());
    assert!(rt; journal.append(&mut disk, alloc, &[1]).is_ok());
    assert!(rt; journal.part(&mut disk, alloc, b"late") == refused);
    assert!(rt; journal.begin(&mut disk, alloc).is_ok());
    assert_eq!(rt; (journal.current.generation, journal.current.begun), (1, 3));
    Ok(())
}

#[test]
fn what_is_too_long_is_refused(rt: HostRuntime) -> Result<(), Fail> {
    let alloc = rt.alloc();
    let mut disk = Memory::new(alloc, nothing(alloc), 1000);
    let Ok(mut journal) = run(alloc, &mut disk) else {
        return Ok(());
    };
    let count = disk.events.len();
    let long = vec![in alloc; 7u8; 67_108_865]?;
    assert!(rt; journal.append(&mut disk, alloc, &long) == Err(JournalFault::TooLong));
    assert_eq!(rt; disk.events.len(), count);
    Ok(())
}

#[test]
fn a_last_number_is_refused(rt: HostRuntime) -> Result<(), Fail> {
    let alloc = rt.alloc();
    let mut disk = Memory::new(alloc, nothing(alloc), 1000);
    let Ok(mut journal) = run(alloc, &mut disk) else {
        return Ok(());
    };
    let count = disk.events.len();
    journal.position.place.number = u64::MAX;
    assert!(rt; journal.append(&mut disk, alloc, b"full") == Err(JournalFault::Full));
    journal.position.place.number = 9;
    journal.position.at = 4_611_686_018_427_387_905;
    assert!(rt; journal.append(&mut disk, alloc, b"full") == Err(JournalFault::Full));
    journal.current.begun = u64::MAX;
    assert!(rt; journal.begin(&mut disk, alloc) == Err(JournalFault::Full));
    assert_eq!(rt; disk.events.len(), count);
    Ok(())
}
