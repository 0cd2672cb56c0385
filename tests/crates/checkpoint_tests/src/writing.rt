//! A checkpoint is written and read again, also if a call of the disk fails.

use crate::memory::Memory;
use crate::servers::{
    BOOK, MACHINE, empty, journal, parts_in, picture_in, read_parts, server_of, server_picture,
};
use checkpoint::{WriteFault, write_checkpoint};
use compound_run::Server;
use std::hash::RandomState;
use std::num::NonZeroUsize;
use std::process::Abort;
use std::test::Fail;
use store_journal::JournalFault;

#[test]
fn what_is_written_is_read(rt: HostRuntime) -> Result<(), Fail> {
    let alloc = rt.alloc();
    for text in [None, Some(BOOK)] {
        let Some(server) = server_of(alloc, alloc, text, RandomState::new(&rt)?) else {
            panic!(rt; "no server");
        };
        let mut disk = Memory::new(alloc);
        let mut journal = journal();
        let written = write_checkpoint(&mut disk, alloc, &mut journal, MACHINE, &server);
        let Some(parts) = parts_in(alloc, &mut disk) else {
            panic!(rt; "no checkpoint");
        };
        // the head, three parts of clients, the counters, 7 objects and 7 names
        assert_eq!(rt; parts.len(), 19);
        let bytes: usize = parts.iter().map(|part| part.len()).sum();
        assert!(rt; written == Ok(bytes as u64));
        assert!(rt; picture_in(alloc, &mut disk)? == Some(server_picture(alloc, alloc, &server)?));
        assert_eq!(rt; disk.acts, 23);
    }
    Ok(())
}

/// A server is restored from what was read, and its checkpoint is the same again.
#[test]
fn a_server_goes_on_over_what_is_read(rt: HostRuntime) -> Result<(), Fail> {
    let alloc = rt.alloc();
    let Some(server) = server_of(alloc, alloc, Some(BOOK), RandomState::new(&rt)?) else {
        panic!(rt; "no server");
    };
    let mut disk = Memory::new(alloc);
    let mut journal = journal();
    assert!(rt; write_checkpoint(&mut disk, alloc, &mut journal, MACHINE, &server).is_ok());
    let Some(parts) = parts_in(alloc, &mut disk) else {
        panic!(rt; "no checkpoint");
    };
    let Ok(found) = read_parts(alloc, alloc, &parts)? else {
        panic!(rt; "nothing is read");
    };
    let Some(capacity) = NonZeroUsize::new(8) else {
        panic!(rt; "0 is no capacity");
    };
    let again = Server::restored(
        alloc,
        found.tree,
        found.clients,
        found.book,
        capacity,
        RandomState::new(&rt)?,
    )?;
    assert!(rt; write_checkpoint(&mut disk, alloc, &mut journal, MACHINE, &again).is_ok());
    assert!(rt; parts_in(alloc, &mut disk) == Some(parts));
    Ok(())
}

/// If a call of the disk fails, the old checkpoint is active, or the new one.
#[test]
fn a_failing_disk_leaves_one_of_the_two(rt: HostRuntime) -> Result<(), Fail> {
    let alloc = rt.alloc();
    let old = empty(alloc, RandomState::new(&rt)?)?;
    let Some(new) = server_of(alloc, alloc, Some(BOOK), RandomState::new(&rt)?) else {
        panic!(rt; "no server");
    };
    let before = Some(server_picture(alloc, alloc, &old)?);
    let after = Some(server_picture(alloc, alloc, &new)?);
    for good in 0..23u32 {
        let mut disk = Memory::new(alloc);
        let mut journal = journal();
        assert!(rt; write_checkpoint(&mut disk, alloc, &mut journal, MACHINE, &old).is_ok());
        let acts = disk.acts;
        disk.good = good;
        let refused = write_checkpoint(&mut disk, alloc, &mut journal, MACHINE, &new);
        assert!(rt; refused == Err(WriteFault::Refused(JournalFault::Failed)));
        assert!(rt; journal.has_failed);
        assert_eq!(rt; disk.acts, acts + good + 1);
        assert!(rt; picture_in(alloc, &mut disk)? == before);
        // the disk isn't called any more
        let again = write_checkpoint(&mut disk, alloc, &mut journal, MACHINE, &new);
        assert!(rt; again == Err(WriteFault::Refused(JournalFault::Failed)));
        assert_eq!(rt; disk.acts, acts + good + 1);
    }
    let mut disk = Memory::new(alloc);
    let mut journal = journal();
    disk.good = 23;
    assert!(rt; write_checkpoint(&mut disk, alloc, &mut journal, MACHINE, &new).is_ok());
    assert!(rt; picture_in(alloc, &mut disk)? == after);
    Ok(())
}
