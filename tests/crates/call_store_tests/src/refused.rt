//! Stores that are refused, and stay unchanged.

use crate::calls::{CREATE_SESSION, EXCHANGE_ID, asked};
use crate::image::Image;
use crate::memory::{Memory, left_of};
use crate::script::{IDENTITY, Play, lasting, nothing, number_of, opened};
use call_store::{Corruption, EntryPlace, MACHINE, StoreFault, look};
use checkpoint::write_checkpoint;
use log_entries::{CallEntry, Entries, Entry};
use nfs_hub::Hub;
use std::alloc::Global;
use std::hash::RandomState;
use std::process::Abort;
use std::test::Fail;
use store_journal::{Current, Journal};
use xdr_wire::Writer;

/// A store with a checkpoint of a hub, of this machine, and these records after it.
fn store_of(alloc: Global, hub: &Hub, machine: u64, records: &[&[u8]]) -> Result<Image, Fail> {
    let mut disk = Memory::new(alloc, nothing(alloc), 1000);
    let mut journal = Journal::new(Current::new(IDENTITY, machine));
    if write_checkpoint(&mut disk, alloc, &mut journal, machine, hub.server()).is_err() {
        return Err(Fail::new("no checkpoint"));
    }
    for bytes in records {
        if journal.append(&mut disk, alloc, bytes).is_err() {
            return Err(Fail::new("no record"));
        }
    }
    Ok(left_of(alloc, &disk.before, &disk.events)?.safe)
}

/// Reads a store and opens it. Both are refused by the same fault, and leave it unchanged.
fn fault_of(alloc: Global, hasher: RandomState, image: Image) -> Result<Option<StoreFault>, Fail> {
    let mut other = Memory::new(alloc, image.copy(alloc)?, 1000);
    let seen = look(&mut other, alloc, alloc, hasher).err();
    if !other.events.is_empty() {
        return Err(Fail::new("a store that was looked at was written to"));
    }
    let mut disk = Memory::new(alloc, image, 1000);
    match opened(alloc, hasher, &mut disk) {
        Ok(_) if seen.is_some() => Err(Fail::new("what is opened can't be looked at")),
        Ok(_) => Ok(None),
        Err(fault) if seen != Some(fault) => Err(Fail::new("a look has another fault")),
        Err(fault) => {
            if disk.events.is_empty() {
                Ok(Some(fault))
            } else {
                Err(Fail::new("a store that is refused was written to"))
            }
        }
    }
}

/// The log of a hub for a client that registers, and the number of its bytes up to its second entry.
fn logged(alloc: Global, hasher: RandomState) -> Result<(Vec<u8>, usize), Fail> {
    let Some(mut hub) = lasting(alloc, hasher) else {
        return Err(Fail::new("no hub"));
    };
    asked(alloc, &mut hub, &EXCHANGE_ID)?;
    let first = hub.log().unwrap_or(b"").len();
    asked(alloc, &mut hub, &CREATE_SESSION)?;
    Ok((Vec::from_slice(alloc, hub.log().unwrap_or(b""))?, first))
}

fn corrupt(record_number: u64, entry_number: u64) -> Option<StoreFault> {
    let place = EntryPlace {
        record_number,
        entry_number,
    };
    Some(StoreFault::Corrupt(Corruption::Entry { place }))
}

/// Entries of another machine are refused, and a checkpoint alone isn't. The first record after it comes in a
/// checkpoint of this machine.
#[test]
fn another_machine_has_no_entries(rt: HostRuntime) -> Result<(), Fail> {
    let alloc = rt.alloc();
    let hasher = RandomState::new(&rt)?;
    let Some(hub) = lasting(alloc, hasher) else {
        return Err(Fail::new("no hub"));
    };
    let (log, _) = logged(alloc, hasher)?;
    let image = store_of(alloc, &hub, MACHINE + 1, &[log.as_slice()])?;
    assert!(rt; fault_of(alloc, hasher, image)? == Some(StoreFault::Version));
    let image = store_of(alloc, &hub, MACHINE, &[log.as_slice()])?;
    assert!(rt; fault_of(alloc, hasher, image)? == None);
    let image = store_of(alloc, &hub, MACHINE + 1, &[])?;
    let mut disk = Memory::new(alloc, image, 1000);
    let Ok(Some(mut play)) = opened(alloc, hasher, &mut disk) else {
        return Err(Fail::new("the store isn't opened"));
    };
    asked(alloc, &mut play.hub, &EXCHANGE_ID)?;
    asked(alloc, &mut play.hub, &CREATE_SESSION)?;
    assert!(rt; play.keep(alloc, &mut disk).is_ok());
    assert!(rt; play.make(alloc, &mut disk).is_ok());
    let image = left_of(alloc, &disk.before, &disk.events)?.safe;
    let mut disk = Memory::new(alloc, image, 1000);
    let again: Result<Option<Play>, StoreFault> = opened(alloc, hasher, &mut disk);
    let Ok(Some(play)) = again else {
        return Err(Fail::new("the store isn't opened again"));
    };
    assert_eq!(rt; number_of(&play.hub), 1);
    Ok(())
}

/// Bytes that are no entry, and an entry with another checksum: each is reported with its place.
#[test]
fn corruption_is_reported_with_its_place(rt: HostRuntime) -> Result<(), Fail> {
    let alloc = rt.alloc();
    let hasher = RandomState::new(&rt)?;
    let Some(hub) = lasting(alloc, hasher) else {
        return Err(Fail::new("no hub"));
    };
    let (log, first) = logged(alloc, hasher)?;
    let (one, two) = log.as_slice().split_at(first);
    let whole = store_of(alloc, &hub, MACHINE, &[one, two])?;
    assert!(rt; fault_of(alloc, hasher, whole)? == None);
    let image = store_of(alloc, &hub, MACHINE, &[one, b"no entry"])?;
    assert!(rt; fault_of(alloc, hasher, image)? == corrupt(1, 0));
    let mut longer = log.as_slice().to_vec(alloc)?;
    longer.push(0)?;
    let image = store_of(alloc, &hub, MACHINE, &[longer.as_slice()])?;
    assert!(rt; fault_of(alloc, hasher, image)? == corrupt(0, 2));
    let image = store_of(alloc, &hub, MACHINE, &[two, one])?;
    assert!(rt; fault_of(alloc, hasher, image)? == corrupt(0, 0));
    let mut entries = Entries::new(two);
    let Some(Entry::Call(call)) = entries.next() else {
        return Err(Fail::new("no call"));
    };
    let other = Entry::Call(CallEntry {
        checksum: call.checksum ^ 1,
        ..call
    });
    let mut writer = Writer::new(alloc, other.room())?;
    other.put(&mut writer);
    let image = store_of(alloc, &hub, MACHINE, &[one, writer.bytes()])?;
    assert!(rt; fault_of(alloc, hasher, image)? == corrupt(1, 0));
    Ok(())
}

/// Parts that are no checkpoint are reported as such. A file that was cut is reported by the journal.
#[test]
fn a_checkpoint_that_is_none_is_reported(rt: HostRuntime) -> Result<(), Fail> {
    let alloc = rt.alloc();
    let hasher = RandomState::new(&rt)?;
    let mut disk = Memory::new(alloc, nothing(alloc), 1000);
    let mut journal = Journal::new(Current::new(IDENTITY, MACHINE));
    let written = journal.begin(&mut disk, alloc).is_ok()
        && journal.part(&mut disk, alloc, b"no head").is_ok()
        && journal.finish(&mut disk, alloc, MACHINE).is_ok();
    assert!(rt; written);
    let mut image = left_of(alloc, &disk.before, &disk.events)?.safe;
    let cut = image.copy(alloc)?;
    assert!(rt; fault_of(alloc, hasher, cut)? == Some(StoreFault::Corrupt(Corruption::Checkpoint)));
    image.a.truncate(60);
    image.b.truncate(60);
    assert!(rt; fault_of(alloc, hasher, image)? == Some(StoreFault::Corrupt(Corruption::Journal)));
    Ok(())
}
