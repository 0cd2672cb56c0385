//! A store is opened and used.

use crate::calls::{asked, exchange_id, make};
use crate::crashes::bad_in;
use crate::image::Image;
use crate::memory::{Memory, left_of};
use crate::script::{after_run, begun, nothing, number_of, opened, opened_in, run};
use nfs_types::Moment;
use std::alloc::Global;
use std::hash::RandomState;
use std::process::Abort;
use std::test::Fail;
use store_journal::{choose, load};

/// Everything that was made is found, and the retry of a call gets the cached reply. Another directory is made, with a
/// crash at each moment.
#[test]
fn a_start_goes_on(rt: HostRuntime) -> Result<(), Fail> {
    let alloc = rt.alloc();
    let hasher = RandomState::new(&rt)?;
    let mut first = Memory::new(alloc, nothing(alloc), 1000);
    let Ok(mut old) = run(alloc, hasher, &mut first) else {
        return Err(Fail::new("the run stopped"));
    };
    let image = left_of(alloc, &first.before, &first.events)?.safe;
    let mut disk = Memory::new(alloc, image, 1000);
    disk.kept = 4;
    disk.all = 4;
    let Ok(Some(mut play)) = opened(alloc, hasher, &mut disk) else {
        return Err(Fail::new("the store isn't opened"));
    };
    assert_eq!(rt; number_of(&play.hub), 4);
    assert_eq!(rt; disk.events.len(), 3);
    let last = make(5, 4);
    let reply = asked(alloc, &mut old.hub, &last)?;
    assert!(rt; asked(alloc, &mut play.hub, &last)? == reply);
    assert!(rt; play.hub.log() == Some(b""));
    play.sequence = 6;
    assert!(rt; play.make(alloc, &mut disk).is_ok());
    assert_eq!(rt; number_of(&play.hub), 5);
    assert_eq!(rt; bad_in(alloc, hasher, &disk, 8)?, 0);
    Ok(())
}

/// If nothing was logged nothing is written. A mark isn't set twice, nor a checkpoint written twice at the end.
#[test]
fn nothing_is_done_twice(rt: HostRuntime) -> Result<(), Fail> {
    let alloc = rt.alloc();
    let hasher = RandomState::new(&rt)?;
    let mut disk = Memory::new(alloc, nothing(alloc), 1000);
    let Ok(mut play) = begun(alloc, hasher, &mut disk) else {
        return Err(Fail::new("the store isn't begun"));
    };
    assert!(rt; play.make(alloc, &mut disk).is_ok());
    let count = disk.events.len();
    assert!(rt; play.look(alloc, &mut disk).is_ok());
    assert_eq!(rt; disk.events.len(), count);
    assert!(rt; play.store.mark(&mut disk, alloc).is_ok());
    assert_eq!(rt; disk.events.len(), count + 2);
    assert!(rt; play.store.mark(&mut disk, alloc).is_ok());
    assert_eq!(rt; disk.events.len(), count + 2);
    assert!(rt;
        play.store
            .close(&mut disk, alloc, play.hub.server())
            .is_ok()
    );
    let closed = disk.events.len();
    assert!(rt; closed > count + 2);
    assert!(rt;
        play.store
            .close(&mut disk, alloc, play.hub.server())
            .is_ok()
    );
    assert!(rt; play.store.mark(&mut disk, alloc).is_ok());
    assert_eq!(rt; disk.events.len(), closed);
    Ok(())
}

/// A closed store has no record.
#[test]
fn a_closed_store_has_no_record(rt: HostRuntime) -> Result<(), Fail> {
    let alloc = rt.alloc();
    let hasher = RandomState::new(&rt)?;
    let mut disk = Memory::new(alloc, after_run(alloc, hasher)?, 1000);
    let Ok(Some(mut play)) = opened(alloc, hasher, &mut disk) else {
        return Err(Fail::new("the store isn't opened"));
    };
    assert!(rt;
        play.store
            .close(&mut disk, alloc, play.hub.server())
            .is_ok()
    );
    let Ok(loaded) = load(&mut disk, alloc) else {
        return Err(Fail::new("nothing is loaded"));
    };
    let Some(current) = loaded.current else {
        return Err(Fail::new("no CURRENT"));
    };
    let Ok(chosen) = choose(alloc, current, &loaded.bytes) else {
        return Err(Fail::new("nothing is chosen"));
    };
    assert!(rt; chosen.records.is_empty());
    assert_eq!(rt; current.machine, call_store::MACHINE);
    Ok(())
}

/// A store with 33 clients, which are too many if one is silent. They are in entries, or in a checkpoint.
fn crowded(alloc: Global, hasher: RandomState, is_closed: bool) -> Result<Image, Fail> {
    let mut disk = Memory::new(alloc, nothing(alloc), 1000);
    let Ok(mut play) = begun(alloc, hasher, &mut disk) else {
        return Err(Fail::new("the store isn't begun"));
    };
    for number in 0..32u32 {
        if play.ask(alloc, &mut disk, &exchange_id(number)).is_err() {
            return Err(Fail::new("a client isn't known"));
        }
    }
    if is_closed
        && play
            .store
            .close(&mut disk, alloc, play.hub.server())
            .is_err()
    {
        return Err(Fail::new("the store isn't closed"));
    }
    Ok(left_of(alloc, &disk.before, &disk.events)?.safe)
}

/// Leases begin in the second of the start: a client expires 91 seconds after it, and not before.
#[test]
fn leases_begin_with_a_start(rt: HostRuntime) -> Result<(), Fail> {
    let alloc = rt.alloc();
    let hasher = RandomState::new(&rt)?;
    let now = Moment {
        seconds: 7,
        nanoseconds: 8,
    };
    for is_closed in [false, true] {
        let image = crowded(alloc, hasher, is_closed)?;
        let mut disk = Memory::new(alloc, image, 1000);
        let Ok(Some(mut play)) = opened_in(alloc, hasher, &mut disk, 5000) else {
            return Err(Fail::new("the store isn't opened"));
        };
        assert_eq!(rt; play.hub.server().clients().counts().0, 33);
        play.hub.set_second(5090);
        assert!(rt; play.hub.expire_client(now).is_none());
        play.hub.set_second(5091);
        assert!(rt; play.hub.expire_client(now).is_some());
    }
    Ok(())
}
