//! The parts of clients: their changes are read, applied and written.

use crate::clients::{CHANNEL, picture_of};
use crate::script::clients_after;
use client_parts::{ChangeFault, WrittenChange, apply_changes, are_same, write_clients};
use compound_run::ClientState;
use linked_list_allocator::LocalHeap;
use nfs_types::Limits;
use session_slots::{Channel, Created, Creation, Held};
use std::alloc::{AllocError, Allocator, Global};
use std::process::Abort;
use std::test::Fail;
use xdr_wire::{Reader, Spell, Wire, Writer};

/// The next client ID is 6, and the next session ID 10.
const NUMBERS: [u32; 5] = [0, 0, 6, 0, 10];

/// Client 5, the owner `alice` with the verifier 7, user 1001, confirmed. Its first CREATE_SESSION made session 9 and
/// granted CREATE_SESSION4_FLAG_PERSIST. It has sent RECLAIM_COMPLETE.
const RECORD: [u32; 30] = [
    1,
    0,
    5,
    5,
    0x616c_6963,
    0x6500_0000,
    0,
    7,
    1001,
    1,
    1,
    1,
    0,
    0,
    9,
    1,
    1,
    0,
    512,
    4096,
    4096,
    8,
    2,
    0,
    512,
    4096,
    4096,
    8,
    2,
    1,
];

/// Session 9 of client 5.
const SESSION: [u32; 11] = [2, 0, 9, 0, 5, 0, 512, 4096, 4096, 8, 2];

/// Call 6 on slot 1 of session 9, by user 1001 in the groups 6 and 100, with the arguments `abc` and the results
/// `two!`.
const CALL: [u32; 14] = [
    3,
    0,
    9,
    1,
    6,
    1001,
    100,
    2,
    6,
    100,
    3,
    0x6162_6300,
    4,
    0x7477_6f21,
];

/// Open 3 of client 5, the owner `someone`, of object 2, to read, with seqid 2.
const OPEN: [u32; 12] = [5, 0, 3, 0, 5, 7, 0x736f_6d65, 0x6f6e_6500, 0, 2, 1, 2];

/// These changes, after the number 8 of the next open and the count of the changes.
fn bytes_of(alloc: Global, changes: &[&[u32]]) -> Result<Vec<u8>, AllocError> {
    let mut bytes = Vec::new(alloc);
    for word in [0, 8, changes.len() as u32] {
        bytes.extend_from_slice(&word.to_be_bytes())?;
    }
    for change in changes {
        for word in *change {
            bytes.extend_from_slice(&word.to_be_bytes())?;
        }
    }
    Ok(bytes)
}

/// Applies these bytes to the empty state. Returns the state then, and the number of bytes that are left.
fn applied<A: Allocator + Copy>(
    own: A,
    bytes: &[u8],
) -> Result<(ClientState<A>, usize), ChangeFault> {
    let mut client_state = ClientState::nothing(own, Limits::standard());
    let mut reader = Reader::new(bytes);
    apply_changes(&mut client_state, own, &mut reader)?;
    Ok((client_state, reader.rest().len()))
}

/// Whether these changes apply to the empty state; `None` if an allocation fails.
fn history(alloc: Global, changes: &[&[u32]]) -> Option<bool> {
    let Ok(bytes) = bytes_of(alloc, changes) else {
        return None;
    };
    match applied(alloc, &bytes) {
        Ok((_, left)) => Some(left == 0),
        Err(ChangeFault::Unfit) => Some(false),
        Err(ChangeFault::Memory) => None,
    }
}

#[test]
fn each_change_is_applied(rt: HostRuntime) -> Result<(), Fail> {
    let alloc = rt.alloc();
    let bytes = bytes_of(alloc, &[&NUMBERS, &RECORD, &SESSION, &CALL, &OPEN])?;
    let (client_state, left) = applied(alloc, &bytes)?;
    assert_eq!(rt; left, 0);
    assert_eq!(rt; client_state.next_open, 8);
    assert_eq!(rt; client_state.clients.next_numbers(), (6, 10));
    assert_eq!(rt; client_state.clients.counts(), (1, 1));
    let Some(record) = client_state.clients.record(5) else {
        panic!(rt; "no record");
    };
    assert_eq!(rt; record.owner, b"alice".as_slice());
    assert!(rt; record.verifier == 7 && record.uid == 1001 && record.confirmed && record.reclaimed);
    let created = Created {
        session: 9,
        sequence: 1,
        persist: true,
        fore: CHANNEL,
        back: CHANNEL,
    };
    let creation = Creation {
        number: 1,
        result: Ok(created),
    };
    assert!(rt; record.created == Some(creation));
    let held = Held {
        client: 5,
        granted: CHANNEL,
    };
    assert!(rt; client_state.clients.held(9) == Some(held));
    assert!(rt; client_state.clients.kept(9, 0).is_none());
    let Some(kept) = client_state.clients.kept(9, 1) else {
        panic!(rt; "no call");
    };
    assert_eq!(rt;
        (kept.number, kept.caller.uid(), kept.caller.gid()),
        (6, 1001, 100)
    );
    assert_eq!(rt; kept.caller.groups(), [6, 100].as_slice());
    assert_eq!(rt; kept.arguments, b"abc".as_slice());
    assert_eq!(rt; kept.results, b"two!".as_slice());
    let [open] = client_state.opens.as_slice() else {
        panic!(rt; "not one open file");
    };
    assert_eq!(rt; (open.number, open.client, open.object), (3, 5, 2));
    assert_eq!(rt; (open.access, open.seqid), (1, 2));
    assert_eq!(rt; open.owner.as_slice(), b"someone".as_slice());
    Ok(())
}

#[test]
fn client_state_is_written_like_this(rt: HostRuntime) -> Result<(), Fail> {
    let alloc = rt.alloc();
    let all = bytes_of(alloc, &[&NUMBERS, &RECORD, &SESSION, &CALL, &OPEN])?;
    let (client_state, _) = applied(alloc, &all)?;
    let now = client_state.lend();
    let clients = bytes_of(alloc, &[&NUMBERS, &RECORD, &SESSION, &OPEN])?;
    assert_eq!(rt;
        write_clients(alloc, now, 0)?.as_slice(),
        clients.as_slice()
    );
    let calls = bytes_of(alloc, &[&CALL])?;
    assert_eq!(rt; write_clients(alloc, now, 1)?.as_slice(), calls.as_slice());
    let none = bytes_of(alloc, &[])?;
    assert_eq!(rt; write_clients(alloc, now, 2)?.as_slice(), none.as_slice());
    Ok(())
}

#[test]
fn a_change_is_read_and_written_again(rt: HostRuntime) -> Result<(), Fail> {
    let alloc = rt.alloc();
    for change in [&NUMBERS[..], &RECORD, &SESSION, &CALL, &OPEN] {
        let bytes = bytes_of(alloc, &[change])?;
        let mut reader = Reader::new(&bytes[12..]);
        let Ok(printed) = WrittenChange::read(&mut reader) else {
            panic!(rt; "it isn't read");
        };
        assert!(rt; reader.is_empty());
        let mut writer = Writer::new(alloc, 256)?;
        assert!(rt; printed.write(&mut writer).is_ok());
        assert_eq!(rt; writer.bytes(), &bytes[12..]);
    }
    Ok(())
}

#[test]
fn a_prefix_of_changes_is_refused(rt: HostRuntime) -> Result<(), Fail> {
    let alloc = rt.alloc();
    let bytes = bytes_of(alloc, &[&NUMBERS, &RECORD, &SESSION, &CALL, &OPEN])?;
    for len in 0..bytes.len() {
        assert!(rt;
            matches!(applied(alloc, &bytes[..len]), Err(ChangeFault::Unfit)),
            "{len}"
        );
    }
    let mut longer = bytes.clone()?;
    longer.push(0)?;
    assert!(rt; matches!(applied(alloc, &longer), Ok((_, 1))));
    Ok(())
}

/// The change with another word at a place.
fn with<const N: usize>(change: [u32; N], at: usize, word: u32) -> [u32; N] {
    let mut other = change;
    if let Some(place) = other.get_mut(at) {
        *place = word;
    }
    other
}

#[test]
fn records_and_numbers_that_misfit(rt: HostRuntime) {
    let alloc = rt.alloc();
    // a number of 2^63 may be the next one, and none above it
    let last = [0, 1 << 31, 0, 1 << 31, 0];
    assert_eq!(rt; history(alloc, &[&last]), Some(true));
    assert_eq!(rt; history(alloc, &[&with(last, 2, 1)]), Some(false));
    assert_eq!(rt; history(alloc, &[&with(last, 4, 1)]), Some(false));
    // no number that was given is given again
    assert_eq!(rt;
        history(alloc, &[&NUMBERS, &with(NUMBERS, 2, 5)]),
        Some(false)
    );
    assert_eq!(rt;
        history(alloc, &[&NUMBERS, &with(NUMBERS, 4, 9)]),
        Some(false)
    );
    assert_eq!(rt; history(alloc, &[&NUMBERS, &NUMBERS]), Some(true));
    // no change has another number
    for number in [4, 6, 7] {
        assert_eq!(rt;
            history(alloc, &[&NUMBERS, &RECORD, &[number, 0, 5]]),
            Some(false),
            "{number}"
        );
    }
    assert_eq!(rt; history(alloc, &[&NUMBERS, &RECORD]), Some(true));
    // its number wasn't given, or it exists already
    assert_eq!(rt; history(alloc, &[&RECORD]), Some(false));
    assert_eq!(rt;
        history(alloc, &[&NUMBERS, &with(RECORD, 2, 6)]),
        Some(false)
    );
    assert_eq!(rt;
        history(alloc, &[&NUMBERS, &RECORD, &with(RECORD, 4, 1)]),
        Some(false)
    );
    // its owner has a confirmed record, and may have another one
    let second = with(RECORD, 2, 4);
    assert_eq!(rt; history(alloc, &[&NUMBERS, &RECORD, &second]), Some(false));
    assert_eq!(rt;
        history(alloc, &[&NUMBERS, &RECORD, &with(second, 9, 0)]),
        Some(true)
    );
    // 2 is no boolean, and no result of CREATE_SESSION is cached but a session and three refusals
    for place in [9, 10, 16, 29] {
        assert_eq!(rt;
            history(alloc, &[&NUMBERS, &with(RECORD, place, 2)]),
            Some(false)
        );
    }
    for (status, is_kept) in [(28, true), (10005, true), (10017, true), (10008, false)] {
        let refused = [1, 0, 5, 0, 0, 7, 1001, 1, 1, 1, status, 1];
        assert_eq!(rt;
            history(alloc, &[&NUMBERS, &refused]),
            Some(is_kept),
            "{status}"
        );
    }
}

#[test]
fn sessions_calls_and_opens_that_misfit(rt: HostRuntime) {
    let alloc = rt.alloc();
    assert_eq!(rt;
        history(alloc, &[&NUMBERS, &RECORD, &SESSION, &CALL]),
        Some(true)
    );
    // of a session: its number, its client, and the granted sizes
    for (at, word) in [
        (2, 10),
        (4, 4),
        (6, 65_537),
        (7, 4095),
        (7, 65_537),
        (9, 17),
        (10, 0),
        (10, 9),
    ] {
        let misfit = history(alloc, &[&NUMBERS, &RECORD, &with(SESSION, at, word)]);
        assert_eq!(rt; misfit, Some(false), "{at} {word}");
    }
    assert_eq!(rt;
        history(alloc, &[&NUMBERS, &RECORD, &SESSION, &SESSION]),
        Some(false)
    );
    assert_eq!(rt;
        history(alloc, &[&NUMBERS, &with(RECORD, 9, 0), &SESSION]),
        Some(false)
    );
    // of a call: its session, its slot, the number of its groups, groups that don't rise, and the length of its
    // arguments
    for (at, word) in [(2, 8), (3, 2), (7, 3), (8, 100), (8, 101), (10, 5)] {
        let misfit = history(alloc, &[&NUMBERS, &RECORD, &SESSION, &with(CALL, at, word)]);
        assert_eq!(rt; misfit, Some(false), "{at} {word}");
    }
    // of an open file: the length of its owner
    assert_eq!(rt; history(alloc, &[&OPEN]), Some(true));
    assert_eq!(rt; history(alloc, &[&with(OPEN, 5, 9)]), Some(false));
}

/// Whether a call with `arguments` bytes of arguments and `results` bytes of results is restored in a session of these
/// sizes.
fn has_room(alloc: Global, request_size: u32, arguments: u32, results: u32) -> Option<bool> {
    let mut call = Vec::from_slice(alloc, &[3, 0, 9, 0, 1, 1001, 100, 0, arguments]).ok()?;
    for _word in 0..arguments / 4 {
        call.push(0).ok()?;
    }
    call.push(results).ok()?;
    for _word in 0..results / 4 {
        call.push(0).ok()?;
    }
    let session = with(SESSION, 6, request_size);
    history(alloc, &[&NUMBERS, &RECORD, &session, &call])
}

#[test]
fn a_call_has_room_in_its_slot(rt: HostRuntime) {
    let alloc = rt.alloc();
    // results have the room of a reply of 4,096 bytes, without its header of 24
    assert_eq!(rt; has_room(alloc, 512, 512, 4072), Some(true));
    assert_eq!(rt; has_room(alloc, 512, 516, 0), Some(false));
    assert_eq!(rt; has_room(alloc, 512, 0, 4076), Some(false));
    assert_eq!(rt; has_room(alloc, 65_536, 65_536, 0), Some(true));
    assert_eq!(rt; has_room(alloc, 65_536, 65_540, 0), Some(false));
}

/// Applies the parts that are written of a state to the empty state.
fn again<A: Allocator + Copy>(
    own: A,
    parts: &[&[u8]],
) -> Result<(ClientState<A>, usize), ChangeFault> {
    let mut client_state = ClientState::nothing(own, Limits::standard());
    let mut left = 0;
    for part in parts {
        let mut reader = Reader::new(part);
        apply_changes(&mut client_state, own, &mut reader)?;
        left += reader.rest().len();
    }
    Ok((client_state, left))
}

#[test]
fn what_is_known_after_each_turn_is_read_again(rt: HostRuntime) -> Result<(), Fail> {
    let alloc = rt.alloc();
    for turn in 0..14u64 {
        let wanted = clients_after(alloc, turn)?;
        let now = wanted.lend();
        let clients = write_clients(alloc, now, 0)?;
        let first = write_clients(alloc, now, 1)?;
        let second = write_clients(alloc, now, 2)?;
        let Ok((client_state, 0)) = again(alloc, &[&clients, &first, &second]) else {
            panic!(rt; "{turn}");
        };
        assert!(rt; are_same(client_state.lend(), now), "{turn}");
        assert!(rt;
            picture_of(alloc, client_state.lend())? == picture_of(alloc, now)?,
            "{turn}"
        );
    }
    Ok(())
}

#[test]
fn what_differs_is_seen(rt: HostRuntime) -> Result<(), Fail> {
    let alloc = rt.alloc();
    let base: [&[u32]; 5] = [&NUMBERS, &RECORD, &SESSION, &CALL, &OPEN];
    let bytes = bytes_of(alloc, &base)?;
    let (client_state, _) = applied(alloc, &bytes)?;
    let mut seen = 0u32;
    // each word that may be another one
    for at in 0..bytes.len() / 4 {
        let mut other = bytes.clone()?;
        other[4 * at + 3] ^= 1;
        if let Ok((changed, 0)) = applied(alloc, &other) {
            let is_same = are_same(client_state.lend(), changed.lend());
            assert_eq!(rt;
                is_same,
                picture_of(alloc, client_state.lend())? == picture_of(alloc, changed.lend())?,
                "{at}"
            );
            assert!(rt; !is_same, "{at}");
            seen += 1;
        }
    }
    assert!(rt; seen > 30, "{seen}");
    Ok(())
}

/// The result over a small heap: 0 if an allocation fails, 1 if the state is the expected one.
fn in_heap(heap: &LocalHeap, parts: &[&[u8]; 3]) -> Result<u32, Fail> {
    let client_state = match again(heap, parts) {
        Ok((client_state, 0)) => client_state,
        Err(ChangeFault::Memory) => return Ok(0),
        _ => return Err(Fail::new("it is refused")),
    };
    let now = client_state.lend();
    let written = [
        write_clients(heap, now, 0),
        write_clients(heap, now, 1),
        write_clients(heap, now, 2),
    ];
    let mut good = 1u32;
    for (given, wanted) in written.iter().zip(parts) {
        match given {
            Ok(given) if given.as_slice() == *wanted => {}
            Ok(_) => return Err(Fail::new("other bytes are written")),
            Err(AllocError) => good = 0,
        }
    }
    Ok(good)
}

#[test]
fn growths_are_refused(rt: HostRuntime) -> Result<(), Fail> {
    let alloc = rt.alloc();
    let client_state = clients_after(alloc, 11)?;
    let now = client_state.lend();
    let clients = write_clients(alloc, now, 0)?;
    let first = write_clients(alloc, now, 1)?;
    let second = write_clients(alloc, now, 2)?;
    let parts: [&[u8]; 3] = [&clients, &first, &second];
    let mut good = 0u32;
    let mut refused = 0u32;
    for size in 0..160usize {
        let heap = LocalHeap::new(alloc, 64 + size * 512)?;
        match in_heap(&heap, &parts)? {
            0 => refused += 1,
            _ => good += 1,
        }
    }
    assert!(rt; refused > 0 && good > 0, "{refused} {good}");
    Ok(())
}
