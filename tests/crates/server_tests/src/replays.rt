//! A call that is run again, with an allocation of one operation that fails.

use compound_run::{Args, MAX_RESULTS, Ran, Server};
use nfs_types::Moment;
use node_tree::Tree;
use rpc_record::Caller;
use std::alloc::{AllocError, Global};
use std::hash::RandomState;
use std::num::NonZeroUsize;
use std::test::Fail;
use who_book::Book;
use xdr_wire::Writer;

/// EXCHANGE_ID of the owner `alice`, and CREATE_SESSION of client 1, each as the only operation of its COMPOUND.
const EXCHANGE_ID: [u32; 12] = [0, 1, 1, 42, 0, 7, 5, 0x616c_6963, 0x6500_0000, 0, 0, 0];

const CREATE_SESSION: [u32; 24] = [
    0, 1, 1, 43, 0, 1, 1, 0, 0, 65_536, 65_536, 0, 8, 8, 0, 0, 4_096, 4_096, 0, 2, 1, 0, 0, 0,
];

/// SEQUENCE, PUTROOTFH and CREATE of the directory `a`, PUTROOTFH and CREATE of the directory `b`.
const MAKE: [u32; 26] = [
    0,
    1,
    5,
    53,
    0,
    0,
    0,
    1,
    1,
    0,
    0,
    0,
    24,
    6,
    2,
    1,
    0x6100_0000,
    0,
    0,
    24,
    6,
    2,
    1,
    0x6200_0000,
    0,
    0,
];

/// NFS4_OK and NFS4ERR_DELAY.
const OK: u32 = 0;

const DELAY: u32 = 10_008;

/// The end of a call that was run again: the facts of its record, its status, the number of its results, and whether
/// `a` and `b` exist.
type End = (Option<Ran>, u32, u32, [bool; 2]);

fn bytes_of(alloc: Global, words: &[u32]) -> Result<Vec<u8>, AllocError> {
    let mut bytes = Vec::new(alloc);
    for word in words {
        bytes.extend_from_slice(&word.to_be_bytes())?;
    }
    Ok(bytes)
}

fn now() -> Moment {
    Moment {
        seconds: 1,
        nanoseconds: 0,
    }
}

fn args(bytes: &[u8]) -> Args<'_> {
    Args {
        bytes,
        record_len: bytes.len(),
    }
}

/// A server that has a client with a session, of user 0.
fn with_session(alloc: Global, hasher: RandomState, caller: &Caller) -> Result<Server, Fail> {
    let Some(capacity) = NonZeroUsize::new(8) else {
        return Err(Fail::new("0 is no capacity"));
    };
    let (tree, book) = (Tree::sample(alloc)?, Book::default(alloc));
    let mut server = Server::new(alloc, tree, book, capacity, hasher)?;
    for words in [&EXCHANGE_ID[..], &CREATE_SESSION[..]] {
        let bytes = bytes_of(alloc, words)?;
        let mut out = Writer::new(alloc, MAX_RESULTS)?;
        server.run_recorded(args(&bytes), caller, now(), &mut out);
    }
    Ok(server)
}

fn word(results: &[u8], at: usize) -> u32 {
    match results.get(at..at + 4) {
        Some([a, b, c, d]) => u32::from_be_bytes([*a, *b, *c, *d]),
        _ => u32::MAX,
    }
}

fn has(server: &Server, name: &[u8]) -> bool {
    server.tree().find(server.tree().root(), name).is_some()
}

/// Runs `MAKE` again, with an allocation that fails at a place.
fn made_again(alloc: Global, hasher: RandomState, delayed: Option<u32>) -> Result<End, Fail> {
    let caller = Caller::new(0, 0, &[]);
    let mut server = with_session(alloc, hasher, &caller)?;
    let bytes = bytes_of(alloc, &MAKE)?;
    let mut out = Writer::new(alloc, MAX_RESULTS)?;
    let ran = server.replay(args(&bytes), &caller, now(), delayed, &mut out);
    let results = out.bytes();
    let names = [has(&server, b"a"), has(&server, b"b")];
    Ok((ran, word(results, 0), word(results, 8), names))
}

fn replayed(kept: bool, delayed: Option<u32>) -> Option<Ran> {
    Some(Ran { kept, delayed })
}

/// The operation at the place is answered DELAY, if it allocates, and isn't run. A place without such an operation
/// changes nothing.
#[test]
fn memory_is_refused_at_the_place_of_the_record(rt: HostRuntime) -> Result<(), Fail> {
    let hasher = RandomState::new(&rt)?;
    let whole: End = (replayed(true, None), OK, 5, [true, true]);
    let cases: [(Option<u32>, End); 6] = [
        (None, whole),
        (Some(0), whole),
        (
            Some(1),
            (replayed(false, Some(1)), DELAY, 3, [false, false]),
        ),
        (Some(2), whole),
        (Some(3), (replayed(true, Some(3)), DELAY, 5, [true, false])),
        (Some(4), whole),
    ];
    for (delayed, end) in cases {
        let made = made_again(rt.alloc(), hasher, delayed)?;
        assert!(rt; made == end, "{delayed:?}");
    }
    Ok(())
}
