//! Operations, results and listings that are read and written, complete, cut, and into too little room.
use crate::operations::plain::{self, Kind};
use crate::operations::{lent, listings, results, vectors};
use std::alloc::Global;
use xdr_wire::Full;

/// Whether bytes are read as an operation under its number, and written again.
fn is_operation(alloc: Global, bytes: &[u8]) -> bool {
    let number = plain::number_of(bytes);
    let is_read = plain::read(bytes) == (Kind::Operation(number), 0);
    is_read & plain::is_written_again(alloc, bytes)
}

/// Each operation is read completely, and is written again; with less room nothing is.
#[test]
fn operations(rt: HostRuntime) {
    for bytes in vectors::operations() {
        assert!(rt; is_operation(rt.alloc(), *bytes), "{bytes:?}");
    }
}

/// Whether an operation that is cut here is bad, under its number if that is there.
fn is_bad_at(bytes: &[u8], len: usize) -> bool {
    let (kind, _) = plain::read(bytes.get(..len).unwrap_or(b""));
    let under = if len < 4 {
        10_044
    } else {
        plain::number_of(bytes)
    };
    kind == Kind::Bad(under)
}

/// How many prefixes of an operation aren't bad.
fn good_prefixes(bytes: &[u8]) -> usize {
    let mut good = 0usize;
    for len in 0..bytes.len() {
        if !is_bad_at(bytes, len) {
            good = good.saturating_add(1);
        }
    }
    good
}

/// Each operation that is cut anywhere is bad, under its number if that is there.
#[test]
fn cut(rt: HostRuntime) {
    for bytes in vectors::operations() {
        assert_eq!(rt; good_prefixes(*bytes), 0, "{bytes:?}");
    }
}

fn is_kind(bytes: &[u8], want: Kind) -> bool {
    plain::read(bytes).0 == want
}

/// Operations that aren't supported, that are illegal and that are bad.
#[test]
fn others(rt: HostRuntime) {
    for (bytes, want) in vectors::others() {
        assert!(rt; is_kind(*bytes, *want), "{bytes:?}");
    }
}

/// Whether a result is written as these bytes into their room, and nothing of it into a smaller one.
fn is_written(alloc: Global, index: u32, bytes: &[u8]) -> bool {
    let room = bytes.len();
    let whole = plain::written(alloc, room, results::result_of(index), bytes);
    let less = plain::written(
        alloc,
        room.saturating_sub(1),
        results::result_of(index),
        b"",
    );
    (whole == Some((Ok(()), true))) & (less == Some((Err(Full), true)))
}

fn is_result(alloc: Global, index: u32) -> bool {
    let bytes = results::bytes_of(index);
    is_written(alloc, index, bytes) & plain::is_result_again(alloc, bytes, bytes)
}

/// Each result is written as its form defines; with less room nothing is.
#[test]
fn results(rt: HostRuntime) {
    for index in 0..results::COUNT {
        assert!(rt; is_result(rt.alloc(), index), "result {index}");
    }
}

fn is_lent(alloc: Global, index: u32) -> bool {
    let bytes = lent::bytes_of(index);
    match lent::result_of(index) {
        Some(outcome) => {
            let is_written = plain::written(alloc, 128, outcome, bytes) == Some((Ok(()), true));
            is_written & plain::is_result_again(alloc, bytes, bytes)
        }
        None => false,
    }
}

/// Results that borrow their bytes: attributes, a filehandle, bytes, a link's text, the names of a server.
#[test]
fn lent(rt: HostRuntime) {
    for index in 0..lent::COUNT {
        assert!(rt; is_lent(rt.alloc(), index), "result {index}");
    }
}

/// Bytes that are no result: a number of no operation that is OK, an unknown status, a change that isn't atomic, no
/// bytes, and results that this server doesn't return.
#[test]
fn no_results(rt: HostRuntime) {
    for bytes in vectors::no_results() {
        assert!(rt;
            plain::is_result_again(rt.alloc(), *bytes, b""),
            "{bytes:?}"
        );
    }
}

/// READDIR returns all entries that fit. It is refused if an entry that is judged is refused, and else finds too little
/// room.
#[test]
fn listings(rt: HostRuntime) {
    for case in listings::cases() {
        assert!(rt;
            listings::is_listed(rt.alloc(), *case) == Ok(true),
            "{case:?}"
        );
    }
}
