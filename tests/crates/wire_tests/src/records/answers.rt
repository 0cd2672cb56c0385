//! The replies of records to a call.

use crate::given::{bytes_of, is_text};
use rpc_record::{ReplyFault, read_reply};
use std::alloc::{AllocError, Global};

/// The words of replies to call 9 that have results, and the words of these. The verifier may be any.
static RESULTS: [(&[u32], &[u32]); 3] = [
    (&[9, 1, 0, 0, 0, 0], &[]),
    (&[9, 1, 0, 0, 0, 0, 5, 6], &[5, 6]),
    (&[9, 1, 0, 2, 3, 0xabcd_ef00, 0, 7], &[7]),
];

fn results() -> &'static [(&'static [u32], &'static [u32])] {
    &RESULTS
}

/// The results in a reply to call 9, without the contract of the function that reads them.
fn reply(record: &[u8]) -> Result<&[u8], ReplyFault> {
    read_reply(record, 9)
}

fn is_reply_with(record: &[u8], results: &[u8]) -> bool {
    match reply(record) {
        Ok(bytes) => bytes == results,
        Err(_) => false,
    }
}

fn has_results(alloc: Global, words: &[u32], results: &[u32]) -> Result<bool, AllocError> {
    let record = bytes_of(alloc, words)?;
    let expected = bytes_of(alloc, results)?;
    Ok(is_reply_with(&record, &expected))
}

#[test]
fn replies_with_results(rt: HostRuntime) {
    for (words, found) in results() {
        assert!(rt;
            has_results(rt.alloc(), words, found) == Ok(true),
            "{words:?}"
        );
    }
}

/// The words of records that have no results for call 9, and why.
static FAULTS: [(&[u32], ReplyFault); 24] = [
    (&[], ReplyFault::Header),
    (&[9], ReplyFault::Header),
    (&[9, 1], ReplyFault::Header),
    (&[9, 0, 0, 0, 0, 0], ReplyFault::Header),
    (&[9, 2, 0, 0, 0, 0], ReplyFault::Header),
    // whatever follows the transaction and the type
    (&[8, 1], ReplyFault::Another(8)),
    (&[8, 1, 0, 0, 0, 0], ReplyFault::Another(8)),
    (&[9, 1, 2, 0, 0, 0], ReplyFault::Header),
    // the verifier or its padding ends too soon, or the padding isn't zero
    (&[9, 1, 0, 0, 4], ReplyFault::Header),
    (&[9, 1, 0, 0, 1, 0x0100_0001, 0], ReplyFault::Header),
    (&[9, 1, 0, 0, 0], ReplyFault::Header),
    (&[9, 1, 0, 0, 0, 1], ReplyFault::ProgUnavail),
    (&[9, 1, 0, 0, 0, 1, 0], ReplyFault::Header),
    (&[9, 1, 0, 0, 0, 2, 3, 4], ReplyFault::ProgMismatch(3, 4)),
    (&[9, 1, 0, 0, 0, 2, 3], ReplyFault::Header),
    (&[9, 1, 0, 0, 0, 3], ReplyFault::ProcUnavail),
    (&[9, 1, 0, 0, 0, 4], ReplyFault::GarbageArgs),
    (&[9, 1, 0, 0, 0, 5], ReplyFault::SystemErr),
    (&[9, 1, 0, 0, 0, 6], ReplyFault::Header),
    (&[9, 1, 1, 0, 2, 2], ReplyFault::RpcMismatch(2, 2)),
    (&[9, 1, 1, 0, 2, 2, 0], ReplyFault::Header),
    (&[9, 1, 1, 1, 5], ReplyFault::AuthError(5)),
    (&[9, 1, 1, 1], ReplyFault::Header),
    (&[9, 1, 1, 2, 0], ReplyFault::Header),
];

fn faults() -> &'static [(&'static [u32], ReplyFault)] {
    &FAULTS
}

/// Why a record has no results for call 9.
fn fault_in(record: &[u8]) -> Option<ReplyFault> {
    match reply(record) {
        Ok(_) => None,
        Err(fault) => Some(fault),
    }
}

fn fault_of(alloc: Global, words: &[u32]) -> Option<ReplyFault> {
    match bytes_of(alloc, words) {
        Ok(record) => fault_in(&record),
        Err(_) => None,
    }
}

#[test]
fn replies_without_results(rt: HostRuntime) {
    for (words, fault) in faults() {
        assert!(rt; fault_of(rt.alloc(), words) == Some(*fault), "{words:?}");
    }
}

static TEXTS: [(ReplyFault, &str); 9] = [
    (ReplyFault::Header, "no reply"),
    (ReplyFault::Another(8), "a reply to call 8"),
    (ReplyFault::ProgUnavail, "no such program"),
    (
        ReplyFault::ProgMismatch(3, 4),
        "no such version of the program: from 3 to 4",
    ),
    (ReplyFault::ProcUnavail, "no such procedure"),
    (ReplyFault::GarbageArgs, "arguments that can't be read"),
    (ReplyFault::SystemErr, "the server failed"),
    (
        ReplyFault::RpcMismatch(2, 2),
        "no such version of the protocol: from 2 to 2",
    ),
    (ReplyFault::AuthError(5), "a credential that isn't taken: 5"),
];

fn texts() -> &'static [(ReplyFault, &'static str)] {
    &TEXTS
}

fn is_printed(alloc: Global, fault: ReplyFault, text: &str) -> bool {
    is_text(format!(in alloc; "{fault}"), text)
}

#[test]
fn texts_of_faults(rt: HostRuntime) {
    for (fault, text) in texts() {
        assert!(rt; is_printed(rt.alloc(), *fault, text), "{text}");
    }
}
