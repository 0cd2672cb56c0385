//! The calls of records, and their faults.

use crate::given::{add_words, bytes_of};
use crate::records::words::{NULL_CALL, lookup_record};
use rpc_record::{CallFault, Caller, MOST_FURTHER, Procedure, read_call};
use std::alloc::{AllocError, Global};

/// The words of records that are no calls, and their faults.
static FAULTS: [(&[u32], CallFault); 18] = [
    (&[], CallFault::Header),
    (&[1], CallFault::Header),
    (&[1, 0], CallFault::Header),
    (&[1, 1, 3], CallFault::Header),
    (&[1, 1, 2, 100_003, 4, 0, 0, 0, 0, 0], CallFault::Header),
    (&[1, 0, 3], CallFault::RpcVersion(1)),
    (&[1, 0, 0, 9, 9], CallFault::RpcVersion(1)),
    (&[1, 0, 2], CallFault::Header),
    (&[1, 0, 2, 9, 9, 9, 0, 0, 0], CallFault::Header),
    // the data of the credential, or of the verifier, end too soon
    (&[1, 0, 2, 100_003, 4, 0, 0, 12, 0, 0], CallFault::Header),
    (&[1, 0, 2, 100_003, 4, 0, 0, 0, 0, 1], CallFault::Header),
    // one byte of data, and padding that isn't zero
    (
        &[1, 0, 2, 100_003, 4, 0, 0, 1, 0x0100_0001, 0, 0],
        CallFault::Header,
    ),
    (
        &[1, 0, 2, 100_003, 4, 0, 0, 0, 0, 1, 0x0100_0001],
        CallFault::Header,
    ),
    (&[5, 0, 2, 100_002, 3, 2, 9, 0, 0, 0], CallFault::Program(5)),
    (&[5, 0, 2, 100_003, 3, 2, 9, 0, 0, 0], CallFault::Version(5)),
    (
        &[5, 0, 2, 100_003, 4, 2, 9, 0, 0, 0],
        CallFault::Procedure(5),
    ),
    (&[5, 0, 2, 100_003, 4, 1, 0, 0, 0, 0], CallFault::Flavor(5)),
    (&[5, 0, 2, 100_003, 4, 1, 1, 0, 0, 0], CallFault::BadCred(5)),
];

fn faults() -> &'static [(&'static [u32], CallFault)] {
    &FAULTS
}

/// A call's transaction, procedure, caller and arguments, without the contract of the function that reads them.
type Found<'a> = (u32, Procedure, Option<Caller>, &'a [u8]);

fn found(record: &[u8]) -> Result<Found<'_>, CallFault> {
    match read_call(record) {
        Ok(call) => Ok((call.xid, call.procedure(), call.caller, call.arguments)),
        Err(fault) => Err(fault),
    }
}

fn fault_in(record: &[u8]) -> Option<CallFault> {
    match found(record) {
        Ok(_) => None,
        Err(fault) => Some(fault),
    }
}

fn fault_of(alloc: Global, words: &[u32]) -> Option<CallFault> {
    match bytes_of(alloc, words) {
        Ok(record) => fault_in(&record),
        Err(_) => None,
    }
}

#[test]
fn records_that_are_no_calls(rt: HostRuntime) {
    for (words, fault) in faults() {
        assert!(rt; fault_of(rt.alloc(), words) == Some(*fault), "{words:?}");
    }
}

/// The words of NULL calls, their transactions and the bytes of their arguments.
static NULL_CALLS: [(&[u32], u32, &[u8]); 2] = [
    (&NULL_CALL, 1, &[]),
    // any flavor and arguments
    (
        &[9, 0, 2, 100_003, 4, 0, 6, 0, 7, 4, 0xffff_ffff, 0xabcd],
        9,
        &[0, 0, 0xab, 0xcd],
    ),
];

fn null_calls() -> &'static [(&'static [u32], u32, &'static [u8])] {
    &NULL_CALLS
}

/// Whether a record is a call of NULL.
fn is_null(record: &[u8], xid: u32, arguments: &[u8]) -> bool {
    match found(record) {
        Ok((found_xid, procedure, caller, found_arguments)) => {
            (found_xid == xid)
                & (procedure == Procedure::Null)
                & caller.is_none()
                & (found_arguments == arguments)
        }
        Err(_) => false,
    }
}

fn is_null_of(alloc: Global, words: &[u32], xid: u32, arguments: &[u8]) -> bool {
    match bytes_of(alloc, words) {
        Ok(record) => is_null(&record, xid, arguments),
        Err(_) => false,
    }
}

#[test]
fn calls_of_null(rt: HostRuntime) {
    for (words, xid, arguments) in null_calls() {
        assert!(rt; is_null_of(rt.alloc(), words, *xid, arguments), "{words:?}");
    }
}

fn is_equal(caller: Caller, other: Caller) -> bool {
    caller == other
}

/// Whether there is a caller, and it is of this credential.
fn is_caller(caller: Option<Caller>, uid: u32, gid: u32, further: &[u32]) -> bool {
    match caller {
        Some(caller) => {
            let most = further.len().min(MOST_FURTHER);
            is_equal(caller, Caller::new(uid, gid, &further[..most]))
        }
        None => false,
    }
}

/// Whether a record is a call of COMPOUND, of transaction 2 and uid 1002 in group 100.
fn is_compound(record: &[u8], arguments: &[u8]) -> bool {
    match found(record) {
        Ok((xid, procedure, caller, found_arguments)) => {
            (xid == 2)
                & (procedure == Procedure::Compound)
                & is_caller(caller, 1002, 100, &[])
                & (found_arguments == arguments)
        }
        Err(_) => false,
    }
}

/// The arguments of the call of LOOKUP are after 60 bytes of header.
fn is_lookup(alloc: Global) -> Result<(bool, usize), AllocError> {
    let record = bytes_of(alloc, lookup_record())?;
    let (_, arguments) = record.split_at(record.len().min(60));
    Ok((is_compound(&record, arguments), record.len()))
}

#[test]
fn a_call_of_compound(rt: HostRuntime) {
    assert!(rt; is_lookup(rt.alloc()) == Ok((true, 100)));
}

/// The parts of a COMPOUND's credential.
#[derive(Clone, Copy, Debug)]
struct Credential {
    stamp: u32,
    name: usize,
    groups: usize,
    // further bytes after the gids
    more: usize,
}

fn add_byte(bytes: &mut Vec<u8>, byte: u8, count: usize) -> Result<(), AllocError> {
    for _ in 0..count {
        bytes.push(byte)?;
    }
    Ok(())
}

/// Appends `groups` groups: 16 and down.
fn add_groups(bytes: &mut Vec<u8>, groups: u32) -> Result<(), AllocError> {
    for i in 0..groups {
        add_words(bytes, &[16u32.saturating_sub(i)])?;
    }
    Ok(())
}

fn add_name(body: &mut Vec<u8>, len: usize) -> Result<(), AllocError> {
    add_words(body, &[len.min(1000) as u32])?;
    add_byte(body, 0xff, len.min(1000))?;
    add_byte(body, 0, (4 - len.min(1000) % 4) % 4)
}

fn add_body(body: &mut Vec<u8>, credential: &Credential) -> Result<(), AllocError> {
    add_words(body, &[credential.stamp])?;
    add_name(body, credential.name)?;
    let groups = credential.groups.min(1000) as u32;
    add_words(body, &[1001, 100, groups])?;
    add_groups(body, groups)?;
    add_byte(body, 0, credential.more)
}

fn add_compound(record: &mut Vec<u8>, body: &[u8]) -> Result<(), AllocError> {
    let len = body.len().min(1000);
    add_words(record, &[3, 0, 2, 100_003, 4, 1, 1, len as u32])?;
    record.extend_from_slice(body)?;
    add_byte(record, 0, (4 - len % 4) % 4)?;
    add_words(record, &[0, 0, 0x5555_5555])
}

/// A COMPOUND by uid 1001 in group 100 and in `groups` further ones, 16 and down, with this credential.
fn compound(alloc: Global, credential: &Credential) -> Result<Vec<u8>, AllocError> {
    let mut body = Vec::new(alloc);
    add_body(&mut body, credential)?;
    let mut record = Vec::new(alloc);
    add_compound(&mut record, &body)?;
    Ok(record)
}

macro_rules! credential {
    ($stamp:expr, $name:expr, $groups:expr, $more:expr) => {
        Credential {
            stamp: $stamp,
            name: $name,
            groups: $groups,
            more: $more,
        }
    };
}

/// Credentials, and the number of the fault of each, or 0. The last ones have 400 bytes and 401.
static CREDENTIALS: [(Credential, u32); 13] = [
    (credential!(0, 0, 0, 0), 0),
    (credential!(0xffff_ffff, 1, 0, 0), 0),
    (credential!(7, 4, 0, 0), 0),
    (credential!(0, 255, 0, 0), 0),
    (credential!(0, 256, 0, 0), 4),
    (credential!(0, 0, 16, 0), 0),
    (credential!(9, 255, 16, 0), 0),
    (credential!(0, 0, 17, 0), 4),
    (credential!(0, 0, 0, 1), 4),
    (credential!(0, 0, 0, 4), 4),
    (credential!(0, 0, 16, 4), 4),
    (credential!(0, 0, 0, 380), 4),
    (credential!(0, 0, 0, 381), 1),
];

fn credentials_and_faults() -> &'static [(Credential, u32)] {
    &CREDENTIALS
}

/// The further groups of a credential.
fn groups_of(count: usize) -> &'static [u32] {
    static SIXTEEN: [u32; 16] = [1, 2, 3, 4, 5, 6, 7, 8, 9, 10, 11, 12, 13, 14, 15, 16];
    SIXTEEN.get(..count).unwrap_or(&[])
}

/// The number of the fault of a record, or 0 if it is the call of a credential with this number of further groups.
fn number_of(record: &[u8], groups: usize) -> Option<u32> {
    match found(record) {
        Ok((_, _, caller, arguments)) => {
            let is_right = is_caller(caller, 1001, 100, groups_of(groups));
            if is_right & (arguments == [0x55; 4].as_slice()) {
                Some(0)
            } else {
                None
            }
        }
        Err(fault) => Some(fault.number()),
    }
}

fn number_of_credential(alloc: Global, credential: &Credential) -> Option<u32> {
    match compound(alloc, credential) {
        Ok(record) => number_of(&record, credential.groups),
        Err(_) => None,
    }
}

#[test]
fn credentials(rt: HostRuntime) {
    for (credential, number) in credentials_and_faults() {
        let found = number_of_credential(rt.alloc(), credential);
        assert!(rt; found == Some(*number), "{credential:?}");
    }
}

static NUMBERS: [(CallFault, u32); 7] = [
    (CallFault::Header, 1),
    (CallFault::RpcVersion(9), 2),
    (CallFault::Flavor(9), 3),
    (CallFault::BadCred(9), 4),
    (CallFault::Program(9), 5),
    (CallFault::Version(9), 6),
    (CallFault::Procedure(9), 7),
];

fn numbers() -> &'static [(CallFault, u32)] {
    &NUMBERS
}

#[test]
fn numbers_of_faults(rt: HostRuntime) {
    for (fault, number) in numbers() {
        assert!(rt; fault.number() == *number, "{number}");
    }
}
