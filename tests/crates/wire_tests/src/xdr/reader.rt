//! Tests of the items that a reader takes, and of its faults.
use crate::given;
use std::alloc::Global;
use xdr_wire::{Opaque, Reader, XdrFault};

type UnsignedInt = (&'static [u8], Result<u32, XdrFault>);

static UNSIGNED_INTS: [UnsignedInt; 4] = [
    (b"\0\0\0\0", Ok(0)),
    (b"\0\0\x01\x02", Ok(258)),
    (b"\xff\xff\xff\xff", Ok(4294967295)),
    (b"\0\0\0", Err(XdrFault::Short)),
];

fn cases_of_unsigned_ints() -> &'static [UnsignedInt] {
    &UNSIGNED_INTS
}

/// Unsigned ints at their ends, and a byte too few.
#[test]
fn unsigned_ints(rt: HostRuntime) {
    for (bytes, want) in cases_of_unsigned_ints() {
        assert!(rt;
            given::read::<u32>(bytes).0 == *want,
            "unsigned int {bytes:?}"
        );
    }
}

type Hyper = (&'static [u8], Result<u64, XdrFault>, Result<i64, XdrFault>);

static HYPERS: [Hyper; 4] = [
    (b"\0\0\0\x01\0\0\0\0", Ok(4294967296), Ok(4294967296)),
    (
        b"\x7f\xff\xff\xff\xff\xff\xff\xff",
        Ok(9223372036854775807),
        Ok(9223372036854775807),
    ),
    (
        b"\xff\xff\xff\xff\xff\xff\xff\xfe",
        Ok(18446744073709551614),
        Ok(-2),
    ),
    (
        b"\0\0\0\0\0\0\0",
        Err(XdrFault::Short),
        Err(XdrFault::Short),
    ),
];

fn cases_of_hypers() -> &'static [Hyper] {
    &HYPERS
}

/// Unsigned hypers and hypers at their ends, and a byte too few.
#[test]
fn hypers(rt: HostRuntime) {
    for (bytes, unsigned, signed) in cases_of_hypers() {
        assert!(rt;
            given::read::<u64>(bytes).0 == *unsigned,
            "unsigned hyper {bytes:?}"
        );
        assert!(rt; given::read::<i64>(bytes).0 == *signed, "hyper {bytes:?}");
    }
}

type Boolean = (&'static [u8], (Result<bool, XdrFault>, usize));

static BOOLEANS: [Boolean; 5] = [
    (b"\0\0\0\0", (Ok(false), 0)),
    (b"\0\0\0\x01", (Ok(true), 0)),
    (b"\0\0\0\x02", (Err(XdrFault::BadBool), 4)),
    (b"\x01\0\0\0", (Err(XdrFault::BadBool), 4)),
    (b"\0\0\x01", (Err(XdrFault::Short), 3)),
];

fn cases_of_booleans() -> &'static [Boolean] {
    &BOOLEANS
}

/// A boolean is 0 or 1, and a fault leaves the reader where the item began.
#[test]
fn booleans(rt: HostRuntime) {
    for (bytes, want) in cases_of_booleans() {
        assert!(rt; given::read::<bool>(bytes) == *want, "boolean {bytes:?}");
    }
}

/// The answer of `fixed` to the bytes, and how many are left.
fn fixed(n: usize, bytes: &[u8]) -> (Result<&[u8], XdrFault>, usize) {
    let mut reader = Reader::new(bytes);
    let read = reader.fixed(n);
    (read, reader.len())
}

/// The answer of `opaque` to the bytes, and how many are left.
fn opaque(max: usize, bytes: &[u8]) -> (Result<&[u8], XdrFault>, usize) {
    let mut reader = Reader::new(bytes);
    let read = reader.opaque(max);
    (read, reader.len())
}

/// The answer of `count` to the bytes, and how many are left.
fn count(max: usize, bytes: &[u8]) -> (Result<u32, XdrFault>, usize) {
    let mut reader = Reader::new(bytes);
    let read = reader.count(max);
    (read, reader.len())
}

type OpaqueCase = (
    usize,
    &'static [u8],
    (Result<&'static [u8], XdrFault>, usize),
);

static FIXED: [OpaqueCase; 9] = [
    (0, b"", (Ok(b""), 0)),
    (1, b"a\0\0\0", (Ok(b"a"), 0)),
    (2, b"ab\0\0", (Ok(b"ab"), 0)),
    (3, b"abc\0", (Ok(b"abc"), 0)),
    (4, b"abcd", (Ok(b"abcd"), 0)),
    (5, b"abcde\0\0\0", (Ok(b"abcde"), 0)),
    (5, b"abcde\0\0", (Err(XdrFault::Short), 7)),
    (5, b"abcd", (Err(XdrFault::Short), 4)),
    (3, b"abc\x01", (Err(XdrFault::BadPad), 4)),
];

fn cases_of_fixed() -> &'static [OpaqueCase] {
    &FIXED
}

/// Opaque data of a fixed length, with each length of padding, and the padding's faults.
#[test]
fn fixed_opaque(rt: HostRuntime) {
    for (n, bytes, want) in cases_of_fixed() {
        assert!(rt; fixed(*n, bytes) == *want, "fixed {n} of {bytes:?}");
    }
}

static VARIABLE: [OpaqueCase; 10] = [
    (9, b"\0\0\0\x09sillyprog\0\0\0", (Ok(b"sillyprog"), 0)),
    (4, b"\0\0\0\x04lisp", (Ok(b"lisp"), 0)),
    (0, b"\0\0\0\0", (Ok(b""), 0)),
    (9, b"\0\0\0", (Err(XdrFault::Short), 3)),
    (3, b"\0\0\0\x04", (Err(XdrFault::TooLong), 4)),
    (3, b"\0\0\0\x04lisp", (Err(XdrFault::TooLong), 8)),
    (4, b"\0\0\0\x04lis", (Err(XdrFault::Short), 7)),
    (4, b"\0\0\0\x03abc", (Err(XdrFault::Short), 7)),
    (4, b"\0\0\0\x03abc\x01", (Err(XdrFault::BadPad), 8)),
    (
        9,
        b"\0\0\0\x09sillyprog\0\0\x01",
        (Err(XdrFault::BadPad), 16),
    ),
];

fn cases_of_variable() -> &'static [OpaqueCase] {
    &VARIABLE
}

/// The faults of opaque data in their order: a length that is missing, one that is too long, bytes or padding that are
/// missing, padding that isn't zero.
#[test]
fn variable_opaque(rt: HostRuntime) {
    for (max, bytes, want) in cases_of_variable() {
        assert!(rt; opaque(*max, bytes) == *want, "opaque<{max}> of {bytes:?}");
    }
}

type CountCase = (usize, &'static [u8], (Result<u32, XdrFault>, usize));

static COUNTS: [CountCase; 3] = [
    (7, b"\0\0\0\x08", (Err(XdrFault::TooLong), 4)),
    (8, b"\0\0\0\x08", (Ok(8), 0)),
    (8, b"\0\0\0", (Err(XdrFault::Short), 3)),
];

fn cases_of_counts() -> &'static [CountCase] {
    &COUNTS
}

/// A count at its limit and above it.
#[test]
fn counts(rt: HostRuntime) {
    for (max, bytes, want) in cases_of_counts() {
        assert!(rt; count(*max, bytes) == *want, "count<{max}> of {bytes:?}");
    }
}

/// How many bytes a copy of a reader has, whether the reader is empty, and whether no byte was read.
fn looks_of(bytes: &[u8]) -> (usize, bool, bool) {
    let reader = Reader::new(bytes);
    (
        reader.fork().len(),
        reader.is_empty(),
        reader.rest() == bytes,
    )
}

/// Whether the bytes are an opaque item of at most four bytes, and of at most three.
fn bounds_of(bytes: &[u8]) -> (bool, bool) {
    (
        Opaque::<4>::new(bytes).is_some(),
        Opaque::<3>::new(bytes).is_some(),
    )
}

/// The calls that read nothing, and the bound of an opaque item.
#[test]
fn looks(rt: HostRuntime) {
    assert!(rt; looks_of(b"abcd") == (4, false, true));
    assert!(rt; bounds_of(b"lisp") == (true, false));
}

type Fault = (XdrFault, u32, &'static str);

static FAULTS: [Fault; 5] = [
    (XdrFault::Short, 1, "the bytes end inside an item"),
    (XdrFault::BadBool, 2, "a boolean is neither 0 nor 1"),
    (XdrFault::BadPad, 3, "padding is not zero"),
    (XdrFault::TooLong, 4, "an item is longer than its limit"),
    (
        XdrFault::BadChoice,
        5,
        "no arm of a union has this discriminant",
    ),
];

fn cases_of_faults() -> &'static [Fault] {
    &FAULTS
}

/// Whether a fault is printed as this text.
fn is_printed(alloc: Global, fault: XdrFault, text: &str) -> bool {
    given::is_text(format!(in alloc; "{fault}"), text)
}

/// The number and the text of each fault.
#[test]
fn faults(rt: HostRuntime) {
    for (fault, number, text) in cases_of_faults() {
        assert!(rt; *fault as u32 == *number, "number of {fault:?}");
        assert!(rt; is_printed(rt.alloc(), *fault, text), "text of {fault:?}");
    }
}
