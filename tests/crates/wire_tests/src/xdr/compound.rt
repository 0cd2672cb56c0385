//! Tests of structs, enums and unions.
use crate::given;
use form_samples::{Channel, Claim, Mark, Stable};
use std::alloc::Global;
use xdr_wire::{AtMostOne, Opaque, XdrFault};

static CHANNEL: Channel = Channel {
    padding: 0,
    request_size: 131072,
    reply_size: 131072,
    cached_size: 4096,
    operations: 16,
    slots: 8,
    rdma: Some(5),
};

static CHANNEL_BYTES: &[u8] =
    b"\0\0\0\0\0\x02\0\0\0\x02\0\0\0\0\x10\0\0\0\0\x10\0\0\0\x08\0\0\0\x01\0\0\0\x05";

fn sample_channel() -> &'static Channel {
    &CHANNEL
}

fn channel_bytes() -> &'static [u8] {
    CHANNEL_BYTES
}

/// A struct of seven fields: its bytes by hand.
#[test]
fn channel(rt: HostRuntime) {
    let channel = *sample_channel();
    assert!(rt; given::is_written(rt.alloc(), 32, channel, channel_bytes()));
    assert!(rt; given::read(channel_bytes()) == (Ok(channel), 0));
}

/// A struct, with each room below its length: nothing is written.
#[test]
fn channel_without_room(rt: HostRuntime) {
    for room in 0..32usize {
        assert!(rt;
            given::is_refused(rt.alloc(), room, *sample_channel()),
            "room {room}"
        );
    }
}

type Fields = (u32, (u64, (i64, (bool, ([u8; 3], (Option<u32>, ()))))));

static FIELDS: Fields = (7, (8, (-9, (true, ([1, 2, 3], (Some(4), ()))))));

static FIELDS_BYTES: &[u8] =
    b"\0\0\0\x07\0\0\0\0\0\0\0\x08\xff\xff\xff\xff\xff\xff\xff\xf7\0\0\0\x01\x01\x02\x03\0\0\0\0\x01\0\0\0\x04";

fn sample_fields() -> &'static Fields {
    &FIELDS
}

fn fields_bytes() -> &'static [u8] {
    FIELDS_BYTES
}

/// Fields of every plain type, written and read again.
#[test]
fn fields(rt: HostRuntime) {
    let fields = *sample_fields();
    assert!(rt; given::is_written(rt.alloc(), 36, fields, fields_bytes()));
    assert!(rt; given::read(fields_bytes()) == (Ok(fields), 0));
}

type AtMostOneCase = (&'static [u8], Result<AtMostOne<u32>, XdrFault>);

static AT_MOST_ONE: [AtMostOneCase; 3] = [
    (b"\0\0\0\0", Ok(AtMostOne(None))),
    (b"\0\0\0\x01\0\0\0\x05", Ok(AtMostOne(Some(5)))),
    (b"\0\0\0\x02\0\0\0\x05\0\0\0\x06", Err(XdrFault::TooLong)),
];

fn cases_of_at_most_one() -> &'static [AtMostOneCase] {
    &AT_MOST_ONE
}

/// An array of at most one: none, one and two.
#[test]
fn at_most_one(rt: HostRuntime) {
    for (bytes, want) in cases_of_at_most_one() {
        assert!(rt; given::read(bytes).0 == *want, "array<1> {bytes:?}");
    }
}

type StableCase = (&'static [u8], Result<Stable, XdrFault>);

static STABLE: [StableCase; 4] = [
    (b"\0\0\0\0", Ok(Stable::Unstable)),
    (b"\0\0\0\x01", Ok(Stable::Data)),
    (b"\0\0\0\x02", Ok(Stable::File)),
    (b"\0\0\0\x03", Err(XdrFault::BadChoice)),
];

fn cases_of_stable() -> &'static [StableCase] {
    &STABLE
}

/// Whether bytes are read as a value or a fault, and the value is written as them.
fn is_stable(alloc: Global, bytes: &[u8], want: Result<Stable, XdrFault>) -> bool {
    let is_read = given::read(bytes).0 == want;
    match want {
        Ok(stable) => is_read & given::is_written(alloc, 4, stable, bytes),
        Err(_) => is_read,
    }
}

/// An enum: each number, and one of none.
#[test]
fn enumeration(rt: HostRuntime) {
    for (bytes, want) in cases_of_stable() {
        assert!(rt; is_stable(rt.alloc(), bytes, *want), "enum {bytes:?}");
    }
}

/// The arm of a union, and how many bytes are left. A name's length represents its arm.
fn arm_of(bytes: &[u8]) -> (Result<Option<usize>, XdrFault>, usize) {
    let (claim, left) = given::read::<Claim>(bytes);
    let arm = match claim {
        Ok(Claim::ByName(name)) => Ok(Some(name.bytes.len())),
        Ok(Claim::ByHandle) => Ok(None),
        Err(fault) => Err(fault),
    };
    (arm, left)
}

type ClaimCase = (&'static [u8], (Result<Option<usize>, XdrFault>, usize));

static CLAIMS: [ClaimCase; 3] = [
    (b"\0\0\0\0\0\0\0\x05a.txt\0\0\0", (Ok(Some(5)), 0)),
    (b"\0\0\0\x04", (Ok(None), 0)),
    (b"\0\0\0\x01\0\0\0\0", (Err(XdrFault::BadChoice), 8)),
];

fn cases_of_claims() -> &'static [ClaimCase] {
    &CLAIMS
}

/// A union: each arm, and a discriminant of none.
#[test]
fn union(rt: HostRuntime) {
    for (bytes, want) in cases_of_claims() {
        assert!(rt; arm_of(bytes) == *want, "union {bytes:?}");
    }
}

/// Whether the arm of a name is written as these bytes.
fn is_name_written(alloc: Global, name: &[u8], want: &[u8]) -> bool {
    match Opaque::new(name) {
        Some(name) => given::is_written(alloc, 16, Claim::ByName(name), want),
        None => false,
    }
}

/// A union, written.
#[test]
fn union_is_written(rt: HostRuntime) {
    assert!(rt; is_name_written(rt.alloc(), b"a.txt", b"\0\0\0\0\0\0\0\x05a.txt\0\0\0"));
    assert!(rt; given::is_written(rt.alloc(), 4, Claim::ByHandle, b"\0\0\0\x04"));
}

/// The bytes of a mark, whose number is ignored, and its time.
static MARKS: [(&[u8], Option<i64>); 2] = [
    (
        b"\0\0\0\x63\0\0\0\x01\xff\xff\xff\xff\xff\xff\xff\xff",
        Some(-1),
    ),
    (b"\0\0\0\x63\0\0\0\0", None),
];

fn cases_of_marks() -> &'static [(&'static [u8], Option<i64>)] {
    &MARKS
}

static MARK_BYTES: &[u8] = b"\0\0\0\0\0\0\0\x01\xff\xff\xff\xff\xff\xff\xff\xff";

fn mark_bytes() -> &'static [u8] {
    MARK_BYTES
}

/// A field that is ignored, and optional data.
#[test]
fn ignored_field(rt: HostRuntime) {
    let minus = Mark { time: Some(-1) };
    assert!(rt; given::is_written(rt.alloc(), 16, minus, mark_bytes()));
    for (bytes, time) in cases_of_marks() {
        let mark = Mark { time: *time };
        assert!(rt; given::read(bytes) == (Ok(mark), 0), "mark {bytes:?}");
    }
}
