//! Results by hand (RFC 8881, section 18, and RFC 5662).
use nfs_ops::{
    AccessResult, ChangeInfo, Channel, CloseResult, CommitResult, CreateResult,
    CreateSessionResult, LinkResult, OpResult, OpenResult, RemoveResult, RenameResult,
    SequenceResult, SetAttrResult, WriteResult,
};
use nfs_types::{Bitmap, StateId, Status};

fn stateid() -> StateId {
    StateId {
        seqid: 1,
        other: [0, 0, 0, 0, 0, 0, 0, 0, 0, 0, 0, 7],
    }
}

fn change() -> ChangeInfo {
    ChangeInfo {
        before: 5,
        after: 6,
    }
}

/// The set of the mode, attribute 33.
fn mode() -> Bitmap {
    Bitmap::empty().with(33)
}

fn session() -> [u8; 16] {
    [0, 0, 0, 0, 0, 0, 0, 0, 0, 0, 0, 0, 0, 0, 0, 1]
}

fn channel() -> Channel {
    Channel {
        padding: 0,
        request_size: 65536,
        reply_size: 65536,
        cached_size: 65536,
        operations: 16,
        slots: 8,
        rdma: None,
    }
}

/// The number of results.
pub const COUNT: u32 = 26;

/// The bytes of the result of this index.
pub fn bytes_of(index: u32) -> &'static [u8] {
    match index {
        0 => b"\0\0\0\x03\0\0\0\0\0\0\0-\0\0\0\x01",
        1 => b"\0\0\0\x04\0\0\0\0\xff\xff\xff\xff\0\0\0\0\0\0\0\0\0\0\0\0",
        2 => b"\0\0\0\x05\0\0\0\0\0\0\0\0\0\0\0\0",
        3 =>
            b"\0\0\0\x06\0\0\0\0\0\0\0\x01\0\0\0\0\0\0\0\x05\0\0\0\0\0\0\0\x06\0\0\0\x02\0\0\0\0\0\0\0\x02",
        4 => b"\0\0\0\x0b\0\0\0\0\0\0\0\x01\0\0\0\0\0\0\0\x05\0\0\0\0\0\0\0\x06",
        5 => b"\0\0\0\x0f\0\0\0\0",
        6 => b"\0\0\0\x10\0\0\0\0",
        7 => b"\0\0\0\x11\0\0\0\0",
        8 =>
            b"\0\0\0\x12\0\0\0\0\0\0\0\x01\0\0\0\0\0\0\0\0\0\0\0\x07\0\0\0\x01\0\0\0\0\0\0\0\x05\0\0\0\0\0\0\0\x06\0\0\0\0\0\0\0\0\0\0\0\0",
        9 => b"\0\0\0\x16\0\0\0\0",
        10 => b"\0\0\0\x18\0\0\0\0",
        11 => b"\0\0\0\x1c\0\0\0\0\0\0\0\x01\0\0\0\0\0\0\0\x05\0\0\0\0\0\0\0\x06",
        12 =>
            b"\0\0\0\x1d\0\0\0\0\0\0\0\x01\0\0\0\0\0\0\0\x05\0\0\0\0\0\0\0\x06\0\0\0\x01\0\0\0\0\0\0\0\x07\0\0\0\0\0\0\0\x08",
        13 => b"\0\0\0\x1f\0\0\0\0",
        14 => b"\0\0\0 \0\0\0\0",
        15 => b"\0\0\0\x22\0\0\0\0\0\0\0\x02\0\0\0\0\0\0\0\x02",
        16 => b"\0\0\0%\0\0\0\0",
        17 => b"\0\0\0&\0\0\0\0\0\0\0\x02\0\0\0\x02\0\0\0\0\0\0\0\0",
        18 =>
            b"\0\0\0+\0\0\0\0\0\0\0\0\0\0\0\0\0\0\0\0\0\0\0\x01\0\0\0\x01\0\0\0\0\0\0\0\0\0\x01\0\0\0\x01\0\0\0\x01\0\0\0\0\0\x10\0\0\0\x08\0\0\0\0\0\0\0\0\0\x01\0\0\0\x01\0\0\0\x01\0\0\0\0\0\x10\0\0\0\x08\0\0\0\0",
        19 => b"\0\0\0,\0\0\0\0",
        20 =>
            b"\0\0\05\0\0\0\0\0\0\0\0\0\0\0\0\0\0\0\0\0\0\0\x01\0\0\0\x01\0\0\0\0\0\0\0\x07\0\0\0\x07\0\0\0\0",
        21 => b"\0\0\09\0\0\0\0",
        22 => b"\0\0\0:\0\0\0\0",
        23 => b"\0\0\0\x0f\0\0\0\x02",
        24 => b"\0\0\0\x22\0\0'4\0\0\0\0",
        _ => b"\0\0'<\0\0'<",
    }
}

/// The result of this index.
pub fn result_of(index: u32) -> OpResult<'static> {
    match index {
        0 => OpResult::Access(AccessResult {
            supported: 0x2d,
            granted: 1,
        }),
        1 => OpResult::Close(CloseResult {
            stateid: StateId::closed(),
        }),
        2 => OpResult::Commit(CommitResult),
        3 => OpResult::Create(CreateResult {
            change: change(),
            set: mode(),
        }),
        4 => OpResult::Link(LinkResult { change: change() }),
        5 => OpResult::Lookup,
        6 => OpResult::LookupP,
        7 => OpResult::NVerify,
        8 => OpResult::Open(OpenResult {
            stateid: stateid(),
            change: change(),
            set: Bitmap::empty(),
        }),
        9 => OpResult::PutFh,
        10 => OpResult::PutRootFh,
        11 => OpResult::Remove(RemoveResult { change: change() }),
        12 => OpResult::Rename(RenameResult {
            source: change(),
            target: ChangeInfo {
                before: 7,
                after: 8,
            },
        }),
        13 => OpResult::RestoreFh,
        14 => OpResult::SaveFh,
        15 => OpResult::SetAttr(SetAttrResult { set: mode() }),
        16 => OpResult::Verify,
        17 => OpResult::Write(WriteResult { count: 2 }),
        18 => OpResult::CreateSession(CreateSessionResult {
            session: session(),
            sequence: 1,
            flags: 0,
            fore: channel(),
            back: channel(),
        }),
        19 => OpResult::DestroySession,
        20 => OpResult::Sequence(SequenceResult {
            session: session(),
            number: 1,
            slot: 0,
            highest: 7,
            target: 7,
        }),
        21 => OpResult::DestroyClientId,
        22 => OpResult::ReclaimComplete,
        23 => OpResult::Refused(15, Status::NoEnt),
        24 => OpResult::Refused(34, Status::BadXdr),
        _ => OpResult::Refused(10_044, Status::OpIllegal),
    }
}
