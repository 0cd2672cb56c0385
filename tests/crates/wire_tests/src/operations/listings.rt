//! READDIR of small directories, by hand (RFC 8881, section 18.23, and RFC 5662).
use crate::operations::plain::is_result_again;
use acl_list::Kind;
use form_samples::{Child, Children};
use nfs_ops::{ListFault, write_readdir};
use nfs_types::{Bitmap, Moment, ObjectFacts, Status};
use std::alloc::{AllocError, Global};
use who_book::Book;
use xdr_wire::{Opaque, Writer};

/// The prefix of each result: number, status and verifier.
const HEAD: &[u8] = b"\0\0\0\x1a\0\0\0\0\0\0\0\0\0\0\0\0";

/// The entries `f`, `go` and `x` of cookies 4, 6 and 7 after their links, each a file of mode 0640 of which type,
/// rdattr_error and mode are requested.
const ENTRIES: [&[u8]; 3] = [
    b"\0\0\0\x01\0\0\0\0\0\0\0\x04\0\0\0\x01f\0\0\0\0\0\0\x02\0\0\x08\x02\0\0\0\x02\0\0\0\x0c\0\0\0\x01\0\0\0\0\0\0\x01\xa0",
    b"\0\0\0\x01\0\0\0\0\0\0\0\x06\0\0\0\x02go\0\0\0\0\0\x02\0\0\x08\x02\0\0\0\x02\0\0\0\x0c\0\0\0\x01\0\0\0\0\0\0\x01\xa0",
    b"\0\0\0\x01\0\0\0\0\0\0\0\x07\0\0\0\x01x\0\0\0\0\0\0\x02\0\0\x08\x02\0\0\0\x02\0\0\0\x0c\0\0\0\x01\0\0\0\0\0\0\x01\xa0",
];

/// The end mark, and eof.
const MORE: &[u8] = b"\0\0\0\0\0\0\0\0";

const END: &[u8] = b"\0\0\0\0\0\0\0\x01";

/// How a listing ends.
#[derive(Clone, Copy, Debug, PartialEq, Eq)]
pub enum Ending {
    /// This number of entries, and whether they are all.
    Given(usize, bool),
    /// The fault that refuses an entry.
    Refused(u32),
    TooSmall,
}

/// A listing: the number of names, which of them is refused, the client's maxcount, the room, and the result.
#[derive(Clone, Copy, Debug)]
pub struct Case {
    pub names: usize,
    pub refused: Option<usize>,
    pub maxcount: u32,
    pub room: usize,
    pub ending: Ending,
}

macro_rules! listing {
    ($names:expr, $refused:expr, $maxcount:expr, $room:expr, $ending:expr) => {
        Case {
            names: $names,
            refused: $refused,
            maxcount: $maxcount,
            room: $room,
            ending: $ending,
        }
    };
}

/// All cases: an entry takes 48 bytes, and the rest of a result 16 bytes after the status and 24 in all.
static CASES: [Case; 19] = [
    listing!(1, None, 64, 256, Ending::Given(1, true)),
    listing!(1, None, 63, 256, Ending::TooSmall),
    listing!(1, None, 64, 72, Ending::Given(1, true)),
    listing!(1, None, 64, 71, Ending::TooSmall),
    listing!(0, None, 16, 256, Ending::Given(0, true)),
    listing!(0, None, 15, 256, Ending::TooSmall),
    listing!(0, None, 0, 24, Ending::TooSmall),
    listing!(0, None, 4096, 24, Ending::Given(0, true)),
    listing!(2, None, 112, 256, Ending::Given(2, true)),
    listing!(2, None, 111, 256, Ending::Given(1, false)),
    listing!(2, None, 4096, 119, Ending::Given(1, false)),
    listing!(3, None, 159, 256, Ending::Given(2, false)),
    listing!(3, None, 160, 256, Ending::Given(3, true)),
    listing!(3, None, 4096, 168, Ending::Given(3, true)),
    listing!(1, Some(0), 0, 256, Ending::Refused(13)),
    listing!(2, Some(1), 64, 256, Ending::Refused(13)),
    listing!(2, Some(1), 63, 256, Ending::TooSmall),
    listing!(3, Some(2), 111, 256, Ending::Given(1, false)),
    listing!(3, Some(2), 112, 256, Ending::Refused(13)),
];

pub fn cases() -> &'static [Case] {
    &CASES
}

fn facts() -> ObjectFacts<'static> {
    ObjectFacts {
        kind: Kind::File,
        number: 2,
        change: 7,
        size: 2,
        error: Status::Ok,
        entries: &[],
        mode: 0o640,
        numlinks: 1,
        owner: 0,
        group: 0,
        metadata: Moment {
            seconds: 0,
            nanoseconds: 0,
        },
        modify: Moment {
            seconds: 0,
            nanoseconds: 0,
        },
        access: Moment {
            seconds: 0,
            nanoseconds: 0,
        },
        most_bytes: 1_048_576,
        times: false,
    }
}

/// Type, rdattr_error and mode.
fn asked() -> Bitmap {
    Bitmap::empty().with(1).with(11).with(33)
}

/// The name of this index, which may be refused by 13.
fn child(index: usize, refused: Option<usize>) -> Child {
    let (cookie, bytes): (u64, &'static [u8]) = match index {
        0 => (4, b"f"),
        1 => (6, b"go"),
        _ => (7, b"x"),
    };
    let name = Opaque { bytes };
    let judged = if refused == Some(index) {
        Err(13)
    } else {
        Ok(asked())
    };
    Child {
        cookie,
        name,
        judged,
    }
}

/// The end of the listing that is written.
fn write_listing(mut children: Children<'_>, case: Case, writer: &mut Writer) -> Option<Ending> {
    let room = writer.room();
    if room < 24 {
        return None;
    }
    match write_readdir(&mut children, case.maxcount, room, writer) {
        Ok(()) => None,
        Err(ListFault::Refused(refusal)) => Some(Ending::Refused(refusal)),
        Err(ListFault::TooSmall) => Some(Ending::TooSmall),
    }
}

/// Writes the listing of a case, and returns how it ends.
fn list(alloc: Global, case: Case, writer: &mut Writer) -> Option<Ending> {
    let book = Book::default(alloc);
    let facts = facts();
    let all = [
        child(0, case.refused),
        child(1, case.refused),
        child(2, case.refused),
    ];
    let left = all.get(..case.names).unwrap_or(&[]);
    let children = Children {
        book: &book,
        facts: &facts,
        left,
    };
    write_listing(children, case, writer)
}

/// The bytes that the case expects.
fn wanted(alloc: Global, ending: Ending) -> Result<Vec<u8>, AllocError> {
    let mut bytes = Vec::new(alloc);
    if let Ending::Given(count, whole) = ending {
        bytes.extend_from_slice(HEAD)?;
        for entry in ENTRIES.iter().take(count) {
            bytes.extend_from_slice(entry)?;
        }
        bytes.extend_from_slice(if whole { END } else { MORE })?;
    }
    Ok(bytes)
}

/// The fault that the case expects.
fn fault_of(ending: Ending) -> Option<Ending> {
    match ending {
        Ending::Given(_, _) => None,
        ending => Some(ending),
    }
}

/// Whether a case ends as expected with these bytes, which are read and written again.
fn is_listed_as(alloc: Global, case: Case, want: &[u8]) -> bool {
    match Writer::new(alloc, case.room) {
        Ok(mut writer) => {
            let ending = list(alloc, case, &mut writer);
            let bytes = writer.bytes();
            (ending == fault_of(case.ending))
                & (bytes == want)
                & is_result_again(alloc, bytes, want)
        }
        Err(_) => false,
    }
}

/// Whether a case ends as expected, with the bytes that it expects.
pub fn is_listed(alloc: Global, case: Case) -> Result<bool, AllocError> {
    let want = wanted(alloc, case.ending)?;
    Ok(is_listed_as(alloc, case, &want))
}
