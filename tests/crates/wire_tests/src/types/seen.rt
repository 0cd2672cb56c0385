//! Attributes as a client reads and writes them.
use crate::given;
use crate::types::{object, sets};
use nfs_types::{
    Ace, Aces, Acl41, Attributes, Bitmap, ClientAttributes, GivenAttributes, SeenAttributes,
    SentTime, Status, read_given, write_given,
};
use std::alloc::Global;
use std::process::Abort;
use who_book::Book;
use xdr_wire::{Array, Opaque, Spell, Writer, XdrFault};

/// An `fattr4` as a client reads it.
fn seen(bytes: &[u8]) -> Result<SeenAttributes<'_>, XdrFault> {
    match given::read::<Attributes>(bytes) {
        (Ok(sent), _) => read_given(&sent),
        (Err(fault), _) => Err(fault),
    }
}

/// The text of the first principal in an access control list (ACL) that is read.
fn first_principal<'a>(entries: Option<Array<'a, Ace<'a>, 0xffff_ffff>>) -> Option<&'a [u8]> {
    let mut entries = entries?;
    let first = entries.next()?;
    Some(first.who.bytes)
}

/// The flags of a part that is read, how many ACEs it has, and the text of its first principal.
fn part<'a>(
    part: Option<Acl41<Array<'a, Ace<'a>, 0xffff_ffff>>>,
) -> Option<(u32, usize, &'a [u8])> {
    let part = part?;
    let count = part.entries.len();
    let who = first_principal(Some(part.entries))?;
    Some((part.flags, count, who))
}

/// The numbers among the attributes that are read: type, size, rdattr_error and mode.
fn numbers_of(seen: &SeenAttributes<'_>) -> [Option<u64>; 4] {
    [
        seen.kind.map(u64::from),
        seen.size,
        seen.error.map(u64::from),
        seen.mode.map(u64::from),
    ]
}

fn is_text(text: Option<Opaque<'_, 0xffff_ffff>>, want: &[u8]) -> bool {
    match text {
        Some(text) => text.bytes == want,
        None => false,
    }
}

fn is_part<'a>(found: Option<Acl41<Array<'a, Ace<'a>, 0xffff_ffff>>>, who: &[u8]) -> bool {
    part(found) == Some((0, 1, who))
}

fn are_lists(seen: SeenAttributes<'_>) -> [bool; 3] {
    [
        first_principal(seen.entries) == Some(b"OWNER@".as_slice()),
        is_part(seen.dacl, b"OWNER@"),
        is_part(seen.sacl, b"100"),
    ]
}

/// Whether the values of a file of two bytes are read, after the fault of its attributes.
fn is_seen(bytes: &[u8]) -> bool {
    match seen(bytes) {
        Ok(seen) => {
            let numbers = numbers_of(&seen) == [Some(1), Some(2), Some(13), Some(0o640)];
            let names = is_text(seen.owner, b"1001") & is_text(seen.group, b"100");
            numbers & names & (are_lists(seen) == [true; 3])
        }
        Err(_) => false,
    }
}

/// The numbers of type, size, rdattr_error, acl, mode, owner, group, dacl and sacl.
fn nine_numbers() -> Bitmap {
    let mut asked = sets::only(1);
    for number in [4, 11, 12, 33, 36, 37, 58, 59] {
        asked = asked.with(number);
    }
    asked
}

/// Whether the nine values that a server returns of a file are read.
fn are_returned_seen(alloc: Global) -> bool {
    let book = Book::default(alloc);
    let mut facts = object::facts();
    facts.error = Status::Access;
    let given = GivenAttributes {
        book: &book,
        facts: &facts,
        asked: nine_numbers(),
    };
    match Writer::new(alloc, 512) {
        Ok(mut writer) => given.write(&mut writer).is_ok() & is_seen(writer.bytes()),
        Err(_) => false,
    }
}

/// A client reads the values that a server returns.
#[test]
fn what_is_given_is_seen(rt: HostRuntime) {
    assert!(rt; are_returned_seen(rt.alloc()));
}

/// Attributes that a client refuses, and why.
static UNSEEN: [(&[u32], XdrFault); 6] = [
    (&[1, 0x8, 8, 0, 7], XdrFault::BadChoice),
    (&[2, 0, 0x4, 0], XdrFault::BadChoice),
    (&[1, 0x2, 8, 1, 0], XdrFault::TooLong),
    (&[1, 0x12, 8, 1, 0], XdrFault::Short),
    (&[2, 0, 0x10, 8, 1, 1], XdrFault::BadPad),
    (&[2, 0, 0x0400_0000, 4, 0], XdrFault::Short),
];

fn cases_of_unseen() -> &'static [(&'static [u32], XdrFault)] {
    &UNSEEN
}

fn fault_in(bytes: &[u8]) -> Option<XdrFault> {
    match seen(bytes) {
        Ok(_) => None,
        Err(fault) => Some(fault),
    }
}

fn fault_of(alloc: Global, words: &[u32]) -> Option<XdrFault> {
    match given::bytes_of(alloc, words) {
        Ok(bytes) => fault_in(&bytes),
        Err(_) => None,
    }
}

#[test]
fn what_is_not_seen(rt: HostRuntime) {
    for (words, fault) in cases_of_unseen() {
        assert!(rt; fault_of(rt.alloc(), words) == Some(*fault), "{words:?}");
    }
}

static CLIENT_ATTRIBUTES: &[u32] = &[
    2,
    0,
    5,
    13,
    1,
    1,
    2,
    3,
    1,
    0x3700_0000,
    0x1a0,
    1,
    0x3000_0000,
    3,
    0x3130_3000,
    0,
    1,
    0,
    5,
    6,
    0,
    1,
    1,
    2,
    3,
    1,
    0x3700_0000,
    1,
    0,
];

fn client_words() -> &'static [u32] {
    CLIENT_ATTRIBUTES
}

/// Whether a client's values are written as these words into a buffer of this room.
fn is_printed(alloc: Global, room: usize, all: &ClientAttributes<'_>, want: &[u8]) -> (bool, bool) {
    match Writer::new(alloc, room) {
        Ok(mut writer) => {
            let is_taken = write_given(all, &mut writer).is_ok();
            (is_taken, writer.bytes() == want)
        }
        Err(_) => (false, false),
    }
}

fn is_written_as(alloc: Global, all: &ClientAttributes<'_>, words: &[u32]) -> bool {
    match given::bytes_of(alloc, words) {
        Ok(want) => is_printed(alloc, 116, all, &want) == (true, true),
        Err(_) => false,
    }
}

/// The values that a client writes. The ACL and the dacl have these ACEs, and the sacl none.
fn values_of<'a>(aces: &'a [Ace<'a>]) -> ClientAttributes<'a> {
    ClientAttributes {
        kind: Some(2),
        size: Some(5),
        error: Some(13),
        entries: Aces::new(aces),
        mode: Some(0o640),
        owner: Opaque::new(b"0"),
        group: Opaque::new(b"100"),
        access: Some(SentTime::Server),
        modify: Some(SentTime::Client(5, 6)),
        dacl: Aces::new(aces).map(|entries| Acl41 { flags: 0, entries }),
        sacl: Aces::new(&[]).map(|entries| Acl41 { flags: 1, entries }),
    }
}

fn see_client_attributes(rt: &impl Abort, alloc: Global, all: &ClientAttributes<'_>) {
    assert!(rt; is_written_as(alloc, all, client_words()));
    assert!(rt; is_printed(alloc, 115, all, b"") == (false, true));
    assert!(rt; given::is_written_as(alloc, 12, all.set(), &[2, 0x1812, 0x0c41_0032]));
}

/// A client writes values in the order of their numbers; with a byte less of room, nothing.
#[test]
fn what_is_written(rt: HostRuntime) {
    let Some(who) = Opaque::new(b"7") else {
        return assert!(rt; false);
    };
    let aces = [Ace {
        kind: 1,
        flags: 2,
        mask: 3,
        who,
    }];
    see_client_attributes(&rt, rt.alloc(), &values_of(&aces));
}
