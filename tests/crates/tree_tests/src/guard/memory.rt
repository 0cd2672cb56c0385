//! The remembered summaries, which are those of the current access control lists (ACLs).

use crate::guard::entries::{allow, bits, entry, refused, removal, sum};
use crate::guard::steps::Step::{
    Add, Decide, Epoch, Examined, Grants, Reload, Remembered, SetList, Unlink,
};
use crate::guard::steps::{BOB, BOB_IN_7, CAROL, Step, play};
use crate::guard::trees::{Child, LOOKUP, MODE_755, READ, SAMPLE, Scene};
use Cause::Missing;
use Decision::Granted;
use access_guard::{Cause, Decision, next_epoch};
use acl_list::{Entry, Kind};
use std::test::Fail;

/// Four decisions, one of them twice, by a guard that remembers two summaries. Each ACL has five ACEs.
const ONE_ASKED_LAST: &[Step] = &[
    Decide(BOB, bits!(1, 0x20), LOOKUP, Granted),
    Decide(BOB, bits!(2, 1), LOOKUP, Granted),
    Examined(10),
    Decide(BOB, bits!(1, 0x20), LOOKUP, Granted),
    Examined(10),
    Decide(BOB, bits!(3, 0x20), LOOKUP, Granted),
    Remembered(&[(1, 3, sum!(0x12_00e7)), (1, 1, sum!(0x12_00a1))]),
];

#[test]
fn the_one_asked_last_is_first(rt: HostRuntime) -> Result<(), Fail> {
    play(&rt, rt.alloc(), &SAMPLE, 2, ONE_ASKED_LAST)
}

/// The bits of `notes`, whose ACL has five ACEs, twice, and then a removal. No ACE matches DELETE, DELETE_CHILD or
/// ADD_FILE for callers who are neither its owner nor in the group of the root.
const ASKED_AGAIN: &[Step] = &[
    Decide(BOB, bits!(2, 1), READ, Granted),
    Examined(5),
    Decide(BOB, bits!(2, 1), READ, Granted),
    Examined(5),
    Decide(BOB, removal!(2), READ, refused!(1, 2, Missing(2))),
    Remembered(&[(1, 1, sum!(0x12_00a1))]),
];

#[test]
fn a_second_equal_call_walks_no_list(rt: HostRuntime) -> Result<(), Fail> {
    play(&rt, rt.alloc(), &SAMPLE, 1, ASKED_AGAIN)
}

/// The bits of `pub`, whose ACL has five ACEs.
const GRANTED: &[Step] = &[
    Grants(BOB, 3, 0x12_00e7),
    Examined(5),
    Remembered(&[(1, 3, sum!(0x12_00e7))]),
];

/// The bits of an object are looked up once and remembered, and nothing else is.
#[test]
fn grants_look_up_their_object_alone(rt: HostRuntime) -> Result<(), Fail> {
    play(&rt, rt.alloc(), &SAMPLE, 2, GRANTED)
}

/// The bits of `notes`, whose ACL has five ACEs, twice, and twice again under another book.
const UNDER_TWO_BOOKS: &[Step] = &[
    Epoch(1),
    Decide(BOB, bits!(2, 1), READ, Granted),
    Decide(BOB, bits!(2, 1), READ, Granted),
    Examined(5),
    Reload(None),
    Epoch(2),
    Decide(BOB, bits!(2, 1), READ, Granted),
    Decide(BOB, bits!(2, 1), READ, Granted),
    Examined(10),
    Remembered(&[(2, 2, sum!(0x12_0081)), (1, 2, sum!(0x12_0081))]),
];

/// A summary that was remembered under a book isn't used under the next one, though that has the same content.
#[test]
fn a_reload_ends_what_was_remembered(rt: HostRuntime) -> Result<(), Fail> {
    play(&rt, rt.alloc(), &SAMPLE, 2, UNDER_TWO_BOOKS)
}

/// A book by which user 1002 alone is in the group 100.
const STAFF: &str = "domain = 'lab'
root_owner = 0
root_group = 0
root_mode = 0
[users]
bob = 1002
[groups]
staff = 100
[members]
staff = ['bob']
";

/// The bits of `notes`, whose group is 100, by users in groups that they send, and then in those of the book.
const BY_THE_BOOK: &[Step] = &[
    Decide(BOB_IN_7, bits!(2, 1), READ, refused!(2, 1, Missing(1))),
    Decide(CAROL, bits!(2, 1), READ, Granted),
    Reload(Some(STAFF)),
    Decide(BOB_IN_7, bits!(2, 1), READ, Granted),
    Decide(CAROL, bits!(2, 1), READ, refused!(2, 1, Missing(1))),
    Grants(BOB_IN_7, 2, 0x12_0081),
    Grants(CAROL, 2, 0x12_0080),
];

/// The groups of a caller are those of the book.
#[test]
fn callers_are_whom_the_book_names(rt: HostRuntime) -> Result<(), Fail> {
    play(&rt, rt.alloc(), &SAMPLE, 4, BY_THE_BOOK)
}

/// The last epoch is 2^63.
#[test]
fn no_epoch_comes_after_the_last(rt: HostRuntime) {
    assert_eq!(&rt; next_epoch(1), Some(2));
    assert_eq!(&rt; next_epoch((1 << 63) - 1), Some(1 << 63));
    assert_eq!(&rt; next_epoch(1 << 63), None);
}

const OWNER: Entry = entry!(Allow, 0, 0x1e_0187, Owner);

/// The file `f` of uid 1001, which everyone may read.
const READABLE: Scene<'static> = Scene {
    name: "readable",
    root: &MODE_755,
    children: &[Child {
        name: b"f",
        kind: Kind::File,
        owner: 1001,
        list: &[OWNER, allow!(1)],
    }],
};

/// A file is read, loses a permission, is removed, and another is made directly after it.
const CHANGES: &[Step] = &[
    Decide(BOB_IN_7, bits!(2, 1), READ, Granted),
    SetList(2, &[OWNER]),
    Decide(BOB_IN_7, bits!(2, 1), READ, refused!(2, 1, Missing(1))),
    Unlink(b"f"),
    Add(b"f", &[OWNER, allow!(1)], 3),
    Decide(BOB_IN_7, bits!(3, 1), READ, Granted),
    Decide(BOB_IN_7, bits!(2, 1), READ, refused!(2, 1, Missing(0))),
];

#[test]
fn changes_are_seen_at_once(rt: HostRuntime) -> Result<(), Fail> {
    for capacity in [1, 1024] {
        play(&rt, rt.alloc(), &READABLE, capacity, CHANGES)?;
    }
    Ok(())
}
