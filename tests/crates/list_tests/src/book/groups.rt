//! The groups that books give callers.
use crate::book::members::{in_groups, tables};
use rpc_record::{Caller, MOST_FURTHER};
use std::alloc::{AllocError, Global};
use std::process::Abort;
use who_book::{Book, BookFault};

/// The caller of a credential, with no contract, so that the prover doesn't compute on a test's groups.
fn caller(rt: &impl Abort, uid: u32, gid: u32, further: &[u32]) -> Caller {
    assert!(rt; further.len() <= MOST_FURTHER);
    Caller::new(uid, gid, further)
}

/// A caller's uid, gid and further groups, and the gid and the groups that a book gives it.
type Given = (u32, u32, &'static [u32], u32, &'static [u32]);

/// A caller as a book has it, without the contract of the function that gives it its groups.
fn member_of(book: &Book, caller: &Caller) -> Caller {
    book.member(caller)
}

/// A caller's uid and gid.
fn ids_of(caller: Caller) -> (u32, u32) {
    (caller.uid(), caller.gid())
}

fn has_groups(caller: Caller, groups: &[u32]) -> bool {
    caller.groups() == groups
}

fn see_given(rt: &impl Abort, book: &Book, given: Given) {
    let (uid, gid, further, want, groups) = given;
    let member = member_of(book, &caller(rt, uid, gid, further));
    assert!(rt; ids_of(member) == (uid, want), "gid of {uid} with {gid}");
    assert!(rt; has_groups(member, groups), "groups of {uid} with {gid}");
}

fn see_each(rt: &impl Abort, book: &Book, callers: &[Given]) {
    for given in callers {
        see_given(rt, book, *given);
    }
}

/// Checks callers of the book of a text.
fn see_text(
    rt: &impl Abort,
    alloc: Global,
    text: &str,
    callers: &[Given],
) -> Result<(), BookFault> {
    let book = Book::read(alloc, text)?;
    see_each(rt, &book, callers);
    Ok(())
}

/// A book with members: alice is in no group, bob in one, carol in two, and dave in the group 65534.
fn with_members() -> &'static str {
    "domain='d'\nroot_owner=0\nroot_group=0\nroot_mode=0\nusers={alice=1001, bob=1002, carol=1003, dave=1004}\ngroups={staff=100, wheel=10, nobody=65534, other=7}\n[members]\nstaff=['carol', 'bob']\nwheel=['carol']\nnobody=['dave']\n"
}

/// Callers of that book.
static MEMBERS_OF: [Given; 12] = [
    (1001, 100, &[10], 65534, &[]),
    (1001, 65534, &[], 65534, &[]),
    (1002, 100, &[], 100, &[100]),
    (1002, 7, &[100, 10], 100, &[100]),
    (1002, 10, &[], 100, &[100]),
    (1003, 100, &[], 100, &[10, 100]),
    (1003, 10, &[], 10, &[10, 100]),
    (1003, 7, &[], 10, &[10, 100]),
    (1003, 1003, &[65534], 10, &[10, 100]),
    (1004, 7, &[], 65534, &[65534]),
    (0, 0, &[100], 65534, &[]),
    (4294967295, 100, &[], 65534, &[]),
];

fn members_of() -> &'static [Given] {
    &MEMBERS_OF
}

#[test]
fn members_have_the_book_s_groups(rt: HostRuntime) {
    assert!(rt; see_text(&rt, rt.alloc(), with_members(), members_of()).is_ok());
}

/// A book of the tables above that has the key `members` and no member.
fn with_none() -> &'static str {
    "domain='d'\nroot_owner=0\nroot_group=0\nroot_mode=0\nusers={alice=1001, bob=1002}\ngroups={staff=100, wheel=10}\nmembers={}\n"
}

/// Its callers.
static NONE_OF: [Given; 3] = [
    (1001, 100, &[10], 65534, &[]),
    (1002, 65534, &[], 65534, &[]),
    (5, 5, &[], 65534, &[]),
];

fn none_of() -> &'static [Given] {
    &NONE_OF
}

#[test]
fn an_empty_table_gives_no_groups(rt: HostRuntime) {
    assert!(rt; see_text(&rt, rt.alloc(), with_none(), none_of()).is_ok());
}

/// Callers of a book without the key, who stay as they were sent.
static AS_SENT: [Given; 4] = [
    (1001, 100, &[10], 100, &[10, 100]),
    (1002, 7, &[], 7, &[7]),
    (0, 0, &[], 0, &[0]),
    (
        5,
        17,
        &[1, 16, 2, 15, 3, 14, 4, 13, 5, 12, 6, 11, 7, 10, 8, 9],
        17,
        &[1, 2, 3, 4, 5, 6, 7, 8, 9, 10, 11, 12, 13, 14, 15, 16, 17],
    ),
];

fn as_sent() -> &'static [Given] {
    &AS_SENT
}

#[test]
fn without_members_callers_stay(rt: HostRuntime) {
    assert!(rt; see_text(&rt, rt.alloc(), tables(), as_sent()).is_ok());
    let none = Book::default(rt.alloc());
    see_each(&rt, &none, as_sent());
}

/// Callers of the book in which bob is in 17 groups.
static SEVENTEEN: [Given; 4] = [
    (
        1002,
        90,
        &[],
        90,
        &[
            83, 84, 85, 86, 87, 88, 89, 90, 91, 92, 93, 94, 95, 96, 97, 98, 99,
        ],
    ),
    (
        1002,
        82,
        &[1],
        83,
        &[
            83, 84, 85, 86, 87, 88, 89, 90, 91, 92, 93, 94, 95, 96, 97, 98, 99,
        ],
    ),
    (
        1002,
        99,
        &[],
        99,
        &[
            83, 84, 85, 86, 87, 88, 89, 90, 91, 92, 93, 94, 95, 96, 97, 98, 99,
        ],
    ),
    (1001, 90, &[], 65534, &[]),
];

fn seventeen() -> &'static [Given] {
    &SEVENTEEN
}

#[test]
fn a_member_of_17_groups_has_them_all(rt: HostRuntime) -> Result<(), AllocError> {
    let text = in_groups(rt.alloc(), 17)?;
    let seen = see_text(&rt, rt.alloc(), text.as_str(), seventeen());
    Ok(assert!(rt; seen.is_ok()))
}
