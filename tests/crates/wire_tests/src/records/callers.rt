//! Callers, by the groups that are sent.

use crate::given::is_text;
use rpc_record::{Caller, GroupSet, MOST_FURTHER, MOST_GROUPS};
use std::alloc::{AllocError, Global};
use std::collections::HashMap;
use std::process::Abort;

/// A group, the further ones, and the set of both.
type Sent = (u32, &'static [u32], &'static [u32]);

/// The groups that are sent for uid 1001, and their set.
static SENT: [Sent; 9] = [
    (100, &[], &[100]),
    (100, &[7], &[7, 100]),
    (7, &[100], &[7, 100]),
    (100, &[100, 100], &[100]),
    (100, &[300, 200], &[100, 200, 300]),
    (300, &[100, 200], &[100, 200, 300]),
    (200, &[300, 100, 200, 300], &[100, 200, 300]),
    (0, &[u32::MAX, 0, 1], &[0, 1, u32::MAX]),
    (
        17,
        &[1, 16, 2, 15, 3, 14, 4, 13, 5, 12, 6, 11, 7, 10, 8, 9],
        &[1, 2, 3, 4, 5, 6, 7, 8, 9, 10, 11, 12, 13, 14, 15, 16, 17],
    ),
];

fn sent() -> &'static [Sent] {
    &SENT
}

/// The caller of a credential, with no contract, so that the prover doesn't compute on a test's groups.
fn caller(rt: &impl Abort, uid: u32, gid: u32, further: &[u32]) -> Caller {
    assert!(rt; further.len() <= MOST_FURTHER);
    Caller::new(uid, gid, further)
}

fn is_member(caller: Caller, group: u32) -> bool {
    caller.is_member(group)
}

fn is_among(groups: &[u32], group: u32) -> bool {
    groups.contains(&group)
}

/// Checks that the caller is a member of exactly those groups below 400 that are among these.
fn see_members(rt: &impl Abort, caller: Caller, groups: &[u32]) {
    for group in 0..400u32 {
        let is_right = is_member(caller, group) == is_among(groups, group);
        assert!(rt; is_right, "{group} of {groups:?}");
    }
}

/// A caller's uid and gid.
fn ids_of(caller: Caller) -> (u32, u32) {
    (caller.uid(), caller.gid())
}

fn has_groups(caller: Caller, groups: &[u32]) -> bool {
    caller.groups() == groups
}

fn see_groups(rt: &impl Abort, gid: u32, further: &[u32], groups: &[u32]) {
    let caller = caller(rt, 1001, gid, further);
    assert!(rt; ids_of(caller) == (1001, gid));
    assert!(rt; has_groups(caller, groups), "{gid} and {further:?}");
    see_members(rt, caller, groups);
}

#[test]
fn groups_are_the_set_of_what_is_sent(rt: HostRuntime) {
    for (gid, further, groups) in sent() {
        see_groups(&rt, *gid, further, groups);
    }
    assert_eq!(rt; MOST_GROUPS, 17);
}

/// Users, groups and further groups of callers that differ from uid 1001 in groups 100, 200 and 300.
static OTHERS: [(u32, u32, &[u32]); 4] = [
    (1002, 100, &[300, 200]),
    (1001, 200, &[300, 100]),
    (1001, 100, &[300]),
    (1001, 100, &[300, 200, 0]),
];

fn others() -> &'static [(u32, u32, &'static [u32])] {
    &OTHERS
}

fn is_equal(caller: Caller, other: Caller) -> bool {
    caller == other
}

fn see_others(rt: &impl Abort, sent: Caller) {
    for (uid, gid, further) in others() {
        let other = caller(rt, *uid, *gid, further);
        assert!(rt; !is_equal(sent, other), "{uid}, {gid}, {further:?}");
    }
}

/// The values that are found by two keys in a map of one caller.
fn found(
    alloc: Global,
    sent: Caller,
    again: Caller,
    other: Caller,
) -> Result<(Option<u32>, Option<u32>), AllocError> {
    let mut seen = HashMap::new(alloc);
    seen.insert((7u64, sent), 1u32)?;
    Ok((
        seen.get(&(7, again)).copied(),
        seen.get(&(7, other)).copied(),
    ))
}

fn is_printed(alloc: Global, caller: Caller, text: &str) -> bool {
    is_text(format!(in alloc; "{caller:?}"), text)
}

#[test]
fn callers_are_equal_where_their_groups_are(rt: HostRuntime) {
    let sent = caller(&rt, 1001, 100, &[300, 200]);
    let again = caller(&rt, 1001, 100, &[200, 100, 300, 200]);
    assert!(rt; is_equal(sent, again));
    see_others(&rt, sent);
    let alone = caller(&rt, 1001, 100, &[]);
    assert!(rt; found(rt.alloc(), sent, again, alone) == Ok((Some(1), None)));
    let text = "Caller { uid: 1001, gid: 100, groups: [100, 200, 300] }";
    assert!(rt; is_printed(rt.alloc(), again, text));
}

/// Puts a group into a set that isn't full.
fn put(set: &mut GroupSet, group: u32) -> bool {
    if set.len() < MOST_GROUPS {
        set.insert(group);
        return true;
    }
    false
}

/// The set of some groups, at most 17.
fn set_of(rt: &impl Abort, groups: &[u32]) -> GroupSet {
    let mut set = GroupSet::new();
    for group in groups {
        assert!(rt; put(&mut set, *group));
    }
    set
}

/// Groups in the order they are put in, and their set.
static PUT: [(&[u32], &[u32]); 5] = [
    (&[], &[]),
    (&[0], &[0]),
    (&[7, 7, 7], &[7]),
    (&[300, u32::MAX, 0, 200, 300], &[0, 200, 300, u32::MAX]),
    (
        &[9, 8, 10, 7, 11, 6, 12, 5, 13, 4, 14, 3, 15, 2, 16, 1, 17],
        &[1, 2, 3, 4, 5, 6, 7, 8, 9, 10, 11, 12, 13, 14, 15, 16, 17],
    ),
];

fn put_table() -> &'static [(&'static [u32], &'static [u32])] {
    &PUT
}

fn is_row(set: GroupSet, groups: &[u32]) -> bool {
    set.as_slice() == groups
}

fn size_of(set: GroupSet) -> (usize, bool) {
    (set.len(), set.is_empty())
}

fn is_same(set: GroupSet, other: GroupSet) -> bool {
    set == other
}

fn is_in(set: GroupSet, group: u32) -> bool {
    set.contains(group)
}

/// Checks that a set has exactly those groups below 20 that are among these.
fn see_contents(rt: &impl Abort, set: GroupSet, groups: &[u32]) {
    for group in 0..20u32 {
        let is_right = is_in(set, group) == is_among(groups, group);
        assert!(rt; is_right, "{group} of {groups:?}");
    }
}

fn see_set(rt: &impl Abort, put: &[u32], groups: &[u32]) {
    let set = set_of(rt, put);
    assert!(rt; is_row(set, groups), "{put:?}");
    assert!(rt;
        size_of(set) == (groups.len(), groups.is_empty()),
        "{put:?}"
    );
    assert!(rt; is_same(set, set_of(rt, groups)), "{put:?}");
    see_contents(rt, set, groups);
}

#[test]
fn sets_are_of_what_is_put_in(rt: HostRuntime) {
    for (put, groups) in put_table() {
        see_set(&rt, put, groups);
    }
}

fn is_set_printed(alloc: Global, set: GroupSet, text: &str) -> bool {
    is_text(format!(in alloc; "{set:?}"), text)
}

/// A caller can have groups without its gid.
#[test]
fn callers_have_the_groups_given(rt: HostRuntime) {
    let groups = set_of(&rt, &[200, 100]);
    let given = Caller::with_groups(1001, 7, groups);
    assert!(rt; ids_of(given) == (1001, 7));
    assert!(rt; has_groups(given, &[100, 200]));
    assert!(rt; !is_member(given, 7));
    assert!(rt; is_member(given, 100));
    assert!(rt; !is_equal(given, caller(&rt, 1001, 7, &[100, 200])));
    let sent = caller(&rt, 1001, 100, &[200]);
    assert!(rt; is_equal(Caller::with_groups(1001, 100, groups), sent));
    assert!(rt; is_set_printed(rt.alloc(), groups, "{100, 200}"));
}
