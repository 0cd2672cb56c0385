//! The texts whose `members` is accepted or refused.
use crate::book::given::{answer, answer_of};
use std::alloc::{AllocError, Global};
use who_book::BookFault;

/// Settings in range, two users and two groups.
pub fn tables() -> &'static str {
    "domain='d'\nroot_owner=0\nroot_group=0\nroot_mode=0\nusers={alice=1001, bob=1002}\ngroups={staff=100, wheel=10}\n"
}

#[test]
fn member_is_numbered(rt: HostRuntime) {
    assert!(rt; BookFault::Member as u8 == 6);
}

/// The lines after the tables, with the result of the text.
static MEMBERS: [(&str, u8); 43] = [
    ("", 0),
    ("members={}\n", 0),
    ("[members]\n", 0),
    ("[members]\nstaff=[]\n", 0),
    ("[members]\nstaff=['bob']\n", 0),
    (
        "[members]\nstaff=['bob', 'alice']\nwheel=['alice', 'bob']\n",
        0,
    ),
    ("members={staff=['bob'], wheel=[]}\n", 0),
    ("members.staff=['bob']\n", 0),
    // another type
    ("members=5\n", 2),
    ("members='staff'\n", 2),
    ("members=true\n", 2),
    ("members=[]\n", 2),
    ("members=['bob']\n", 2),
    ("members=1979-05-27\n", 2),
    ("[[members]]\nstaff=['bob']\n", 2),
    ("[members]\nstaff=5\n", 2),
    ("[members]\nstaff='bob'\n", 2),
    ("[members]\nstaff={}\n", 2),
    ("[members]\nstaff={bob=1}\n", 2),
    ("[members.staff]\n", 2),
    ("[members]\nstaff=1979-05-27\n", 2),
    ("[members]\nstaff=[1002]\n", 2),
    ("[members]\nstaff=[1.5]\n", 2),
    ("[members]\nstaff=[true]\n", 2),
    ("[members]\nstaff=[['bob']]\n", 2),
    ("[members]\nstaff=[{}]\n", 2),
    ("[members]\nstaff=['bob', 1]\n", 2),
    ("[members]\nstaff=[07:32:00]\n", 2),
    // a name that no table has
    ("[members]\nstaff=['carol']\n", 6),
    ("[members]\nstaff=['bob', 'carol']\n", 6),
    ("[members]\nstaff=['staff']\n", 6),
    ("[members]\nstaff=['Bob']\n", 6),
    ("[members]\nstaff=['1002']\n", 6),
    ("[members]\nstaff=['']\n", 6),
    ("[members]\nstaff=['bob@d']\n", 6),
    ("[members]\ncrew=['bob']\n", 6),
    ("[members]\ncrew=[]\n", 6),
    ("[members]\nbob=['bob']\n", 6),
    ("[members]\n100=['bob']\n", 6),
    // a user twice in one array
    ("[members]\nstaff=['bob', 'bob']\n", 6),
    ("[members]\nstaff=['bob', 'alice', 'bob']\n", 6),
    // a key twice
    ("[members]\nstaff=['bob']\nstaff=['alice']\n", 1),
    // a wrong type after an unknown name
    ("[members]\ncrew=['carol']\nstaff=5\n", 2),
];

fn members_table() -> &'static [(&'static str, u8)] {
    &MEMBERS
}

#[test]
fn texts_with_members(rt: HostRuntime) {
    for (members, want) in members_table() {
        let got = answer(rt.alloc(), &[tables(), *members]);
        assert!(rt; got == Ok(*want), "{members}");
    }
}

/// Texts with two faults, with the number of the first.
static FIRST: [(&str, u8); 5] = [
    (
        "domain=1\nroot_owner=0\nroot_group=0\nroot_mode=0\nusers={}\ngroups={}\n",
        2,
    ),
    (
        "domain='d'\nroot_owner=0\nroot_group=0\nroot_mode=4096\nusers={}\ngroups={}\n",
        3,
    ),
    (
        "domain='d'\nroot_owner=0\nroot_group=0\nroot_mode=0\nusers={alice=5, bob=5}\ngroups={}\n",
        4,
    ),
    (
        "domain='d'\nroot_owner=0\nroot_group=0\nroot_mode=0\nusers={}\ngroups={staff=5, wheel=5}\n",
        4,
    ),
    (
        "domain='d'\nroot_owner=0\nroot_group=0\nroot_mode=0\nusers={}\ngroups={}\n",
        6,
    ),
];

fn first_table() -> &'static [(&'static str, u8)] {
    &FIRST
}

/// Member comes after each other fault.
#[test]
fn member_comes_last(rt: HostRuntime) {
    for (tables, want) in first_table() {
        let got = answer(rt.alloc(), &[*tables, "[members]\nstaff=['carol']\n"]);
        assert!(rt; got == Ok(*want), "{tables}");
    }
}

/// Appends the number of a group to a text: 99 for g1, 98 for g2, and so on.
fn push_number(alloc: Global, text: &mut String, group: u32) -> Result<(), AllocError> {
    let number = 100 - group.min(100);
    let line = format!(in alloc; "g{group} = {number}\n")?;
    text.push_str(line.as_str())
}

/// Appends bob to the members of a group.
fn push_member(alloc: Global, text: &mut String, group: u32) -> Result<(), AllocError> {
    let line = format!(in alloc; "g{group} = ['bob']\n")?;
    text.push_str(line.as_str())
}

/// Appends `groups` groups with bob to a text.
fn push_groups(alloc: Global, text: &mut String, groups: u32) -> Result<(), AllocError> {
    for group in 1..=groups {
        push_number(alloc, text, group)?;
    }
    text.push_str("[members]\n")?;
    for group in 1..=groups {
        push_member(alloc, text, group)?;
    }
    Ok(())
}

/// A book in which bob is in `groups` groups: g1 has number 99, g2 has 98, and so on.
pub fn in_groups(alloc: Global, groups: u32) -> Result<String, AllocError> {
    let mut text = String::from_str(
        alloc,
        "domain='d'\nroot_owner=0\nroot_group=0\nroot_mode=0\nusers={alice=1001, bob=1002}\n[groups]\n",
    )?;
    push_groups(alloc, &mut text, groups)?;
    Ok(text)
}

fn answer_in_groups(alloc: Global, groups: u32) -> Result<u8, AllocError> {
    let text = in_groups(alloc, groups)?;
    Ok(answer_of(alloc, text.as_str()))
}

/// A user is in at most 17 groups.
#[test]
fn counts_of_groups(rt: HostRuntime) {
    for (groups, want) in [(1u32, 0u8), (16, 0), (17, 0), (18, 6), (19, 6)] {
        assert!(rt;
            answer_in_groups(rt.alloc(), groups) == Ok(want),
            "{groups} groups"
        );
    }
}
