//! The groups of the users of a book.
ghost use Rattle.std.specs.Prelude.{◌≡◌, ◌⊎◌, ◌<◌, ◌≤◌, ◌==◌, if◌then◌else◌, ℕ, [], length, false, true, OnOk, IfErr};
ghost use Rattle.std.specs.Prelude.{IfOk, IfSome, option_map};
ghost use Rattle.rpc_record.specs.Identity.{has_group, with_group};
ghost use Rattle.who_book.specs.Indexes.{AreAdded, Enrolls, EnrollsAny, HasFull, groups_in};
ghost use Rattle.who_book.specs.Members.{are_users, gid_among};
ghost use Rattle.who_book.specs.Names.{IsTable};
ghost use Rattle.who_book.specs.Outlines.{rolls_of, texts_of, IsAscending};
ghost use Rattle.who_book.specs.declared.fault.BookFault.TheVariants.{Member, Memory};

use crate::fault::BookFault;
use crate::names::Names;
use crate::rolls::Roll;
use rpc_record::{GroupSet, MOST_GROUPS};
use std::alloc::Global;
use std::collections::BTreeMap;
use std::marker::Model;

/// The gid of a user that is in no group.
const NO_GROUP: u32 = 65534;

/// The groups of the users of a book: a set of at most 17 for each uid.
#[derive(Drop)]
pub struct Members {
    /// The groups of each uid that is in at least one.
    groups: BTreeMap<u32, GroupSet>,
}

impl Model for Members {
    ghost use Rattle.std.specs.Prelude.{ℕ, List};

    ghost Value = { List (ℕ × List ℕ) };

    ghost view = { λ m. m.groups.entries };
}

/// The gid of a user in these groups: the gid that was sent if it is among them, else the least of them, else 65534.
pub fn gid_among(groups: &GroupSet, gid: u32) -> u32
    ensures { result ≡ gid_among groups.now gid }
{
    match groups.as_slice() {
        [] => NO_GROUP,
        [_, ..] if groups.contains(gid) => gid,
        [least, ..] => *least,
    }
}

impl Members {
    /// The members by a book's `members`, if it has the key. `Member`: they don't agree with its tables.
    pub fn of(
        alloc: Global,
        users: &Names,
        groups: &Names,
        rolls: &Option<Vec<Roll<'_>>>,
    ) -> Result<Option<Members>, BookFault>
        requires users { IsTable users.now }
        requires ascending { IfSome rolls.now (λ rolls. IsAscending (rolls_of rolls.items)) }
        ensures { EnrollsAny users.now groups.now (option_map (λ rolls. rolls_of rolls.items) rolls.now) result }
    {
        match rolls {
            Some(rolls) => Ok(Some(Members::build(alloc, users, groups, rolls.as_slice())?)),
            None => Ok(None),
        }
    }

    /// The members by these rolls. `Member`: the rolls don't agree with the tables.
    fn build(
        alloc: Global,
        users: &Names,
        groups: &Names,
        rolls: &[Roll<'_>],
    ) -> Result<Self, BookFault>
        requires users { IsTable users.now }
        requires ascending { IsAscending (rolls_of rolls.now) }
        ensures { Enrolls users.now groups.now (rolls_of rolls.now) result }
    {
        let mut members = Members {
            groups: BTreeMap::new(alloc),
        };
        for roll in rolls {
            let Some(gid) = groups.number_of(roll.group.as_bytes()) else {
                return Err(BookFault::Member);
            };
            members.enroll(users, gid, roll.users.as_slice())?;
        }
        Ok(members)
    }

    /// Puts users into a group that has no members yet. `Member`: a name has no number, occurs twice, or is already in
    /// 17 groups.
    fn enroll(&mut self, users: &Names, gid: u32, names: &[&str]) -> Result<(), BookFault>
        requires fresh { (n : ℕ) → has_group (groups_in self.old n) gid ≡ false }
        requires few { (n : ℕ) → length (groups_in self.old n) ≤ MOST_GROUPS }
        ensures users { OnOk result (are_users users.now (texts_of names.now) ≡ true) }
        ensures added { OnOk result (AreAdded users.now gid (texts_of names.now) (groups_in self.old)
            (groups_in self.new)) }
        ensures few { OnOk result ((n : ℕ) → length (groups_in self.new n) ≤ MOST_GROUPS) }
        ensures err { IfErr result (λ fault. (fault ≡ Memory) ⊎ ((fault ≡ Member) ×
            ((are_users users.now (texts_of names.now) ≡ false)
            ⊎ HasFull users.now (texts_of names.now) (groups_in self.old)))) }
    {
        for name in names {
            let Some(uid) = users.number_of(name.as_bytes()) else {
                return Err(BookFault::Member);
            };
            self.add(uid, gid)?;
        }
        Ok(())
    }

    /// Puts a user into a group. `Member`: it is in the group already, or in 17 groups.
    fn add(&mut self, uid: u32, gid: u32) -> Result<(), BookFault>
        ensures absent { OnOk result (has_group (groups_in self.old uid) gid ≡ false) }
        ensures room { OnOk result (length (groups_in self.old uid) < MOST_GROUPS) }
        ensures added { OnOk result
            ((n : ℕ)
            → groups_in self.new n
            ≡ (if uid == n then with_group gid (groups_in self.old uid) else groups_in self.old n)) }
        ensures err { IfErr result (λ fault. (fault ≡ Memory) ⊎ ((fault ≡ Member) ×
            ((has_group (groups_in self.old uid) gid ≡ true) ⊎ (MOST_GROUPS ≤ length (groups_in self.old uid))))) }
    {
        let mut groups = self.groups_of(uid);
        if groups.contains(gid) || groups.len() == MOST_GROUPS {
            return Err(BookFault::Member);
        }
        groups.insert(gid);
        self.groups.insert(uid, groups)?;
        Ok(())
    }

    /// The groups of a user.
    pub fn groups_of(&self, uid: u32) -> GroupSet
        ensures { result ≡ groups_in self.now uid }
    {
        match self.groups.get(&uid) {
            Some(groups) => *groups,
            None => GroupSet::new(),
        }
    }
}
