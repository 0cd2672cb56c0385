//! The caller of a COMPOUND (RFC 5531, appendix A).
ghost use Rattle.std.specs.Prelude.{◌≡◌, ℕ, ◌≤◌, ◌↔◌, ◌++◌, ◌∷◌, List, length, IsTrue};
ghost use Rattle.std.specs.List.Sorted.{IsStrictlyIncreasing};
ghost use Rattle.std.specs.Cmp.Rules.{comparing, hashing};
ghost use Rattle.std.specs.Hash as fed;
ghost use Rattle.std.proofs.Common.{rules};
ghost use Rattle.rpc_record.specs.Identity.{Identity, IsSetOf, has_group, is_member, group_set, identity, is_same};

use crate::group_set::{GroupSet, MOST_GROUPS};
use std::fmt;
use std::hash::{Hash, Hasher};
use std::marker::Model;

/// The largest number of further groups of an AUTH_SYS credential (RFC 5531, appendix A).
pub const MOST_FURTHER: usize = 16;

/// The caller: a user, its group, and the set of the groups that it is a member of (RFC 5531, appendix A). The groups
/// of a credential include its gid. A book can replace the groups that were sent, and the new ones need not include it.
/// Two callers are equal if user, group and set are, in whatever order the groups were sent.
#[derive(Clone, Copy)]
pub struct Caller {
    uid: u32,
    gid: u32,
    groups: GroupSet,
}

impl Model for Caller {
    ghost use Rattle.rpc_record.specs.Identity.{Identity};

    ghost Value = { Identity };

    ghost view = { λ c. record { uid = c.uid; gid = c.gid; groups = c.groups } };

    ghost inverse = { λ i. record { uid = i.uid; gid = i.gid; groups = i.groups } };
}

impl Caller {
    /// The caller of a credential: its groups are the set of `gid` and `further`, which has at most 16 groups.
    pub fn new(uid: u32, gid: u32, further: &[u32]) -> Self
        requires { length further.now ≤ MOST_FURTHER }
        ensures { result ≡ identity uid gid further.now }
    {
        let mut groups = GroupSet::new();
        groups.insert(gid);
        for group in further {
            groups.insert(*group);
        }
        Caller::with_groups(uid, gid, groups)
    }

    /// The caller with these groups, as a book gives them in place of those sent: they need not include `gid`.
    pub fn with_groups(uid: u32, gid: u32, groups: GroupSet) -> Self
        ensures { result ≡ record { uid = uid; gid = gid; groups = groups } }
    {
        Caller { uid, gid, groups }
    }

    /// The user.
    pub fn uid(&self) -> u32
        ensures { result ≡ self.now.uid }
    {
        self.uid
    }

    /// The group of the objects that the caller creates: in a credential, its gid.
    pub fn gid(&self) -> u32
        ensures { result ≡ self.now.gid }
    {
        self.gid
    }

    /// The groups that the caller is a member of, each once, by rising number. If a book gave them, they may lack the
    /// caller's `gid`.
    pub fn groups(&self) -> &[u32]
        ensures groups { result.now ≡ self.now.groups }
        ensures rising { IsStrictlyIncreasing result.now }
        ensures few { length result.now ≤ MOST_GROUPS }
    {
        self.groups.as_slice()
    }

    /// Whether the caller is a member of the group.
    pub fn is_member(&self, group: u32) -> bool
        ensures { result ≡ is_member self.now group }
    {
        self.groups.contains(group)
    }
}

impl PartialEq for Caller {
    ghost eq = { is_same };

    ghost laws = { Prim.search (comparing, rules) };

    fn eq(&self, other: &Self) -> bool {
        let same_user = self.uid == other.uid && self.gid == other.gid;
        same_user && self.groups == other.groups
    }
}

impl Eq for Caller {
    ghost laws = { Prim.search (comparing, rules) };
}

impl Hash for Caller {
    ghost hash_input = { λ c. fed.u32 c.uid ++ fed.u32 c.gid ++ fed.slice fed.u32 c.groups };

    ghost respects_eq = { Prim.search (hashing, rules) };

    fn hash<H: Hasher>(&self, state: &mut H) {
        let Caller { uid, gid, groups } = self;
        uid.hash(state);
        gid.hash(state);
        groups.hash(state);
    }
}

impl fmt::Debug for Caller {
    fn fmt<W: fmt::Write>(&self, f: &mut fmt::Formatter<W>) -> fmt::Result {
        f.debug_struct("Caller")
            .field("uid", &self.uid)
            .field("gid", &self.gid)
            .field("groups", &self.groups())
            .finish()
    }
}

/// The groups of a caller are the set of those that were sent: each of them once, by rising number, and no other. The
/// same groups in another order, or one of them twice, give the same caller.
pub fn groups_are_a_set()
    ensures is_set { (sent : List ℕ) → IsSetOf (group_set sent) sent }
    ensures one_set { (groups sent : List ℕ) → IsSetOf groups sent → groups ≡ group_set sent }
    ensures same_set { (sent again : List ℕ) → ((group : ℕ) → has_group sent group ≡ has_group again group) →
        group_set sent ≡ group_set again }
    ensures same_caller { (uid gid : ℕ) (further again : List ℕ) →
        ((group : ℕ) → has_group (gid ∷ further) group ≡ has_group (gid ∷ again) group) →
        identity uid gid further ≡ identity uid gid again }
{}

/// `==` holds if and only if user, gid and groups of the callers are the same.
pub fn equal_callers_are_the_same()
    ensures { (a b : Identity) → IsTrue (is_same a b) ↔ (a ≡ b) }
{}
