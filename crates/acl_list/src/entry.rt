//! One access control entry (ACE) of an access control list (ACL).
ghost use Rattle.std.specs.Prelude.{◌≡◌};
ghost use Rattle.acl_list.specs.Mask.{has_bit};
ghost use Rattle.acl_list.specs.Places as places;

use crate::flag;

/// The type of an object: the values of nfs_ftype4 that the server has.
#[derive(Clone, Copy, Debug, PartialEq, Eq)]
pub enum Kind {
    /// A regular file, NF4REG.
    File,
    /// A directory, NF4DIR.
    Directory,
    /// A symbolic link, NF4LNK.
    Link,
}

/// The type of an ACE: acetype4 (RFC 8881, section 6.2.1.1).
#[derive(Clone, Copy, Debug, PartialEq, Eq)]
pub enum EntryKind {
    /// ACE4_ACCESS_ALLOWED_ACE_TYPE: grants the permissions of the mask.
    Allow = 0,
    /// ACE4_ACCESS_DENIED_ACE_TYPE: denies them.
    Deny = 1,
    /// ACE4_SYSTEM_AUDIT_ACE_TYPE: logs access that uses them.
    Audit = 2,
    /// ACE4_SYSTEM_ALARM_ACE_TYPE: raises an alarm at access that uses them.
    Alarm = 3,
}

/// The principal of an ACE: its who field (RFC 8881, section 6.2.1.5).
#[derive(Clone, Copy, Debug, PartialEq, Eq)]
pub enum Who {
    /// OWNER@: the owner of the object.
    Owner,
    /// GROUP@: each member of the object's group.
    Group,
    /// EVERYONE@: everyone, including the owner and the members of the group.
    Everyone,
    /// The user with this uid.
    User(u32),
    /// Each member of the group with this gid.
    GroupOf(u32),
}

/// One ACE: nfsace4 (RFC 8881, section 6.2.1).
#[derive(Clone, Copy, Debug, PartialEq, Eq)]
pub struct Entry {
    /// The type of the ACE.
    pub kind: EntryKind,
    /// Bits of [`crate::flag`]. Any number is kept.
    pub flags: u32,
    /// Bits of [`crate::mask`]. Any number is kept, and each of the 32 bits is judged.
    pub mask: u32,
    /// The principal of the ACE. `flag::IDENTIFIER_GROUP` has no effect on it.
    pub who: Who,
}

impl EntryKind {
    ghost use Rattle.std.specs.Prelude.{◌≡◌};
    ghost use Rattle.acl_list.specs.Kinds.{kind_number, kind_of};

    /// The number of the type.
    pub fn number(self) -> u32
        ensures { result ≡ kind_number self }
    {
        self as u32
    }

    /// The type with this number. `None`: the number is above 3.
    pub fn from_number(number: u32) -> Option<EntryKind>
        ensures { result ≡ kind_of number }
    {
        match number {
            0 => Some(EntryKind::Allow),
            1 => Some(EntryKind::Deny),
            2 => Some(EntryKind::Audit),
            3 => Some(EntryKind::Alarm),
            _ => None,
        }
    }
}

#[tactic(auto, using(crate::proofs::Bits::flag_bits))]
impl Entry {
    /// Whether new non-directories in the directory inherit the ACE.
    pub fn is_for_files(&self) -> bool
        ensures { result ≡ has_bit self.now.flags places.file_inherit }
    {
        self.flags & flag::FILE_INHERIT != 0
    }

    /// Whether new directories in the directory inherit the ACE.
    pub fn is_for_directories(&self) -> bool
        ensures { result ≡ has_bit self.now.flags places.directory_inherit }
    {
        self.flags & flag::DIRECTORY_INHERIT != 0
    }

    /// Whether the ACE is inherited by children of the directory and no further.
    pub fn stops_below(&self) -> bool
        ensures { result ≡ has_bit self.now.flags places.no_propagate }
    {
        self.flags & flag::NO_PROPAGATE != 0
    }

    /// Whether the ACE has no effect but to be inherited.
    pub fn is_inherit_only(&self) -> bool
        ensures { result ≡ has_bit self.now.flags places.inherit_only }
    {
        self.flags & flag::INHERIT_ONLY != 0
    }

    /// Whether an AUDIT or ALARM ACE watches granted access.
    pub fn reports_success(&self) -> bool
        ensures { result ≡ has_bit self.now.flags places.successful }
    {
        self.flags & flag::SUCCESSFUL != 0
    }

    /// Whether an AUDIT or ALARM ACE watches refused access.
    pub fn reports_failure(&self) -> bool
        ensures { result ≡ has_bit self.now.flags places.failed }
    {
        self.flags & flag::FAILED != 0
    }
}

impl Who {
    ghost use Rattle.std.specs.Prelude.{◌≡◌};
    ghost use Rattle.acl_list.specs.Principals.{is_special};

    /// Whether the principal is one of the special identifiers OWNER@, GROUP@ and EVERYONE@.
    pub fn is_special(self) -> bool
        ensures { result ≡ is_special self }
    {
        matches!(self, Who::Owner | Who::Group | Who::Everyone)
    }
}
