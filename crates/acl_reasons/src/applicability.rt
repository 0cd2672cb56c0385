//! Whether an access control entry (ACE) decides on access for a caller, and if not, why.
ghost use Rattle.std.specs.Prelude.{◌≡◌};
ghost use Rattle.acl_list.specs.Deciding.{applies, is_true_for};
ghost use Rattle.acl_reasons.specs.Applicabilities as specs;

use acl_list::{Entry, EntryKind, Who, concerns};
use rpc_record::Caller;

/// Whether an ACE decides on access for a caller, and if not, why: the first of these that holds.
#[derive(Clone, Copy, Debug, PartialEq, Eq)]
pub enum Applicability {
    /// It is an AUDIT or ALARM ACE, which watches and decides nothing (RFC 8881, section 6.2.1.1).
    Watches,
    /// It is INHERIT_ONLY: for children of the directory only (section 6.2.1.4.1).
    InheritOnly,
    /// Its principal is the owner or a user, and the caller is another (section 6.2.1.5).
    AnotherUser,
    /// Its principal is a group, and the caller is no member.
    NoMember,
    /// It decides the bits of its mask that no ACE before it decides.
    Applies,
}

/// Whether an ACE of an object's access control list (ACL) decides on access for the caller, and if not, why. The
/// object has this owner and group.
pub fn applicability_of(entry: &Entry, owner: u32, group: u32, caller: &Caller) -> Applicability
    ensures exact { result ≡ specs.applicability (is_true_for owner group caller.now) entry.now }
    ensures applies { specs.is_applying result ≡ applies (is_true_for owner group caller.now) entry.now }
{
    if matches!(entry.kind, EntryKind::Audit | EntryKind::Alarm) {
        return Applicability::Watches;
    }
    if entry.is_inherit_only() {
        return Applicability::InheritOnly;
    }
    if concerns(entry, owner, group, caller) {
        return Applicability::Applies;
    }
    match entry.who {
        Who::Owner | Who::User(_) => Applicability::AnotherUser,
        Who::Group | Who::GroupOf(_) => Applicability::NoMember,
        Who::Everyone => Applicability::Applies,
    }
}
