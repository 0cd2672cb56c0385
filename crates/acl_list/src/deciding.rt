//! The access control entry (ACE) that decides a bit, and the verdict of an access control list (ACL) on a mask.
ghost use Rattle.std.specs.Prelude.{◌≡◌, ℕ, ◌^◌, if◌then◌else◌};
ghost use Rattle.acl_list.specs.Mask.{BitsAre, mask_of};
ghost use Rattle.acl_list.specs.Deciding.{allows, is_allow, is_class, is_true_for, match_of, first_match_of_mask};
ghost use Rattle.acl_list.specs.Deciding as specs;
ghost use Rattle.acl_list.specs.Verdicts.{IsVerdict, verdict};
ghost use Rattle.acl_list.specs.declared.answer.FirstMatch.TheVariants.{AllowedBy, DeniedBy};

use crate::answer::{FirstMatch, Verdict};
use crate::entry::{Entry, EntryKind, Who};
use crate::list::AclList;
use rpc_record::Caller;
use std::alloc::Allocator;

/// Whether a principal names the caller, for an object of this owner and group (RFC 8881, section 6.2.1.5).
fn is_true_of(who: Who, owner: u32, group: u32, caller: &Caller) -> bool
    ensures { result ≡ is_true_for owner group caller.now who }
{
    match who {
        Who::Owner => caller.uid() == owner,
        Who::Group => caller.is_member(group),
        Who::Everyone => true,
        Who::User(uid) => caller.uid() == uid,
        Who::GroupOf(gid) => caller.is_member(gid),
    }
}

/// Whether an ACE concerns the object itself, which has this owner and group, and this caller: it isn't INHERIT_ONLY,
/// and its principal names the caller.
pub fn concerns(entry: &Entry, owner: u32, group: u32, caller: &Caller) -> bool
    ensures { result ≡ specs.concerns (is_true_for owner group caller.now) entry.now }
{
    !entry.is_inherit_only() && is_true_of(entry.who, owner, group, caller)
}

/// Whether an ACE is an ALLOW or a DENY for this object and caller.
fn applies(entry: &Entry, owner: u32, group: u32, caller: &Caller) -> bool
    ensures { result ≡ specs.applies (is_true_for owner group caller.now) entry.now }
{
    matches!(entry.kind, EntryKind::Allow | EntryKind::Deny)
        && concerns(entry, owner, group, caller)
}

/// The ACE of an object's ACL that decides a bit for the caller: the first that applies and has the bit.
///
/// `bit` is a mask of one bit. For a mask of several bits, the result is the first ACE that applies and has any of
/// them. No ACE matches the mask 0. The object has this owner and group. The function allocates nothing.
pub fn first_match<A: Allocator>(
    list: &AclList<A>,
    owner: u32,
    group: u32,
    caller: &Caller,
    bit: u32,
) -> FirstMatch
    ensures of_mask { result ≡ match_of (first_match_of_mask (is_true_for owner group caller.now) list.now bit) }
    ensures of_bit { (place : ℕ) → bit ≡ 2 ^ place →
        result ≡ match_of (specs.first_match (is_true_for owner group caller.now) list.now place) }
{
    first_match_in(list.as_slice(), owner, group, caller, bit)
}

/// The ACE of a slice that decides a bit.
pub(crate) fn first_match_in(
    entries: &[Entry],
    owner: u32,
    group: u32,
    caller: &Caller,
    mask: u32,
) -> FirstMatch
    ensures { result ≡ match_of (first_match_of_mask (is_true_for owner group caller.now) entries.now mask) }
{
    for (index, entry) in entries.iter().enumerate() {
        if applies(entry, owner, group, caller) && entry.mask & mask != 0 {
            return decided_by(entry.kind, index);
        }
    }
    FirstMatch::Unmatched
}

/// The result if an ACE of this type, ALLOW or DENY, at this index decides the bit.
fn decided_by(kind: EntryKind, index: usize) -> FirstMatch
    ensures { result ≡ (if is_allow kind then AllowedBy index else DeniedBy index) }
{
    if kind == EntryKind::Allow {
        FirstMatch::AllowedBy(index)
    } else {
        FirstMatch::DeniedBy(index)
    }
}

/// The verdict of an object's ACL on the mask, for the caller (RFC 8881, section 6.2.1).
///
/// ACEs are processed in order. An ACE applies if it is an ALLOW or DENY, isn't INHERIT_ONLY, and its principal names
/// the caller. The first that applies and has a bit decides the bit. All 32 bits of the mask are judged. The object has
/// this owner and group. The function allocates nothing.
pub fn judge<A: Allocator>(
    list: &AclList<A>,
    owner: u32,
    group: u32,
    caller: &Caller,
    mask: u32,
) -> Verdict
    ensures exact { result ≡ verdict (is_true_for owner group caller.now) list.now mask }
    ensures bitwise { IsVerdict (is_true_for owner group caller.now) list.now mask result }
{
    judge_entries(list.as_slice(), owner, group, caller, mask)
}

fn judge_entries(entries: &[Entry], owner: u32, group: u32, caller: &Caller, mask: u32) -> Verdict
    ensures { IsVerdict (is_true_for owner group caller.now) entries.now mask result }
{
    let mut left = mask;
    for (index, entry) in entries.iter().enumerate() {
        if entry.mask & left != 0 && applies(entry, owner, group, caller) {
            if entry.kind == EntryKind::Deny {
                return Verdict::Denied(index);
            }
            left &= !entry.mask;
        }
    }
    if left == 0 {
        Verdict::Granted
    } else {
        Verdict::Missing(1 << left.trailing_zeros())
    }
}

/// The permissions that the ACL allows a class, from which its mode bits are computed (RFC 8881, section 6.3.2). Only
/// ACEs for this special identifier and for EVERYONE@ count. If the class is a named user or group, only the ACEs for
/// EVERYONE@ count. The function allocates nothing.
pub fn class_grant<A: Allocator>(list: &AclList<A>, class: Who) -> u32
    ensures exact { result ≡ mask_of (allows (is_class class) list.now) }
    ensures bitwise { BitsAre result (allows (is_class class) list.now) }
{
    class_grant_of(list.as_slice(), class)
}

fn class_grant_of(entries: &[Entry], class: Who) -> u32
    ensures { BitsAre result (allows (is_class class) entries.now) }
{
    let mut granted = 0;
    let mut decided = 0;
    for entry in entries {
        if is_for_class(entry, class) {
            match entry.kind {
                EntryKind::Allow => {
                    granted |= entry.mask & !decided;
                    decided |= entry.mask;
                }
                EntryKind::Deny => decided |= entry.mask,
                EntryKind::Audit | EntryKind::Alarm => {}
            }
        }
    }
    granted
}

/// Whether an ACE concerns the object itself, and its principal is this class or EVERYONE@.
fn is_for_class(entry: &Entry, class: Who) -> bool
    ensures { result ≡ specs.concerns (is_class class) entry.now }
{
    !entry.is_inherit_only()
        && matches!(
            (class, entry.who),
            (_, Who::Everyone) | (Who::Owner, Who::Owner) | (Who::Group, Who::Group)
        )
}
