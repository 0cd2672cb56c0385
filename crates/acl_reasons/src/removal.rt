//! The reason for the decision on a removal.
ghost use Rattle.std.specs.Prelude.{◌≡◌, ◌^◌, ℕ};
ghost use Rattle.acl_reasons.specs.Removals as specs;
ghost use Rattle.acl_reasons.specs.SideViews.{side};

use acl_list::mask::{ADD_FILE, DELETE, DELETE_CHILD};
use acl_list::{AclList, FirstMatch, Verdict, first_match, judge};
use rpc_record::Caller;
use std::alloc::{Allocator, Global};

/// An object's access control list (ACL), its owner and its group, which decide on access to it.
#[derive(Clone, Copy, Debug)]
pub struct Governed<'a, A: Allocator = Global> {
    /// The ACL of the object.
    pub list: &'a AclList<A>,
    /// The owner of the object.
    pub owner: u32,
    /// The group of the object.
    pub group: u32,
}

/// Why a name of a target may be removed from its parent or not (RFC 8881, section 6.2.1.3.2). Access control entries
/// (ACEs) count from 0.
#[derive(Clone, Copy, Debug, PartialEq, Eq)]
pub enum RemovalReason {
    /// Granted: this ACE of the target's ACL allows DELETE.
    ByDelete(usize),
    /// Granted: this ACE of the parent's ACL allows DELETE_CHILD.
    ByDeleteChild(usize),
    /// Granted: no ACE decides DELETE on the target or DELETE_CHILD on the parent, and the parent's ACL grants
    /// ADD_FILE.
    ByAddFile,
    /// Refused: this ACE of the parent's ACL denies DELETE_CHILD, and DELETE isn't allowed.
    DeleteChildDenied(usize),
    /// Refused: this ACE of the target's ACL denies DELETE, and no ACE of the parent's ACL decides DELETE_CHILD.
    DeleteDenied(usize),
    /// Refused: no ACE decides DELETE on the target or DELETE_CHILD on the parent, and this ACE of the parent's ACL
    /// denies ADD_FILE.
    AddFileDenied(usize),
    /// Refused: no ACE decides DELETE on the target or DELETE_CHILD on the parent, and no ACE of the parent's ACL
    /// allows ADD_FILE.
    AddFileMissing,
}

/// Why the caller may remove a name of the target from the parent or not, by their ACLs. The function allocates
/// nothing.
pub fn why_removal<A: Allocator>(
    parent: &Governed<'_, A>,
    target: &Governed<'_, A>,
    caller: &Caller,
) -> RemovalReason
    ensures { result ≡ specs.removal_reason (side parent.now) (side target.now) caller.now }
{
    by_first_matches(
        first_match_on(target, caller, DELETE),
        first_match_on(parent, caller, DELETE_CHILD),
        judge(parent.list, parent.owner, parent.group, caller, ADD_FILE),
    )
}

/// The ACE of an object's ACL that decides a bit.
fn first_match_on<A: Allocator>(object: &Governed<'_, A>, caller: &Caller, bit: u32) -> FirstMatch
    ensures { (place : ℕ) → bit ≡ 2 ^ place → result ≡ specs.first_match_on (side object.now) caller.now place }
{
    first_match(object.list, object.owner, object.group, caller, bit)
}

fn by_first_matches(on_target: FirstMatch, on_parent: FirstMatch, add: Verdict) -> RemovalReason
    ensures { result ≡ specs.by_first_matches on_target on_parent add }
{
    match on_target {
        FirstMatch::AllowedBy(index) => RemovalReason::ByDelete(index),
        FirstMatch::DeniedBy(index) => by_parent(on_parent, RemovalReason::DeleteDenied(index)),
        FirstMatch::Unmatched => by_parent(on_parent, by_add_file(add)),
    }
}

/// The reason by the parent's ACE that decides DELETE_CHILD, if any.
fn by_parent(on_parent: FirstMatch, unmatched: RemovalReason) -> RemovalReason
    ensures { result ≡ specs.by_parent on_parent unmatched }
{
    match on_parent {
        FirstMatch::AllowedBy(index) => RemovalReason::ByDeleteChild(index),
        FirstMatch::DeniedBy(index) => RemovalReason::DeleteChildDenied(index),
        FirstMatch::Unmatched => unmatched,
    }
}

fn by_add_file(add: Verdict) -> RemovalReason
    ensures { result ≡ specs.by_add_file add }
{
    match add {
        Verdict::Granted => RemovalReason::ByAddFile,
        Verdict::Denied(index) => RemovalReason::AddFileDenied(index),
        Verdict::Missing(_) => RemovalReason::AddFileMissing,
    }
}
