//! The decisions of the access control lists (ACLs) of objects.
ghost use Rattle.std.specs.Prelude.{◌≡◌, ◌^◌, ℕ};
ghost use Rattle.acl_list.specs.declared.mask.TheConstants as bits;
ghost use Rattle.access_guard.specs.Decisions as specs;
ghost use Rattle.access_guard.specs.Lists as lists;
ghost use Rattle.access_guard.specs.Lines as lines;

use crate::decision::{Cause, Decision, answer};
use crate::memory::Opened;
use acl_list::mask::{ADD_FILE, DELETE, DELETE_CHILD, WRITE_ATTRIBUTES, WRITE_DATA};
use acl_list::{Caller, FirstMatch, Verdict, first_match, judge};
use std::alloc::Allocator;

/// The verdict of an object's ACL on a mask.
pub(crate) fn verdict_of<A: Allocator + Copy>(
    opened: &Opened<'_, A>,
    caller: &Caller,
    mask: u32,
) -> Verdict
    ensures { result ≡ lists.verdict_of opened.now caller.now mask }
{
    match opened.node() {
        Some(node) => judge(node.list(), node.owner(), node.group(), caller, mask),
        None => Verdict::Missing(0),
    }
}

/// The bit that decides whether a time of the object may be set to the server's own: WRITE_ATTRIBUTES, or WRITE_DATA if
/// that alone is granted.
pub(crate) fn time_mask<A: Allocator + Copy>(opened: &Opened<'_, A>, caller: &Caller) -> u32
    ensures { result ≡ specs.time_mask (lists.verdict_of opened.now caller.now bits.WRITE_ATTRIBUTES)
        (lists.verdict_of opened.now caller.now bits.WRITE_DATA) }
{
    if is_granting(verdict_of(opened, caller, WRITE_ATTRIBUTES)) {
        WRITE_ATTRIBUTES
    } else if is_granting(verdict_of(opened, caller, WRITE_DATA)) {
        WRITE_DATA
    } else {
        WRITE_ATTRIBUTES
    }
}

fn is_granting(verdict: Verdict) -> bool
    ensures { result ≡ specs.is_granting verdict }
{
    matches!(verdict, Verdict::Granted)
}

/// The access control entry (ACE) of an object's ACL that decides a bit.
pub(crate) fn first_match_of<A: Allocator + Copy>(
    opened: &Opened<'_, A>,
    caller: &Caller,
    bit: u32,
) -> FirstMatch
    ensures { (place : ℕ) → bit ≡ 2 ^ place → result ≡ lists.first_match_of opened.now caller.now place }
{
    match opened.node() {
        Some(node) => first_match(node.list(), node.owner(), node.group(), caller, bit),
        None => FirstMatch::Unmatched,
    }
}

/// Whether a name of the target may be removed from the parent, by DELETE in the target's ACL and DELETE_CHILD in the
/// parent's. If no ACE matches either of them, ADD_FILE in the parent's ACL decides.
pub(crate) fn removal<A: Allocator + Copy>(
    opened_parent: &Opened<'_, A>,
    caller: &Caller,
    parent: u64,
    target: u64,
    on_target: FirstMatch,
    on_parent: FirstMatch,
) -> Decision
    ensures { result ≡ specs.removal parent target on_target on_parent
        (lists.verdict_of opened_parent.now caller.now ADD_FILE) }
{
    if matches!(on_target, FirstMatch::AllowedBy(_)) {
        return Decision::Granted;
    }
    match on_parent {
        FirstMatch::AllowedBy(_) => Decision::Granted,
        FirstMatch::DeniedBy(index) => Decision::Refused {
            object: parent,
            mask: DELETE_CHILD,
            cause: Cause::ByEntry(index),
        },
        FirstMatch::Unmatched => match on_target {
            FirstMatch::DeniedBy(index) => Decision::Refused {
                object: target,
                mask: DELETE,
                cause: Cause::ByEntry(index),
            },
            _ => answer(
                parent,
                ADD_FILE,
                verdict_of(opened_parent, caller, ADD_FILE),
            ),
        },
    }
}

/// The bits of the parent that a removal reads.
pub(crate) fn parent_mask(on_target: FirstMatch, on_parent: FirstMatch) -> u32
    ensures { result ≡ lines.parent_mask on_target on_parent }
{
    match (on_target, on_parent) {
        (FirstMatch::Unmatched, FirstMatch::Unmatched) => DELETE_CHILD | ADD_FILE,
        _ => DELETE_CHILD,
    }
}
