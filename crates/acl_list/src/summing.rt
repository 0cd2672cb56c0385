//! The summary of an access control list (ACL) for a caller, and the bits that its access control entries (ACEs) watch.
ghost use Rattle.std.specs.Prelude.{◌≡◌, ℕ, ◌^◌, ◌&&◌};
ghost use Rattle.acl_list.specs.Mask.{has_bit};
ghost use Rattle.acl_list.specs.Deciding.{is_true_for};
ghost use Rattle.acl_list.specs.Summaries.{IsSummary, watch_flag};
ghost use Rattle.acl_list.specs.Summaries as specs;

use crate::answer::Summary;
use crate::deciding::concerns;
use crate::entry::{Entry, EntryKind};
use crate::flag;
use crate::list::AclList;
use rpc_record::Caller;
use std::alloc::Allocator;

/// The mask of an ACE if the ACE has the flag, else no bits.
fn mask_under(entry: &Entry, flag: u32) -> u32
    ensures { (place : ℕ) → flag ≡ 2 ^ place → (bit : ℕ) →
        has_bit result bit ≡ has_bit entry.now.flags place && has_bit entry.now.mask bit }
{
    if entry.flags & flag == 0 {
        0
    } else {
        entry.mask
    }
}

/// The bits of the mask that an ACE of the object's ACL watches. `granted`: the mask is granted to the caller, else
/// refused.
///
/// An AUDIT or ALARM ACE watches if it isn't INHERIT_ONLY, its principal names the caller, and it has the flag:
/// SUCCESSFUL for granted access, FAILED for refused access (RFC 8881, section 6.2.1.4.1). Any other ACE watches no
/// bit. The object has this owner and group.
pub fn watched_bits(
    entry: &Entry,
    owner: u32,
    group: u32,
    caller: &Caller,
    granted: bool,
    mask: u32,
) -> u32
    ensures { result ≡ specs.watched_bits (is_true_for owner group caller.now) (watch_flag granted) mask entry.now }
{
    if is_watching(entry, owner, group, caller, granted) {
        entry.mask & mask
    } else {
        0
    }
}

/// Whether an ACE watches access that is granted to the caller, or access that is refused.
fn is_watching(entry: &Entry, owner: u32, group: u32, caller: &Caller, granted: bool) -> bool
    ensures { result ≡ specs.is_watching (is_true_for owner group caller.now) (watch_flag granted) entry.now }
{
    let watched_flag = if granted {
        entry.reports_success()
    } else {
        entry.reports_failure()
    };
    matches!(entry.kind, EntryKind::Audit | EntryKind::Alarm)
        && concerns(entry, owner, group, caller)
        && watched_flag
}

/// The summary of an object's ACL for the caller: the bits that it grants, and the bits that it watches for success and
/// for failure. The object has this owner and group. The function allocates nothing.
///
/// A mask is granted if and only if the bits `granted` cover it: [`crate::covered_is_granted`]. An ACE writes a line on
/// a mask if and only if the mask has a watched bit: [`crate::unwatched_writes_nothing`].
pub fn summary<A: Allocator>(list: &AclList<A>, owner: u32, group: u32, caller: &Caller) -> Summary
    ensures exact { result ≡ specs.summary (is_true_for owner group caller.now) list.now }
    ensures bitwise { IsSummary (is_true_for owner group caller.now) list.now result }
{
    summary_of(list.as_slice(), owner, group, caller)
}

fn summary_of(entries: &[Entry], owner: u32, group: u32, caller: &Caller) -> Summary
    ensures { IsSummary (is_true_for owner group caller.now) entries.now result }
{
    let mut summary = Summary::default();
    let mut decided = 0;
    for entry in entries {
        if concerns(entry, owner, group, caller) {
            match entry.kind {
                EntryKind::Allow => {
                    summary.granted |= entry.mask & !decided;
                    decided |= entry.mask;
                }
                EntryKind::Deny => decided |= entry.mask,
                EntryKind::Audit | EntryKind::Alarm => {
                    summary.watch_ok |= mask_under(entry, flag::SUCCESSFUL);
                    summary.watch_fail |= mask_under(entry, flag::FAILED);
                }
            }
        }
    }
    summary
}
