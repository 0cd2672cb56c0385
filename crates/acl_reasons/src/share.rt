//! The bits of a demanded mask that an access control entry (ACE) decides.
ghost use Rattle.std.specs.Prelude.{◌≡◌, ◌&&◌, ◌||◌, ◌==◌, ◌<◌, ℕ, slice_get};
ghost use Rattle.acl_list.specs.Mask.{BitsAre, has_bit};
ghost use Rattle.acl_list.specs.Deciding.{counts_for, is_true_for, first_match as first_match_of, match_of};
ghost use Rattle.acl_reasons.specs.Shares as specs;

use crate::applicability::{Applicability, applicability_of};
use crate::reason::has_place;
use acl_list::{AclList, Entry, FirstMatch, first_match};
use rpc_record::Caller;
use std::alloc::Allocator;

/// How the bits of a demanded mask concern one ACE of an access control list (ACL), for a caller.
#[derive(Clone, Copy, Debug, PartialEq, Eq)]
pub struct Share {
    /// The bits that the ACE decides: it is the first that applies and has them.
    pub decided: u32,
    /// The bits that the ACE has and would decide, but that an earlier ACE decides.
    pub before: u32,
}

/// The bits of the mask that the ACE at the index decides for the caller, and those decided before it (RFC 8881,
/// section 6.2.1). The object has this owner and group. The function allocates nothing.
///
/// For an ACE that doesn't apply, and for an index past the end of the ACL, both are empty.
pub fn share_of<A: Allocator>(
    list: &AclList<A>,
    owner: u32,
    group: u32,
    caller: &Caller,
    mask: u32,
    index: usize,
) -> Share
    ensures decided { BitsAre result.decided
        (specs.is_decided (is_true_for owner group caller.now) list.now mask index) }
    ensures before { BitsAre result.before
        (specs.is_decided_before (is_true_for owner group caller.now) list.now mask index) }
{
    let mut share = Share {
        decided: 0,
        before: 0,
    };
    for place in 0..32u32 {
        let decided = is_decided(list, owner, group, caller, mask, index, place);
        let before = is_decided_before(list, owner, group, caller, mask, index, place);
        share.decided = with_bit(share.decided, place, decided);
        share.before = with_bit(share.before, place, before);
    }
    share
}

/// The mask, with the bit at this place too if it is wanted.
fn with_bit(mask: u32, place: u32, wanted: bool) -> u32
    requires { place < 32 }
    ensures { (bit : ℕ) → has_bit result bit ≡ has_bit mask bit || (wanted && bit == place) }
{
    if wanted { mask | (1 << place) } else { mask }
}

/// Whether the mask has the bit at this place, and the ACE at the index decides it.
fn is_decided<A: Allocator>(
    list: &AclList<A>,
    owner: u32,
    group: u32,
    caller: &Caller,
    mask: u32,
    index: usize,
    place: u32,
) -> bool
    requires { place < 32 }
    ensures { result ≡ specs.is_decided (is_true_for owner group caller.now) list.now mask index place }
{
    has_place(mask, place) && is_by(first_match_at(list, owner, group, caller, place), index)
}

/// Whether the mask has the bit at this place, the ACE at the index applies and has it too, and an earlier ACE decides
/// it.
fn is_decided_before<A: Allocator>(
    list: &AclList<A>,
    owner: u32,
    group: u32,
    caller: &Caller,
    mask: u32,
    index: usize,
    place: u32,
) -> bool
    requires { place < 32 }
    ensures { result ≡ specs.is_decided_before (is_true_for owner group caller.now) list.now mask index place }
{
    has_place(mask, place)
        && counts_at(list, owner, group, caller, index, place)
        && is_earlier(first_match_at(list, owner, group, caller, place), index)
}

/// Whether an ACE is at the index, applies, and has the bit at this place.
fn counts_at<A: Allocator>(
    list: &AclList<A>,
    owner: u32,
    group: u32,
    caller: &Caller,
    index: usize,
    place: u32,
) -> bool
    ensures { result ≡ specs.counts_at (is_true_for owner group caller.now) (slice_get list.now index) place }
{
    match list.as_slice().get(index) {
        Some(entry) => counts(entry, owner, group, caller, place),
        None => false,
    }
}

/// Whether the ACE applies and has the bit at this place.
fn counts(entry: &Entry, owner: u32, group: u32, caller: &Caller, place: u32) -> bool
    ensures { result ≡ counts_for (is_true_for owner group caller.now) place entry.now }
{
    applicability_of(entry, owner, group, caller) == Applicability::Applies
        && has_place(entry.mask, place)
}

/// The ACE that decides the bit at this place.
fn first_match_at<A: Allocator>(
    list: &AclList<A>,
    owner: u32,
    group: u32,
    caller: &Caller,
    place: u32,
) -> FirstMatch
    requires { place < 32 }
    ensures { result ≡ match_of (first_match_of (is_true_for owner group caller.now) list.now place) }
{
    first_match(list, owner, group, caller, 1 << place)
}

/// Whether the ACE that decides the bit is the one at the index.
fn is_by(found: FirstMatch, index: usize) -> bool
    ensures { result ≡ specs.is_by index found }
{
    match found {
        FirstMatch::AllowedBy(other) | FirstMatch::DeniedBy(other) => other == index,
        FirstMatch::Unmatched => false,
    }
}

/// Whether the ACE that decides the bit is before the index.
fn is_earlier(found: FirstMatch, index: usize) -> bool
    ensures { result ≡ specs.is_earlier index found }
{
    match found {
        FirstMatch::AllowedBy(other) | FirstMatch::DeniedBy(other) => other < index,
        FirstMatch::Unmatched => false,
    }
}
