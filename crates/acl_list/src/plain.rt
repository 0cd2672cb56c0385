//! The definition of a verdict as a program: plain and slow, for comparison.
ghost use Rattle.std.specs.Prelude.{◌≡◌, ◌<◌, min, is_none, find, ◌&&◌, if◌then◌else◌, None, IsTrue};
ghost use Rattle.std.specs.List.{filter_map, reduce};
ghost use Rattle.acl_list.specs.Mask.{has_bit, places};
ghost use Rattle.acl_list.specs.Deciding.{is_true_for, match_of};
ghost use Rattle.acl_list.specs.Deciding as specs;
ghost use Rattle.acl_list.specs.Verdicts.{denied_at, verdict};

use crate::answer::{FirstMatch, Verdict};
use crate::deciding::first_match_in;
use crate::entry::Entry;
use crate::list::AclList;
use rpc_record::Caller;
use std::alloc::Allocator;

/// The verdict of an object's access control list (ACL) on the mask, by the definition: a walk over the ACL for each
/// bit.
///
/// The verdict equals that of [`crate::judge`], which walks once.
pub fn judge_bit_by_bit<A: Allocator>(
    list: &AclList<A>,
    owner: u32,
    group: u32,
    caller: &Caller,
    mask: u32,
) -> Verdict
    ensures { result ≡ verdict (is_true_for owner group caller.now) list.now mask }
{
    let entries = list.as_slice();
    if let Some(index) = first_denial(entries, owner, group, caller, mask) {
        return Verdict::Denied(index);
    }
    match lowest_unmatched(entries, owner, group, caller, mask) {
        Some(place) => Verdict::Missing(1 << place),
        None => Verdict::Granted,
    }
}

/// The least index of a DENY access control entry (ACE) that decides a bit of the mask.
fn first_denial(
    entries: &[Entry],
    owner: u32,
    group: u32,
    caller: &Caller,
    mask: u32,
) -> Option<usize>
    ensures { result ≡ reduce min (filter_map
        (λ place. if has_bit mask place then denied_at
        (specs.first_match (is_true_for owner group caller.now) entries.now place) else None) places) }
{
    (0..32u32)
        .filter_map(|place| denial_of(entries, owner, group, caller, mask, place))
        .min()
}

/// The place of the lowest bit of the mask that matches no ACE.
fn lowest_unmatched(
    entries: &[Entry],
    owner: u32,
    group: u32,
    caller: &Caller,
    mask: u32,
) -> Option<u32>
    ensures { result ≡ find (λ place. has_bit mask place &&
        is_none (specs.first_match (is_true_for owner group caller.now) entries.now place)) places }
{
    (0..32u32).find(|place| is_unmatched(entries, owner, group, caller, mask, *place))
}

/// The index of the ACE that denies the bit at this place, if the mask has the bit.
fn denial_of(
    entries: &[Entry],
    owner: u32,
    group: u32,
    caller: &Caller,
    mask: u32,
    place: u32,
) -> Option<usize>
    ensures { result ≡ (if has_bit mask place
        then denied_at (specs.first_match (is_true_for owner group caller.now) entries.now place) else None) }
{
    if !has_place(mask, place) {
        return None;
    }
    match first_match_at(entries, owner, group, caller, place) {
        FirstMatch::DeniedBy(index) => Some(index),
        FirstMatch::AllowedBy(_) | FirstMatch::Unmatched => None,
    }
}

/// Whether the mask has the bit at this place, and no ACE matches it.
fn is_unmatched(
    entries: &[Entry],
    owner: u32,
    group: u32,
    caller: &Caller,
    mask: u32,
    place: u32,
) -> bool
    ensures { result ≡ (has_bit mask place &&
        is_none (specs.first_match (is_true_for owner group caller.now) entries.now place)) }
{
    has_place(mask, place)
        && first_match_at(entries, owner, group, caller, place) == FirstMatch::Unmatched
}

/// The ACE that decides the bit at this place.
fn first_match_at(
    entries: &[Entry],
    owner: u32,
    group: u32,
    caller: &Caller,
    place: u32,
) -> FirstMatch
    requires { place < 32 }
    ensures { result ≡ match_of (specs.first_match (is_true_for owner group caller.now) entries.now place) }
{
    first_match_in(entries, owner, group, caller, 1 << place)
}

/// Whether the mask has the bit at this place.
fn has_place(mask: u32, place: u32) -> bool
    ensures value { result ≡ has_bit mask place }
    ensures small { IsTrue result → place < 32 }
{
    place < 32 && mask & (1 << place) != 0
}
