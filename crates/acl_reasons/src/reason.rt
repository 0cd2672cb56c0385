//! The reason for the verdict of an access control list (ACL) on a mask.
ghost use Rattle.std.specs.Prelude.{◌≡◌, ◌<◌, IsTrue};
ghost use Rattle.acl_list.specs.Mask.{has_bit};
ghost use Rattle.acl_list.specs.Deciding.{is_true_for};
ghost use Rattle.acl_list.specs.Verdicts.{verdict};
ghost use Rattle.acl_reasons.specs.Reasons as specs;

use acl_list::{AclList, FirstMatch, Verdict, first_match, judge};
use rpc_record::Caller;
use std::alloc::Allocator;

/// Why an ACL grants a mask or refuses it (RFC 8881, section 6.2.1).
#[derive(Clone, Copy, Debug, PartialEq, Eq)]
pub enum Reason {
    /// The first matching access control entry (ACE) of each bit of the mask is an ALLOW.
    Granted,
    /// A DENY ACE decides a bit of the mask.
    Denied {
        /// The first of these ACEs, by its index from 0.
        entry: usize,
        /// The lowest bit of the mask that this ACE decides, as a mask.
        bit: u32,
    },
    /// No ACE denies a bit of the mask, and some bits are allowed by no ACE.
    Missing {
        /// The lowest of these bits, as a mask.
        bit: u32,
    },
}

/// Why an object's ACL grants the mask to the caller or refuses it. The object has this owner and group. The function
/// allocates nothing.
///
/// The reason is the verdict of [`acl_list::judge`], with the bit that its ACE denies.
pub fn why<A: Allocator>(
    list: &AclList<A>,
    owner: u32,
    group: u32,
    caller: &Caller,
    mask: u32,
) -> Reason
    ensures exact { result ≡ specs.reason (is_true_for owner group caller.now) list.now mask }
    ensures verdict { specs.verdict_in result ≡ verdict (is_true_for owner group caller.now) list.now mask }
{
    match judge(list, owner, group, caller, mask) {
        Verdict::Granted => Reason::Granted,
        Verdict::Denied(entry) => Reason::Denied {
            entry,
            bit: denied_bit(list, owner, group, caller, mask, entry),
        },
        Verdict::Missing(bit) => Reason::Missing { bit },
    }
}

/// The lowest bit of the mask that the ACE at the index denies.
fn denied_bit<A: Allocator>(
    list: &AclList<A>,
    owner: u32,
    group: u32,
    caller: &Caller,
    mask: u32,
    index: usize,
) -> u32
    ensures { result ≡ specs.denied_bit (is_true_for owner group caller.now) list.now mask index }
{
    for place in 0..32 {
        if is_denied(list, owner, group, caller, mask, index, place) {
            return 1 << place;
        }
    }
    0
}

/// Whether the mask has the bit at this place, and the ACE at the index denies it.
fn is_denied<A: Allocator>(
    list: &AclList<A>,
    owner: u32,
    group: u32,
    caller: &Caller,
    mask: u32,
    index: usize,
    place: u32,
) -> bool
    ensures { result ≡ specs.is_denied (is_true_for owner group caller.now) list.now mask index place }
{
    has_place(mask, place)
        && first_match(list, owner, group, caller, 1 << place) == FirstMatch::DeniedBy(index)
}

/// Whether the mask has the bit at this place.
pub(crate) fn has_place(mask: u32, place: u32) -> bool
    ensures value { result ≡ has_bit mask place }
    ensures small { IsTrue result → place < 32 }
{
    place < 32 && mask & (1 << place) != 0
}
