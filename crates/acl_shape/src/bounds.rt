//! The bounds on the number of access control entries (ACEs) in the access control list (ACL) of an object.
ghost use Rattle.std.specs.Prelude.{◌≡◌, ◌↔◌, count_by, IsTrue};
ghost use Rattle.acl_shape.specs.Bounds.{IsBounded};
ghost use Rattle.acl_shape.specs.Bounds as specs;

use acl_list::{AclList, Entry, EntryKind};
use std::alloc::Allocator;

/// The largest number of ACEs in the ACL of an object.
pub const MAX_ENTRIES: usize = 64;

/// The largest number of ACEs that a new mode keeps, and that a client may ask for: a new mode adds five.
pub const MAX_KEPT: usize = 59;

/// Whether the ACL of an object may have these ACEs: at most [`MAX_ENTRIES`], and at most [`MAX_KEPT`] that a new mode
/// keeps. An ACL that this crate makes from one within these bounds is within them too. The function allocates nothing.
pub fn is_bounded<A: Allocator>(list: &AclList<A>) -> bool
    ensures { IsTrue result ↔ IsBounded list.now }
{
    list.len() <= MAX_ENTRIES && kept_count(list.as_slice()) <= MAX_KEPT
}

/// The number of ACEs that a new mode keeps.
fn kept_count(entries: &[Entry]) -> usize
    ensures { result ≡ count_by specs.keeps entries.now }
{
    entries.iter().filter(|entry| is_kept(entry)).count()
}

/// Whether a new mode keeps the ACE, perhaps changed.
pub(crate) fn is_kept(entry: &Entry) -> bool
    ensures { result ≡ specs.keeps entry.now }
{
    matches!(entry.kind, EntryKind::Audit | EntryKind::Alarm)
        || entry.is_inherit_only()
        || !entry.who.is_special()
        || entry.is_for_files()
        || entry.is_for_directories()
}
