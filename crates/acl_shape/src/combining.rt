//! An access control list (ACL) by its two parts: dacl and sacl.
ghost use Rattle.std.specs.Prelude.{◌≡◌, ◌&&◌, ◌++◌, count_by, true, false, unwrap_or, IsNone, Err, IfOk, IsOk};
ghost use Rattle.std.specs.Prelude.{MatchResult, OnOk};
ghost use Rattle.acl_shape.specs.Bounds.{IsBounded, fits, keeps};
ghost use Rattle.acl_shape.specs.Parts.{combined, is_of, lent, part_of, parts_fit};
ghost use Rattle.acl_shape.specs.Parts as specs;
ghost use Rattle.acl_shape.specs.declared.combining.CombineFault.TheVariants.{NoSpc, Memory};

use crate::bounds::{MAX_ENTRIES, MAX_KEPT, is_kept};
use crate::part::Part;
use acl_list::{AclList, Entry};
use std::alloc::{AllocError, Allocator};
use thiserror::Error;

/// Why parts aren't put into an ACL.
#[derive(Clone, Copy, Debug, PartialEq, Eq, Error)]
pub enum CombineFault {
    /// NFS4ERR_NOSPC: the ACL would not be within the bounds of [`crate::is_bounded`].
    #[error("a list beyond its bounds")]
    NoSpc,
    /// The allocation of the ACL fails.
    #[error("out of memory")]
    Memory,
}

/// The access control entries (ACEs) that a part is taken from: those that are given, else those of the ACL.
fn source<'a, B: Allocator, C: Allocator>(
    part: Option<&'a AclList<C>>,
    list: &'a AclList<B>,
) -> &'a [Entry]
    ensures { result.now ≡ unwrap_or (lent part.entry) list.now }
{
    match part {
        Some(part) => part.as_slice(),
        None => list.as_slice(),
    }
}

/// The number of ACEs of the dacl that a new mode keeps.
fn kept_dacl_count(entries: &[Entry]) -> usize
    ensures { result ≡ count_by (λ e. is_of Part.Dacl e && keeps e) entries.now }
{
    entries
        .iter()
        .filter(|entry| Part::Dacl.has(entry) && is_kept(entry))
        .count()
}

/// Whether the dacl of the first ACEs and the sacl of the second make an ACL within the bounds.
fn fits_together(dacl: &[Entry], sacl: &[Entry]) -> bool
    ensures { result ≡ fits (part_of Part.Dacl dacl.now ++ part_of Part.Sacl sacl.now) }
{
    let watching = Part::Sacl.count(sacl);
    if watching > MAX_KEPT {
        return false;
    }
    if Part::Dacl.count(dacl) > MAX_ENTRIES - watching {
        return false;
    }
    kept_dacl_count(dacl) <= MAX_KEPT - watching
}

/// Appends those of the ACEs that are of the part.
fn add_part<A: Allocator>(
    list: &mut AclList<A>,
    entries: &[Entry],
    part: Part,
) -> Result<(), AllocError>
    ensures { OnOk result (list.new ≡ list.old ++ part_of part entries.now) }
{
    for entry in entries {
        if part.has(entry) {
            list.push(*entry)?;
        }
    }
    Ok(())
}

/// The dacl of the first ACEs and the sacl of the second.
fn joined<A: Allocator>(alloc: A, dacl: &[Entry], sacl: &[Entry]) -> Result<AclList<A>, AllocError>
    ensures { IfOk result (λ new. new ≡ part_of Part.Dacl dacl.now ++ part_of Part.Sacl sacl.now) }
{
    let mut new = AclList::new(alloc);
    add_part(&mut new, dacl, Part::Dacl)?;
    add_part(&mut new, sacl, Part::Sacl)?;
    Ok(new)
}

/// The ACL that two parts make, over `alloc` (RFC 8881, sections 6.2.2 and 6.2.3). It has the ALLOW and DENY ACEs of
/// `dacl`, and after them the AUDIT and ALARM ACEs of `sacl`, each in their order. If a part isn't given, it is taken
/// from the ACEs of `list`. If neither is given, the result has the ACEs of `list`, sorted: ALLOW and DENY first. ACEs
/// of the wrong type in a part are left out.
///
/// `NoSpc`: the ACL would not be within the bounds of [`crate::is_bounded`]. `Memory`: the ACL would be within them,
/// and its allocation fails.
pub fn combine<A: Allocator, B: Allocator, C: Allocator>(
    alloc: A,
    list: &AclList<B>,
    dacl: Option<&AclList<C>>,
    sacl: Option<&AclList<C>>,
) -> Result<AclList<A>, CombineFault>
    ensures refused { fits (combined list.now (lent dacl.entry) (lent sacl.entry)) ≡ false → result ≡ Err NoSpc }
    ensures taken { fits (combined list.now (lent dacl.entry) (lent sacl.entry)) ≡ true →
        MatchResult result (λ new. new ≡ combined list.now (lent dacl.entry) (lent sacl.entry))
        (λ fault. fault ≡ Memory) }
    ensures bounded { IfOk result IsBounded }
{
    let dacl = source(dacl, list);
    let sacl = source(sacl, list);
    if !fits_together(dacl, sacl) {
        return Err(CombineFault::NoSpc);
    }
    joined(alloc, dacl, sacl).map_err(|_| CombineFault::Memory)
}

/// The ACL with the given parts put into it by [`combine`], over `alloc`; the ACL itself if no part is given.
///
/// `NoSpc`: the ACL would not be within the bounds of [`crate::is_bounded`]. `Memory`: a part is given, the ACL would
/// be within the bounds, and its allocation fails.
pub fn with_parts<A: Allocator>(
    alloc: A,
    list: AclList<A>,
    dacl: Option<AclList<A>>,
    sacl: Option<AclList<A>>,
) -> Result<AclList<A>, CombineFault>
    ensures refused { parts_fit list dacl sacl ≡ false → result ≡ Err NoSpc }
    ensures taken { parts_fit list dacl sacl ≡ true →
        MatchResult result (λ new. new ≡ specs.with_parts list dacl sacl) (λ fault. fault ≡ Memory) }
    ensures bounded { IsBounded list → IfOk result IsBounded }
    ensures whole { IsNone dacl → IsNone sacl → IsOk result }
{
    if dacl.is_none() && sacl.is_none() {
        return Ok(list);
    }
    combine(alloc, &list, dacl.as_ref(), sacl.as_ref())
}
