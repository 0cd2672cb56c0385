//! An access control list (ACL) that a client asks for, or its dacl or sacl.
ghost use Rattle.std.specs.Prelude.{◌≡◌, ◌≤◌, [], length, Some, None, Err, IfOk, MatchResult};
ghost use Rattle.std.specs.List.{cons_option, list_all};
ghost use Rattle.acl_shape.specs.Admitted.{admitted, entry_of, fault_of, first_fault, part_fault};
ghost use Rattle.acl_shape.specs.Bounds.{IsBounded};
ghost use Rattle.acl_shape.specs.Parts.{is_of};
ghost use Rattle.acl_shape.specs.declared.request.AdmitFault.{AdmitFault};
ghost use Rattle.acl_shape.specs.declared.request.AdmitFault.TheVariants.{Memory};

use crate::bounds::MAX_KEPT;
use crate::inheriting::settled;
use crate::part::Part;
use crate::request::{AdmitFault, Raw};
use acl_list::{AclList, Entry, EntryKind, Kind, flag, mask};
use std::alloc::{AllocError, Allocator};

/// The fault of an access control entry (ACE), if any.
fn fault(raw: &Raw) -> Option<AdmitFault>
    ensures { result ≡ fault_of raw.now }
{
    if EntryKind::from_number(raw.kind).is_none() {
        Some(AdmitFault::AttrNotSupp)
    } else if raw.flags > flag::DEFINED || raw.mask & !mask::DEFINED != 0 {
        Some(AdmitFault::Inval)
    } else if raw.who.is_none() {
        Some(AdmitFault::BadOwner)
    } else {
        None
    }
}

/// The first fault of an ACL, if any.
fn refusal(raws: &[Raw]) -> Option<AdmitFault>
    ensures { result ≡ first_fault raws.now }
{
    if raws.len() > MAX_KEPT {
        return Some(AdmitFault::NoSpc);
    }
    for raw in raws {
        if let Some(fault) = fault(raw) {
            return Some(fault);
        }
    }
    None
}

/// The ACE that is set on an object of this type.
fn entry(raw: &Raw, kind: Kind) -> Option<Entry>
    ensures { result ≡ entry_of kind raw.now }
{
    let entry = Entry {
        kind: EntryKind::from_number(raw.kind)?,
        flags: raw.flags,
        mask: raw.mask,
        who: raw.who?,
    };
    if kind == Kind::Directory {
        Some(entry)
    } else if entry.is_inherit_only() {
        None
    } else {
        Some(settled(&entry))
    }
}

/// The ACL that is set on an object of this type, over `alloc`: a client's ACL, checked (RFC 8881, sections 6.2.1 and
/// 6.4.1.2).
///
/// An ACL is refused for its first fault in this order. First: it has more than [`MAX_KEPT`] ACEs (`NoSpc`). Then, for
/// each ACE in order: a type above 3 (`AttrNotSupp`), flags above 0xff or an undefined mask bit (`Inval`), an unknown
/// principal (`BadOwner`). Inheritance flags are accepted on objects of every type. On a file or a link, INHERIT_ONLY
/// ACEs are left out, and FILE_INHERIT, DIRECTORY_INHERIT and NO_PROPAGATE are cleared. IDENTIFIER_GROUP is kept, also
/// on OWNER@, GROUP@ and EVERYONE@, where it means nothing. `Memory` is returned only for an ACL that has no fault.
pub fn admit<A: Allocator>(alloc: A, raws: &[Raw], kind: Kind) -> Result<AclList<A>, AdmitFault>
    ensures refused { (fault : AdmitFault) → first_fault raws.now ≡ Some fault → result ≡ Err fault }
    ensures taken { first_fault raws.now ≡ None →
        MatchResult result (λ new. new ≡ admitted kind raws.now) (λ fault. fault ≡ Memory) }
    ensures bounded { IfOk result IsBounded }
{
    if let Some(fault) = refusal(raws) {
        return Err(fault);
    }
    faultless(alloc, raws, kind)
}

/// The ACL of ACEs that have no fault.
fn faultless<A: Allocator>(alloc: A, raws: &[Raw], kind: Kind) -> Result<AclList<A>, AdmitFault>
    requires { length raws.now ≤ 59 }
    ensures taken { MatchResult result (λ new. new ≡ admitted kind raws.now) (λ fault. fault ≡ Memory) }
    ensures bounded { IfOk result IsBounded }
{
    admitted_of(alloc, raws, kind).map_err(|_| AdmitFault::Memory)
}

fn admitted_of<A: Allocator>(alloc: A, raws: &[Raw], kind: Kind) -> Result<AclList<A>, AllocError>
    ensures { IfOk result (λ new. new ≡ admitted kind raws.now) }
{
    let mut new = AclList::new(alloc);
    for raw in raws {
        if let Some(entry) = entry(raw, kind) {
            new.push(entry)?;
        }
    }
    Ok(new)
}

/// Whether the ACE that is set on an object of this type is of the part. True if no ACE is set.
fn becomes_of(raw: &Raw, kind: Kind, part: Part) -> bool
    ensures { result ≡ list_all (is_of part) (cons_option (entry_of kind raw.now) []) }
{
    match entry(raw, kind) {
        Some(entry) => part.has(&entry),
        None => true,
    }
}

/// Whether each ACE of the ACL that is set on an object of this type is of the part.
fn become_of(raws: &[Raw], kind: Kind, part: Part) -> bool
    ensures { result ≡ list_all (is_of part) (admitted kind raws.now) }
{
    raws.iter().all(|raw| becomes_of(raw, kind, part))
}

/// The dacl or sacl that is set on an object of this type, over `alloc`: a client's part, checked (RFC 8881, sections
/// 6.2.2 and 6.2.3).
///
/// It is checked as by [`admit`]. After that, an ACE of the other part among those that are set is refused (`Inval`).
/// The type of an ACE that is left out doesn't count. `Memory` is returned only for a part that has no fault.
pub fn admit_part<A: Allocator>(
    alloc: A,
    raws: &[Raw],
    kind: Kind,
    part: Part,
) -> Result<AclList<A>, AdmitFault>
    ensures refused { (fault : AdmitFault) → part_fault part kind raws.now ≡ Some fault → result ≡ Err fault }
    ensures taken { part_fault part kind raws.now ≡ None →
        MatchResult result (λ new. new ≡ admitted kind raws.now) (λ fault. fault ≡ Memory) }
    ensures bounded { IfOk result IsBounded }
{
    if let Some(fault) = refusal(raws) {
        return Err(fault);
    }
    if !become_of(raws, kind, part) {
        return Err(AdmitFault::Inval);
    }
    faultless(alloc, raws, kind)
}
