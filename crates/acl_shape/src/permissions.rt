//! The access control list (ACL) of an object and the high bits of its mode, at creation and after a change.
ghost use Rattle.std.specs.Prelude.{◌≡◌, IfOk, IfSome, IsOk, IsSome};
ghost use Rattle.acl_shape.specs.Bounds.{IsBounded};
ghost use Rattle.acl_shape.specs.Permissions.{changed_high, changed_acl, created_high, created_acl, default_acl};
ghost use Rattle.acl_shape.specs.Permissions.{high_bits};
ghost use Rattle.acl_shape.specs.Permissions as specs;

use crate::inheriting::inherit;
use crate::modes::set_mode;
use acl_list::{AclList, Kind};
use std::alloc::{AllocError, Allocator, Global};

/// The bits of a mode that no access control entry (ACE) represents: MODE4_SUID, MODE4_SGID and MODE4_SVTX (RFC 8881,
/// section 6.2.4).
const HIGH_BITS: u32 = 0o7000;

/// The mode and the ACL that a client gives.
#[derive(Drop)]
pub struct Given<A: Allocator = Global> {
    /// A mode. Only its lowest twelve bits count.
    pub mode: Option<u32>,
    /// An ACL as [`crate::admit`] returns it, for an object of the same type.
    pub list: Option<AclList<A>>,
}

/// The ACL of an object and the high bits of its mode.
#[derive(Drop)]
pub struct Permissions<A: Allocator = Global> {
    /// The ACL, which gives the lowest nine bits of the mode.
    pub list: AclList<A>,
    /// The bits 0o7000 of the mode.
    pub high: u32,
}

/// The mode of an object that is created with no mode, no ACL and nothing inherited.
fn default_mode(kind: Kind) -> u32
    ensures { result ≡ specs.default_mode kind }
{
    match kind {
        Kind::Directory => 0o700,
        Kind::File | Kind::Link => 0o600,
    }
}

/// The ACL of a new object if neither a mode nor an ACL is given.
fn acl_by_default<A: Allocator + Copy>(
    alloc: A,
    inherited: AclList<A>,
    kind: Kind,
) -> Result<AclList<A>, AllocError>
    ensures { IfOk result (λ list. list ≡ default_acl kind inherited) }
{
    if inherited.is_empty() {
        set_mode(alloc, &inherited, kind, default_mode(kind))
    } else {
        Ok(inherited)
    }
}

/// The ACL of a new object.
fn acl_of_new<A: Allocator + Copy, B: Allocator>(
    alloc: A,
    parent: &AclList<B>,
    kind: Kind,
    given: Given<A>,
) -> Result<AclList<A>, AllocError>
    ensures value { IfOk result (λ list. list ≡ created_acl parent.now kind given.mode given.list) }
    ensures given { IsSome given.list → IsOk result }
{
    match (given.mode, given.list) {
        (_, Some(list)) => Ok(list),
        (Some(mode), None) => set_mode(alloc, &inherit(alloc, parent, kind)?, kind, mode),
        (None, None) => acl_by_default(alloc, inherit(alloc, parent, kind)?, kind),
    }
}

/// The ACL and the high bits of a new object of this type in a directory with this ACL (RFC 8881, section 6.4.3).
///
/// | Given | The ACL |
/// |---|---|
/// | a mode | the inherited ACL, with that mode set |
/// | an ACL, or both | the given ACL |
/// | neither | the inherited ACL; if that is empty, the ACL for the mode 0o600, on a directory 0o700 |
///
/// The high bits are those of the mode, and 0 if none is given. `Err`: the allocation of the ACL fails. If an ACL is
/// given, nothing is allocated.
pub fn created_permissions<A: Allocator + Copy, B: Allocator>(
    alloc: A,
    parent: &AclList<B>,
    kind: Kind,
    given: Given<A>,
) -> Result<Permissions<A>, AllocError>
    ensures list { IfOk result (λ made. made.list ≡ created_acl parent.now kind given.mode given.list) }
    ensures high { IfOk result (λ made. made.high ≡ created_high given.mode) }
    ensures bounded { IsBounded parent.now → IfSome given.list IsBounded → IfOk result (λ made. IsBounded made.list) }
    ensures given { IsSome given.list → IsOk result }
{
    let high = given.mode.map_or(0, |mode| mode & HIGH_BITS);
    let list = acl_of_new(alloc, parent, kind, given)?;
    Ok(Permissions { list, high })
}

/// The ACL of an object after a mode, an ACL or both are set.
fn list_after<A: Allocator, B: Allocator>(
    alloc: A,
    list: &AclList<B>,
    kind: Kind,
    given: Given<A>,
) -> Result<AclList<A>, AllocError>
    ensures value { IfOk result (λ after. after ≡ changed_acl list.now kind given.mode given.list) }
    ensures given { IsSome given.list → IsOk result }
{
    match (given.mode, given.list) {
        (_, Some(new)) => Ok(new),
        (Some(mode), None) => set_mode(alloc, list, kind, mode),
        (None, None) => list.clone_in(alloc),
    }
}

/// The ACL and the high bits of an object of this type after a mode, an ACL or both are set (RFC 8881, section 6.4.1).
/// `list` and `high` are those from before.
///
/// | Given | The ACL | The high bits |
/// |---|---|---|
/// | a mode | the old ACL with that mode set | the mode's |
/// | an ACL | the given ACL | unchanged |
/// | both | the given ACL | the mode's |
/// | neither | unchanged | unchanged |
///
/// `Err`: the allocation of the ACL fails. If an ACL is given, nothing is allocated.
pub fn changed_permissions<A: Allocator + Copy, B: Allocator>(
    alloc: A,
    list: &AclList<B>,
    high: u32,
    kind: Kind,
    given: Given<A>,
) -> Result<Permissions<A>, AllocError>
    ensures list { IfOk result (λ now. now.list ≡ changed_acl list.now kind given.mode given.list) }
    ensures high { IfOk result (λ now. now.high ≡ changed_high high given.mode) }
    ensures bounded { IsBounded list.now → IfSome given.list IsBounded → IfOk result (λ now. IsBounded now.list) }
    ensures given { IsSome given.list → IsOk result }
{
    let high = given.mode.map_or(high, |mode| mode & HIGH_BITS);
    let list = list_after(alloc, list, kind, given)?;
    Ok(Permissions { list, high })
}
