//! The parts of an access control list (ACL) that are sent: dacl and sacl (RFC 8881, sections 6.2.2 and 6.2.3).
ghost use Rattle.std.specs.Prelude.{◌≡◌, IfOk};
ghost use Rattle.acl_shape.specs.Bounds.{IsBounded};
ghost use Rattle.acl_shape.specs.Parts as specs;
ghost use Rattle.compound_run.specs.Lists.{IsFit};

use acl_list::AclList;
use acl_shape::{CombineFault, with_parts};
use nfs_types::Status;
use std::alloc::Allocator;

/// An ACL with the parts that are sent put into it. `NoSpc`: it would exceed the bounds of an ACL. `Delay`: an
/// allocation fails.
pub(crate) fn put_parts<A: Allocator>(
    alloc: A,
    list: AclList<A>,
    dacl: Option<AclList<A>>,
    sacl: Option<AclList<A>>,
) -> Result<AclList<A>, Status>
    ensures fits { IsFit (specs.parts_fit list dacl sacl) result }
    ensures list { IfOk result (λ new. new ≡ specs.with_parts list dacl sacl) }
    ensures bounded { IsBounded list → IfOk result IsBounded }
{
    with_parts(alloc, list, dacl, sacl).map_err(|fault| match fault {
        CombineFault::NoSpc => Status::NoSpc,
        CombineFault::Memory => Status::Delay,
    })
}
