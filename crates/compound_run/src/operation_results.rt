//! Results that are written straight into the reply buffer.
ghost use Rattle.std.specs.Prelude.{◌≡◌, ◌+◌, ◌≤◌, length};
ghost use Rattle.xdr_wire.specs.Buffer.{Appends};
ghost use Rattle.nfs_ops.specs.Results.{refused, refusal};
ghost use Rattle.nfs_ops.specs.Sizes.{most};
ghost use Rattle.nfs_ops.specs.ResultViews.{result_view};
ghost use Rattle.compound_run.specs.Limits as limits;
ghost use Rattle.compound_run.specs.Runs.{spelled};

use nfs_ops::{OpResult, refusals_are_short, results_are_bounded, write_refusal, write_result};
use nfs_types::Status;
use std::alloc::Allocator;
use xdr_wire::Writer;

/// Writes the result of an operation that is OK: one that carries no bytes of an object. The room must suffice for it.
#[tactic(auto, unfolding(crate::specs::Runs::spelled))]
pub(crate) fn put_result<A: Allocator>(given: OpResult<'_>, out: &mut Writer<A>)
    requires short { most (result_view given) ≤ limits.MIN_ROOM }
    requires room { limits.MIN_ROOM ≤ out.old.room }
    ensures written { Appends out.old out.new (spelled (result_view given.entry)) }
    ensures within { length out.new.bytes ≤ length out.old.bytes + limits.MIN_ROOM }
{
    results_are_bounded();
    write_result(given, out).unwrap();
}

/// Writes the refusal of the operation of this number. The room must suffice for it.
#[tactic(auto, unfolding(crate::specs::Runs::spelled))]
pub(crate) fn put_refusal<A: Allocator>(number: u32, status: Status, out: &mut Writer<A>)
    requires { limits.REFUSAL_ROOM ≤ out.old.room }
    ensures written { Appends out.old out.new (spelled (refused number (refusal status))) }
    ensures within { length out.new.bytes ≤ length out.old.bytes + limits.REFUSAL_ROOM }
{
    results_are_bounded();
    refusals_are_short();
    write_refusal(number, status, out).unwrap();
}
