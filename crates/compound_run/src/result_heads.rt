//! The head of a COMPOUND's results, and results that are known beforehand (RFC 8881, section 16.2).
ghost use Rattle.std.specs.Prelude.{◌+◌, ◌≤◌, length};
ghost use Rattle.xdr_wire.specs.Buffer.{Appends};
ghost use Rattle.compound_run.specs.Compound.{head};
ghost use Rattle.compound_run.specs.InSession.{refused_alone};
ghost use Rattle.compound_run.specs.Limits as limits;
ghost use Rattle.compound_run.specs.internal.SessionViews.{Writes};

use crate::compound::{put_tag, put_word};
use crate::operation_results::put_refusal;
use nfs_types::Status;
use std::alloc::Allocator;
use xdr_wire::Writer;

/// Writes a status, a tag and the number of results that follow.
pub(crate) fn put_head<A: Allocator>(status: Status, tag: &[u8], count: u32, out: &mut Writer<A>)
    requires short { length tag.now ≤ limits.MAX_TAG }
    requires room { 1036 ≤ out.old.room }
    ensures written { Appends out.old out.new (head status tag.now count) }
    ensures within { length out.new.bytes ≤ length out.old.bytes + 1036 }
{
    put_word(out, status.number());
    put_tag(out, tag);
    put_word(out, count);
}

/// Appends to `out` the answer of a COMPOUND that runs no operation.
pub(crate) fn put_ended<A: Allocator>(tag: &[u8], status: Status, out: &mut Writer<A>)
    requires short { length tag.now ≤ limits.MAX_TAG }
    requires room { limits.MAX_RESULTS ≤ out.old.room }
    ensures { Writes limits.MAX_RESULTS (head status tag.now 0) out.old out.new }
{
    put_head(status, tag, 0, out);
}

/// Appends to `out` the answer of a COMPOUND whose first operation, of this number, is refused.
pub(crate) fn put_refused<A: Allocator>(
    tag: &[u8],
    number: u32,
    status: Status,
    out: &mut Writer<A>,
)
    requires short { length tag.now ≤ limits.MAX_TAG }
    requires room { limits.MAX_RESULTS ≤ out.old.room }
    ensures { Writes limits.MAX_RESULTS (refused_alone tag.now number status) out.old out.new }
{
    put_head(status, tag, 1, out);
    put_refusal(number, status, out);
}

/// Appends cached results to `out`.
pub(crate) fn put_cached<A: Allocator>(results: &[u8], out: &mut Writer<A>)
    requires few { length results.now ≤ limits.MAX_RESULTS }
    requires room { limits.MAX_RESULTS ≤ out.old.room }
    ensures { Writes limits.MAX_RESULTS results.now out.old out.new }
{
    let end = out.capacity() - (out.room() - results.len());
    out.put_fixed(results).unwrap();
    out.truncate(end);
}
