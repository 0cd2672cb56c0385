//! The beginning of a COMPOUND with sessions (RFC 8881, sections 2.10.6.2 to 2.10.6.4 and 16.2).
ghost use Rattle.std.specs.Prelude.{◌≡◌};
ghost use Rattle.nfs_ops.specs.Operations.{number_of};
ghost use Rattle.nfs_ops.specs.OpViews.{op_view};
ghost use Rattle.compound_run.specs.Beginning as specs;
ghost use Rattle.compound_run.specs.SessionViews.{lone_view};
ghost use Rattle.compound_run.specs.internal.SessionViews.{beginning_view};

use crate::limits::MINOR_VERSION;
use nfs_ops::{
    CreateSessionArgs, DestroyClientIdArgs, DestroySessionArgs, ExchangeIdArgs, Op, SequenceArgs,
    next_op,
};
use nfs_types::Status;
use xdr_wire::Reader;

/// An operation that is the only one of its COMPOUND.
#[derive(Drop)]
pub(crate) enum Lone<'a> {
    ExchangeId(ExchangeIdArgs<'a>),
    CreateSession(CreateSessionArgs<'a>),
    DestroySession(DestroySessionArgs),
    DestroyClientId(DestroyClientIdArgs),
}

/// The beginning of a COMPOUND.
#[derive(Drop)]
pub(crate) enum Beginning<'a> {
    /// No operation runs, and this is the COMPOUND's status.
    Ends(Status),
    /// The first operation, of this number, is refused.
    Refuses(u32, Status),
    /// The operation is the only one.
    Acts(Lone<'a>),
    /// SEQUENCE, and the bytes of the operations after it.
    Follows(SequenceArgs, &'a [u8]),
}

/// The beginning with this operation, which must be the only one of `count` operations.
fn only(count: u32, number: u32, lone: Lone<'_>) -> Beginning<'_>
    requires { number ≡ number_of (lone_view lone) }
    ensures { beginning_view result ≡ specs.only count (lone_view lone.entry) }
{
    if count > 1 {
        return Beginning::Refuses(number, Status::NotOnlyOp);
    }
    Beginning::Acts(lone)
}

/// The beginning of a COMPOUND of `count` operations, from the first of them and the bytes after it.
fn begin_with<'a>(count: u32, op: Op<'a>, rest: &'a [u8]) -> Beginning<'a>
    ensures { beginning_view result ≡ specs.beginning_with count (op_view op.entry) rest.now }
{
    let number = op.number();
    match op {
        Op::Sequence(args) => Beginning::Follows(args, rest),
        Op::ExchangeId(args) => only(count, number, Lone::ExchangeId(args)),
        Op::CreateSession(args) => only(count, number, Lone::CreateSession(args)),
        Op::DestroySession(args) => only(count, number, Lone::DestroySession(args)),
        Op::DestroyClientId(args) => only(count, number, Lone::DestroyClientId(args)),
        Op::Unsupported(_) => Beginning::Refuses(number, Status::NotSupp),
        Op::Illegal => Beginning::Refuses(number, Status::OpIllegal),
        Op::Bad(_) => Beginning::Refuses(number, Status::BadXdr),
        _ => Beginning::Refuses(number, Status::OpNotInSession),
    }
}

/// The beginning of a COMPOUND of this minor version, with `count` operations in these bytes.
pub(crate) fn begin(minor_version: u32, count: u32, operations: &[u8]) -> Beginning<'_>
    ensures { beginning_view result ≡ specs.beginning minor_version count operations.now }
{
    if minor_version != MINOR_VERSION {
        return Beginning::Ends(Status::MinorVersMismatch);
    }
    if count == 0 {
        return Beginning::Ends(Status::Ok);
    }
    let mut reader = Reader::new(operations);
    let op = next_op(&mut reader);
    begin_with(count, op, reader.rest())
}
