//! An operation with its arguments.
ghost use Rattle.std.specs.Prelude.{◌≡◌};
ghost use Rattle.nfs_ops.specs.Operations.{kind_in, number_of, placement_of};

use crate::op_kind::Placement;
use crate::{Op, OpKind, rows};

/// OP_ILLEGAL, the number in the result for a missing number and for a number that isn't any operation's.
pub(crate) const OP_ILLEGAL: u32 = 10_044;

/// The number in the row of an operation, or the number of an entry that isn't an operation.
macro_rules! number {
    ($op:expr; $($row:ident $(($arguments:ident))? $number:ident $name:literal $place:ident $(($given:ident))?,)*) => {
        match $op {
            $(Op::$row { .. } => $crate::$number,)*
            Op::Unsupported(number) | Op::Bad(number) => *number,
            Op::Illegal => OP_ILLEGAL,
        }
    };
}

/// The operation without its arguments; none for an entry that isn't an operation.
macro_rules! kind {
    ($op:expr; $($row:ident $(($arguments:ident))? $number:ident $name:literal $place:ident $(($given:ident))?,)*) => {
        match $op {
            $(Op::$row { .. } => Some(OpKind::$row),)*
            Op::Unsupported(_) | Op::Illegal | Op::Bad(_) => None,
        }
    };
}

impl<'a> Op<'a> {
    ghost use Rattle.nfs_ops.specs.Views.{op_view};

    /// The number in the result.
    pub fn number(&self) -> u32
        ensures { result ≡ number_of (op_view self.now) }
    {
        rows!(number, self)
    }

    /// The operation without its arguments. `None`: this isn't an operation that can be run.
    pub fn kind(&self) -> Option<OpKind>
        ensures { result ≡ kind_in (op_view self.now) }
    {
        rows!(kind, self)
    }

    /// The place of the operation in a COMPOUND. `None`: this isn't an operation that can be run.
    pub fn placement(&self) -> Option<Placement>
        ensures { result ≡ placement_of (op_view self.now) }
    {
        let kind = self.kind()?;
        Some(kind.placement())
    }
}
