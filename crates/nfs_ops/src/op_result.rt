//! The result of an operation.
ghost use Rattle.std.specs.Prelude.{◌≡◌};
ghost use Rattle.nfs_types.specs.Status as statuses;
ghost use Rattle.nfs_ops.specs.Results.{outcome_number, outcome_status};
ghost use Rattle.nfs_ops.specs.ResultViews.{read_view};

use crate::{OpResult, rows};
use nfs_types::Status;

/// The number in the row of a result, or that of a refusal.
macro_rules! number {
    (
        $outcome:expr;
        $($row:ident $(($arguments:ident))? $number:ident $name:literal $place:ident $(($given:ident))?,)*
    ) => {
        match $outcome {
            $(OpResult::$row { .. } => $crate::$number,)*
            OpResult::Refused(number, _) => *number,
        }
    };
}

impl OpResult<'_> {
    /// The number of the operation.
    pub fn number(&self) -> u32
        ensures { result ≡ outcome_number (read_view self.now) }
    {
        rows!(number, self)
    }

    /// The status of the operation.
    pub fn status(&self) -> Status
        ensures { statuses.number_of result ≡ outcome_status (read_view self.now) }
    {
        match self {
            OpResult::Refused(_, status) => *status,
            _ => Status::Ok,
        }
    }
}
