//! The operations' rows: number, name, place in a COMPOUND, and what they may do.
ghost use Rattle.std.specs.Prelude.{◌≡◌, ◌≤◌, length, IfSome};
ghost use Rattle.std.specs.Option.{option_copied};
ghost use Rattle.nfs_ops.specs.Names as names;
ghost use Rattle.nfs_ops.specs.Rows.{kind_at};

use crate::{OpKind, rows};

/// The place of an operation in a COMPOUND (RFC 8881, sections 2.10.2.1, 2.10.6 and 18.46).
#[derive(Clone, Copy, PartialEq, Eq)]
pub enum Placement {
    /// Anywhere, with a session or without one.
    Anywhere,
    /// Only after a SEQUENCE.
    InSession,
    /// The first operation: SEQUENCE.
    First,
    /// The only operation.
    Alone,
}

/// The number in the row of an operation.
macro_rules! number {
    (
        $kind:expr;
        $($row:ident $(($arguments:ident))? $number:ident $name:literal $place:ident $(($given:ident))?,)*
    ) => {
        match $kind {
            $(OpKind::$row => $crate::$number,)*
        }
    };
}

/// The operation in the row with a number, if any.
macro_rules! kind {
    (
        $of:expr;
        $($row:ident $(($arguments:ident))? $number:ident $name:literal $place:ident $(($given:ident))?,)*
    ) => {
        match $of {
            $($crate::$number => Some(OpKind::$row),)*
            _ => None,
        }
    };
}

/// The name in the row of an operation.
macro_rules! name {
    (
        $kind:expr;
        $($row:ident $(($arguments:ident))? $number:ident $name:literal $place:ident $(($given:ident))?,)*
    ) => {
        match $kind {
            $(OpKind::$row => $name,)*
        }
    };
}

/// The place in the row of an operation.
macro_rules! placement {
    (
        $kind:expr;
        $($row:ident $(($arguments:ident))? $number:ident $name:literal $place:ident $(($given:ident))?,)*
    ) => {
        match $kind {
            $(OpKind::$row => Placement::$place,)*
        }
    };
}

impl OpKind {
    ghost use Rattle.nfs_ops.specs.Rows.{row};

    /// The number of the operation.
    pub fn number(self) -> u32
        ensures { result ≡ (row self).number }
    {
        rows!(number, self)
    }

    /// The operation with this number. `None`: this server doesn't have it.
    #[tactic(auto, unfolding(crate::specs::Rows::kind_at))]
    pub fn of_number(number: u32) -> Option<OpKind>
        ensures { result ≡ kind_at number }
    {
        rows!(kind, number)
    }

    /// The name of the operation, in capitals and without the standard's `OP_`: ASCII, at most 20 bytes.
    pub fn name(self) -> &'static [u8]
        ensures name { result.now ≡ (row self).name }
        ensures short { length result.now ≤ 20 }
    {
        rows!(name, self)
    }

    /// The place of the operation in a COMPOUND.
    pub fn placement(self) -> Placement
        ensures { result ≡ (row self).placement }
    {
        rows!(placement, self)
    }
}

/// The name of the operation with this number, in capitals and without the standard's `OP_` (RFC 8881, section 18):
/// ASCII, at most 20 bytes. `None`: this server doesn't have the operation.
pub fn operation_name(op: u32) -> Option<&'static [u8]>
    ensures name { option_copied result ≡ names.operation_name op }
    ensures short { IfSome result (λ name. length name.now ≤ 20) }
{
    let kind = OpKind::of_number(op)?;
    Some(kind.name())
}
