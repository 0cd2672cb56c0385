//! Writing operations.
ghost use Rattle.std.specs.Prelude.{◌≡◌, OnOk};
ghost use Rattle.xdr_wire.specs.Buffer.{Puts};
ghost use Rattle.nfs_ops.specs.Items.{ItemHasSpelling, ItemIsNormal, item_spelling, numbered, number as lone};
ghost use Rattle.nfs_ops.specs.Operations.{op_item};
ghost use Rattle.nfs_ops.specs.Views.{op_view};
ghost use Rattle.nfs_ops.specs.Writing.{IsWritten};

use crate::operation::OP_ILLEGAL;
use crate::{Op, rows};
use std::alloc::Allocator;
use xdr_wire::{Full, Spell, Writer};

/// Writes a number alone.
#[tactic(auto, unfolding(crate::specs::Writing::IsWritten))]
fn put_number<A: Allocator>(number: u32, writer: &mut Writer<A>) -> Result<(), Full>
    ensures { IsWritten (lone number) writer.old writer.new result }
{
    number.write(writer)
}

/// Writes a number, and a value after it.
#[tactic(auto, unfolding(crate::specs::Writing::IsWritten))]
fn put<T: Spell, A: Allocator>(number: u32, value: T, writer: &mut Writer<A>) -> Result<(), Full>
    ensures { IsWritten (numbered number (record { form = T.form; normal = T.normal }) (T.view value)) writer.old
        writer.new result }
{
    (number, value).write(writer)
}

/// Writes the number in the row of an operation with its arguments, or the number of an entry that isn't an operation.
macro_rules! written {
    (
        $op:expr, $writer:expr;
        $($row:ident $(($arguments:ident))? $number:ident $name:literal $place:ident $(($given:ident))?,)*
    ) => {
        match $op {
            $(Op::$row$(($arguments))? => put($crate::$number, ($($arguments)?), $writer),)*
            Op::Unsupported(number) => put_number(number, $writer),
            Op::Illegal => put_number(OP_ILLEGAL, $writer),
            Op::Bad(number) => put_number(number, $writer),
        }
    };
}

/// Writes an operation by its row.
fn put_op<A: Allocator>(op: Op, writer: &mut Writer<A>) -> Result<(), Full>
    ensures { IsWritten (op_item (op_view op.entry)) writer.old writer.new result }
{
    rows!(written, op, writer)
}

/// Writes an operation: its number and its arguments. For an operation that isn't supported, is illegal or is bad, it
/// writes only the number, since only that was read. `Full`: exactly if the room is less than that takes; then nothing
/// is written.
#[tactic(auto, unfolding(crate::specs::Writing::IsWritten))]
pub fn write_op<A: Allocator>(op: Op, writer: &mut Writer<A>) -> Result<(), Full>
    ensures has_spelling { OnOk result (ItemHasSpelling (op_item (op_view op.entry))) }
    ensures in_normal_form { OnOk result (ItemIsNormal (op_item (op_view op.entry))) }
    ensures puts { Puts writer.old writer.new (item_spelling (op_item (op_view op.entry))) result }
{
    put_op(op, writer)
}
