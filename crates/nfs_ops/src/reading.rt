//! Reading operations.
ghost use Rattle.std.specs.Prelude.{◌≡◌, []};
ghost use Rattle.xdr_wire.specs.Reading.{Gives};
ghost use Rattle.nfs_ops.specs.Operations.{next_at, arguments_at};
ghost use Rattle.nfs_ops.specs.Operations as specs;
ghost use Rattle.nfs_ops.specs.ReadsAs.{IsOperation, IsRead};
ghost use Rattle.nfs_ops.specs.Rows.{row};
ghost use Rattle.nfs_ops.specs.Views.{op_view, after};
ghost use Rattle.nfs_ops.specs.declared.OpKind.TheVariants as kinds;

use crate::operation::OP_ILLEGAL;
use crate::unsupported::{is_exchange_id_unsupported, is_open_unsupported};
use crate::{OP_EXCHANGE_ID, OP_OPEN, Op, OpKind, rows};
use xdr_wire::{Reader, Wire, XdrFault};

/// Reads the arguments of an OPEN.
#[tactic(auto, unfolding(crate::specs::Operations::arguments_of, crate::specs::ReadsAs::IsRead))]
fn read_open<'a>(reader: &mut Reader<'a>) -> Result<Op<'a>, XdrFault>
    ensures { IsRead kinds.Open reader.old reader.new result }
{
    match Wire::read(reader) {
        Ok(arguments) => Ok(Op::Open(arguments)),
        Err(_) if is_open_unsupported(reader) => Ok(Op::Unsupported(OP_OPEN)),
        Err(fault) => Err(fault),
    }
}

/// Reads the arguments of an EXCHANGE_ID.
#[tactic(auto, unfolding(crate::specs::Operations::arguments_of, crate::specs::ReadsAs::IsRead))]
fn read_exchange_id<'a>(reader: &mut Reader<'a>) -> Result<Op<'a>, XdrFault>
    ensures { IsRead kinds.ExchangeId reader.old reader.new result }
{
    match Wire::read(reader) {
        Ok(arguments) => Ok(Op::ExchangeId(arguments)),
        Err(_) if is_exchange_id_unsupported(reader) => Ok(Op::Unsupported(OP_EXCHANGE_ID)),
        Err(fault) => Err(fault),
    }
}

/// The entry for a number without a row.
fn no_operation<'a>(number: u32) -> Op<'a>
    ensures { op_view result ≡ specs.no_operation number }
{
    match number {
        3..=58 => Op::Unsupported(number),
        _ => Op::Illegal,
    }
}

/// Reads the arguments of an operation of this kind. None of its arguments are unsupported. `make` makes the operation
/// of them.
fn read_as<'a, T: Wire<'a>, F: FnOnce(T) -> Op<'a> + Drop>(
    kind: OpKind,
    make: F,
    reader: &mut Reader<'a>,
) -> Result<Op<'a>, XdrFault>
    requires callable { F.IsAlwaysCallable make }
    requires takes { (row kind).takes ≡ record { form = T.form; normal = T.normal } }
    requires supported { (row kind).unsupported ≡ [] }
    requires makes { (x : T) (op : Op) → F.post make x op →
        IsOperation kind (record { form = T.form; normal = T.normal; value = T.view x }) (op_view op) }
    ensures { IsRead kind reader.old reader.new result }
{
    match Wire::read(reader) {
        Ok(arguments) => Ok(make(arguments)),
        Err(fault) => Err(fault),
    }
}

/// Reads the arguments in a row, if any.
macro_rules! arguments {
    (Open arguments, $reader:expr) => { read_open($reader) };
    (ExchangeId arguments, $reader:expr) => { read_exchange_id($reader) };
    ($row:ident $arguments:ident, $reader:expr) => { read_as(OpKind::$row, Op::$row, $reader) };
    ($row:ident, $reader:expr) => { read_as(OpKind::$row, |()| Op::$row, $reader) };
}

/// Reads the arguments in the row of a kind.
macro_rules! arguments_of {
    (
        $kind:expr, $reader:expr;
        $($row:ident $(($arguments:ident))? $number:ident $name:literal $place:ident $(($given:ident))?,)*
    ) => {
        match $kind {
            $(OpKind::$row => arguments!($row $($arguments)?, $reader),)*
        }
    };
}

/// Reads the arguments of an operation.
fn read_arguments<'a>(kind: OpKind, reader: &mut Reader<'a>) -> Result<Op<'a>, XdrFault>
    ensures { IsRead kind reader.old reader.new result }
{
    rows!(arguments_of, kind, reader)
}

/// Reads the arguments of the operation with this number, if this server has it.
#[tactic(auto, unfolding(crate::specs::Operations::arguments_at, crate::specs::ReadsAs::IsRead))]
fn read_numbered<'a>(number: u32, reader: &mut Reader<'a>) -> Result<Op<'a>, XdrFault>
    ensures { Gives op_view reader.old reader.new result (arguments_at number reader.old) }
{
    match OpKind::of_number(number) {
        Some(kind) => read_arguments(kind, reader),
        None => Ok(no_operation(number)),
    }
}

/// Reads the next operation of a COMPOUND (RFC 8881, section 16.2).
#[tactic(auto, unfolding(crate::specs::Operations::next_at))]
pub fn next_op<'a>(reader: &mut Reader<'a>) -> Op<'a>
    ensures { after result reader.new ≡ next_at reader.old }
{
    match reader.u32() {
        Ok(number) => read_numbered(number, reader).unwrap_or(Op::Bad(number)),
        Err(_) => Op::Bad(OP_ILLEGAL),
    }
}
