//! Reading results.
ghost use Rattle.std.specs.Prelude.{◌≡◌, ◌==◌, option_map, Some, length};
ghost use Rattle.xdr_wire.specs.Reading.{Gives};
ghost use Rattle.nfs_types.specs.Status.{number_of};
ghost use Rattle.nfs_types.specs.Views.{bitmap_value};
ghost use Rattle.nfs_ops.specs.ResultReading.{result_at, done_at, done_of, outcome_conforms};
ghost use Rattle.nfs_ops.specs.ResultReading.{setattr_refused, refused_from, refused_at, refusal_at};
ghost use Rattle.nfs_ops.specs.ResultReading.{outcome_after_status};
ghost use Rattle.nfs_ops.specs.ReadsAs.{IsDone, IsSpelled};
ghost use Rattle.nfs_ops.specs.Rows.{row};
ghost use Rattle.nfs_ops.specs.Views.{read_view};

use crate::exchange_id::SERVER_NAME;
use crate::{OP_SETATTR, OpKind, OpResult, rows};
use nfs_types::{Bitmap, StateId, Status};
use xdr_wire::{Reader, Wire, XdrFault};

/// The status with this number (section 15.1). `None`: no status has the number, or it is OK.
#[tactic(auto, unfolding(crate::specs::ResultReading::refusal_at))]
fn refusal_of(number: u32) -> Option<Status>
    ensures { option_map number_of result ≡ refusal_at number }
{
    if number == 0 {
        return None;
    }
    Status::of_number(number)
}

/// Reads the result of an operation of this kind. `make` makes the whole result of it.
fn read_as<'a, T: Wire<'a>, F: FnOnce(T) -> OpResult<'a> + Drop>(
    kind: OpKind,
    make: F,
    reader: &mut Reader<'a>,
) -> Result<OpResult<'a>, XdrFault>
    requires callable { F.IsAlwaysCallable make }
    requires gives { (row kind).gives ≡ record { form = T.form; normal = T.normal } }
    requires makes { (x : T) (outcome : OpResult) → F.post make x outcome →
        IsDone kind (record { form = T.form; normal = T.normal; value = T.view x }) (read_view outcome) }
    ensures { IsSpelled kind reader.old reader.new result }
{
    match Wire::read(reader) {
        Ok(given) => Ok(make(given)),
        Err(fault) => Err(fault),
    }
}

/// Reads the result in a row, if it has one.
macro_rules! given {
    ($row:ident $given:ident, $reader:expr) => { read_as(OpKind::$row, OpResult::$row, $reader) };
    ($row:ident, $reader:expr) => { read_as(OpKind::$row, |()| OpResult::$row, $reader) };
}

/// Reads the result in the row of a kind.
macro_rules! given_of {
    (
        $kind:expr, $reader:expr;
        $($row:ident $(($arguments:ident))? $number:ident $name:literal $place:ident $(($given:ident))?,)*
    ) => {
        match $kind {
            $(OpKind::$row => given!($row $($given)?, $reader),)*
        }
    };
}

/// Decodes a result by the form of the operation's result.
fn read_spelled<'a>(kind: OpKind, reader: &mut Reader<'a>) -> Result<OpResult<'a>, XdrFault>
    ensures { IsSpelled kind reader.old reader.new result }
{
    rows!(given_of, kind, reader)
}

/// Whether a result has the values that rules fix. CLOSE has the invalid stateid. EXCHANGE_ID has this server's name
/// twice. SEQUENCE has the highest slot that is granted as its target.
fn conforms(outcome: &OpResult<'_>) -> bool
    ensures { result ≡ outcome_conforms (read_view outcome.now) }
{
    match outcome {
        OpResult::Close(given) => given.stateid == StateId::closed(),
        OpResult::ExchangeId(given) => given.server.bytes == SERVER_NAME
            && given.scope.bytes == SERVER_NAME,
        OpResult::Sequence(given) => given.target == given.highest,
        _ => true,
    }
}

/// Reads the result of an operation.
#[tactic(auto, unfolding(crate::specs::ResultReading::done_of, crate::specs::ReadsAs::IsSpelled))]
fn read_done<'a>(kind: OpKind, reader: &mut Reader<'a>) -> Result<OpResult<'a>, XdrFault>
    ensures { Gives read_view reader.old reader.new result (done_of kind reader.old) }
{
    let mut ahead = reader.fork();
    let outcome = read_spelled(kind, &mut ahead)?;
    if !conforms(&outcome) {
        return Err(XdrFault::BadChoice);
    }
    *reader = ahead;
    Ok(outcome)
}

/// Reads the result of the operation with this number.
#[tactic(auto, unfolding(crate::specs::ResultReading::done_at))]
fn read_numbered<'a>(number: u32, reader: &mut Reader<'a>) -> Result<OpResult<'a>, XdrFault>
    ensures { Gives read_view reader.old reader.new result (done_at number reader.old) }
{
    match OpKind::of_number(number) {
        Some(kind) => read_done(kind, reader),
        None => Err(XdrFault::BadChoice),
    }
}

/// Whether a set is empty.
fn is_empty(set: &Bitmap) -> bool
    ensures { result ≡ (length (bitmap_value set.now) == 0) }
{
    *set == Bitmap::empty()
}

/// Reads the bitmap of a SETATTR that is refused, which must be empty.
fn read_refused_setattr<'a>(
    status: Status,
    reader: &mut Reader<'a>,
) -> Result<OpResult<'a>, XdrFault>
    ensures { Gives read_view reader.old reader.new result (setattr_refused (number_of status) reader.old) }
{
    let mut ahead = reader.fork();
    let set: Bitmap = Wire::read(&mut ahead)?;
    if !is_empty(&set) {
        return Err(XdrFault::BadChoice);
    }
    *reader = ahead;
    Ok(OpResult::Refused(OP_SETATTR, status))
}

/// Reads the rest of a refusal: the bitmap of SETATTR, else nothing.
fn read_after_refusal<'a>(
    number: u32,
    status: Status,
    reader: &mut Reader<'a>,
) -> Result<OpResult<'a>, XdrFault>
    ensures { Gives read_view reader.old reader.new result (refused_from number reader.old (Some (number_of status))) }
{
    match number {
        OP_SETATTR => read_refused_setattr(status, reader),
        _ => Ok(OpResult::Refused(number, status)),
    }
}

/// Reads the bytes after a status other than OK.
#[tactic(auto, unfolding(crate::specs::ResultReading::refused_at))]
fn read_refused<'a>(
    number: u32,
    status: u32,
    reader: &mut Reader<'a>,
) -> Result<OpResult<'a>, XdrFault>
    ensures { Gives read_view reader.old reader.new result (refused_at number status reader.old) }
{
    match refusal_of(status) {
        Some(status) => read_after_refusal(number, status, reader),
        None => Err(XdrFault::BadChoice),
    }
}

/// Reads the bytes after a status.
#[tactic(auto, unfolding(crate::specs::ResultReading::outcome_after_status))]
fn read_after_status<'a>(
    number: u32,
    status: u32,
    reader: &mut Reader<'a>,
) -> Result<OpResult<'a>, XdrFault>
    ensures { Gives read_view reader.old reader.new result (outcome_after_status number status reader.old) }
{
    match status {
        0 => read_numbered(number, reader),
        _ => read_refused(number, status, reader),
    }
}

/// Reads a result, as a client does. A fault leaves the reader at the beginning of the result. Besides what the forms
/// refuse, these are `BadChoice`:
///
/// - no operation has the number of a result that is OK, or no status that of one that isn't;
/// - CLOSE returns another stateid than the invalid one (section 18.2.4);
/// - EXCHANGE_ID returns another server owner or another scope than this server's (2.5, 2.10.4);
/// - SEQUENCE returns another target than the highest slot that it grants (18.46.3);
/// - SETATTR is refused, and its bitmap isn't empty (18.30.3).
///
/// Only the record bounds the bytes of READ and the text of READLINK.
#[tactic(auto, unfolding(crate::specs::ResultReading::result_at))]
pub fn read_result<'a>(reader: &mut Reader<'a>) -> Result<OpResult<'a>, XdrFault>
    ensures { Gives read_view reader.old reader.new result (result_at reader.old) }
{
    let mut ahead = reader.fork();
    let number = ahead.u32()?;
    let status = ahead.u32()?;
    let outcome = read_after_status(number, status, &mut ahead)?;
    *reader = ahead;
    Ok(outcome)
}
