//! Writing results.
ghost use Rattle.std.specs.Prelude.{◌≡◌, ◌≤◌, ◌+◌, length, OnOk, IsTrue, is_ok};
ghost use Rattle.xdr_wire.specs.Buffer.{Puts};
ghost use Rattle.xdr_wire.specs.Xdr.{spelling};
ghost use Rattle.nfs_ops.specs.Items.{ItemHasSpelling, ItemIsNormal, item_spelling, done as item_of};
ghost use Rattle.nfs_ops.specs.Results.{outcome_item, refused};
ghost use Rattle.nfs_ops.specs.Results as specs;
ghost use Rattle.nfs_ops.specs.Sizes.{most, greatest, plain_size};
ghost use Rattle.nfs_ops.specs.Views.{result_view};
ghost use Rattle.nfs_ops.specs.Writing.{IsWrittenWithin};

use crate::{OP_SETATTR, OpResult, rows};
use nfs_types::{Bitmap, Status};
use std::alloc::Allocator;
use xdr_wire::{Full, Spell, Writer};

/// The number of a refusal's status.
fn refusal(status: Status) -> u32
    ensures { result ≡ specs.refusal status }
{
    match status {
        Status::Ok => Status::ServerFault.number(),
        status => status.number(),
    }
}

/// Proves the length of an array to the prover.
fn is_whole<const N: usize>(bytes: &[u8; N])
    ensures { length bytes.now ≡ N }
{
    let _bytes = *bytes;
}

/// Writes a refusal: the operation with this number has this status. If the status is OK, SERVERFAULT is written in its
/// place. SETATTR has an empty bitmap after its status. `Full`: exactly if the room is less than that takes, at most 12
/// bytes; then nothing is written.
pub fn write_refusal<A: Allocator>(
    number: u32,
    status: Status,
    writer: &mut Writer<A>,
) -> Result<(), Full>
    ensures has_spelling { OnOk result (ItemHasSpelling (outcome_item (refused number (specs.refusal status)))) }
    ensures in_normal_form { OnOk result (ItemIsNormal (outcome_item (refused number (specs.refusal status)))) }
    ensures fits { most (refused number (specs.refusal status)) ≤ writer.old.room → IsTrue (is_ok result) }
    ensures puts { Puts writer.old writer.new (item_spelling (outcome_item (refused number (specs.refusal status))))
        result }
{
    let refusal = refusal(status);
    if number == OP_SETATTR {
        let set = Bitmap::empty();
        (OP_SETATTR, (refusal, set)).write(writer)
    } else {
        (number, refusal).write(writer)
    }
}

/// Writes a refusal, with the contract of the arms of [`put_result`].
#[tactic(auto, unfolding(crate::specs::Writing::IsWrittenWithin))]
fn put_refusal<A: Allocator>(
    number: u32,
    status: Status,
    writer: &mut Writer<A>,
) -> Result<(), Full>
    ensures { IsWrittenWithin (outcome_item (refused number (specs.refusal status)))
        (most (refused number (specs.refusal status))) writer.old writer.new result }
{
    write_refusal(number, status, writer)
}

/// Writes number, status OK and a result that takes no more bytes than its form allows.
fn put<T: Spell, A: Allocator>(number: u32, given: T, writer: &mut Writer<A>) -> Result<(), Full>
    requires { length (spelling T.form (T.view given)) ≤ greatest T.form }
    ensures { IsWrittenWithin (item_of number (record { form = T.form; normal = T.normal }) (T.view given))
        (plain_size + greatest T.form) writer.old writer.new result }
{
    (number, (0u32, given)).write(writer)
}

/// Writes the result in a row, once the prover knows the length of these bytes of it.
macro_rules! whole {
    ($bytes:expr, $number:ident $given:ident, $writer:expr) => {{
        is_whole(&$bytes);
        put($crate::$number, $given, $writer)
    }};
}

/// Writes a result whose length is that of what it carries.
macro_rules! carried {
    ($number:ident $given:ident, $writer:expr) => { ($crate::$number, (0u32, $given)).write($writer) };
}

/// Writes number, status OK and the result in a row, if it has one.
macro_rules! done {
    (Close $number:ident $given:ident, $writer:expr) => { whole!($given.stateid.other, $number $given, $writer) };
    (Open $number:ident $given:ident, $writer:expr) => { whole!($given.stateid.other, $number $given, $writer) };
    (CreateSession $number:ident $given:ident, $writer:expr) => { whole!($given.session, $number $given, $writer) };
    (Sequence $number:ident $given:ident, $writer:expr) => { whole!($given.session, $number $given, $writer) };
    (GetAttr $number:ident $given:ident, $writer:expr) => { carried!($number $given, $writer) };
    (Read $number:ident $given:ident, $writer:expr) => { carried!($number $given, $writer) };
    (ReadDir $number:ident $given:ident, $writer:expr) => { carried!($number $given, $writer) };
    (ReadLink $number:ident $given:ident, $writer:expr) => { carried!($number $given, $writer) };
    ($row:ident $number:ident $($given:ident)?, $writer:expr) => { put($crate::$number, ($($given)?), $writer) };
}

/// Writes the result in the row of an operation that is OK, or a refusal.
macro_rules! done_of {
    (
        $outcome:expr, $writer:expr;
        $($row:ident $(($arguments:ident))? $number:ident $name:literal $place:ident $(($given:ident))?,)*
    ) => {
        match $outcome {
            $(OpResult::$row$(($given))? => done!($row $number $($given)?, $writer),)*
            OpResult::Refused(number, status) => put_refusal(number, status, $writer),
        }
    };
}

/// Writes a result by its row.
fn put_result<A: Allocator>(outcome: OpResult, writer: &mut Writer<A>) -> Result<(), Full>
    ensures { IsWrittenWithin (outcome_item (result_view outcome.entry)) (most (result_view outcome.entry)) writer.old
        writer.new result }
{
    rows!(done_of, outcome, writer)
}

/// Writes a result: its number, its status and, if that is OK, the result of the operation. `Full`: exactly if the room
/// is less than that takes; then nothing is written. It takes at most the bytes that `most` gives. Those are at most
/// 256 for an operation that can change the tree, and at most 12 for a refusal.
#[tactic(auto, unfolding(crate::specs::Writing::IsWrittenWithin))]
pub fn write_result<A: Allocator>(outcome: OpResult, writer: &mut Writer<A>) -> Result<(), Full>
    ensures has_spelling { OnOk result (ItemHasSpelling (outcome_item (result_view outcome.entry))) }
    ensures in_normal_form { OnOk result (ItemIsNormal (outcome_item (result_view outcome.entry))) }
    ensures fits { most (result_view outcome.entry) ≤ writer.old.room → IsTrue (is_ok result) }
    ensures puts { Puts writer.old writer.new (item_spelling (outcome_item (result_view outcome.entry))) result }
{
    put_result(outcome, writer)
}
