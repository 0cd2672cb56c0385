//! One operation at its place (RFC 8881, section 16.2.3).
ghost use Rattle.std.specs.Prelude.{◌≡◌, ◌+◌, ◌≤◌, [], true};
ghost use Rattle.nfs_ops.specs.OpViews.{op_view};
ghost use Rattle.compound_run.specs.Operations as specs;
ghost use Rattle.compound_run.specs.Delaying.{DelaysIf};
ghost use Rattle.compound_run.specs.Limits as limits;
ghost use Rattle.compound_run.specs.AnswerOf.{is_delay};
ghost use Rattle.compound_run.specs.Views.{context_at, handles_after, point_at, GivesBy, stage, by_meaning, by_run};
ghost use Rattle.compound_run.specs.Written.{StepGives};

use crate::context::Context;
use crate::counts::bytes_after;
use crate::filehandles::FileHandles;
use crate::limits::MIN_ROOM;
use crate::operation_results::put_refusal;
use crate::realm::Realm;
use crate::step::Step;
use nfs_ops::{Op, Placement};
use nfs_types::Status;
use std::alloc::Allocator;
use xdr_wire::Writer;

/// The fault of an operation's place, if any. Without a session the operations of sessions aren't supported. A SEQUENCE
/// can't be followed by another SEQUENCE, nor by an operation that must be the only one of its COMPOUND.
fn place_fault(context: Context<'_>, op: &Op<'_>) -> Option<Status>
    ensures { result ≡ specs.place_fault_in context.entry.calling (op_view op.now) }
{
    let placement = op.placement()?;
    match (placement, context.calling) {
        (Placement::Anywhere, _) => None,
        (_, None) => Some(Status::NotSupp),
        (Placement::InSession, Some(_)) => None,
        (Placement::First, Some(_)) => Some(Status::SequencePos),
        (Placement::Alone, Some(_)) => Some(Status::NotOnlyOp),
    }
}

/// Whether an operation runs among others, and so needs room for its result.
fn is_run(op: &Op<'_>) -> bool
    ensures { result ≡ specs.is_run (op_view op.now) }
{
    matches!(
        op.placement(),
        Some(Placement::Anywhere | Placement::InSession)
    )
}

/// The fault of an operation's place or its room, if any.
fn entry_fault(context: Context<'_>, op: &Op<'_>) -> Option<Status>
    ensures { result ≡ specs.entry_fault_in context.entry.calling context.entry.room (op_view op.now) }
{
    if let Some(fault) = place_fault(context, op) {
        return Some(fault);
    }
    if is_run(op) && context.room < MIN_ROOM {
        return Some(context.too_big());
    }
    None
}

/// Whether an operation answers that an allocation failed.
fn is_delayed(answer: &Result<FileHandles, Status>) -> bool
    ensures { result ≡ is_delay answer.now }
{
    matches!(answer, Err(Status::Delay))
}

/// Whether an operation allocates memory, which may fail. Then it is answered DELAY.
fn takes_memory(op: &Op<'_>) -> bool
    ensures { result ≡ specs.takes_memory (op_view op.now) }
{
    matches!(
        op,
        Op::Create(_)
            | Op::Link(_)
            | Op::NVerify(_)
            | Op::Open(_)
            | Op::Rename(_)
            | Op::SetAttr(_)
            | Op::Verify(_)
            | Op::Write(_)
    )
}

impl<A: Allocator + Copy> Realm<A> {
    /// Answers an operation, once it has its place, and room for its result. If its allocation is to fail, and it
    /// allocates any memory, it isn't run.
    fn answer(
        &mut self,
        step: Step<'_>,
        op: &Op<'_>,
        refused: bool,
        out: &mut Writer<A>,
    ) -> Result<FileHandles, Status>
        requires settled { self.old.tree.log.held ≡ [] }
        requires room { step.context.room + limits.REFUSAL_ROOM ≤ out.old.room }
        ensures gives { GivesBy by_meaning step.entry op.now (stage self.old out.old) result (stage self.new out.new) }
        ensures delays { DelaysIf refused (context_at self.old step.entry.context) (op_view op.now) result }
    {
        if let Some(fault) = entry_fault(step.context, op) {
            return Err(fault);
        }
        let delays = refused & takes_memory(op);
        if delays {
            return Err(Status::Delay);
        }
        self.body(step, op, out)
    }

    /// Runs an operation, and ends it: its lines go to the trail, unless an allocation failed.
    fn run(
        &mut self,
        step: Step<'_>,
        op: &Op<'_>,
        refused: bool,
        out: &mut Writer<A>,
    ) -> Result<FileHandles, Status>
        requires settled { self.old.tree.log.held ≡ [] }
        requires room { step.context.room + limits.REFUSAL_ROOM ≤ out.old.room }
        ensures gives { GivesBy by_run step.entry op.now (stage self.old out.old) result (stage self.new out.new) }
        ensures delays { DelaysIf refused (context_at self.old step.entry.context) (op_view op.now) result }
        ensures settled { self.new.tree.log.held ≡ [] }
    {
        let result = self.answer(step, op, refused, out);
        self.tree.settle(!is_delayed(&result));
        result
    }

    /// Runs an operation, and writes its result. Returns the filehandles after it. `Err`: it isn't OK, and they stay.
    /// If its allocation is to fail (`refused`), and it allocates any memory, it is answered DELAY and isn't run.
    pub fn run_one(
        &mut self,
        step: Step<'_>,
        op: &Op<'_>,
        refused: bool,
        out: &mut Writer<A>,
    ) -> Result<FileHandles, Status>
        requires settled { self.old.tree.log.held ≡ [] }
        requires room { step.context.room + limits.REFUSAL_ROOM ≤ out.old.room }
        ensures gives { StepGives (context_at self.old step.entry.context) (op_view op.now)
            (stage (point_at self.old step.entry.handles) out.old) result
            (stage (point_at self.new (handles_after step.entry.handles result)) out.new) }
        ensures delays { DelaysIf refused (context_at self.old step.entry.context) (op_view op.now) result }
        ensures settled { self.new.tree.log.held ≡ [] }
    {
        let start = out.len();
        match self.run(step, op, refused, out) {
            Ok(handles) => {
                self.counts.note(bytes_after(out.bytes(), start));
                Ok(handles)
            }
            Err(status) => {
                put_refusal(op.number(), status, out);
                self.counts.note(bytes_after(out.bytes(), start));
                Err(status)
            }
        }
    }
}
