//! VERIFY (RFC 8881, section 18.31), and its parts that NVERIFY uses.
ghost use Rattle.std.specs.Prelude.{◌≡◌, [], nat_eq, Some, None, Err, IsSome, MatchResult};
ghost use Rattle.std.specs.Cmp.Lexicographic.{pointwise};
ghost use Rattle.nfs_types.specs.Views.{attributes_value, bitmap_value};
ghost use Rattle.nfs_ops.specs.Views.{verify_args_value};
ghost use Rattle.node_tree.specs.World.{object};
ghost use Rattle.compound_run.specs.Asking.{sight_of};
ghost use Rattle.compound_run.specs.Operations.Verify.{verify, is_same, set_fault};
ghost use Rattle.compound_run.specs.internal.GivenViews.{values_given};
ghost use Rattle.compound_run.specs.Views.{context_at, GivesOrDelays, HasRoom, stage};
ghost use Rattle.std.specs.Prelude.{IfOk};

use crate::context::Context;
use crate::filehandles::FileHandles;
use crate::operation_results::put_result;
use crate::realm::Realm;
use crate::step::Step;
use nfs_ops::{Op, OpResult, VerifyArgs, sizes_of_carried_bytes_are_exact};
use nfs_types::{Attributes, Bitmap, GivenAttributes, Status};
use std::alloc::{AllocError, Allocator};
use xdr_wire::{Reader, Spell, Wire, Writer};

/// The number of the attribute rdattr_error.
const RDATTR_ERROR: u32 = 11;

/// More bytes than a bitmap of supported attributes and the length of their values take.
const MOST_BEFORE: usize = 32;

/// Neither an unsupported attribute nor rdattr_error can be compared, nor one that can only be set.
pub(crate) fn check_set(times: bool, set: &Bitmap) -> Result<(), Status>
    ensures { MatchResult result (λ done. set_fault times (bitmap_value set.now) ≡ None)
        (λ status. set_fault times (bitmap_value set.now) ≡ Some status) }
{
    if !set.is_within(&Bitmap::supported(times)) {
        return Err(Status::AttrNotSupp);
    }
    if set.has(RDATTR_ERROR) || set.has_set_only() {
        return Err(Status::Inval);
    }
    Ok(())
}

/// Whether the values that GETATTR returns are these bytes. `Err`: an allocation for their encoding fails.
fn is_given<A: Allocator + Copy>(
    alloc: A,
    given: GivenAttributes<'_>,
    sent: &[u8],
) -> Result<bool, AllocError>
    ensures { IfOk result (λ same. same ≡ pointwise nat_eq (values_given given.entry) sent.now) }
{
    sizes_of_carried_bytes_are_exact();
    let mut buffer = Writer::new(alloc, sent.len() + MOST_BEFORE)?;
    if given.write(&mut buffer).is_err() {
        return Ok(false);
    }
    let mut reader = Reader::new(buffer.bytes());
    let Ok(spelled) = Attributes::read(&mut reader) else {
        unreachable!();
    };
    Ok(spelled.values.bytes == sent)
}

impl<A: Allocator + Copy> Realm<A> {
    /// Whether attributes of an object have these values. `Delay`: an allocation for the comparison fails.
    pub fn is_same(
        &self,
        context: Context<'_>,
        number: u64,
        sent: &Attributes<'_>,
    ) -> Result<bool, Status>
        requires there { IsSome (object self.now.tree.world number) }
        ensures same { IfOk result (λ same. same ≡
            is_same (context_at self.now context.entry) number (attributes_value sent.now) (sight_of self.now)) }
        ensures delay { MatchResult result (λ same. Unit {0}) (λ status. status ≡ Status.Delay) }
    {
        let Some(facts) = self.facts_for(number, Status::Ok, &sent.set) else {
            unreachable!();
        };
        let given = GivenAttributes {
            book: self.tree.book(),
            facts: &facts,
            asked: sent.set,
        };
        match is_given(self.alloc, given, sent.values.bytes) {
            Ok(same) => Ok(same),
            Err(AllocError) => Err(Status::Delay),
        }
    }

    /// OK if the attributes of the current object have these values. `Delay`: an allocation for the comparison fails.
    pub fn verify(
        &mut self,
        step: Step<'_>,
        args: &VerifyArgs<'_>,
        out: &mut Writer<A>,
    ) -> Result<FileHandles, Status>
        requires settled { self.old.tree.log.held ≡ [] }
        requires room { HasRoom step.context out.old }
        ensures { GivesOrDelays step.entry (verify (verify_args_value args.now)) (stage self.old out.old) result
            (stage self.new out.new) }
    {
        let number = step.handles.current.ok_or(Status::NoFileHandle)?;
        if self.tree.object(number).is_none() {
            return Err(Status::Stale);
        }
        check_set(step.context.times, &args.attributes.set)?;
        if !self.grants_first(step, &Op::Verify(*args)) {
            return Err(Status::Access);
        }
        if !self.is_same(step.context, number, &args.attributes)? {
            return Err(Status::NotSame);
        }
        put_result(OpResult::Verify, out);
        Ok(step.handles)
    }
}
