//! NVERIFY (RFC 8881, section 18.15).
ghost use Rattle.std.specs.Prelude.{◌≡◌, []};
ghost use Rattle.nfs_ops.specs.Views.{nverify_args_value};
ghost use Rattle.compound_run.specs.Operations.Nverify.{nverify};
ghost use Rattle.compound_run.specs.Views.{GivesOrDelays, HasRoom, stage};

use crate::filehandles::FileHandles;
use crate::operation_results::put_result;
use crate::realm::Realm;
use crate::step::Step;
use crate::verify::check_set;
use nfs_ops::{NVerifyArgs, Op, OpResult};
use nfs_types::Status;
use std::alloc::Allocator;
use xdr_wire::Writer;

impl<A: Allocator + Copy> Realm<A> {
    /// OK if the attributes of the current object don't all have these values. `Delay`: an allocation for the
    /// comparison fails.
    pub fn nverify(
        &mut self,
        step: Step<'_>,
        args: &NVerifyArgs<'_>,
        out: &mut Writer<A>,
    ) -> Result<FileHandles, Status>
        requires settled { self.old.tree.log.held ≡ [] }
        requires room { HasRoom step.context out.old }
        ensures { GivesOrDelays step.entry (nverify (nverify_args_value args.now)) (stage self.old out.old) result
            (stage self.new out.new) }
    {
        let number = step.handles.current.ok_or(Status::NoFileHandle)?;
        if self.tree.object(number).is_none() {
            return Err(Status::Stale);
        }
        check_set(step.context.times, &args.attributes.set)?;
        if !self.grants_first(step, &Op::NVerify(*args)) {
            return Err(Status::Access);
        }
        if self.is_same(step.context, number, &args.attributes)? {
            return Err(Status::Same);
        }
        put_result(OpResult::NVerify, out);
        Ok(step.handles)
    }
}
