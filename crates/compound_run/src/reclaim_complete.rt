//! RECLAIM_COMPLETE (RFC 8881, section 18.51).
ghost use Rattle.nfs_ops.specs.Views.{reclaim_complete_args_value};
ghost use Rattle.compound_run.specs.Operations.ReclaimComplete.{reclaim_complete};
ghost use Rattle.compound_run.specs.Views.{Gives, HasRoom, stage};

use crate::filehandles::FileHandles;
use crate::operation_results::put_result;
use crate::realm::Realm;
use crate::step::Step;
use nfs_ops::{OpResult, ReclaimCompleteArgs};
use nfs_types::Status;
use std::alloc::Allocator;
use xdr_wire::Writer;

impl<A: Allocator + Copy> Realm<A> {
    /// The client of the session has finished its reclaims. For the file system of the current filehandle nothing
    /// changes. It allocates no memory.
    pub fn reclaim_complete(
        &mut self,
        step: Step<'_>,
        args: &ReclaimCompleteArgs,
        out: &mut Writer<A>,
    ) -> Result<FileHandles, Status>
        requires room { HasRoom step.context out.old }
        ensures { Gives step.entry (reclaim_complete (reclaim_complete_args_value args.now)) (stage self.old out.old)
            result (stage self.new out.new) }
    {
        if args.one_fs {
            let number = step.handles.current.ok_or(Status::NoFileHandle)?;
            self.tree.object(number).ok_or(Status::Stale)?;
        } else {
            self.clients.reclaim_complete(step.context.client())?;
        }
        put_result(OpResult::ReclaimComplete, out);
        Ok(step.handles)
    }
}
