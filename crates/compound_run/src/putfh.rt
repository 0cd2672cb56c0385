//! PUTFH (RFC 8881, section 18.19).
ghost use Rattle.nfs_ops.specs.Views.{putfh_args_value};
ghost use Rattle.compound_run.specs.Operations.Putfh.{putfh};
ghost use Rattle.compound_run.specs.Views.{Gives, HasRoom, stage};

use crate::filehandles::FileHandles;
use crate::operation_results::put_result;
use crate::realm::Realm;
use crate::step::Step;
use nfs_ops::{OpResult, PutFhArgs};
use nfs_types::Status;
use std::alloc::Allocator;
use xdr_wire::Writer;

impl<A: Allocator + Copy> Realm<A> {
    /// This filehandle becomes the current one.
    pub fn putfh(
        &self,
        step: Step<'_>,
        args: &PutFhArgs<'_>,
        out: &mut Writer<A>,
    ) -> Result<FileHandles, Status>
        requires room { HasRoom step.context out.old }
        ensures { Gives step.entry (putfh (putfh_args_value args.now)) (stage self.now out.old) result
            (stage self.now out.new) }
    {
        let number = args.handle.object()?;
        if self.tree.object(number).is_none() {
            return Err(Status::Stale);
        }
        put_result(OpResult::PutFh, out);
        Ok(FileHandles {
            current: Some(number),
            ..step.handles
        })
    }
}
