//! GETFH (RFC 8881, section 18.8).
ghost use Rattle.compound_run.specs.Operations.Getfh.{getfh};
ghost use Rattle.compound_run.specs.Views.{Gives, HasRoom, stage};

use crate::filehandles::FileHandles;
use crate::operation_results::put_result;
use crate::realm::Realm;
use crate::step::Step;
use nfs_ops::{GetFhResult, OpResult};
use nfs_types::{Handle, Status};
use std::alloc::Allocator;
use xdr_wire::Writer;

impl<A: Allocator + Copy> Realm<A> {
    /// The current filehandle.
    pub fn getfh(&self, step: Step<'_>, out: &mut Writer<A>) -> Result<FileHandles, Status>
        requires room { HasRoom step.context out.old }
        ensures { Gives step.entry getfh (stage self.now out.old) result (stage self.now out.new) }
    {
        let number = step.handles.current.ok_or(Status::NoFileHandle)?;
        self.tree.object(number).ok_or(Status::Stale)?;
        put_result(
            OpResult::GetFh(GetFhResult {
                handle: Handle::Object(number),
            }),
            out,
        );
        Ok(step.handles)
    }
}
