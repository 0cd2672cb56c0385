//! RESTOREFH (RFC 8881, section 18.27).
ghost use Rattle.compound_run.specs.Operations.Restorefh.{restorefh};
ghost use Rattle.compound_run.specs.Views.{Gives, HasRoom, stage};

use crate::filehandles::FileHandles;
use crate::operation_results::put_result;
use crate::realm::Realm;
use crate::step::Step;
use nfs_ops::OpResult;
use nfs_types::Status;
use std::alloc::Allocator;
use xdr_wire::Writer;

impl<A: Allocator + Copy> Realm<A> {
    /// The saved filehandle becomes the current one, and stays saved.
    pub fn restorefh(&self, step: Step<'_>, out: &mut Writer<A>) -> Result<FileHandles, Status>
        requires room { HasRoom step.context out.old }
        ensures { Gives step.entry restorefh (stage self.now out.old) result (stage self.now out.new) }
    {
        let number = step.handles.saved.ok_or(Status::NoFileHandle)?;
        self.tree.object(number).ok_or(Status::Stale)?;
        put_result(OpResult::RestoreFh, out);
        Ok(FileHandles {
            current: Some(number),
            ..step.handles
        })
    }
}
