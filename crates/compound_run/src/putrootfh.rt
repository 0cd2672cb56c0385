//! PUTROOTFH (RFC 8881, section 18.21).
ghost use Rattle.compound_run.specs.Operations.Putrootfh.{putrootfh};
ghost use Rattle.compound_run.specs.Views.{Gives, HasRoom, stage};

use crate::filehandles::FileHandles;
use crate::operation_results::put_result;
use crate::realm::Realm;
use crate::step::Step;
use nfs_ops::OpResult;
use nfs_types::Status;
use std::alloc::Allocator;
use xdr_wire::Writer;

impl<A: Allocator + Copy> Realm<A> {
    /// The root becomes the current filehandle.
    pub fn putrootfh(&self, step: Step<'_>, out: &mut Writer<A>) -> Result<FileHandles, Status>
        requires room { HasRoom step.context out.old }
        ensures { Gives step.entry putrootfh (stage self.now out.old) result (stage self.now out.new) }
    {
        put_result(OpResult::PutRootFh, out);
        Ok(FileHandles {
            current: Some(self.tree.root()),
            ..step.handles
        })
    }
}
