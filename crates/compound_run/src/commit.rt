//! COMMIT (RFC 8881, section 18.3).
ghost use Rattle.compound_run.specs.Operations.Commit.{commit};
ghost use Rattle.compound_run.specs.Views.{Gives, HasRoom, stage};

use crate::filehandles::FileHandles;
use crate::operation_results::put_result;
use crate::realm::Realm;
use crate::step::Step;
use nfs_ops::{CommitResult, OpResult};
use nfs_types::Status;
use node_tree::Kind;
use std::alloc::Allocator;
use xdr_wire::Writer;

impl<A: Allocator + Copy> Realm<A> {
    /// Data that were written into the current file are stable already.
    pub fn commit(&self, step: Step<'_>, out: &mut Writer<A>) -> Result<FileHandles, Status>
        requires room { HasRoom step.context out.old }
        ensures { Gives step.entry commit (stage self.now out.old) result (stage self.now out.new) }
    {
        let number = step.handles.current.ok_or(Status::NoFileHandle)?;
        match self.tree.object(number).ok_or(Status::Stale)?.kind() {
            Kind::Directory => return Err(Status::IsDir),
            Kind::Link => return Err(Status::Symlink),
            Kind::File => {}
        }
        put_result(OpResult::Commit(CommitResult), out);
        Ok(step.handles)
    }
}
