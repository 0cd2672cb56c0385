//! LOOKUPP (RFC 8881, section 18.14).
ghost use Rattle.std.specs.Prelude.{◌≡◌, ◌+◌, ◌<◌, []};
ghost use Rattle.compound_run.specs.Operations.Lookupp.{lookupp};
ghost use Rattle.compound_run.specs.Views.{Gives, HasRoom, stage};

use crate::filehandles::FileHandles;
use crate::operation_results::put_result;
use crate::realm::Realm;
use crate::step::Step;
use nfs_ops::{Op, OpResult};
use nfs_types::Status;
use node_tree::Kind;
use std::alloc::Allocator;
use xdr_wire::Writer;

impl<A: Allocator + Copy> Realm<A> {
    /// The parent of the current directory becomes the current filehandle.
    pub fn lookupp(&mut self, step: Step<'_>, out: &mut Writer<A>) -> Result<FileHandles, Status>
        requires settled { self.old.tree.log.held ≡ [] }
        requires room { HasRoom step.context out.old }
        ensures { Gives step.entry lookupp (stage self.old out.old) result (stage self.new out.new) }
    {
        let directory = step.handles.current.ok_or(Status::NoFileHandle)?;
        match self.tree.object(directory).ok_or(Status::Stale)?.kind() {
            Kind::Link => return Err(Status::Symlink),
            Kind::File => return Err(Status::NotDir),
            Kind::Directory => {}
        }
        if !self.grants_first(step, &Op::LookupP) {
            return Err(Status::Access);
        }
        let Some(parent) = self.tree.parent(directory) else {
            return Err(Status::NoEnt);
        };
        put_result(OpResult::LookupP, out);
        Ok(FileHandles {
            current: Some(parent),
            ..step.handles
        })
    }
}
