//! LOOKUP (RFC 8881, section 18.13).
ghost use Rattle.std.specs.Prelude.{◌≡◌, ◌+◌, ◌<◌, []};
ghost use Rattle.nfs_ops.specs.Views.{lookup_args_value};
ghost use Rattle.compound_run.specs.Operations.Lookup.{lookup};
ghost use Rattle.compound_run.specs.Views.{Gives, HasRoom, stage};

use crate::filehandles::FileHandles;
use crate::operation_results::put_result;
use crate::realm::{Realm, check};
use crate::step::Step;
use nfs_ops::{LookupArgs, Op, OpResult};
use nfs_types::Status;
use node_tree::Kind;
use std::alloc::Allocator;
use xdr_wire::Writer;

impl<A: Allocator + Copy> Realm<A> {
    /// The child of a name in the current directory becomes the current filehandle.
    pub fn lookup(
        &mut self,
        step: Step<'_>,
        args: &LookupArgs<'_>,
        out: &mut Writer<A>,
    ) -> Result<FileHandles, Status>
        requires settled { self.old.tree.log.held ≡ [] }
        requires room { HasRoom step.context out.old }
        ensures { Gives step.entry (lookup (lookup_args_value args.now)) (stage self.old out.old) result
            (stage self.new out.new) }
    {
        let directory = step.handles.current.ok_or(Status::NoFileHandle)?;
        match self.tree.object(directory).ok_or(Status::Stale)?.kind() {
            Kind::Link => return Err(Status::Symlink),
            Kind::File => return Err(Status::NotDir),
            Kind::Directory => {}
        }
        let name = args.name.bytes;
        check(name)?;
        if !self.grants_first(step, &Op::Lookup(*args)) {
            return Err(Status::Access);
        }
        let child = self.find(directory, name).ok_or(Status::NoEnt)?;
        put_result(OpResult::Lookup, out);
        Ok(FileHandles {
            current: Some(child),
            ..step.handles
        })
    }
}
