//! REMOVE (RFC 8881, section 18.25).
ghost use Rattle.std.specs.Prelude.{◌≡◌, ◌+◌, ◌<◌, []};
ghost use Rattle.nfs_ops.specs.Views.{remove_args_value};
ghost use Rattle.compound_run.specs.Operations.Remove.{remove};
ghost use Rattle.compound_run.specs.Views.{Gives, HasRoom, stage};

use crate::directory::Directory;
use crate::filehandles::FileHandles;
use crate::operation_results::put_result;
use crate::realm::{Realm, check};
use crate::step::Step;
use nfs_ops::{Op, OpResult, RemoveArgs, RemoveResult};
use nfs_types::Status;
use std::alloc::Allocator;
use xdr_wire::Writer;

impl<A: Allocator + Copy> Realm<A> {
    /// Removes a name of the current directory. When the last name of an object is removed, the object is removed too.
    /// It allocates no memory.
    pub fn remove(
        &mut self,
        step: Step<'_>,
        args: &RemoveArgs<'_>,
        out: &mut Writer<A>,
    ) -> Result<FileHandles, Status>
        requires settled { self.old.tree.log.held ≡ [] }
        requires room { HasRoom step.context out.old }
        ensures { Gives step.entry (remove (remove_args_value args.now)) (stage self.old out.old) result
            (stage self.new out.new) }
    {
        let number = step.handles.current.ok_or(Status::NoFileHandle)?;
        let node = self.tree.object(number).ok_or(Status::Stale)?;
        if !node.is_directory() {
            return Err(Status::NotDir);
        }
        let directory = Directory {
            number,
            change: node.change(),
        };
        let name = args.name.bytes;
        check(name)?;
        if !self.grants_first(step, &Op::Remove(*args)) {
            return Err(Status::Access);
        }
        let child = self.find(number, name).ok_or(Status::NoEnt)?;
        if !self.grants_second(step, &Op::Remove(*args), Some(child), None) {
            return Err(Status::Access);
        }
        if self.tree.has_entries(child) {
            return Err(Status::NotEmpty);
        }
        let at = self.tick(step.context.now).ok_or(Status::NoSpc)?;
        self.unlink(number, name, child, at);
        put_result(
            OpResult::Remove(RemoveResult {
                change: directory.changed(at.tick),
            }),
            out,
        );
        Ok(step.handles)
    }
}
