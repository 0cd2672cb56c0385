//! RENAME (RFC 8881, section 18.26).
ghost use Rattle.std.specs.Prelude.{◌≡◌, ◌+◌, ◌<◌, ◌≤◌, [], length, true, false, Some};
ghost use Rattle.nfs_ops.specs.Views.{rename_args_value};
ghost use Rattle.node_tree.specs.Moves.{IsMove};
ghost use Rattle.compound_run.specs.Sight.{directory_change};
ghost use Rattle.compound_run.specs.Operations.Rename.{rename};
ghost use Rattle.compound_run.specs.internal.Rename.{moving};
ghost use Rattle.compound_run.specs.Views.{GivesOrDelays, HasRoom, stage};

use crate::directory::Directory;
use crate::filehandles::FileHandles;
use crate::operation_results::put_result;
use crate::realm::{Realm, check};
use crate::step::Step;
use nfs_ops::{Op, OpResult, RenameArgs, RenameResult};
use nfs_types::Status;
use node_tree::{Move, Plan};
use std::alloc::Allocator;
use xdr_wire::Writer;

impl<A: Allocator + Copy> Realm<A> {
    /// Gives a child of the saved directory a new name in the current one, as planned.
    fn move_child(
        &mut self,
        step: Step<'_>,
        source: Directory,
        target: Directory,
        moved: Move<'_>,
        out: &mut Writer<A>,
    ) -> Result<FileHandles, Status>
        requires from { step.handles.saved ≡ Some moved.from }
        requires to { step.handles.current ≡ Some moved.to }
        requires from_change { directory_change self.old.tree.world moved.from ≡ source.change }
        requires to_change { directory_change self.old.tree.world moved.to ≡ target.change }
        requires planned { IsMove self.old.tree.world moved }
        requires room { HasRoom step.context out.old }
        ensures { GivesOrDelays step.entry
            (moving (moved.entry.old, moved.entry.new) moved.entry.from moved.entry.to) (stage self.old out.old) result
            (stage self.new out.new) }
    {
        let at = self.tick(step.context.now).ok_or(Status::NoSpc)?;
        self.rename_child(moved, at)?;
        let (source, target) = (source.changed(at.tick), target.changed(at.tick));
        put_result(OpResult::Rename(RenameResult { source, target }), out);
        Ok(step.handles)
    }

    /// Gives a child of the saved directory a new name in the current one. A target that has that name loses it.
    pub fn rename(
        &mut self,
        step: Step<'_>,
        args: &RenameArgs<'_>,
        out: &mut Writer<A>,
    ) -> Result<FileHandles, Status>
        requires settled { self.old.tree.log.held ≡ [] }
        requires room { HasRoom step.context out.old }
        ensures { GivesOrDelays step.entry (rename (rename_args_value args.now)) (stage self.old out.old) result
            (stage self.new out.new) }
    {
        let to = step.handles.current.ok_or(Status::NoFileHandle)?;
        let node = self.tree.object(to).ok_or(Status::Stale)?;
        let (to_directory, to_before) = (node.is_directory(), node.change());
        let from = step.handles.saved.ok_or(Status::NoFileHandle)?;
        let node = self.tree.object(from).ok_or(Status::Stale)?;
        let (from_directory, from_before) = (node.is_directory(), node.change());
        if !to_directory {
            return Err(Status::NotDir);
        }
        if !from_directory {
            return Err(Status::NotDir);
        }
        check(args.old.bytes)?;
        check(args.new.bytes)?;
        if !self.grants_first(step, &Op::Rename(*args)) {
            return Err(Status::Access);
        }
        let source = Directory {
            number: from,
            change: from_before,
        };
        let directory = Directory {
            number: to,
            change: to_before,
        };
        let plan = self.plan_rename(from, args.old.bytes, to, args.new.bytes)?;
        let Plan::Move(moved) = plan else {
            let (source, target) = (source.unchanged(), directory.unchanged());
            put_result(OpResult::Rename(RenameResult { source, target }), out);
            return Ok(step.handles);
        };
        let (child, target) = (Some(moved.child()), moved.target());
        if !self.grants_second(step, &Op::Rename(*args), child, target) {
            return Err(Status::Access);
        }
        self.move_child(step, source, directory, moved, out)
    }
}
