//! LINK (RFC 8881, section 18.9).
ghost use Rattle.std.specs.Prelude.{◌≡◌, ◌≢◌, ◌<◌, ◌≤◌, [], length, Some, None, IsSome};
ghost use Rattle.nfs_ops.specs.Views.{link_args_value};
ghost use Rattle.node_tree.specs.World.{object, kind_of, link_count};
ghost use Rattle.compound_run.specs.Sight.{whole, child, directory_change};
ghost use Rattle.compound_run.specs.Operations.Link.{link, naming};
ghost use Rattle.compound_run.specs.Views.{GivesOrDelays, HasRoom, realm_of, stage};

use crate::directory::Directory;
use crate::filehandles::FileHandles;
use crate::operation_results::put_result;
use crate::realm::{Realm, check};
use crate::step::Step;
use nfs_ops::{LinkArgs, LinkResult, Op, OpResult};
use nfs_types::Status;
use node_tree::Kind;
use std::alloc::Allocator;
use xdr_wire::Writer;

impl<A: Allocator + Copy> Realm<A> {
    /// Adds a free name for an object to the directory of this number and this change attribute.
    fn name_linked(
        &mut self,
        step: Step<'_>,
        directory: Directory,
        linked: u64,
        name: &[u8],
        out: &mut Writer<A>,
    ) -> Result<FileHandles, Status>
        requires to { step.handles.current ≡ Some directory.number }
        requires from { step.handles.saved ≡ Some linked }
        requires live { kind_of self.old.tree.world directory.number ≡ Some Kind.Directory }
        requires change { directory_change self.old.tree.world directory.number ≡ directory.change }
        requires there { IsSome (object self.old.tree.world linked) }
        requires plain { kind_of self.old.tree.world linked ≢ Some Kind.Directory }
        requires short { length name.now ≤ 255 }
        requires free { child (whole (realm_of self.old)) directory.number name.now ≡ None }
        requires few { link_count self.old.tree.world.names linked < self.old.tree.world.limits.links }
        requires room { HasRoom step.context out.old }
        ensures { GivesOrDelays step.entry (naming name.now directory.number) (stage self.old out.old) result
            (stage self.new out.new) }
    {
        let at = self.tick(step.context.now).ok_or(Status::NoSpc)?;
        self.add_name(directory.number, name, linked, at)?;
        let change = directory.changed(at.tick);
        put_result(OpResult::Link(LinkResult { change }), out);
        Ok(step.handles)
    }

    /// Adds a name for the saved object to the current directory.
    pub fn link(
        &mut self,
        step: Step<'_>,
        args: &LinkArgs<'_>,
        out: &mut Writer<A>,
    ) -> Result<FileHandles, Status>
        requires settled { self.old.tree.log.held ≡ [] }
        requires room { HasRoom step.context out.old }
        ensures { GivesOrDelays step.entry (link (link_args_value args.now)) (stage self.old out.old) result
            (stage self.new out.new) }
    {
        let directory = step.handles.current.ok_or(Status::NoFileHandle)?;
        let node = self.tree.object(directory).ok_or(Status::Stale)?;
        let (is_directory, before) = (node.is_directory(), node.change());
        let linked = step.handles.saved.ok_or(Status::NoFileHandle)?;
        let linked_kind = self.tree.object(linked).ok_or(Status::Stale)?.kind();
        if !is_directory {
            return Err(Status::NotDir);
        }
        if linked_kind == Kind::Directory {
            return Err(Status::IsDir);
        }
        let name = args.name.bytes;
        check(name)?;
        if !self.grants_first(step, &Op::Link(*args)) {
            return Err(Status::Access);
        }
        if self.find(directory, name).is_some() {
            return Err(Status::Exist);
        }
        let most = self.tree.limits().links();
        if self.tree.links(linked) >= most {
            return Err(Status::MLink);
        }
        let target = Directory {
            number: directory,
            change: before,
        };
        self.name_linked(step, target, linked, name, out)
    }
}
