//! READ (RFC 8881, section 18.22).
ghost use Rattle.std.specs.Prelude.{◌≡◌, ◌+◌, ◌≤◌, [], length};
ghost use Rattle.xdr_wire.specs.Buffer.{Appends};
ghost use Rattle.nfs_ops.specs.Results.{Done};
ghost use Rattle.nfs_ops.specs.Views.{read_args_value};
ghost use Rattle.nfs_ops.specs.declared.OpKind.TheVariants as kinds;
ghost use Rattle.compound_run.specs.Asking.{sight_of};
ghost use Rattle.compound_run.specs.Operations.Read as specs;
ghost use Rattle.compound_run.specs.Operations.Read.{read, gives};
ghost use Rattle.compound_run.specs.Runs.{spelled};
ghost use Rattle.compound_run.specs.Views.{context_at, Gives, HasRoom, stage};

use crate::context::Context;
use crate::filehandles::FileHandles;
use crate::realm::Realm;
use crate::stateids::Purpose;
use crate::step::Step;
use access_guard::GuardedTree;
use nfs_ops::{MAX_READ, Op, ReadArgs, write_read};
use nfs_types::Status;
use node_tree::Kind;
use std::alloc::Allocator;
use xdr_wire::{Source, Writer};

/// Bytes of a file from an offset, which are copied from the tree.
#[derive(Drop)]
struct Data<'t, A: Allocator + Copy> {
    tree: &'t GuardedTree<A>,
    file: u64,
    offset: u64,
}

impl<A: Allocator + Copy> Source for Data<'_, A> {
    ghost use Rattle.node_tree.specs.World.{bytes_at};

    ghost gives = { λ s n. bytes_at s.tree.now.world s.file s.offset n };

    fn copy(self, space: &mut [u8]) -> usize {
        self.tree.read(self.file, self.offset, space)
    }
}

/// The most bytes that are returned, for this requested count and this much room.
fn most_of(count: u32, room: usize) -> usize
    requires { 16 ≤ room }
    ensures { result ≡ specs.most_of count room }
{
    let fits = (room - 16) / 4 * 4;
    fits.min(count.min(MAX_READ) as usize)
}

impl<A: Allocator + Copy> Realm<A> {
    /// Writes the bytes of a file, in the room of the operation, straight from the tree.
    fn put_data(&self, context: Context<'_>, file: u64, args: &ReadArgs, out: &mut Writer<A>)
        requires room { HasRoom context out.old }
        ensures written { Appends out.old out.new
            (spelled (Done kinds.Read (gives (context_at self.now context.entry) (read_args_value args.now) file
            (sight_of self.now)))) }
        ensures within { length out.new.bytes ≤ length out.old.bytes + context.entry.room }
    {
        let most = most_of(args.count, context.room);
        let left = self.size(file).saturating_sub(args.offset);
        let data = Data {
            tree: &self.tree,
            file,
            offset: args.offset,
        };
        write_read(left <= most as u64, most, data, out);
    }

    /// Bytes of the current file.
    pub fn read(
        &mut self,
        step: Step<'_>,
        args: &ReadArgs,
        out: &mut Writer<A>,
    ) -> Result<FileHandles, Status>
        requires settled { self.old.tree.log.held ≡ [] }
        requires room { HasRoom step.context out.old }
        ensures { Gives step.entry (read (read_args_value args.now)) (stage self.old out.old) result
            (stage self.new out.new) }
    {
        let number = step.handles.current.ok_or(Status::NoFileHandle)?;
        match self.tree.object(number).ok_or(Status::Stale)?.kind() {
            Kind::Directory => return Err(Status::IsDir),
            Kind::Link => return Err(Status::Symlink),
            Kind::File => {}
        }
        self.check_stateid(step.context, number, &args.stateid, Purpose::ToRead)?;
        if !self.grants_first(step, &Op::Read(*args)) {
            return Err(Status::Access);
        }
        self.put_data(step.context, number, args, out);
        Ok(step.handles)
    }
}
