//! GETATTR (RFC 8881, section 18.7).
ghost use Rattle.std.specs.Prelude.{◌≡◌, ◌≤◌, [], IsSome};
ghost use Rattle.nfs_types.specs.Views.{bitmap_value};
ghost use Rattle.nfs_ops.specs.Views.{getattr_args_value};
ghost use Rattle.nfs_ops.specs.Results.{Done};
ghost use Rattle.nfs_ops.specs.declared.OpKind.TheVariants as kinds;
ghost use Rattle.node_tree.specs.World.{object};
ghost use Rattle.compound_run.specs.Asking.{sight_of};
ghost use Rattle.compound_run.specs.Operations.Getattr.{getattr, attributes_of};
ghost use Rattle.compound_run.specs.internal.GivenViews.{PutsWithin, given_outcome};
ghost use Rattle.compound_run.specs.Views.{context_at, Gives, HasRoom, stage};

use crate::context::Context;
use crate::filehandles::FileHandles;
use crate::realm::Realm;
use crate::requested::{check_readable, requested};
use crate::step::Step;
use nfs_ops::{GetAttrArgs, Op, sizes_of_carried_bytes_are_exact, write_getattr};
use nfs_types::{Bitmap, GivenAttributes, Status};
use std::alloc::Allocator;
use xdr_wire::{Full, Writer};

/// Writes the result of a GETATTR if it has at most `room` bytes, else nothing.
#[tactic(auto, unfolding(crate::specs::Runs::spelled))]
fn put_attributes<A: Allocator>(
    given: GivenAttributes<'_>,
    room: usize,
    out: &mut Writer<A>,
) -> Result<(), Full>
    requires { room ≤ out.old.room }
    ensures { PutsWithin room (given_outcome given.entry) out.old result out.new }
{
    sizes_of_carried_bytes_are_exact();
    write_getattr(given, room, out)
}

impl<A: Allocator + Copy> Realm<A> {
    /// Writes attributes of an object if they fit the room of the operation, else nothing.
    fn put_given_attributes(
        &self,
        context: Context<'_>,
        number: u64,
        asked: Bitmap,
        out: &mut Writer<A>,
    ) -> Result<(), Full>
        requires there { IsSome (object self.now.tree.world number) }
        requires room { HasRoom context out.old }
        ensures { PutsWithin context.entry.room
            (Done kinds.GetAttr (attributes_of (context_at self.now context.entry) number (bitmap_value asked)
            (sight_of self.now))) out.old result out.new }
    {
        let Some(facts) = self.facts_for(number, Status::Ok, &asked) else {
            unreachable!();
        };
        let given = GivenAttributes {
            book: self.tree.book(),
            facts: &facts,
            asked,
        };
        put_attributes(given, context.room, out)
    }

    /// Attributes of the current object, those of the requested ones that the profile supports. `Inval`: an attribute
    /// that can only be set is requested.
    pub fn getattr(
        &mut self,
        step: Step<'_>,
        args: &GetAttrArgs,
        out: &mut Writer<A>,
    ) -> Result<FileHandles, Status>
        requires settled { self.old.tree.log.held ≡ [] }
        requires room { HasRoom step.context out.old }
        ensures { Gives step.entry (getattr (getattr_args_value args.now)) (stage self.old out.old) result
            (stage self.new out.new) }
    {
        let number = step.handles.current.ok_or(Status::NoFileHandle)?;
        if self.tree.object(number).is_none() {
            return Err(Status::Stale);
        }
        let asked = requested(step.context.times, &args.asked);
        check_readable(&asked)?;
        if !self.grants_first(step, &Op::GetAttr(GetAttrArgs { asked })) {
            return Err(Status::Access);
        }
        match self.put_given_attributes(step.context, number, asked, out) {
            Ok(()) => Ok(step.handles),
            Err(Full) => Err(step.context.too_big()),
        }
    }
}
