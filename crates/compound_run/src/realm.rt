//! The realm, with the calls that operations need.
ghost use Rattle.std.specs.Prelude.{◌≡◌, ◌≢◌, ◌<◌, ◌≤◌, ◌^◌, if◌then◌else◌, length, true, false, Ok, Err, Some, None};
ghost use Rattle.std.specs.Prelude.{IfOk, IfSome, IsOk, IsSome, IsOkUnless, MatchOption, MatchResult, OnOk, OnErr};
ghost use Rattle.acl_shape.specs.Bounds.{IsBounded};
ghost use Rattle.nfs_types.specs.Name.{name_fault};
ghost use Rattle.node_tree.specs.World.{object, kind_of, has_entries, link_count};
ghost use Rattle.node_tree.specs.Changes.{made, with_new, with_link, with_write, unlinked, renamed};
ghost use Rattle.node_tree.specs.Sound.{IsTick, most_bytes};
ghost use Rattle.node_tree.specs.Moves.{IsMove, IsPlan};
ghost use Rattle.node_tree.specs.Refusals.{has_left, may_name, plan_refusal};
ghost use Rattle.compound_run.specs.Sight.{child, whole};
ghost use Rattle.compound_run.specs.Meaning.{names_at};
ghost use Rattle.compound_run.specs.Operations.Create.{can_add};
ghost use Rattle.compound_run.specs.Operations.Rename.{can_move};
ghost use Rattle.compound_run.specs.Operations.Write.{fits};
ghost use Rattle.compound_run.specs.Realm.{with_loss};
ghost use Rattle.compound_run.specs.TreeFaults.{status_at};
ghost use Rattle.compound_run.specs.Views.{realm_of, with_world, settings_of};

use crate::counts::CallCounts;
use crate::limits::MAX_COUNT;
use crate::opens::Open;
use access_guard::GuardedTree;
use nfs_types::{Moment, Status, check_name};
use node_tree::{At, Kind, Move, NewObject, Plan, TreeFault};
use session_slots::Clients;
use std::alloc::{Allocator, Global};

/// The realm: the tree with the guard of its access control lists (ACLs), the open files, and the clients.
#[derive(Drop)]
pub(crate) struct Realm<A: Allocator + Copy = Global> {
    pub alloc: A,
    pub tree: GuardedTree<A>,
    /// The open files, by rising number.
    pub opens: Vec<Open<A>, A>,
    /// The number of the next open.
    pub next_open: u64,
    /// The clients and their sessions.
    pub clients: Clients<A>,
    /// Whether sessions are persistent: they survive a restart of this server.
    pub lasting: bool,
    /// How often each operation was answered with each status.
    pub counts: CallCounts<A>,
}

/// The fault of a name, if any.
pub(crate) fn check(name: &[u8]) -> Result<(), Status>
    ensures fault { MatchResult result (λ done. name_fault name.now ≡ None)
        (λ status. name_fault name.now ≡ Some status) }
    ensures short { OnOk result (length name.now ≤ 255) }
{
    match check_name(name) {
        Some(fault) => Err(fault),
        None => Ok(()),
    }
}

/// The status of a change that the tree refuses. It is DELAY if an allocation fails.
pub(crate) fn status_of(fault: TreeFault) -> Status
    ensures { result ≡ status_at fault }
{
    match fault {
        TreeFault::Exist => Status::Exist,
        TreeFault::NoEnt => Status::NoEnt,
        TreeFault::NotEmpty => Status::NotEmpty,
        TreeFault::Inval => Status::Inval,
        TreeFault::FBig => Status::FBig,
        TreeFault::MLink => Status::MLink,
        TreeFault::NoSpc => Status::NoSpc,
        TreeFault::Memory => Status::Delay,
    }
}

impl<A: Allocator + Copy> Realm<A> {
    /// The child of a name in a directory.
    pub fn find(&self, directory: u64, name: &[u8]) -> Option<u64>
        ensures child { result ≡ child (whole (realm_of self.now)) directory name.now }
        ensures live { IfSome result (λ child. IsSome (object self.now.tree.world child)) }
    {
        self.tree.find(directory, name)
    }

    /// Whether times can be set, by the profile.
    pub fn times(&self) -> bool
        ensures { result ≡ self.now.tree.world.limits.times }
    {
        self.tree.limits().times()
    }

    /// The tick and moment of a change, if the counter of ticks has one left.
    pub fn tick(&self, now: Moment) -> Option<At>
        ensures value { result ≡ (if has_left self.now.tree.world.next_tick
            then Some (record { tick = self.now.tree.world.next_tick; moment = now }) else None) }
        ensures tick { IfSome result (λ at. IsTick self.now.tree.world at.tick) }
    {
        let tick = self.tree.next_tick();
        if tick >= MAX_COUNT {
            return None;
        }
        Some(At { tick, moment: now })
    }

    /// Creates an object under a free name. `NoSpc`: it doesn't fit. `Delay`: an allocation fails.
    pub fn add(
        &mut self,
        directory: u64,
        name: &[u8],
        new: NewObject<A>,
        at: At,
    ) -> Result<u64, Status>
        requires tick { IsTick self.old.tree.world at.tick }
        requires live { kind_of self.old.tree.world directory ≡ Some Kind.Directory }
        requires short { length name.now ≤ 255 }
        requires bounded { IsBounded new.list }
        requires bytes { length new.bytes.items ≤ most_bytes self.old.tree.world.limits new.kind }
        requires free { child (whole (realm_of self.old)) directory name.now ≡ None }
        ensures full { can_add (whole (realm_of self.old)) directory ≡ false → result ≡ Err Status.NoSpc }
        ensures space { can_add (whole (realm_of self.old)) directory ≡ true → IsOkUnless result Status.Delay }
        ensures number { IfOk result (λ number. number ≡ self.old.tree.world.next_number) }
        ensures ok { OnOk result (self.new ≡ record self.old {
          tree = record self.old.tree {
            world = with_new self.old.tree.world directory name.now (made new self.old.tree.world.next_stamp at) at;
          };
        }) }
        ensures err { OnErr result (self.new ≡ self.old) }
    {
        self.tree.add(directory, name, new, at).map_err(status_of)
    }

    /// Writes bytes into a file, within its limit. `Delay`: an allocation fails.
    pub fn write_bytes(&mut self, file: u64, offset: u64, more: &[u8], at: At) -> Result<(), Status>
        requires tick { IsTick self.old.tree.world at.tick }
        requires file { kind_of self.old.tree.world file ≡ Some Kind.File }
        requires fits { fits self.old.tree.world.limits offset more.now ≡ true }
        ensures space { IsOkUnless result Status.Delay }
        ensures ok { OnOk result (self.new ≡
            with_world (with_write self.old.tree.world file offset more.now at) self.old) }
        ensures err { OnErr result (self.new ≡ self.old) }
    {
        self.tree.write(file, offset, more, at).map_err(status_of)
    }

    /// Adds a free name for an object. `NoSpc`: it doesn't fit. `Delay`: an allocation fails.
    pub fn add_name(
        &mut self,
        directory: u64,
        name: &[u8],
        number: u64,
        at: At,
    ) -> Result<(), Status>
        requires tick { IsTick self.old.tree.world at.tick }
        requires live { kind_of self.old.tree.world directory ≡ Some Kind.Directory }
        requires there { IsSome (object self.old.tree.world number) }
        requires plain { kind_of self.old.tree.world number ≢ Some Kind.Directory }
        requires short { length name.now ≤ 255 }
        requires free { child (whole (realm_of self.old)) directory name.now ≡ None }
        requires few { link_count self.old.tree.world.names number < self.old.tree.world.limits.links }
        ensures full { may_name self.old.tree.world.limits (names_at (whole (realm_of self.old)) directory)
            self.old.tree.world.next_cookie ≡ false → result ≡ Err Status.NoSpc }
        ensures space { may_name self.old.tree.world.limits (names_at (whole (realm_of self.old)) directory)
            self.old.tree.world.next_cookie ≡ true → IsOkUnless result Status.Delay }
        ensures ok { OnOk result (self.new ≡ record self.old {
          tree = record self.old.tree {
            world = with_link self.old.tree.world directory name.now number at;
          };
        }) }
        ensures err { OnErr result (self.new ≡ self.old) }
    {
        self.tree
            .link(directory, name, number, at)
            .map_err(status_of)
    }

    /// Removes the name of a child without entries. If that was its last name, its opens are closed.
    pub fn unlink(&mut self, directory: u64, name: &[u8], target: u64, at: At)
        requires tick { IsTick self.old.tree.world at.tick }
        requires child { child (whole (realm_of self.old)) directory name.now ≡ Some target }
        requires empty { has_entries self.old.tree.world.names target ≡ false }
        ensures realm { realm_of self.new ≡
            with_loss (unlinked self.old.tree.world directory name.now at) (Some target) (realm_of self.old) }
        ensures log { self.new.tree.log ≡ self.old.tree.log }
        ensures settings { settings_of self.new ≡ settings_of self.old }
    {
        if self.tree.unlink(directory, name, at).is_err() {
            unreachable!();
        }
        self.end_opens(target);
    }

    /// Plans a RENAME, as [`GuardedTree::plan_rename`].
    pub fn plan_rename<'a>(
        &self,
        from: u64,
        old: &'a [u8],
        to: u64,
        new: &'a [u8],
    ) -> Result<Plan<'a>, Status>
        requires live { kind_of self.now.tree.world to ≡ Some Kind.Directory }
        requires short { length new.now ≤ 255 }
        ensures refused { MatchOption (plan_refusal self.now.tree.world from old.now to new.now) (IsOk result)
            (λ fault. result ≡ Err (status_at fault)) }
        ensures plan { IfOk result (IsPlan self.now.tree.world from old.now to new.now) }
    {
        self.tree.plan_rename(from, old, to, new).map_err(status_of)
    }

    /// Renames a child, as planned. `NoSpc`: the name doesn't fit. `Delay`: an allocation fails.
    fn carry_out(&mut self, moved: Move<'_>, at: At) -> Result<(), Status>
        requires tick { IsTick self.old.tree.world at.tick }
        requires planned { IsMove self.old.tree.world moved }
        ensures full { can_move (whole (realm_of self.old)) moved.entry.from moved.entry.to moved.entry.target ≡ false →
            result ≡ Err Status.NoSpc }
        ensures space { can_move (whole (realm_of self.old)) moved.entry.from moved.entry.to moved.entry.target ≡ true →
            IsOkUnless result Status.Delay }
        ensures ok { OnOk result (self.new ≡
            with_world (renamed self.old.tree.world moved.entry.from moved.entry.old moved.entry.to moved.entry.new at)
            self.old) }
        ensures err { OnErr result (self.new ≡ self.old) }
    {
        self.tree.carry_out(moved, at).map_err(status_of)
    }

    /// Renames a child, as planned. A target that has the new name loses it; if that was its last name, its opens are
    /// closed. `NoSpc`: the name doesn't fit. `Delay`: an allocation fails.
    pub fn rename_child(&mut self, moved: Move<'_>, at: At) -> Result<(), Status>
        requires tick { IsTick self.old.tree.world at.tick }
        requires planned { IsMove self.old.tree.world moved }
        ensures full { can_move (whole (realm_of self.old)) moved.entry.from moved.entry.to moved.entry.target ≡ false →
            result ≡ Err Status.NoSpc }
        ensures space { can_move (whole (realm_of self.old)) moved.entry.from moved.entry.to moved.entry.target ≡ true →
            IsOkUnless result Status.Delay }
        ensures ok { OnOk result (realm_of self.new ≡
            with_loss (renamed self.old.tree.world moved.entry.from moved.entry.old moved.entry.to moved.entry.new at)
            moved.entry.target (realm_of self.old)) }
        ensures err { OnErr result (self.new ≡ self.old) }
        ensures log { self.new.tree.log ≡ self.old.tree.log }
        ensures settings { settings_of self.new ≡ settings_of self.old }
    {
        let target = moved.target();
        self.carry_out(moved, at)?;
        if let Some(replaced) = target {
            self.end_opens(replaced);
        }
        Ok(())
    }
}
