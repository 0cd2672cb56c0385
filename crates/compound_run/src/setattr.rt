//! SETATTR (RFC 8881, section 18.30).
ghost use Rattle.std.specs.Prelude.{◌≡◌, ◌<◌, ◌≤◌, ◌+◌, ◌^◌, ◌||◌, [], true, is_some, Some, None, if◌then◌else◌, IfOk};
ghost use Rattle.std.specs.Prelude.{IfSome, IsSome, IsOkUnless, MatchResult, OnOk, OnErr};
ghost use Rattle.acl_shape.specs.Bounds.{IsBounded};
ghost use Rattle.acl_shape.specs.Permissions.{changed_high, changed_acl};
ghost use Rattle.nfs_types.specs.Sent.{has_acl};
ghost use Rattle.nfs_types.specs.Views.{stateid_value};
ghost use Rattle.nfs_ops.specs.Views.{setattr_args_value};
ghost use Rattle.node_tree.specs.Sound.{IsTick};
ghost use Rattle.node_tree.specs.World.{kind_of, object};
ghost use Rattle.compound_run.specs.Asking.{sight_of};
ghost use Rattle.compound_run.specs.Sight.{kind_at};
ghost use Rattle.compound_run.specs.Operations.Create.{list_at};
ghost use Rattle.compound_run.specs.Lists.{IsFit, set_fits};
ghost use Rattle.compound_run.specs.Operations.Setattr.{setattr, sent_by, size_fault, size_fits, can_count, sets_acl};
ghost use Rattle.compound_run.specs.Operations.Setattr.{sets_owner, sets_any, stamps, sized, timed, setting};
ghost use Rattle.compound_run.specs.internal.Permits.{Permits, permitted, entitled};
ghost use Rattle.compound_run.specs.Views.{context_at, GivesOrDelays, HasRoom, wanted_view, with_world, IsWanted};
ghost use Rattle.compound_run.specs.Views.{stage};

use crate::context::Context;
use crate::filehandles::FileHandles;
use crate::limits::MAX_COUNT;
use crate::list_parts::put_parts;
use crate::operation_results::put_result;
use crate::realm::{Realm, status_of};
use crate::stateids::Purpose;
use crate::step::Step;
use crate::times::{clock_by, moment_set, sets_times};
use acl_shape::{Given, Permissions, changed_permissions};
use nfs_ops::{Op, OpResult, SetAttrArgs, SetAttrResult};
use nfs_types::{Attrs, Limits, Moment, SetTime, StateId, Status};
use node_tree::{At, Kind};
use std::alloc::{AllocError, Allocator};
use xdr_wire::Writer;

/// Whether an acl, a dacl or a sacl is set.
fn has_acl<A: Allocator>(wanted: &Attrs<A>) -> bool
    ensures { result ≡ has_acl (wanted_view wanted.now) }
{
    wanted.list.is_some() || wanted.dacl.is_some() || wanted.sacl.is_some()
}

/// Whether the access control list (ACL) changes.
fn sets_acl<A: Allocator>(wanted: &Attrs<A>) -> bool
    ensures { result ≡ sets_acl (wanted_view wanted.now) }
{
    wanted.mode.is_some() || has_acl(wanted)
}

/// Whether an owner or a group is set.
fn sets_owner<A: Allocator>(wanted: &Attrs<A>) -> bool
    ensures { result ≡ sets_owner (wanted_view wanted.now) }
{
    wanted.owner.is_some() || wanted.group.is_some()
}

/// Whether any attribute is set.
fn sets_any<A: Allocator>(wanted: &Attrs<A>) -> bool
    ensures { result ≡ sets_any (wanted_view wanted.now) }
{
    wanted.size.is_some() || sets_acl(wanted) || sets_owner(wanted) || sets_times(wanted)
}

/// Whether one of the two is present.
fn is_either(first: Option<u32>, second: Option<u32>) -> bool
    ensures { result ≡ is_some first || is_some second }
{
    first.is_some() || second.is_some()
}

/// The number of stamps that are taken.
fn stamps<A: Allocator>(wanted: &Attrs<A>) -> u64
    ensures value { result ≡ stamps (wanted_view wanted.now) }
    ensures few { result ≤ 2 }
{
    let list = if sets_acl(wanted) { 1 } else { 0 };
    let owner = if sets_owner(wanted) { 1 } else { 0 };
    list + owner
}

/// Whether a size is within the limit of a file.
pub(crate) fn size_fits(limits: Limits, size: Option<u64>) -> bool
    ensures { result ≡ size_fits limits size }
{
    match size {
        Some(size) => size <= limits.bytes(),
        None => true,
    }
}

impl<A: Allocator + Copy> Realm<A> {
    /// The fault of a size that is to be set, if any. Only a file has a size to set, and setting it needs a stateid.
    fn check_size(
        &self,
        context: Context<'_>,
        number: u64,
        size: Option<u64>,
        stateid: &StateId,
    ) -> Result<(), Status>
        requires there { IsSome (object self.now.tree.world number) }
        ensures fault { MatchResult result
            (λ done. size_fault size (context_at self.now context.entry) number (stateid_value stateid.now)
            (sight_of self.now) ≡ None) (λ status. size_fault size (context_at self.now context.entry) number
            (stateid_value stateid.now) (sight_of self.now) ≡ Some status) }
        ensures file { OnOk result (IfSome size (λ size. kind_of self.now.tree.world number ≡ Some Kind.File)) }
    {
        if size.is_none() {
            return Ok(());
        }
        let Some(node) = self.tree.object(number) else {
            unreachable!();
        };
        if node.kind() != Kind::File {
            return Err(Status::Inval);
        }
        self.check_stateid(context, number, stateid, Purpose::ToWrite)
    }

    /// The values that the attributes set on an object. `Delay`: an allocation for the ACL fails.
    fn wanted_on(
        &self,
        times: bool,
        number: u64,
        args: &SetAttrArgs<'_>,
    ) -> Result<Attrs<A>, Status>
        requires there { IsSome (object self.now.tree.world number) }
        ensures wanted { IsWanted (sent_by times self.now.tree.book (setattr_args_value args.now)
            (kind_at (sight_of self.now) number)) result }
        ensures bounded { IfOk result (λ wanted. IfSome wanted.list IsBounded) }
    {
        let Some(node) = self.tree.object(number) else {
            unreachable!();
        };
        self.wanted(times, node.kind(), &args.attributes)
    }

    /// Whether a tick is left for the attributes, and each stamp that they take.
    #[tactic(auto, unfolding(crate::specs::Operations::Setattr::can_count))]
    fn can_count(&self, wanted: &Attrs<A>) -> bool
        ensures { result ≡ can_count (wanted_view wanted.now) (sight_of self.now) }
    {
        if !sets_any(wanted) {
            return true;
        }
        self.tree.next_tick() < MAX_COUNT && self.tree.next_stamp() <= MAX_COUNT - stamps(wanted)
    }

    /// The ACL of an object after a mode and an acl are set, and the high bits of its mode. `Delay`: an allocation
    /// fails.
    fn changed(&self, number: u64, given: Given<A>) -> Result<Permissions<A>, Status>
        requires there { IsSome (object self.now.tree.world number) }
        requires bounded { IfSome given.list IsBounded }
        ensures space { IsOkUnless result Status.Delay }
        ensures list { IfOk result (λ made. IfSome (object self.now.tree.world number)
            (λ o. made.list ≡ changed_acl o.list o.kind given.mode given.list)) }
        ensures high { IfOk result (λ made. IfSome (object self.now.tree.world number)
            (λ o. made.high ≡ changed_high o.high given.mode)) }
        ensures bounded { IfOk result (λ made. IsBounded made.list) }
    {
        let Some(node) = self.tree.object(number) else {
            unreachable!();
        };
        match changed_permissions(self.alloc, node.list(), node.high(), node.kind(), given) {
            Ok(made) => Ok(made),
            Err(AllocError) => Err(Status::Delay),
        }
    }

    /// The ACL of an object after its attributes are set, and the high bits of its mode. `None`: it stays. `NoSpc`: it
    /// would exceed the bounds of an ACL. `Delay`: an allocation fails.
    fn permissions(&self, number: u64, wanted: Attrs<A>) -> Result<Option<Permissions<A>>, Status>
        requires there { IsSome (object self.now.tree.world number) }
        requires bounded { IfSome wanted.list IsBounded }
        ensures fits { IsFit (set_fits (wanted_view wanted) (kind_at (sight_of self.now) number)
            (list_at self.now.tree.world number)) result }
        ensures some { IfOk result (λ made. is_some made ≡ sets_acl (wanted_view wanted)) }
        ensures value { IfOk result (λ made. IfSome made (Permits self.now.tree.world number (wanted_view wanted))) }
    {
        if !sets_acl(&wanted) {
            return Ok(None);
        }
        let Attrs {
            list,
            mode,
            dacl,
            sacl,
            ..
        } = wanted;
        let Permissions { list, high } = self.changed(number, Given { mode, list })?;
        let list = put_parts(self.alloc, list, dacl, sacl)?;
        Ok(Some(Permissions { list, high }))
    }

    /// Sets the size of a file, if one is to be set. `Delay`: an allocation fails.
    fn set_size(&mut self, number: u64, size: Option<u64>, at: At) -> Result<(), Status>
        requires tick { IsTick self.old.tree.world at.tick }
        requires file { IfSome size (λ size. kind_of self.old.tree.world number ≡ Some Kind.File) }
        requires fits { size_fits self.old.tree.world.limits size ≡ true }
        ensures space { IsOkUnless result Status.Delay }
        ensures ok { OnOk result (self.new ≡ with_world (sized number size at self.old.tree.world) self.old) }
        ensures tick { IsTick self.new.tree.world at.tick }
        ensures stamps { self.new.tree.world.next_stamp ≡ self.old.tree.world.next_stamp }
        ensures err { OnErr result (self.new ≡ self.old) }
    {
        match size {
            Some(size) => self.tree.resize(number, size, at).map_err(status_of),
            None => Ok(()),
        }
    }

    /// Sets the ACL of an object with the high bits of its mode, if the ACL changes.
    fn set_permissions(&mut self, number: u64, made: Option<Permissions<A>>, at: At)
        requires tick { IsTick self.old.tree.world at.tick }
        requires stamps { is_some made ≡ true → self.old.tree.world.next_stamp < 2 ^ 63 }
        requires bounded { IfSome made (λ p. IsBounded p.list) }
        ensures set { self.new ≡ with_world (permitted number made at self.old.tree.world) self.old }
        ensures tick { IsTick self.new.tree.world at.tick }
        ensures stamps { self.new.tree.world.next_stamp ≡
            self.old.tree.world.next_stamp + (if is_some made then 1 else 0) }
    {
        if let Some(made) = made {
            self.tree.set_list(number, made.list, made.high, at);
        }
    }

    /// Sets the owner and the group of an object, if one of them is to be set; the other stays as it was.
    fn set_principals(
        &mut self,
        number: u64,
        owner: Option<u32>,
        group: Option<u32>,
        before: (u32, u32),
        at: At,
    )
        requires tick { IsTick self.old.tree.world at.tick }
        requires stamps { is_some owner || is_some group ≡ true → self.old.tree.world.next_stamp < 2 ^ 63 }
        ensures set { self.new ≡ with_world (entitled number owner group before at self.old.tree.world) self.old }
        ensures tick { IsTick self.new.tree.world at.tick }
    {
        if is_either(owner, group) {
            let (old_owner, old_group) = before;
            let owner = owner.unwrap_or(old_owner);
            let group = group.unwrap_or(old_group);
            self.tree.set_owner(number, owner, group, at);
        }
    }

    /// Sets the times of an object, if one of them is to be set.
    fn set_times(&mut self, number: u64, access: Option<SetTime>, modify: Option<SetTime>, at: At)
        requires tick { IsTick self.old.tree.world at.tick }
        ensures { self.new ≡ with_world (timed number access modify at self.old.tree.world) self.old }
    {
        if access.is_some() || modify.is_some() {
            let access = moment_set(at.moment, access);
            let modify = moment_set(at.moment, modify);
            self.tree.set_times(number, access, modify, at);
        }
    }

    /// Sets all attributes of an object that are sent, or none. `NoSpc`: its ACL would exceed the bounds of an ACL.
    /// `Delay`: an allocation fails.
    #[tactic(auto, unfolding(crate::specs::Operations::Setattr::setting))]
    fn set_all(&mut self, number: u64, wanted: Attrs<A>, at: At) -> Result<(), Status>
        requires tick { IsTick self.old.tree.world at.tick }
        requires there { IsSome (object self.old.tree.world number) }
        requires file { IfSome wanted.size (λ size. kind_of self.old.tree.world number ≡ Some Kind.File) }
        requires fits { size_fits self.old.tree.world.limits wanted.size ≡ true }
        requires bounded { IfSome wanted.list IsBounded }
        requires stamps { self.old.tree.world.next_stamp + stamps (wanted_view wanted) ≤ 2 ^ 63 }
        ensures fits { IsFit (set_fits (wanted_view wanted) (kind_at (sight_of self.old) number)
            (list_at self.old.tree.world number)) result }
        ensures ok { OnOk result (self.new ≡
            with_world (setting number (wanted_view wanted) at self.old.tree.world) self.old) }
        ensures err { OnErr result (self.new ≡ self.old) }
    {
        let Some(node) = self.tree.object(number) else {
            unreachable!();
        };
        let before = (node.owner(), node.group());
        let (size, owner, group) = (wanted.size, wanted.owner, wanted.group);
        let (access, modify) = (wanted.access, wanted.modify);
        let made = self.permissions(number, wanted)?;
        self.set_size(number, size, at)?;
        self.set_permissions(number, made, at);
        self.set_principals(number, owner, group, before, at);
        self.set_times(number, access, modify, at);
        Ok(())
    }

    /// Sets these attributes; without any, no tick is taken. `NoSpc`: the ACL would exceed the bounds of an ACL.
    /// `Delay`: an allocation fails.
    #[tactic(auto, unfolding(crate::specs::Operations::Setattr::can_count, crate::specs::Operations::Setattr::setting))]
    fn set_any(&mut self, now: Moment, number: u64, wanted: Attrs<A>) -> Result<(), Status>
        requires there { IsSome (object self.old.tree.world number) }
        requires file { IfSome wanted.size (λ size. kind_of self.old.tree.world number ≡ Some Kind.File) }
        requires fits { size_fits self.old.tree.world.limits wanted.size ≡ true }
        requires bounded { IfSome wanted.list IsBounded }
        requires counts { can_count (wanted_view wanted) (sight_of self.old) ≡ true }
        ensures fits { IsFit (set_fits (wanted_view wanted) (kind_at (sight_of self.old) number)
            (list_at self.old.tree.world number)) result }
        ensures ok { OnOk result (self.new ≡ with_world
            (setting number (wanted_view wanted) (record { tick = self.old.tree.world.next_tick; moment = now })
            self.old.tree.world)
            self.old) }
        ensures err { OnErr result (self.new ≡ self.old) }
    {
        if !sets_any(&wanted) {
            return Ok(());
        }
        let Some(at) = self.tick(now) else {
            unreachable!();
        };
        self.set_all(number, wanted, at)
    }

    /// Sets all attributes that are sent on the current object, or none of them. `Delay`: an allocation fails.
    pub fn setattr(
        &mut self,
        step: Step<'_>,
        args: &SetAttrArgs<'_>,
        out: &mut Writer<A>,
    ) -> Result<FileHandles, Status>
        requires settled { self.old.tree.log.held ≡ [] }
        requires room { HasRoom step.context out.old }
        ensures { GivesOrDelays step.entry (setattr (setattr_args_value args.now)) (stage self.old out.old) result
            (stage self.new out.new) }
    {
        let number = step.handles.current.ok_or(Status::NoFileHandle)?;
        if self.tree.object(number).is_none() {
            return Err(Status::Stale);
        }
        let limits = self.tree.limits();
        let wanted = self.wanted_on(step.context.times, number, args)?;
        self.check_size(step.context, number, wanted.size, &args.stateid)?;
        let clock = clock_by(wanted.access, wanted.modify);
        if !self.grants_sized(step, &Op::SetAttr(*args), wanted.size, clock) {
            return Err(Status::Access);
        }
        if !size_fits(limits, wanted.size) {
            return Err(Status::FBig);
        }
        if !self.can_count(&wanted) {
            return Err(Status::NoSpc);
        }
        self.set_any(step.context.now, number, wanted)?;
        let set = args.attributes.set;
        put_result(OpResult::SetAttr(SetAttrResult { set }), out);
        Ok(step.handles)
    }
}
