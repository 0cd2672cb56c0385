//! CREATE (RFC 8881, section 18.4).
ghost use Rattle.std.specs.Prelude.{◌≡◌, ◌+◌, ◌<◌, ◌≤◌, [], ◌∷◌, length, Some, None, option_map, unwrap_or, IfOk};
ghost use Rattle.std.specs.Prelude.{IfSome, IsOkUnless, IsSome, MatchResult};
ghost use Rattle.acl_shape.specs.Bounds.{IsBounded};
ghost use Rattle.acl_shape.specs.Permissions.{created_acl, created_high};
ghost use Rattle.nfs_types.specs.Sent.{wanted_of};
ghost use Rattle.nfs_types.specs.Views.{bitmap_value};
ghost use Rattle.nfs_ops.specs.Parts.{created};
ghost use Rattle.nfs_ops.specs.Views.{create_args_value, create_type_value};
ghost use Rattle.node_tree.specs.World.{object, kind_of};
ghost use Rattle.node_tree.specs.Sound.{most_bytes};
ghost use Rattle.compound_run.specs.Sight.{whole, child, directory_change};
ghost use Rattle.compound_run.specs.Operations.Create.{create, list_at, making};
ghost use Rattle.compound_run.specs.Operations.Create as specs;
ghost use Rattle.compound_run.specs.Lists.{IsFit, base_of, new_fits, new_list};
ghost use Rattle.compound_run.specs.Times.{first_access, first_modify};
ghost use Rattle.compound_run.specs.Views.{context_at, GivesOrDelays, HasRoom, realm_of, draft_view, wanted_view};
ghost use Rattle.compound_run.specs.Views.{IsWanted, stage};

use crate::context::Context;
use crate::directory::Directory;
use crate::filehandles::FileHandles;
use crate::list_parts::put_parts;
use crate::operation_results::put_result;
use crate::realm::{Realm, check};
use crate::step::Step;
use crate::times::{first_access, first_modify};
use acl_list::AclList;
use acl_shape::{Given, Permissions, created_permissions};
use nfs_ops::{CreateArgs, CreateResult, CreateType, Op, OpResult};
use nfs_types::{Attributes, Attrs, AttrsFault, Status, read_attrs};
use node_tree::{Kind, MAX_TEXT, NewObject};
use rpc_record::Caller;
use std::alloc::{AllocError, Allocator};
use xdr_wire::Writer;

/// The object to create: a directory, or a symbolic link with its text.
#[derive(Clone, Copy)]
pub(crate) struct Draft<'a> {
    pub kind: Kind,
    pub text: &'a [u8],
}

/// The object of this type. `None`: CREATE doesn't support the type.
fn draft_of<'a>(kind: &CreateType<'a>) -> Option<Draft<'a>>
    ensures { option_map draft_view result ≡ specs.draft_of (created (create_type_value kind.now)) }
{
    match kind {
        CreateType::Directory => Some(Draft {
            kind: Kind::Directory,
            text: &[],
        }),
        CreateType::Link(text) => Some(Draft {
            kind: Kind::Link,
            text: text.bytes,
        }),
        _ => None,
    }
}

/// A link's text is neither empty nor too long.
fn check_text(draft: Draft<'_>) -> Result<(), Status>
    ensures fault { MatchResult result (λ done. specs.text_fault (draft_view draft.entry) ≡ None)
        (λ status. specs.text_fault (draft_view draft.entry) ≡ Some status) }
{
    if draft.kind != Kind::Link {
        return Ok(());
    }
    if draft.text.is_empty() {
        return Err(Status::Inval);
    }
    if draft.text.len() as u64 > MAX_TEXT {
        return Err(Status::NameTooLong);
    }
    Ok(())
}

/// Whether the owner to be set is the caller, and the group one of the caller's.
pub(crate) fn is_own<A: Allocator>(caller: &Caller, wanted: &Attrs<A>) -> bool
    ensures { result ≡ specs.is_own caller.now (wanted_view wanted.now) }
{
    let owner = match wanted.owner {
        Some(owner) => owner == caller.uid(),
        None => true,
    };
    let group = match wanted.group {
        Some(group) => caller.is_member(group),
        None => true,
    };
    owner && group
}

/// The access control list (ACL) that a new object is given before its dacl and sacl. It is empty if a dacl is sent,
/// else it is the acl that was sent, if any.
fn base_of<A: Allocator>(
    alloc: A,
    list: Option<AclList<A>>,
    dacl: &Option<AclList<A>>,
) -> Option<AclList<A>>
    requires bounded { IfSome list IsBounded }
    ensures list { result ≡ base_of list dacl.now }
    ensures bounded { IfSome result IsBounded }
{
    if dacl.is_some() {
        Some(AclList::new(alloc))
    } else {
        list
    }
}

/// A copy of these bytes. `Err`: an allocation fails.
fn copied<A: Allocator>(alloc: A, bytes: &[u8]) -> Result<Vec<u8, A>, AllocError>
    ensures { IfOk result (λ copy. copy.items ≡ bytes.now) }
{
    let mut copy = Vec::with_capacity(alloc, bytes.len())?;
    copy.extend_from_slice(bytes)?;
    Ok(copy)
}

impl<A: Allocator + Copy> Realm<A> {
    /// The values that the attributes set. `Delay`: an allocation for the ACL fails.
    pub fn wanted(&self, times: bool, kind: Kind, sent: &Attributes<'_>) -> Result<Attrs<A>, Status>
        ensures wanted { IsWanted (wanted_of times self.now.tree.book kind (bitmap_value sent.now.set)
            sent.now.values.bytes.now) result }
        ensures bounded { IfOk result (λ wanted. IfSome wanted.list IsBounded) }
    {
        read_attrs(self.alloc, times, self.tree.book(), kind, sent).map_err(|fault| match fault {
            AttrsFault::Refused(status) => status,
            AttrsFault::Memory => Status::Delay,
        })
    }

    /// The ACL of a new object before its dacl and sacl, with the high bits of its mode. `Delay`: an allocation fails.
    fn base_permissions(
        &self,
        directory: u64,
        kind: Kind,
        given: Given<A>,
    ) -> Result<Permissions<A>, Status>
        requires there { IsSome (object self.now.tree.world directory) }
        requires bounded { IfSome given.list IsBounded }
        ensures space { IsOkUnless result Status.Delay }
        ensures list { IfOk result (λ made. made.list ≡
            created_acl (list_at self.now.tree.world directory) kind given.mode given.list) }
        ensures high { IfOk result (λ made. made.high ≡ created_high given.mode) }
        ensures bounded { IfOk result (λ made. IsBounded made.list) }
    {
        let Some(parent) = self.tree.object(directory) else {
            unreachable!();
        };
        match created_permissions(self.alloc, parent.list(), kind, given) {
            Ok(made) => Ok(made),
            Err(AllocError) => Err(Status::Delay),
        }
    }

    /// The ACL of a new object by its attributes, with the high bits of its mode. `NoSpc`: it would exceed the bounds
    /// of an ACL. `Delay`: an allocation fails.
    fn new_permissions(
        &self,
        directory: u64,
        kind: Kind,
        wanted: Attrs<A>,
    ) -> Result<Permissions<A>, Status>
        requires there { IsSome (object self.now.tree.world directory) }
        requires bounded { IfSome wanted.list IsBounded }
        ensures fits { IsFit (new_fits (wanted_view wanted) kind (list_at self.now.tree.world directory)) result }
        ensures list { IfOk result (λ made. made.list ≡
            new_list (wanted_view wanted) kind (list_at self.now.tree.world directory)) }
        ensures high { IfOk result (λ made. made.high ≡ created_high wanted.mode) }
        ensures bounded { IfOk result (λ made. IsBounded made.list) }
    {
        let Attrs {
            list,
            mode,
            dacl,
            sacl,
            ..
        } = wanted;
        let list = base_of(self.alloc, list, &dacl);
        let Permissions { list, high } = self.base_permissions(
            directory,
            kind,
            Given { mode, list },
        )?;
        let list = put_parts(self.alloc, list, dacl, sacl)?;
        Ok(Permissions { list, high })
    }

    /// The new object for a directory. `NoSpc`: its ACL would exceed the bounds of an ACL. `Delay`: an allocation
    /// fails.
    pub fn new_object(
        &self,
        directory: u64,
        draft: Draft<'_>,
        wanted: Attrs<A>,
        context: Context<'_>,
        caller: &Caller,
    ) -> Result<NewObject<A>, Status>
        requires there { IsSome (object self.now.tree.world directory) }
        requires bounded { IfSome wanted.list IsBounded }
        requires short { length draft.text.now ≤ most_bytes self.now.tree.world.limits draft.kind }
        ensures fits { IsFit (new_fits (wanted_view wanted) draft.entry.kind (list_at self.now.tree.world directory))
            result }
        ensures kind { IfOk result (λ new. new.kind ≡ draft.entry.kind) }
        ensures bytes { IfOk result (λ new. new.bytes.items ≡ draft.entry.text.now) }
        ensures owner { IfOk result (λ new. new.owner ≡ caller.now.uid) }
        ensures group { IfOk result (λ new. new.group ≡ unwrap_or wanted.group caller.now.gid) }
        ensures list { IfOk result (λ new. new.list ≡
            new_list (wanted_view wanted) draft.entry.kind (list_at self.now.tree.world directory)) }
        ensures high { IfOk result (λ new. new.high ≡ created_high wanted.mode) }
        ensures access { IfOk result (λ new. new.time_access ≡
            first_access context.entry.times context.entry.now wanted.access) }
        ensures modify { IfOk result (λ new. new.time_modify ≡ first_modify context.entry.now wanted.modify) }
        ensures bounded { IfOk result (λ new. IsBounded new.list) }
    {
        let group = wanted.group.unwrap_or(caller.gid());
        let time_access = first_access(context.times, context.now, wanted.access);
        let time_modify = first_modify(context.now, wanted.modify);
        let permissions = self.new_permissions(directory, draft.kind, wanted)?;
        let Ok(bytes) = copied(self.alloc, draft.text) else {
            return Err(Status::Delay);
        };
        Ok(NewObject {
            kind: draft.kind,
            bytes,
            owner: caller.uid(),
            group,
            list: permissions.list,
            high: permissions.high,
            time_access,
            time_modify,
        })
    }

    /// Adds the new object to the current directory, under a free name. It becomes the current filehandle.
    fn make(
        &mut self,
        step: Step<'_>,
        directory: Directory,
        wanted: (Draft<'_>, Attrs<A>),
        args: &CreateArgs<'_>,
        out: &mut Writer<A>,
    ) -> Result<FileHandles, Status>
        requires here { step.handles.current ≡ Some directory.number }
        requires live { kind_of self.old.tree.world directory.number ≡ Some Kind.Directory }
        requires change { directory_change self.old.tree.world directory.number ≡ directory.change }
        requires draft { specs.draft (create_args_value args.now) ≡ draft_view wanted.0 }
        requires wanted { specs.wanted (context_at self.old step.context) (create_args_value args.now) ≡
            wanted_view wanted.1 }
        requires bounded { IfSome wanted.1.list IsBounded }
        requires short { length args.now.name.bytes.now ≤ 255 }
        requires fits { length wanted.0.text.now ≤ most_bytes self.old.tree.world.limits wanted.0.kind }
        requires free { child (whole (realm_of self.old)) directory.number args.now.name.bytes.now ≡ None }
        requires room { HasRoom step.context out.old }
        ensures { GivesOrDelays step.entry (making (create_args_value args.now) directory.number)
            (stage self.old out.old) result (stage self.new out.new) }
    {
        let (draft, wanted) = wanted;
        let at = self.tick(step.context.now).ok_or(Status::NoSpc)?;
        let caller = self.tree.member(step.context.caller);
        let new = self.new_object(directory.number, draft, wanted, step.context, &caller)?;
        let number = self.add(directory.number, args.name.bytes, new, at)?;
        put_result(
            OpResult::Create(CreateResult {
                change: directory.changed(at.tick),
                set: args.attributes.set,
            }),
            out,
        );
        Ok(FileHandles {
            current: Some(number),
            ..step.handles
        })
    }

    /// Creates a directory or a symbolic link in the current directory. It becomes the current filehandle.
    pub fn create(
        &mut self,
        step: Step<'_>,
        args: &CreateArgs<'_>,
        out: &mut Writer<A>,
    ) -> Result<FileHandles, Status>
        requires settled { self.old.tree.log.held ≡ [] }
        requires room { HasRoom step.context out.old }
        ensures { GivesOrDelays step.entry (create (create_args_value args.now)) (stage self.old out.old) result
            (stage self.new out.new) }
    {
        let directory = step.handles.current.ok_or(Status::NoFileHandle)?;
        let node = self.tree.object(directory).ok_or(Status::Stale)?;
        if !node.is_directory() {
            return Err(Status::NotDir);
        }
        let before = node.change();
        let draft = draft_of(&args.kind).ok_or(Status::BadType)?;
        let name = args.name.bytes;
        check(name)?;
        check_text(draft)?;
        let wanted = self.wanted(step.context.times, draft.kind, &args.attributes)?;
        if wanted.size.is_some() {
            return Err(Status::Inval);
        }
        if !self.grants_first(step, &Op::Create(*args)) {
            return Err(Status::Access);
        }
        if self.find(directory, name).is_some() {
            return Err(Status::Exist);
        }
        if !is_own(&self.tree.member(step.context.caller), &wanted) {
            return Err(Status::Perm);
        }
        let parent = Directory {
            number: directory,
            change: before,
        };
        self.make(step, parent, (draft, wanted), args, out)
    }
}
