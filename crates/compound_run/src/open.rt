//! OPEN (RFC 8881, section 18.16).
ghost use Rattle.std.specs.Prelude.{◌≡◌, ◌≤◌, [], ◌∷◌, if◌then◌else◌, length, true, false, Some, None, Err, IfOk};
ghost use Rattle.std.specs.Prelude.{IfSome, IsOkUnless, IsSome, MatchResult, OnErr, OnOk, vec_len, vec_capacity};
ghost use Rattle.std.specs.Option.{option_map};
ghost use Rattle.acl_shape.specs.Bounds.{IsBounded};
ghost use Rattle.nfs_types.specs.Views.{bitmap_value};
ghost use Rattle.access_rows.specs.Rows as rows;
ghost use Rattle.nfs_ops.specs.Parts as parts;
ghost use Rattle.nfs_ops.specs.Parts.{ByName};
ghost use Rattle.nfs_ops.specs.Views.{open_args_value, open_claim_value, open_how_value};
ghost use Rattle.node_tree.specs.World.{object, kind_of};
ghost use Rattle.compound_run.specs.Asking.{sight_of};
ghost use Rattle.compound_run.specs.Operations.Create.{list_at};
ghost use Rattle.compound_run.specs.Lists.{IsFit, new_fits};
ghost use Rattle.compound_run.specs.Operations.Open as specs;
ghost use Rattle.compound_run.specs.Operations.Open.{open_file, opening};
ghost use Rattle.compound_run.specs.Opening.{HasPlace, IsBefore, IsPlace, MakesFile};
ghost use Rattle.compound_run.specs.internal.Opening.{IfByName};
ghost use Rattle.compound_run.specs.Operations.Setattr as setting;
ghost use Rattle.compound_run.specs.Sight.{child, directory_change, kind_at};
ghost use Rattle.compound_run.specs.Views.{context_at, GivesOrDelays, HasRoom, realm_of, wanted_view, IsWanted, stage};
ghost use Rattle.compound_run.specs.Views.{settings_of};

use crate::context::Context;
use crate::create::{Draft, is_own};
use crate::directory::Directory;
use crate::filehandles::FileHandles;
use crate::opens::Place;
use crate::operation_results::put_result;
use crate::realm::{Realm, check};
use crate::setattr::size_fits;
use crate::step::Step;
use nfs_ops::{ChangeInfo, Op, OpResult, OpenArgs, OpenClaim, OpenHow, OpenResult};
use nfs_types::{Attrs, Bitmap, Status};
use node_tree::{Kind, NewObject};
use rpc_record::Caller;
use std::alloc::{AllocError, Allocator};
use xdr_wire::Writer;

/// The most bytes of a file that is made with a size. They are allocated at once, and each of them is zero.
const MOST_AT_ONCE: usize = 1_048_576;

/// Whether a file may be created.
fn is_creating(how: &OpenHow<'_>) -> bool
    ensures { result ≡ rows.is_creating (parts.how (open_how_value how.now)) }
{
    !matches!(how, OpenHow::NoCreate)
}

/// Whether an existing file is truncated, if this size is to be set.
fn is_truncating(how: &OpenHow<'_>, size: Option<u64>) -> bool
    ensures { result ≡ rows.is_truncating (parts.how (open_how_value how.now)) size }
{
    match how {
        OpenHow::Unchecked(_) => size == Some(0),
        OpenHow::NoCreate | OpenHow::Guarded(_) => false,
    }
}

/// The access is neither missing nor unknown, the share deny is 0, and the name is valid. By filehandle the file
/// exists, and can't be created.
fn check_arguments(args: &OpenArgs<'_>) -> Result<(), Status>
    ensures fault { MatchResult result (λ done. specs.arguments_fault (open_args_value args.now) ≡ None)
        (λ status. specs.arguments_fault (open_args_value args.now) ≡ Some status) }
    ensures short { OnOk result (length (specs.name_in (parts.claim (open_claim_value args.now.claim))) ≤ 255) }
{
    let access = args.access % 256;
    if access != 1 && access != 2 && access != 3 {
        return Err(Status::Inval);
    }
    if args.deny > 3 {
        return Err(Status::Inval);
    }
    if args.deny != 0 {
        return Err(Status::NotSupp);
    }
    match &args.claim {
        OpenClaim::ByName(name) => check(name.bytes),
        OpenClaim::ByHandle if is_creating(&args.how) => Err(Status::Inval),
        OpenClaim::ByHandle => Ok(()),
    }
}

/// By name the current object must be a directory, by filehandle a file.
fn check_current(claim: &OpenClaim<'_>, kind: Kind) -> Result<(), Status>
    ensures { MatchResult result (λ done. specs.current_fault (parts.claim (open_claim_value claim.now)) kind ≡ None)
        (λ status. specs.current_fault (parts.claim (open_claim_value claim.now)) kind ≡ Some status) }
{
    match (claim, kind) {
        (OpenClaim::ByName(_), Kind::Directory) | (OpenClaim::ByHandle, Kind::File) => Ok(()),
        (OpenClaim::ByName(_), _) => Err(Status::NotDir),
        (OpenClaim::ByHandle, Kind::Directory) => Err(Status::IsDir),
        (OpenClaim::ByHandle, Kind::Link) => Err(Status::Symlink),
    }
}

/// An absent file is created if it may be. An existing object must be a file, and GUARDED4 refuses it.
fn check_found(how: &OpenHow<'_>, kind: Option<Kind>) -> Result<(), Status>
    ensures { MatchResult result (λ done. specs.found_fault (parts.how (open_how_value how.now)) kind ≡ None)
        (λ status. specs.found_fault (parts.how (open_how_value how.now)) kind ≡ Some status) }
{
    let Some(kind) = kind else {
        return if is_creating(how) {
            Ok(())
        } else {
            Err(Status::NoEnt)
        };
    };
    if matches!(how, OpenHow::Guarded(_)) {
        return Err(Status::Exist);
    }
    match kind {
        Kind::File => Ok(()),
        Kind::Directory => Err(Status::IsDir),
        Kind::Link => Err(Status::Symlink),
    }
}

/// The attributes that are sent for a file that may be created.
fn sent_set(how: &OpenHow<'_>) -> Bitmap
    ensures { bitmap_value result ≡ specs.sent_set (parts.how (open_how_value how.now)) }
{
    match how {
        OpenHow::NoCreate => Bitmap::empty(),
        OpenHow::Unchecked(attributes) | OpenHow::Guarded(attributes) => attributes.set,
    }
}

/// The attributes that are set on an existing file.
fn truncated_set(truncates: bool) -> Bitmap
    ensures { bitmap_value result ≡ (if truncates then 16 ∷ [] else []) }
{
    if truncates {
        Bitmap::size()
    } else {
        Bitmap::empty()
    }
}

impl<A: Allocator + Copy> Realm<A> {
    /// The values that the attributes of a new file set. `Delay`: an allocation for the access control list (ACL)
    /// fails.
    fn wanted_with(&self, times: bool, how: &OpenHow<'_>) -> Result<Attrs<A>, Status>
        ensures wanted { IsWanted (specs.sent_by times self.now.tree.book (parts.how (open_how_value how.now))) result }
        ensures bounded { IfOk result (λ wanted. IfSome wanted.list IsBounded) }
    {
        match how {
            OpenHow::NoCreate => Ok(Attrs::none()),
            OpenHow::Unchecked(attributes) | OpenHow::Guarded(attributes) => {
                self.wanted(times, Kind::File, attributes)
            }
        }
    }

    /// The object of the name, if any.
    fn found(&self, handles: FileHandles, directory: u64, claim: &OpenClaim<'_>) -> Option<u64>
        requires here { handles.current ≡ Some directory }
        requires there { IsSome (object self.now.tree.world directory) }
        ensures found { result ≡ specs.found_by (parts.claim (open_claim_value claim.now)) handles (sight_of self.now) }
        ensures live { IfSome result (λ file. IsSome (object self.now.tree.world file)) }
    {
        match claim {
            OpenClaim::ByName(name) => self.find(directory, name.bytes),
            OpenClaim::ByHandle => Some(directory),
        }
    }

    /// The type of that object.
    fn kind_of(&self, file: Option<u64>) -> Option<Kind>
        requires live { IfSome file (λ file. IsSome (object self.now.tree.world file)) }
        ensures { result ≡ option_map (kind_at (sight_of self.now)) file }
    {
        let number = file?;
        let Some(node) = self.tree.object(number) else {
            unreachable!();
        };
        Some(node.kind())
    }
}

impl<A: Allocator + Copy> Realm<A> {
    /// A new file for a directory, of the size that is set; each byte of it is zero. `NoSpc`: its ACL would exceed the
    /// bounds of an ACL. `Delay`: an allocation fails, or more than [`MOST_AT_ONCE`] bytes would have to be allocated.
    fn new_file(
        &self,
        directory: u64,
        wanted: Attrs<A>,
        context: Context<'_>,
        caller: &Caller,
    ) -> Result<NewObject<A>, Status>
        requires there { IsSome (object self.now.tree.world directory) }
        requires bounded { IfSome wanted.list IsBounded }
        requires fits { setting.size_fits self.now.tree.world.limits wanted.size ≡ true }
        ensures fits { IsFit (new_fits (wanted_view wanted) Kind.File (list_at self.now.tree.world directory)) result }
        ensures made { IfOk result (MakesFile context.entry.times context.entry.now caller.now
            self.now.tree.world.limits (list_at self.now.tree.world directory) (wanted_view wanted)) }
    {
        let size = wanted.size.unwrap_or(0) as usize;
        let draft = Draft {
            kind: Kind::File,
            text: &[],
        };
        let mut new = self.new_object(directory, draft, wanted, context, caller)?;
        if size > MOST_AT_ONCE {
            return Err(Status::Delay);
        }
        match new.bytes.resize(size, 0) {
            Ok(()) => Ok(new),
            Err(AllocError) => Err(Status::Delay),
        }
    }

    /// Creates an absent file in the current directory, and opens it.
    fn open_new(
        &mut self,
        step: Step<'_>,
        directory: Directory,
        name: &[u8],
        wanted: Attrs<A>,
        args: &OpenArgs<'_>,
        out: &mut Writer<A>,
    ) -> Result<FileHandles, Status>
        requires here { step.handles.current ≡ Some directory.number }
        requires live { kind_of self.old.tree.world directory.number ≡ Some Kind.Directory }
        requires change { directory_change self.old.tree.world directory.number ≡ directory.change }
        requires claim { parts.claim (open_claim_value args.now.claim) ≡ ByName name.now }
        requires short { length name.now ≤ 255 }
        requires free { child (sight_of self.old) directory.number name.now ≡ None }
        requires wanted { specs.wanted (context_at self.old step.context) (open_args_value args.now) ≡
            wanted_view wanted }
        requires bounded { IfSome wanted.list IsBounded }
        requires room { HasRoom step.context out.old }
        ensures { GivesOrDelays step.entry (opening (open_args_value args.now)) (stage self.old out.old) result
            (stage self.new out.new) }
    {
        let caller = self.tree.member(step.context.caller);
        if !is_own(&caller, &wanted) {
            return Err(Status::Perm);
        }
        if !size_fits(self.tree.limits(), wanted.size) {
            return Err(Status::FBig);
        }
        let at = self.tick(step.context.now).ok_or(Status::NoSpc)?;
        let place = self.place(step.context, args, None)?;
        let new = self.new_file(directory.number, wanted, step.context, &caller)?;
        let file = self.add(directory.number, name, new, at)?;
        let stateid = self.put_open(step.context, args.access % 256, place, file);
        let change = directory.changed(at.tick);
        let set = sent_set(&args.how);
        put_result(
            OpResult::Open(OpenResult {
                stateid,
                change,
                set,
            }),
            out,
        );
        Ok(FileHandles {
            current: Some(file),
            ..step.handles
        })
    }

    /// Reserves memory for the open of a file, and truncates the file, if it is to be. `NoSpc`: the open doesn't fit,
    /// or no tick is left. `Delay`: an allocation fails.
    fn place_found(
        &mut self,
        context: Context<'_>,
        args: &OpenArgs<'_>,
        file: u64,
        truncates: bool,
    ) -> Result<Place<A>, Status>
        requires file { kind_of self.old.tree.world file ≡ Some Kind.File }
        requires truncates { specs.truncates (context_at self.old context) (open_args_value args.now) ≡ truncates }
        ensures full { specs.has_space_for (context_at self.old context.entry) (open_args_value args.now) 0 (Some file)
            (sight_of self.old) ≡ false → result ≡ Err Status.NoSpc }
        ensures space { specs.has_space_for (context_at self.old context.entry) (open_args_value args.now) 0 (Some file)
            (sight_of self.old) ≡ true → IsOkUnless result Status.Delay }
        ensures place { IfOk result (IsPlace args.now.owner.bytes.now
            (specs.joined (context_at self.old context.entry) (open_args_value args.now) (Some file)
            (sight_of self.old).opens)) }
        ensures room { IfOk result (HasPlace self.new.next_open (vec_len self.new.opens)
            (vec_capacity self.new.opens)) }
        ensures ok { OnOk result (realm_of self.new ≡ record (realm_of self.old) {
          world = specs.file_in (context_at self.old context.entry) (open_args_value args.now) 0 (Some file)
              self.old.tree.world;
        }) }
        ensures err { OnErr result (realm_of self.new ≡ realm_of self.old) }
        ensures log { self.new.tree.log ≡ self.old.tree.log }
        ensures settings { settings_of self.new ≡ settings_of self.old }
    {
        if !truncates {
            return self.place(context, args, Some(file));
        }
        let at = self.tick(context.now).ok_or(Status::NoSpc)?;
        let place = self.place(context, args, Some(file))?;
        if self.tree.resize(file, 0, at).is_err() {
            unreachable!();
        }
        Ok(place)
    }

    /// Truncates an existing file, if it is to be, and opens it.
    fn open_found(
        &mut self,
        step: Step<'_>,
        file: u64,
        before: u64,
        truncates: bool,
        args: &OpenArgs<'_>,
        out: &mut Writer<A>,
    ) -> Result<FileHandles, Status>
        requires found { specs.found (open_args_value args.now) step.handles (sight_of self.old) ≡ Some file }
        requires file { kind_of self.old.tree.world file ≡ Some Kind.File }
        requires change { IsBefore (parts.claim (open_claim_value args.now.claim)) (sight_of self.old) step.handles
            before }
        requires truncates { specs.truncates (context_at self.old step.context) (open_args_value args.now) ≡ truncates }
        requires room { HasRoom step.context out.old }
        ensures { GivesOrDelays step.entry (opening (open_args_value args.now)) (stage self.old out.old) result
            (stage self.new out.new) }
    {
        let place = self.place_found(step.context, args, file, truncates)?;
        let stateid = self.put_open(step.context, args.access % 256, place, file);
        let change = ChangeInfo {
            before,
            after: before,
        };
        let set = truncated_set(truncates);
        put_result(
            OpResult::Open(OpenResult {
                stateid,
                change,
                set,
            }),
            out,
        );
        Ok(FileHandles {
            current: Some(file),
            ..step.handles
        })
    }
}

impl<A: Allocator + Copy> Realm<A> {
    /// Opens the file of the name, or creates it.
    fn open_at(
        &mut self,
        step: Step<'_>,
        current: Directory,
        found: Option<u64>,
        wanted: Attrs<A>,
        args: &OpenArgs<'_>,
        out: &mut Writer<A>,
    ) -> Result<FileHandles, Status>
        requires here { step.handles.current ≡ Some current.number }
        requires change { IfByName (parts.claim (open_claim_value args.now.claim))
            ((kind_of self.old.tree.world current.number ≡ Some Kind.Directory) ×
            (directory_change self.old.tree.world current.number ≡ current.change)) }
        requires found { specs.found (open_args_value args.now) step.handles (sight_of self.old) ≡ found }
        requires file { IfSome found (λ file. kind_of self.old.tree.world file ≡ Some Kind.File) }
        requires short { length (specs.name_in (parts.claim (open_claim_value args.now.claim))) ≤ 255 }
        requires wanted { specs.wanted (context_at self.old step.context) (open_args_value args.now) ≡
            wanted_view wanted }
        requires bounded { IfSome wanted.list IsBounded }
        requires room { HasRoom step.context out.old }
        ensures { GivesOrDelays step.entry (opening (open_args_value args.now)) (stage self.old out.old) result
            (stage self.new out.new) }
    {
        let truncates = is_truncating(&args.how, wanted.size);
        match (found, &args.claim) {
            (Some(file), OpenClaim::ByName(_)) => {
                self.open_found(step, file, current.change, truncates, args, out)
            }
            (Some(file), OpenClaim::ByHandle) => {
                self.open_found(step, file, 0, truncates, args, out)
            }
            (None, OpenClaim::ByName(name)) => {
                self.open_new(step, current, name.bytes, wanted, args, out)
            }
            (None, OpenClaim::ByHandle) => unreachable!(),
        }
    }

    /// Opens a file, by its name in the current directory or by the current filehandle. The file becomes the current
    /// filehandle. An absent file may be created, an existing one truncated. `Delay`: an allocation fails, and nothing
    /// has changed.
    pub fn open(
        &mut self,
        step: Step<'_>,
        args: &OpenArgs<'_>,
        out: &mut Writer<A>,
    ) -> Result<FileHandles, Status>
        requires settled { self.old.tree.log.held ≡ [] }
        requires room { HasRoom step.context out.old }
        ensures { GivesOrDelays step.entry (open_file (open_args_value args.now)) (stage self.old out.old) result
            (stage self.new out.new) }
    {
        let current = step.handles.current.ok_or(Status::NoFileHandle)?;
        let node = self.tree.object(current).ok_or(Status::Stale)?;
        check_current(&args.claim, node.kind())?;
        let before = node.change();
        check_arguments(args)?;
        let wanted = self.wanted_with(step.context.times, &args.how)?;
        if !self.grants_first(step, &Op::Open(*args)) {
            return Err(Status::Access);
        }
        let found = self.found(step.handles, current, &args.claim);
        check_found(&args.how, self.kind_of(found))?;
        if !self.grants_opening(step, &Op::Open(*args), found, wanted.size) {
            return Err(Status::Access);
        }
        let current = Directory {
            number: current,
            change: before,
        };
        self.open_at(step, current, found, wanted, args, out)
    }
}
