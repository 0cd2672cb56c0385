//! READDIR (RFC 8881, section 18.23).
ghost use Rattle.std.specs.Prelude.{◌≡◌, ◌≤◌, ◌==◌, ℕ, [], length, bit_and, Some, None, Err, IfErr, IfSome, IsSome};
ghost use Rattle.std.specs.Prelude.{OnOk};
ghost use Rattle.nfs_types.specs.FactsView.{facts_value};
ghost use Rattle.nfs_types.specs.Views.{bitmap_value};
ghost use Rattle.nfs_ops.specs.ListingSteps.{Lists};
ghost use Rattle.nfs_ops.specs.Views.{readdir_args_value};
ghost use Rattle.node_tree.specs.World.{Name, name_after};
ghost use Rattle.node_tree.specs.Judged.{judged_of};
ghost use Rattle.node_tree.specs.Sound.{IsSound};
ghost use Rattle.compound_run.specs.Asking.{sight_of};
ghost use Rattle.compound_run.specs.Operations.Readdir as specs;
ghost use Rattle.compound_run.specs.Operations.Readdir.{readdir};
ghost use Rattle.compound_run.specs.internal.Readdir.{listing_of};
ghost use Rattle.compound_run.specs.Rows.{MAX_FIRST_LINES, object_of};
ghost use Rattle.access_guard.specs.Lists as access;
ghost use Rattle.acl_list.specs.declared.mask.TheConstants.{READ_ATTRIBUTES, READ_ACL};
ghost use Rattle.rpc_record.specs.Identity.{Identity};
ghost use Rattle.compound_run.specs.internal.Listed.{IsEntry, IsNextOf, PutsEntry, given_view, refused_of};
ghost use Rattle.compound_run.specs.internal.Listed.{written_entry};
ghost use Rattle.compound_run.specs.Views.{context_at, Gives, HasRoom, stage};
ghost use Rattle.who_book.specs.Members.{member};

use crate::context::Context;
use crate::filehandles::FileHandles;
use crate::realm::Realm;
use crate::requested::{check_readable, requested};
use crate::step::Step;
use access_guard::Demand;
use access_rows::{Object, entry_demands, granted_attributes};
use acl_list::mask;
use nfs_ops::{
    Bytes, Entries, GivenEntry, ListFault, Next, OP_READDIR, Op, ReadDirArgs, write_entry,
    write_readdir,
};
use nfs_types::{Bitmap, GivenAttributes, ObjectFacts, Status};
use node_tree::DirEntry;
use rpc_record::Caller;
use std::alloc::Allocator;
use who_book::Book;
use xdr_wire::{Full, Writer};

/// The number of the attribute rdattr_error.
const RDATTR_ERROR: u32 = 11;

/// Whether all bits of the mask are granted.
fn has_all(granted: u32, mask: u32) -> bool
    ensures { result ≡ (bit_and mask granted == mask) }
{
    mask & granted == mask
}

/// The first of the two demands of an entry that is refused, given whether READ_ATTRIBUTES and READ_ACL are granted.
fn first_refused(demands: &[Option<Demand>], attributes: bool, list: bool) -> Option<Demand>
    requires { length demands.now ≡ 2 }
    ensures { result ≡ refused_of attributes list demands.now }
{
    if !attributes && demands[0].is_some() {
        return demands[0];
    }
    if !list {
        return demands[1];
    }
    None
}

/// The attributes of an entry's object, with rdattr_error, or the demand that refuses the entry, given whether
/// READ_ATTRIBUTES and READ_ACL are granted.
fn judge_by(
    attributes: bool,
    list: bool,
    child: Object,
    asked: &Bitmap,
) -> Result<(Status, Bitmap), Demand>
    ensures { (lists : access.Lists) (caller : Identity) →
        attributes ≡ (bit_and READ_ATTRIBUTES (access.granted_at lists caller child.number) == READ_ATTRIBUTES) →
        list ≡ (bit_and READ_ACL (access.granted_at lists caller child.number) == READ_ACL) →
        given_view result ≡ specs.judgment_of lists caller (bitmap_value asked.now) child.number (Some child) }
{
    let demands = entry_demands(asked, Some(child));
    let Some(demand) = first_refused(&demands, attributes, list) else {
        return Ok((Status::Ok, *asked));
    };
    if !asked.has(RDATTR_ERROR) {
        return Err(demand);
    }
    let given = asked.common(&granted_attributes(attributes, list));
    Ok((Status::Access, given))
}

/// Writes an entry after its link, with these attributes of its object. `Full`: if and only if it doesn't fit; then
/// nothing is written.
fn put_entry<'t, A: Allocator, B: Allocator>(
    book: &'t Book,
    facts: &'t ObjectFacts<'_>,
    asked: Bitmap,
    name: &'t DirEntry<A>,
    out: &mut Writer<B>,
) -> Result<(), Full>
    requires short { length name.now.name ≤ 0xffff_ffff }
    ensures { PutsEntry (written_entry book.now (facts_value facts.now) name.now (bitmap_value asked)) out.old out.new
        result }
{
    let attributes = GivenAttributes { book, facts, asked };
    let bytes = Bytes { bytes: name.name() };
    let given = GivenEntry {
        cookie: name.cookie(),
        name: bytes,
        attributes,
    };
    write_entry(given, out)
}

impl<A: Allocator + Copy> Realm<A> {
    /// The next entry of a directory above a cookie: its own cookie, and the number of its object. `None`: no entry
    /// follows. The object isn't looked up.
    fn next_entry(&self, directory: u64, cookie: u64) -> Option<(u64, u64)>
        ensures none { result ≡ None → specs.names_above (sight_of self.now) directory cookie ≡ [] }
        ensures some { IfSome result (λ next. IsNextOf (sight_of self.now) directory cookie
            (name_after self.now.tree.world directory cookie) next.0 next.1) }
    {
        let name = self.tree.list_after(directory, cookie)?;
        Some((name.cookie(), name.child()))
    }

    /// The attributes of an entry's object, with rdattr_error, or the demand that refuses the entry. The grants of its
    /// access control list are looked up once. If both permissions are granted, nothing more is needed: then no demand
    /// is refused, whatever is requested.
    fn judge_child(
        &mut self,
        caller: &Caller,
        number: u64,
        asked: &Bitmap,
    ) -> Result<(Status, Bitmap), Demand>
        requires there { IsSome (object_of (sight_of self.old) (Some number)) }
        ensures judged { (child : Object) → object_of (sight_of self.old) (Some number) ≡ Some child →
            given_view result ≡ specs.judgment_of (judged_of self.old.tree.world) (member self.old.tree.book caller.now)
            (bitmap_value asked.now) child.number (Some child) }
        ensures state { self.new ≡ self.old }
        ensures sound { IfErr result (λ refused. IsSound self.old.tree.world) }
    {
        let granted = self.tree.grants(number, caller);
        let attributes = has_all(granted, mask::READ_ATTRIBUTES);
        let list = has_all(granted, mask::READ_ACL);
        if attributes && list {
            return Ok((Status::Ok, *asked));
        }
        let Some(node) = self.tree.object(number) else {
            unreachable!();
        };
        let kind = node.kind();
        judge_by(attributes, list, Object { number, kind }, asked)
    }

    /// Writes an entry of a directory after its link, by its cookie, with these attributes of its object and this
    /// status as rdattr_error. `Full`: if and only if it doesn't fit; then nothing is written.
    fn put_child<B: Allocator>(
        &self,
        context: Context<'_>,
        cookie: u64,
        given: (Status, Bitmap),
        out: &mut Writer<B>,
    ) -> Result<(), Full>
        requires there { IsEntry self.now.tree.world cookie }
        ensures puts { (directory last : ℕ) (n : Name) → name_after self.now.tree.world directory last ≡ Some n →
            n.cookie ≡ cookie → PutsEntry (specs.entry_of (context_at self.now context.entry) (sight_of self.now) n
            given.0 (bitmap_value given.1)) out.old out.new result }
        ensures sound { IsSound self.now.tree.world }
    {
        let Some(name) = self.tree.name_by_cookie(cookie) else {
            unreachable!();
        };
        let (error, asked) = given;
        let Some(facts) = self.facts_for(name.child(), error, &asked) else {
            unreachable!();
        };
        put_entry(self.tree.book(), &facts, asked, name, out)
    }
}

/// The entries of a directory above a cookie.
#[derive(Drop)]
struct Children<'t, A: Allocator + Copy> {
    realm: &'t mut Realm<A>,
    context: Context<'t>,
    asked: Bitmap,
    directory: u64,
    cookie: u64,
}

impl<A: Allocator + Copy> Entries for Children<'_, A> {
    ghost use Rattle.std.specs.Prelude.{ℕ};
    ghost use Rattle.compound_run.specs.declared.realm.Realm as shape;
    ghost use Rattle.compound_run.specs.Asking.{sight_of};
    ghost use Rattle.compound_run.specs.Operations.Readdir.{judged_above};
    ghost use Rattle.compound_run.specs.Views.{context_at};
    ghost use Rattle.nfs_types.specs.Views.{bitmap_value};

    type Refusal = Demand;

    ghost left = { λ c. judged_above (context_at c.realm.now c.context) (bitmap_value c.asked) c.directory c.cookie
        (sight_of c.realm.now) };

    ghost Kept = { ℕ × shape.Realm A };

    ghost kept = { λ c. (c.realm.ghost_name, c.realm.now) };

    fn write_next<B: Allocator>(&mut self, writer: &mut Writer<B>) -> Next<Demand> {
        let next = self.realm.next_entry(self.directory, self.cookie);
        let Some((cookie, child)) = next else {
            return Next::End;
        };
        let caller = self.context.caller;
        let given = match self.realm.judge_child(caller, child, &self.asked) {
            Ok(given) => given,
            Err(demand) => return Next::Refused(demand),
        };
        match self.realm.put_child(self.context, cookie, given, writer) {
            Ok(()) => {
                self.cookie = cookie;
                Next::Written
            }
            Err(_) => Next::Full,
        }
    }
}

impl<A: Allocator + Copy> Realm<A> {
    /// Writes the entries of a directory that are returned; else nothing.
    fn put_listing(
        &mut self,
        context: Context<'_>,
        directory: u64,
        args: &ReadDirArgs,
        out: &mut Writer<A>,
    ) -> Result<(), ListFault<Demand>>
        requires room { HasRoom context out.old }
        ensures ok { OnOk result (Lists (specs.listed (context_at self.old context.entry) (readdir_args_value args.now)
            directory (sight_of self.old)) context.entry.room out.old out.new) }
        ensures err { IfErr result (λ fault.
            (specs.listed (context_at self.old context.entry) (readdir_args_value args.now) directory
            (sight_of self.old) ≡ Err fault) × (out.new ≡ out.old)) }
        ensures state { self.new ≡ self.old }
    {
        let mut children = Children {
            realm: self,
            context,
            asked: requested(context.times, &args.asked),
            directory,
            cookie: args.cookie,
        };
        write_readdir(&mut children, args.maxcount, context.room, out)
    }

    /// Writes the listing of a directory. If an entry is refused because rdattr_error isn't requested, the lines of the
    /// refused demand are held.
    fn list(
        &mut self,
        step: Step<'_>,
        directory: u64,
        args: &ReadDirArgs,
        out: &mut Writer<A>,
    ) -> Result<FileHandles, Status>
        requires few { length self.old.tree.log.held ≤ MAX_FIRST_LINES }
        requires room { HasRoom step.context out.old }
        ensures { Gives step.entry (listing_of (readdir_args_value args.now) directory) (stage self.old out.old)
            result (stage self.new out.new) }
    {
        match self.put_listing(step.context, directory, args, out) {
            Ok(()) => Ok(step.handles),
            Err(ListFault::Refused(demand)) => {
                self.grants(&[Some(demand)], step.context.caller, OP_READDIR);
                Err(Status::Access)
            }
            Err(ListFault::TooSmall) => Err(Status::TooSmall),
        }
    }

    /// Lists entries of the current directory, as many as fit. It allocates no memory. `Inval`: an attribute that can
    /// only be set is requested.
    pub fn readdir(
        &mut self,
        step: Step<'_>,
        args: &ReadDirArgs,
        out: &mut Writer<A>,
    ) -> Result<FileHandles, Status>
        requires settled { self.old.tree.log.held ≡ [] }
        requires room { HasRoom step.context out.old }
        ensures { Gives step.entry (readdir (readdir_args_value args.now)) (stage self.old out.old) result
            (stage self.new out.new) }
    {
        let directory = step.handles.current.ok_or(Status::NoFileHandle)?;
        let node = self.tree.object(directory).ok_or(Status::Stale)?;
        if !node.is_directory() {
            return Err(Status::NotDir);
        }
        if args.cookie == 1 || args.cookie == 2 {
            return Err(Status::BadCookie);
        }
        check_readable(&requested(step.context.times, &args.asked))?;
        if !self.grants_first(step, &Op::ReadDir(*args)) {
            return Err(Status::Access);
        }
        self.list(step, directory, args, out)
    }
}
