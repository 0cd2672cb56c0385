//! The tree: the changes that it refuses, and the invariant that it stays a tree.
ghost use Rattle.std.specs.Prelude.{◌≡◌, ◌≢◌, ◌<◌, ◌≤◌, ◌^◌, ◌++◌, ◌==◌, [], find, length, drop, MatchOption, OnOk};
ghost use Rattle.std.specs.Prelude.{OnErr, IfOk, IsOk, IsOkUnless, IfSome, IfNone, IsSome, Some, true, false};
ghost use Rattle.std.specs.Prelude.{slice_index};
ghost use Rattle.std.specs.Option.{option_copied};
ghost use Rattle.acl_shape.specs.Bounds.{IsBounded};
ghost use Rattle.node_tree.specs.Limits.{ROOT, MAX_NAME};
ghost use Rattle.node_tree.specs.World.{FindsAgain, object, kind_of, bytes_of, bytes_at, child_named, name_after};
ghost use Rattle.node_tree.specs.World.{has_entries, link_count, parent_of};
ghost use Rattle.node_tree.specs.Changes.{alone, root_of, made, with_new, with_link, unlinked, renamed, with_write};
ghost use Rattle.node_tree.specs.Changes.{with_size, with_list, with_owner, with_times};
ghost use Rattle.node_tree.specs.Refusals.{add_refusal, link_refusal, unlink_refusal, plan_refusal, space_refusal};
ghost use Rattle.node_tree.specs.Refusals.{rename_refusal, write_refusal, resize_refusal};
ghost use Rattle.node_tree.specs.Moves.{IsMove, IsPlan};
ghost use Rattle.node_tree.specs.Judged.{KeepsJudged};
ghost use Rattle.node_tree.specs.Holes.{IsHole};
ghost use Rattle.node_tree.specs.Parts.{number_after, any_after};
ghost use Rattle.node_tree.specs.Sample.{sample};
ghost use Rattle.node_tree.specs.Sound.{IsSound, IsTick, IsNextName, most_bytes};

use crate::at::{At, first_access, from_start};
use crate::entry::DirEntry;
use crate::fault::TreeFault;
use crate::limits::ROOT;
use crate::moved::{Move, Plan, is_one};
use crate::node::{NewObject, Node};
use crate::store::Store;
use acl_list::{AclList, Kind};
use acl_shape::bounds_are_kept;
use nfs_types::{Limits, Moment};
use std::alloc::{AllocError, Allocator, Global};
use std::marker::Model;

/// The objects and names of a file server.
#[derive(Drop)]
pub struct Tree<A: Allocator = Global> {
    store: Store<A>,
}

impl<A: Allocator> Model for Tree<A> {
    ghost use Rattle.node_tree.specs.World.{World};
    ghost use Rattle.node_tree.specs.Sound.{IsSound};

    ghost Value = { World };

    ghost view = { λ t. t.store };

    ghost invariant = { λ t. IsSound t.store };
}

// Look-ups. None allocates memory.
impl<A: Allocator + Copy> Tree<A> {
    /// The limits, which never change.
    pub fn limits(&self) -> Limits
        ensures { result ≡ self.now.limits }
    {
        self.store.limits()
    }

    /// The number of objects, the root among them.
    pub fn object_count(&self) -> usize
        ensures { result ≡ length self.now.objects }
    {
        self.store.object_count()
    }

    /// The number of the root.
    pub fn root(&self) -> u64
        ensures number { result ≡ ROOT }
        ensures live { kind_of self.now result ≡ Some Kind.Directory }
    {
        let _tree = &self.store;
        ROOT
    }

    /// The tick of the next operation that changes anything. It is below 2^63 if one is left.
    pub fn next_tick(&self) -> u64
        ensures value { result ≡ self.now.next_tick }
        ensures tick { result < 2 ^ 63 → IsTick self.now result }
    {
        self.store.next_tick()
    }

    /// The stamp of the next object, access control list (ACL) or owner. It is below 2^63 if one is left.
    pub fn next_stamp(&self) -> u64
        ensures { result ≡ self.now.next_stamp }
    {
        self.store.next_stamp()
    }

    /// The object of a number. [`Tree::links`] returns the number of its names, [`Tree::parent`] the parent of a
    /// directory.
    pub fn object(&self, number: u64) -> Option<&Node<A>>
        ensures value { option_copied result ≡ object self.now number }
        ensures sound { IsSound self.now }
    {
        self.store.object(number)
    }

    /// The number of names of an object: 0 of the root, 1 of each other directory.
    pub fn links(&self, number: u64) -> usize
        ensures value { result ≡ link_count self.now.names number }
        ensures few { result < 2 ^ 32 }
    {
        self.store.link_count(number)
    }

    /// The parent of a directory. `None`: it is the root, or no directory.
    pub fn parent(&self, number: u64) -> Option<u64>
        ensures value { result ≡ parent_of self.now number }
        ensures live { IfSome result (λ parent. kind_of self.now parent ≡ Some Kind.Directory) }
    {
        self.store.parent(number)
    }

    /// Whether a directory has names.
    pub fn has_entries(&self, directory: u64) -> bool
        ensures { result ≡ has_entries self.now.names directory }
    {
        self.store.has_entries(directory)
    }

    /// The child of a name in a directory (LOOKUP: RFC 8881, section 18.13).
    pub fn find(&self, directory: u64, name: &[u8]) -> Option<u64>
        ensures child { result ≡ child_named self.now directory name.now }
        ensures live { IfSome result (λ child. IsSome (object self.now child)) }
    {
        self.store.find(directory, name)
    }

    /// The next name of a directory after a cookie, by rising cookie (READDIR: RFC 8881, section 18.23). No name has
    /// the cookies 0 to 2, and the name of the cookie that is sent may have been removed.
    pub fn list_after(&self, directory: u64, cookie: u64) -> Option<&DirEntry<A>>
        ensures value { option_copied result ≡ name_after self.now directory cookie }
        ensures next { IfSome (option_copied result) (IsNextName self.now directory cookie) }
    {
        self.store.list_after(directory, cookie)
    }

    /// The name of a cookie, in any directory. If [`Tree::list_after`] returned a name with this cookie, it is that
    /// name again, found without a search of the directory. No two names ever have the same cookie.
    pub fn name_by_cookie(&self, cookie: u64) -> Option<&DirEntry<A>>
        ensures value { option_copied result ≡ find (λ n. n.cookie == cookie) self.now.names }
        ensures again { FindsAgain self.now cookie (option_copied result) }
    {
        self.store.name_by_cookie(cookie)
    }

    /// Plans that a child gets a new name, in the same directory or in another (RENAME: RFC 8881, section 18.26).
    /// Between two names of one object there is nothing to do, [`Plan::Same`].
    ///
    /// Refused for the first of these reasons. There is no child of the old name, [`TreeFault::NoEnt`]. The child is a
    /// directory, and the directory of the new name is the child or is below it, [`TreeFault::Inval`]. There is a
    /// target that the child can't replace, [`TreeFault::Exist`]. A directory can replace only an empty directory. Any
    /// other object can replace only an object that isn't a directory.
    pub fn plan_rename<'a>(
        &self,
        from: u64,
        old: &'a [u8],
        to: u64,
        new: &'a [u8],
    ) -> Result<Plan<'a>, TreeFault>
        requires live { kind_of self.now to ≡ Some Kind.Directory }
        requires short { length new.now ≤ MAX_NAME }
        ensures refused { MatchOption (plan_refusal self.now from old.now to new.now) (IsOk result)
            (λ fault. result ≡ Err fault) }
        ensures plan { IfOk result (IsPlan self.now from old.now to new.now) }
    {
        let Some(child) = self.store.find(from, old) else {
            return Err(TreeFault::NoEnt);
        };
        let target = self.store.find(to, new);
        if is_one(child, target) {
            return Ok(Plan::Same);
        }
        if self.store.is_below(child, to) {
            return Err(TreeFault::Inval);
        }
        if !self.store.may_replace(child, target) {
            return Err(TreeFault::Exist);
        }
        Ok(Plan::Move(Move {
            from,
            old,
            to,
            new,
            child,
            target,
        }))
    }

    /// Copies the bytes of a file, or the text of a symbolic link, at an offset into a buffer, as far as both reach. It
    /// returns the count. The rest of the buffer stays. READ and READLINK use it (RFC 8881, sections 18.22 and 18.24).
    pub fn read(&self, number: u64, offset: u64, buffer: &mut [u8]) -> usize
        ensures count { result ≡ length (bytes_at self.now number offset (length buffer.old)) }
        ensures copied { buffer.new ≡ bytes_at self.now number offset (length buffer.old) ++ drop result buffer.old }
    {
        self.store.read(number, offset, buffer)
    }

    /// The first place of a file, or of the text of a symbolic link, from an offset on whose byte isn't 0. `None`: only
    /// zeros follow. A hole of any length costs one search: only blocks that are present are visited.
    pub fn data_from(&self, number: u64, offset: u64) -> Option<u64>
        ensures data { IfSome result (λ place.
            (offset ≤ place) × (slice_index (bytes_of self.now number) place ≢ 0)) }
        ensures skipped { IfSome result (λ place. IsHole (bytes_of self.now number) offset place) }
        ensures none { IfNone result (IsHole (bytes_of self.now number) offset (length (bytes_of self.now number))) }
    {
        self.store.data_from(number, offset)
    }
}

// The parts in order, as a checkpoint has them. None of these calls allocates memory.
impl<A: Allocator + Copy> Tree<A> {
    /// The number of the next object. No number is above 2^63.
    pub fn next_number(&self) -> u64
        ensures { result ≡ self.now.next_number }
    {
        self.store.next_number()
    }

    /// The cookie of the next name. No cookie is above 2^63.
    pub fn next_cookie(&self) -> u64
        ensures { result ≡ self.now.next_cookie }
    {
        self.store.next_cookie()
    }

    /// The least number above another one that has an object. No object has the number 0. So the objects of a tree are
    /// that of the number after 0, that of the number after that one, and so on.
    pub fn number_after(&self, number: u64) -> Option<u64>
        ensures { result ≡ number_after self.now number }
    {
        self.store.number_after(number)
    }

    /// The name with the least cookie above another one, in any directory. No name has the cookie 0.
    pub fn any_after(&self, cookie: u64) -> Option<&DirEntry<A>>
        ensures { option_copied result ≡ any_after self.now cookie }
    {
        self.store.any_after(cookie)
    }
}

impl<A: Allocator> Tree<A> {
    /// The tree of a sound store.
    pub(crate) fn of_sound(store: Store<A>) -> Self
        requires { IsSound store }
        ensures { result ≡ store }
    {
        Tree { store }
    }
}

// Changes. Each allocates first, and a refusal leaves everything unchanged.
impl<A: Allocator + Copy> Tree<A> {
    /// A root alone, under these limits, with an ACL within the bounds of [`acl_shape::is_bounded`]. Its times are the
    /// epoch. `Err`: an allocation fails.
    pub fn new(
        alloc: A,
        limits: Limits,
        owner: u32,
        group: u32,
        list: AclList<A>,
        high: u32,
    ) -> Result<Self, AllocError>
        requires { IsBounded list }
        ensures { IfOk result (λ tree. tree ≡ alone limits (root_of limits owner group list high)) }
    {
        let _profile = limits.profile();
        let at = from_start(1);
        let root = NewObject {
            kind: Kind::Directory,
            bytes: Vec::new(alloc),
            owner,
            group,
            list,
            high,
            time_access: first_access(limits, at.moment),
            time_modify: at.moment,
        };
        Ok(Tree {
            store: Store::new(alloc, limits, Node::made(alloc, root, 1, at)?)?,
        })
    }

    /// The sample tree, under the limits of the standard profile: in the root a file `notes` and a directory `pub`,
    /// each with the ACL of its mode. Its times are the epoch. `Err`: an allocation fails.
    pub fn sample(alloc: A) -> Result<Self, AllocError>
        ensures { IfOk result (λ tree. tree ≡ sample) }
    {
        bounds_are_kept();
        Ok(Tree {
            store: Store::sample(alloc)?,
        })
    }

    /// Creates an object under a new name of at most 255 bytes, and returns its number (CREATE, OPEN: RFC 8881,
    /// sections 18.4 and 18.16). It takes a number, a stamp and a cookie. The directory's times are set.
    ///
    /// Refused for the first of these reasons. The name is taken, [`TreeFault::Exist`]. The directory has
    /// [`Limits::names`] names, there are [`Limits::objects`] objects, or a number, stamp or cookie would be 2^63,
    /// [`TreeFault::NoSpc`]. An allocation fails, [`TreeFault::Memory`].
    pub fn add(
        &mut self,
        directory: u64,
        name: &[u8],
        new: NewObject<A>,
        at: At,
    ) -> Result<u64, TreeFault>
        requires tick { IsTick self.old at.tick }
        requires live { kind_of self.old directory ≡ Some Kind.Directory }
        requires short { length name.now ≤ MAX_NAME }
        requires bounded { IsBounded new.list }
        requires bytes { length new.bytes.items ≤ most_bytes self.old.limits new.kind }
        ensures refused { MatchOption (add_refusal self.old directory name.now) (IsOkUnless result TreeFault.Memory)
            (λ fault. result ≡ Err fault) }
        ensures number { IfOk result (λ number. number ≡ self.old.next_number) }
        ensures ok { OnOk result (self.new ≡
            with_new self.old directory name.now (made new self.old.next_stamp at) at) }
        ensures err { OnErr result (self.new ≡ self.old) }
        ensures judged { KeepsJudged self.old self.new }
    {
        if let Some(fault) = self.store.add_fault(directory, name) {
            return Err(fault);
        }
        Ok(self.store.add(directory, name, new, at)?)
    }

    /// Gives an object that isn't a directory a new name of at most 255 bytes (LINK: RFC 8881, section 18.9). It takes
    /// a cookie. The directory's times are set, and the object's `time_metadata`.
    ///
    /// Refused for the first of these reasons. The name is taken, [`TreeFault::Exist`]. The object has
    /// [`Limits::links`] names, [`TreeFault::MLink`]. The directory has [`Limits::names`] names, or the cookie
    /// would be 2^63, [`TreeFault::NoSpc`]. An allocation fails, [`TreeFault::Memory`].
    pub fn link(
        &mut self,
        directory: u64,
        name: &[u8],
        number: u64,
        at: At,
    ) -> Result<(), TreeFault>
        requires tick { IsTick self.old at.tick }
        requires live { kind_of self.old directory ≡ Some Kind.Directory }
        requires there { IsSome (object self.old number) }
        requires plain { kind_of self.old number ≢ Some Kind.Directory }
        requires short { length name.now ≤ MAX_NAME }
        ensures refused { MatchOption (link_refusal self.old directory name.now number)
            (IsOkUnless result TreeFault.Memory) (λ fault. result ≡ Err fault) }
        ensures ok { OnOk result (self.new ≡ with_link self.old directory name.now number at) }
        ensures err { OnErr result (self.new ≡ self.old) }
        ensures judged { KeepsJudged self.old self.new }
    {
        if let Some(fault) = self.store.link_fault(directory, name, number) {
            return Err(fault);
        }
        self.store.link(directory, name, number, at)?;
        Ok(())
    }

    /// Removes a name. Its child is removed with its last name (REMOVE: RFC 8881, section 18.25). The directory's times
    /// are set, and the `time_metadata` of a child that has other names. It allocates no memory.
    ///
    /// Refused: the name doesn't exist, [`TreeFault::NoEnt`]; its child is a directory that has names,
    /// [`TreeFault::NotEmpty`].
    pub fn unlink(&mut self, directory: u64, name: &[u8], at: At) -> Result<(), TreeFault>
        requires tick { IsTick self.old at.tick }
        ensures refused { MatchOption (unlink_refusal self.old directory name.now) (IsOk result)
            (λ fault. result ≡ Err fault) }
        ensures ok { OnOk result (self.new ≡ unlinked self.old directory name.now at) }
        ensures err { OnErr result (self.new ≡ self.old) }
        ensures judged { KeepsJudged self.old self.new }
    {
        let Some(child) = self.store.find(directory, name) else {
            return Err(TreeFault::NoEnt);
        };
        if self.store.has_entries(child) {
            return Err(TreeFault::NotEmpty);
        }
        self.store.unlink(directory, name, child, at);
        Ok(())
    }

    /// Gives a child a new name, in the same directory or in another (RENAME: RFC 8881, section 18.26). It takes a
    /// cookie. The times of both directories are set, and the `time_metadata` of the child and of a target that has
    /// other names. Nothing changes between two names of one object.
    ///
    /// | The child | The target | |
    /// |---|---|---|
    /// | any | absent | the child has the new name |
    /// | not a directory | not a directory | the child has the new name, and the target has lost it |
    /// | a directory | an empty directory | the child has the new name, and the target is removed |
    ///
    /// Refused as by [`Tree::plan_rename`], and then as by [`Tree::carry_out`].
    pub fn rename(
        &mut self,
        from: u64,
        old: &[u8],
        to: u64,
        new: &[u8],
        at: At,
    ) -> Result<(), TreeFault>
        requires tick { IsTick self.old at.tick }
        requires live { kind_of self.old to ≡ Some Kind.Directory }
        requires short { length new.now ≤ MAX_NAME }
        ensures refused { MatchOption (rename_refusal self.old from old.now to new.now)
            (IsOkUnless result TreeFault.Memory) (λ fault. result ≡ Err fault) }
        ensures ok { OnOk result (self.new ≡ renamed self.old from old.now to new.now at) }
        ensures err { OnErr result (self.new ≡ self.old) }
        ensures judged { KeepsJudged self.old self.new }
    {
        match self.plan_rename(from, old, to, new)? {
            Plan::Same => Ok(()),
            Plan::Move(moved) => self.carry_out(moved, at),
        }
    }

    /// Carries out the move that [`Tree::plan_rename`] returned, in a world in which its facts still hold.
    ///
    /// Refused for the first of these reasons. The new name has no target and is in another directory, which has
    /// [`Limits::names`] names, or the cookie would be 2^63, [`TreeFault::NoSpc`]. An allocation fails,
    /// [`TreeFault::Memory`].
    pub fn carry_out(&mut self, moved: Move<'_>, at: At) -> Result<(), TreeFault>
        requires tick { IsTick self.old at.tick }
        requires planned { IsMove self.old moved }
        ensures refused { MatchOption (space_refusal self.old moved.entry.from moved.entry.to moved.entry.target)
            (IsOkUnless result TreeFault.Memory) (λ fault. result ≡ Err fault) }
        ensures ok { OnOk result (self.new ≡
            renamed self.old moved.entry.from moved.entry.old moved.entry.to moved.entry.new at) }
        ensures err { OnErr result (self.new ≡ self.old) }
        ensures judged { KeepsJudged self.old self.new }
    {
        let Move {
            from,
            old,
            to,
            new,
            child,
            target,
        } = moved;
        if !self.store.may_move(from, to, target) {
            return Err(TreeFault::NoSpc);
        }
        self.store.rename(from, old, to, new, child, target, at)?;
        Ok(())
    }

    /// Writes data into a file, and zeros between its end and the offset (WRITE: RFC 8881, section 18.32). The file's
    /// times are set. Writing no data changes nothing, at any offset, and allocates no memory.
    ///
    /// Refused: the data would end above [`Limits::bytes`], [`TreeFault::FBig`]; [`TreeFault::Memory`].
    pub fn write(&mut self, file: u64, offset: u64, more: &[u8], at: At) -> Result<(), TreeFault>
        requires tick { IsTick self.old at.tick }
        requires file { kind_of self.old file ≡ Some Kind.File }
        ensures refused { MatchOption (write_refusal self.old.limits offset more.now)
            (IsOkUnless result TreeFault.Memory) (λ fault. result ≡ Err fault) }
        ensures nothing { more.now ≡ [] → IsOk result }
        ensures ok { OnOk result (self.new ≡ with_write self.old file offset more.now at) }
        ensures err { OnErr result (self.new ≡ self.old) }
        ensures judged { KeepsJudged self.old self.new }
    {
        if more.is_empty() {
            return Ok(());
        }
        let most = self.store.limits().bytes();
        if offset > most || more.len() as u64 > most - offset {
            return Err(TreeFault::FBig);
        }
        self.store.write(file, offset as usize, more, at)?;
        Ok(())
    }

    /// Sets the size of a file, also to its own size: it is truncated, or zeros are appended (SETATTR, OPEN: RFC 8881,
    /// section 18.30). The file's times are set. It allocates memory only if the file grows.
    ///
    /// Refused: the size is above [`Limits::bytes`], [`TreeFault::FBig`]; [`TreeFault::Memory`].
    pub fn resize(&mut self, file: u64, size: u64, at: At) -> Result<(), TreeFault>
        requires tick { IsTick self.old at.tick }
        requires file { kind_of self.old file ≡ Some Kind.File }
        ensures refused { MatchOption (resize_refusal self.old.limits size) (IsOkUnless result TreeFault.Memory)
            (λ fault. result ≡ Err fault) }
        ensures shrinks { size ≤ length (bytes_of self.old file) → IsOk result }
        ensures ok { OnOk result (self.new ≡ with_size self.old file size at) }
        ensures err { OnErr result (self.new ≡ self.old) }
        ensures judged { KeepsJudged self.old self.new }
    {
        if size > self.store.limits().bytes() {
            return Err(TreeFault::FBig);
        }
        self.store.resize(file, size as usize, at);
        Ok(())
    }

    /// Sets the ACL of an object, within the bounds of [`acl_shape::is_bounded`], with the high bits of its mode
    /// (SETATTR: RFC 8881, section 18.30). It takes a stamp and allocates no memory. The object's `time_metadata` is
    /// set.
    pub fn set_list(&mut self, number: u64, list: AclList<A>, high: u32, at: At)
        requires tick { IsTick self.old at.tick }
        requires stamps { self.old.next_stamp < 2 ^ 63 }
        requires bounded { IsBounded list }
        ensures value { self.new ≡ with_list self.old number list high at }
        ensures judged { KeepsJudged self.old self.new }
    {
        self.store.set_list(number, list, high, at);
    }

    /// Sets the owner and the group of an object (SETATTR: RFC 8881, section 18.30). It takes a stamp and allocates no
    /// memory. The object's `time_metadata` is set.
    pub fn set_owner(&mut self, number: u64, owner: u32, group: u32, at: At)
        requires tick { IsTick self.old at.tick }
        requires stamps { self.old.next_stamp < 2 ^ 63 }
        ensures value { self.new ≡ with_owner self.old number owner group at }
        ensures judged { KeepsJudged self.old self.new }
    {
        self.store.set_owner(number, owner, group, at);
    }

    /// Sets the times of an object, those that are given (SETATTR: RFC 8881, section 18.30). It takes no stamp and
    /// allocates no memory. The object's `time_metadata` is set.
    pub fn set_times(&mut self, number: u64, access: Option<Moment>, modify: Option<Moment>, at: At)
        requires { IsTick self.old at.tick }
        ensures value { self.new ≡ with_times self.old number access modify at }
        ensures judged { KeepsJudged self.old self.new }
    {
        self.store.set_times(number, access, modify, at);
    }
}
