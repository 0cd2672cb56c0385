//! The storage of a tree: objects in a map by number, names by rising cookie. Its results and changes are right for any
//! objects and names; [`crate::Tree`] keeps them a tree.
ghost use Rattle.std.specs.Prelude.{◌≡◌, ◌∷◌, [], ◌+◌, ◌-◌, ◌<◌, ◌≤◌, ◌^◌, ◌&&◌, ◌++◌, ℕ, nat_le, nat_lt};
ghost use Rattle.std.specs.Prelude.{if◌then◌else◌, slice_index, length, drop, filter, not, None, OnOk, OnErr, IfOk};
ghost use Rattle.std.specs.Prelude.{MatchOption, Some, true, false, ◌≢◌, ◌==◌, find, IfSome, IfNone};
ghost use Rattle.std.specs.Option.{option_copied, option_map_or};
ghost use Rattle.node_tree.specs.World.{object, kind_of, bytes_at, child_named, name_after, is_named, is_directory_at};
ghost use Rattle.node_tree.specs.World.{bytes_of, is_file_at};
ghost use Rattle.node_tree.specs.World.{has_name, has_entries, name_count, link_count, parent_of};
ghost use Rattle.std.specs.List.{list_all};
ghost use Rattle.node_tree.specs.Holes.{IsHole};
ghost use Rattle.node_tree.specs.Restored.{kept_object, put_object, put_name, put_more, child_fits, climbs_to_root};
ghost use Rattle.node_tree.specs.Restored.{is_placed};
ghost use Rattle.node_tree.specs.Parts.{number_after, any_after};
ghost use Rattle.node_tree.specs.Ways.{is_within};
ghost use Rattle.node_tree.specs.Contents.{most_held};
ghost use Rattle.node_tree.specs.Changes.{alone, made, changed, touched, retold, without, released, other_names};
ghost use Rattle.node_tree.specs.Changes.{written, resized, given_name, with_new, with_link, without_name, with_move};
ghost use Rattle.node_tree.specs.Changes.{with_bytes, with_size, with_list, with_owner, with_times};
ghost use Rattle.node_tree.specs.Sound.{Rises};
ghost use Rattle.node_tree.specs.Refusals.{add_refusal, link_refusal, has_left, has_room, has_object_room, may_link};
ghost use Rattle.node_tree.specs.Refusals.{may_name, may_add, is_below, may_replace, may_move};

use crate::at::At;
use crate::edits;
use crate::edits::{move_child, release, retell, touch};
use crate::entry::DirEntry;
use crate::fault::TreeFault;
use crate::limits::ROOT;
use crate::name_table::NameTable;
use crate::node::{Kept, NewObject, Node};
use crate::node_table::NodeTable;
use acl_list::{AclList, Kind};
use nfs_types::{Limits, Moment};
use std::alloc::{AllocError, Allocator, Global};
use std::marker::Model;

/// The bound of all counters.
pub const END: u64 = 1 << 63;

/// Objects by number, names by cookie, and the counters.
#[derive(Drop)]
pub struct Store<A: Allocator = Global> {
    alloc: A,
    limits: Limits,
    objects: NodeTable<A>,
    names: NameTable<A>,
    next_number: u64,
    next_tick: u64,
    next_stamp: u64,
    next_cookie: u64,
}

impl<A: Allocator> Model for Store<A> {
    ghost use Rattle.node_tree.specs.World.{World};

    ghost Value = { World };

    ghost view = { λ s. record {
      limits = s.limits;
      objects = s.objects;
      names = s.names;
      next_number = s.next_number;
      next_tick = s.next_tick;
      next_stamp = s.next_stamp;
      next_cookie = s.next_cookie;
    } };
}

// Look-ups.
impl<A: Allocator + Copy> Store<A> {
    /// The limits.
    pub fn limits(&self) -> Limits
        ensures { result ≡ self.now.limits }
    {
        self.limits
    }

    /// The object of a number.
    pub fn object(&self, number: u64) -> Option<&Node<A>>
        ensures { option_copied result ≡ object self.now number }
    {
        self.objects.get(number)
    }

    /// Whether the number is a directory's.
    pub fn is_directory(&self, number: u64) -> bool
        ensures { result ≡ is_directory_at self.now number }
    {
        match self.object(number) {
            Some(node) => node.is_directory(),
            None => false,
        }
    }

    /// The child of a name in a directory.
    #[tactic(auto, using(crate::proofs::Names::child_sought))]
    pub fn find(&self, directory: u64, name: &[u8]) -> Option<u64>
        ensures { result ≡ child_named self.now directory name.now }
    {
        self.names.find(directory, name)
    }

    /// The next name of a directory, by rising cookie.
    pub fn list_after(&self, directory: u64, cookie: u64) -> Option<&DirEntry<A>>
        ensures { option_copied result ≡ name_after self.now directory cookie }
    {
        self.names.list_after(directory, cookie)
    }

    /// The name of a cookie, in any directory.
    pub fn name_by_cookie(&self, cookie: u64) -> Option<&DirEntry<A>>
        ensures { option_copied result ≡ find (λ n. n.cookie == cookie) self.now.names }
    {
        self.names.name_by_cookie(cookie)
    }

    /// The least number above another one that has an object.
    pub fn number_after(&self, number: u64) -> Option<u64>
        ensures { result ≡ number_after self.now number }
    {
        self.objects.number_after(number)
    }

    /// The next name of all, by rising cookie.
    pub fn any_after(&self, cookie: u64) -> Option<&DirEntry<A>>
        ensures { option_copied result ≡ any_after self.now cookie }
    {
        self.names.after(cookie)
    }

    /// Whether a directory has names.
    pub fn has_entries(&self, directory: u64) -> bool
        ensures { result ≡ has_entries self.now.names directory }
    {
        self.names.has_entries(directory)
    }

    /// The number of names in a directory.
    pub fn name_count(&self, directory: u64) -> usize
        ensures { result ≡ name_count self.now.names directory }
    {
        self.names.name_count(directory)
    }

    /// The number of names of an object.
    pub fn link_count(&self, number: u64) -> usize
        ensures { result ≡ link_count self.now.names number }
    {
        self.names.link_count(number)
    }

    /// The parent of a directory.
    pub fn parent(&self, number: u64) -> Option<u64>
        ensures { result ≡ parent_of self.now number }
    {
        if !self.is_directory(number) {
            return None;
        }
        self.names.directory_of(number)
    }

    /// Whether an object is a directory or is below it.
    pub fn is_within(&self, directory: u64, number: u64) -> bool
        ensures { result ≡ is_within self.now directory number }
    {
        let mut here = number;
        for _ in 0..self.next_number {
            if here == directory {
                return true;
            }
            let Some(parent) = self.parent(here) else {
                return false;
            };
            here = parent;
        }
        true
    }
}

// Tests for space.
impl<A: Allocator + Copy> Store<A> {
    /// The number of objects.
    pub fn object_count(&self) -> usize
        ensures { result ≡ length self.now.objects }
    {
        self.objects.len()
    }

    /// Whether a directory has room for one more name.
    pub fn has_room(&self, directory: u64) -> bool
        ensures { result ≡ has_room self.now.limits (name_count self.now.names directory) }
    {
        self.name_count(directory) < self.limits.names()
    }

    /// Whether an object may have one more name.
    pub fn may_link(&self, number: u64) -> bool
        ensures { result ≡ may_link self.now.limits (link_count self.now.names number) }
    {
        self.link_count(number) < self.limits.links()
    }

    /// Whether one more object fits.
    pub fn has_object_room(&self) -> bool
        ensures { result ≡ has_object_room self.now.limits (length self.now.objects) }
    {
        self.objects.len() < self.limits.objects()
    }

    /// Whether the counters have a number, a stamp and a cookie left for one more object.
    pub fn has_counters(&self) -> bool
        ensures { result ≡ (has_left self.now.next_number && has_left self.now.next_stamp &&
            has_left self.now.next_cookie) }
    {
        self.next_number < END && self.next_stamp < END && self.next_cookie < END
    }

    /// Whether a cookie is left.
    pub fn has_cookie(&self) -> bool
        ensures { result ≡ has_left self.now.next_cookie }
    {
        self.next_cookie < END
    }

    /// Whether a directory may have one more name.
    pub fn may_name(&self, directory: u64) -> bool
        ensures { result ≡ may_name self.now.limits (name_count self.now.names directory) self.now.next_cookie }
    {
        self.has_room(directory) && self.has_cookie()
    }

    /// Whether a directory may have a new object under one more name.
    pub fn may_add(&self, directory: u64) -> bool
        ensures { result ≡ may_add self.now.limits (name_count self.now.names directory) (length self.now.objects)
            self.now.next_number self.now.next_stamp self.now.next_cookie }
    {
        self.has_room(directory) && self.has_object_room() && self.has_counters()
    }

    /// The tick of the next operation that changes anything.
    pub fn next_tick(&self) -> u64
        ensures { result ≡ self.now.next_tick }
    {
        self.next_tick
    }

    /// The stamp of the next object, access control list (ACL) or owner.
    pub fn next_stamp(&self) -> u64
        ensures { result ≡ self.now.next_stamp }
    {
        self.next_stamp
    }
}

// The reasons to refuse a change.
impl<A: Allocator + Copy> Store<A> {
    /// Why a directory may not get a new object under a name.
    pub fn add_fault(&self, directory: u64, name: &[u8]) -> Option<TreeFault>
        ensures { result ≡ add_refusal self.now directory name.now }
    {
        if self.find(directory, name).is_some() {
            return Some(TreeFault::Exist);
        }
        if self.may_add(directory) {
            return None;
        }
        Some(TreeFault::NoSpc)
    }

    /// Why an object may not get another name.
    pub fn link_fault(&self, directory: u64, name: &[u8], number: u64) -> Option<TreeFault>
        ensures { result ≡ link_refusal self.now directory name.now number }
    {
        if self.find(directory, name).is_some() {
            return Some(TreeFault::Exist);
        }
        if !self.may_link(number) {
            return Some(TreeFault::MLink);
        }
        if self.may_name(directory) {
            return None;
        }
        Some(TreeFault::NoSpc)
    }

    /// Whether a child is a directory, and another directory is that child or is below it.
    pub fn is_below(&self, child: u64, directory: u64) -> bool
        ensures { result ≡ is_below (kind_of self.now) (parent_of self.now) self.now.next_number child directory }
    {
        self.is_directory(child) && self.is_within(child, directory)
    }

    /// Whether a child may replace a target, which may be absent.
    pub fn may_replace(&self, child: u64, target: Option<u64>) -> bool
        ensures { result ≡ may_replace (kind_of self.now) (has_entries self.now.names) child target }
    {
        let Some(target) = target else {
            return true;
        };
        if self.is_directory(child) {
            self.is_directory(target) && !self.has_entries(target)
        } else {
            !self.is_directory(target)
        }
    }

    /// Whether a child's new name fits; its target may be absent.
    pub fn may_move(&self, from: u64, to: u64, target: Option<u64>) -> bool
        ensures { result ≡ may_move self.now.limits (name_count self.now.names to) self.now.next_cookie from to target }
    {
        match target {
            Some(_) => self.has_cookie(),
            None => (from == to || self.has_room(to)) && self.has_cookie(),
        }
    }
}

// Changes.
impl<A: Allocator + Copy> Store<A> {
    /// A root alone.
    pub fn new(alloc: A, limits: Limits, root: Node<A>) -> Result<Self, AllocError>
        ensures { IfOk result (λ store. store ≡ alone limits root) }
    {
        let mut objects = NodeTable::new(alloc);
        objects.insert(ROOT, root)?;
        Ok(Store::from_start(alloc, limits, objects, NameTable::new(alloc), 2, 3))
    }

    /// The initial objects. Numbers, ticks and stamps continue from one number.
    pub fn from_start(
        alloc: A,
        limits: Limits,
        objects: NodeTable<A>,
        names: NameTable<A>,
        next: u64,
        next_cookie: u64,
    ) -> Self
        ensures { result ≡ record {
          limits = limits;
          objects = objects;
          names = names;
          next_number = next;
          next_tick = next;
          next_stamp = next;
          next_cookie = next_cookie;
        } }
    {
        Store {
            alloc,
            limits,
            objects,
            names,
            next_number: next,
            next_tick: next,
            next_stamp: next,
            next_cookie,
        }
    }

    /// Adds a new object under a new name.
    pub fn add(
        &mut self,
        directory: u64,
        name: &[u8],
        new: NewObject<A>,
        at: At,
    ) -> Result<u64, AllocError>
        requires ticks { at.tick < 2 ^ 63 }
        requires numbers { self.old.next_number < 2 ^ 63 }
        requires stamps { self.old.next_stamp < 2 ^ 63 }
        requires cookies { self.old.next_cookie < 2 ^ 63 }
        requires bytes { length new.bytes.items ≤ most_held new.kind }
        requires absent { child_named self.old directory name.now ≡ None }
        requires listed { Rises (λ n. n.cookie) 3 self.old.names self.old.next_cookie }
        requires numbered { Rises (λ e. e.0) 1 self.old.objects self.old.next_number }
        ensures number { IfOk result (λ number. number ≡ self.old.next_number) }
        ensures ok { OnOk result (self.new ≡
            with_new self.old directory name.now (made new self.old.next_stamp at) at) }
        ensures err { OnErr result (self.new ≡ self.old) }
    {
        let node = Node::made(self.alloc, new, self.next_stamp, at)?;
        let number = self.next_number;
        self.names
            .push(self.alloc, self.next_cookie, directory, name, number)?;
        if let Err(_) = self.objects.insert(number, node) {
            self.names.remove(directory, name);
            return Err(AllocError);
        }
        touch(&mut self.objects, directory, at);
        self.next_number += 1;
        self.next_tick = at.tick + 1;
        self.next_stamp += 1;
        self.next_cookie += 1;
        Ok(number)
    }

    /// Adds a name for an object.
    pub fn link(
        &mut self,
        directory: u64,
        name: &[u8],
        number: u64,
        at: At,
    ) -> Result<(), AllocError>
        requires ticks { at.tick < 2 ^ 63 }
        requires cookies { self.old.next_cookie < 2 ^ 63 }
        requires absent { child_named self.old directory name.now ≡ None }
        requires listed { Rises (λ n. n.cookie) 3 self.old.names self.old.next_cookie }
        ensures ok { OnOk result (self.new ≡ with_link self.old directory name.now number at) }
        ensures err { OnErr result (self.new ≡ self.old) }
    {
        self.names
            .push(self.alloc, self.next_cookie, directory, name, number)?;
        retell(&mut self.objects, number, at);
        touch(&mut self.objects, directory, at);
        self.next_tick = at.tick + 1;
        self.next_cookie += 1;
        Ok(())
    }

    /// Removes a name. Its child is removed with its last name.
    pub fn unlink(&mut self, directory: u64, name: &[u8], child: u64, at: At)
        requires { at.tick < 2 ^ 63 }
        ensures { self.new ≡ without_name self.old directory name.now child at }
    {
        self.names.remove(directory, name);
        let stays = self.names.has_name(child);
        release(&mut self.objects, child, stays, at);
        touch(&mut self.objects, directory, at);
        self.next_tick = at.tick + 1;
    }

    /// Gives a child a new name in place of the old one. Another target of the new name loses it.
    pub fn rename(
        &mut self,
        from: u64,
        old: &[u8],
        to: u64,
        new: &[u8],
        child: u64,
        target: Option<u64>,
        at: At,
    ) -> Result<(), AllocError>
        requires ticks { at.tick < 2 ^ 63 }
        requires cookies { self.old.next_cookie < 2 ^ 63 }
        requires listed { Rises (λ n. n.cookie) 3 self.old.names self.old.next_cookie }
        requires other { target ≢ Some child }
        ensures ok { OnOk result (self.new ≡
            with_move self.old from old.now (given_name self.old to new.now child) target at) }
        ensures err { OnErr result (self.new ≡ self.old) }
    {
        self.names
            .replace(self.alloc, from, old, to, new, self.next_cookie, child)?;
        let stays = self.has_link(target);
        move_child(&mut self.objects, from, to, child, target, stays, at);
        self.next_tick = at.tick + 1;
        self.next_cookie += 1;
        Ok(())
    }

    /// Whether an object, if any, has a name.
    fn has_link(&self, number: Option<u64>) -> bool
        ensures { result ≡ option_map_or (λ number. has_name self.now.names number) number false }
    {
        match number {
            Some(number) => self.names.has_name(number),
            None => false,
        }
    }

    /// Copies the bytes of an object at an offset into a buffer, as far as both reach, and returns the count.
    pub fn read(&self, number: u64, offset: u64, buffer: &mut [u8]) -> usize
        ensures count { result ≡ length (bytes_at self.now number offset (length buffer.old)) }
        ensures copied { buffer.new ≡ bytes_at self.now number offset (length buffer.old) ++ drop result buffer.old }
    {
        match self.object(number) {
            Some(node) => node.read(offset as usize, buffer),
            None => 0,
        }
    }

    /// The first place of an object's bytes from an offset on whose byte isn't 0.
    pub fn data_from(&self, number: u64, offset: u64) -> Option<u64>
        ensures data { IfSome result (λ place.
            (offset ≤ place) × (slice_index (bytes_of self.now number) place ≢ 0)) }
        ensures skipped { IfSome result (λ place. IsHole (bytes_of self.now number) offset place) }
        ensures none { IfNone result (IsHole (bytes_of self.now number) offset (length (bytes_of self.now number))) }
    {
        let Some(node) = self.object(number) else {
            return None;
        };
        match node.data_from(offset as usize) {
            Some(place) => Some(place as u64),
            None => None,
        }
    }

    /// Writes bytes into a file, and zeros between its end and them.
    pub fn write(&mut self, file: u64, offset: usize, more: &[u8], at: At) -> Result<(), AllocError>
        requires ticks { at.tick < 2 ^ 63 }
        requires few { offset + length more.now < 2 ^ 63 }
        requires file { kind_of self.old file ≡ Some Kind.File }
        ensures ok { OnOk result (self.new ≡ with_bytes self.old file offset more.now at) }
        ensures err { OnErr result (self.new ≡ self.old) }
    {
        edits::write(&mut self.objects, self.alloc, file, offset, more, at)?;
        self.next_tick = at.tick + 1;
        Ok(())
    }

    /// Sets the size of a file: it is truncated, or zeros are appended. It allocates no memory.
    pub fn resize(&mut self, file: u64, size: usize, at: At)
        requires ticks { at.tick < 2 ^ 63 }
        requires file { kind_of self.old file ≡ Some Kind.File }
        ensures { self.new ≡ with_size self.old file size at }
    {
        edits::resize(&mut self.objects, file, size, at);
        self.next_tick = at.tick + 1;
    }

    /// Sets an ACL with the high bits of the mode.
    pub fn set_list(&mut self, number: u64, list: AclList<A>, high: u32, at: At)
        requires stamps { self.old.next_stamp < 2 ^ 63 }
        requires ticks { at.tick < 2 ^ 63 }
        ensures { self.new ≡ with_list self.old number list high at }
    {
        edits::set_list(&mut self.objects, number, list, high, self.next_stamp, at);
        self.next_tick = at.tick + 1;
        self.next_stamp += 1;
    }

    /// Sets an owner and a group.
    pub fn set_owner(&mut self, number: u64, owner: u32, group: u32, at: At)
        requires stamps { self.old.next_stamp < 2 ^ 63 }
        requires ticks { at.tick < 2 ^ 63 }
        ensures { self.new ≡ with_owner self.old number owner group at }
    {
        edits::set_owner(&mut self.objects, number, owner, group, self.next_stamp, at);
        self.next_tick = at.tick + 1;
        self.next_stamp += 1;
    }

    /// Sets the times that are given.
    pub fn set_times(&mut self, number: u64, access: Option<Moment>, modify: Option<Moment>, at: At)
        requires { at.tick < 2 ^ 63 }
        ensures { self.new ≡ with_times self.old number access modify at }
    {
        edits::set_times(&mut self.objects, number, access, modify, at);
        self.next_tick = at.tick + 1;
    }
}

// A store is restored from a checkpoint.
impl<A: Allocator + Copy> Store<A> {
    /// No objects and no names.
    pub fn empty(
        alloc: A,
        limits: Limits,
        next_number: u64,
        next_tick: u64,
        next_stamp: u64,
        next_cookie: u64,
    ) -> Self
        ensures { result ≡ record {
          limits = limits;
          objects = [];
          names = [];
          next_number = next_number;
          next_tick = next_tick;
          next_stamp = next_stamp;
          next_cookie = next_cookie;
        } }
    {
        Store {
            alloc,
            limits,
            objects: NodeTable::new(alloc),
            names: NameTable::new(alloc),
            next_number,
            next_tick,
            next_stamp,
            next_cookie,
        }
    }

    /// The number of the next object.
    pub fn next_number(&self) -> u64
        ensures { result ≡ self.now.next_number }
    {
        self.next_number
    }

    /// The cookie of the next name.
    pub fn next_cookie(&self) -> u64
        ensures { result ≡ self.now.next_cookie }
    {
        self.next_cookie
    }

    /// Adds an object, with a number above all others.
    pub fn put_object(
        &mut self,
        number: u64,
        new: NewObject<A>,
        kept: Kept,
    ) -> Result<(), AllocError>
        requires bytes { length new.bytes.items ≤ most_held new.kind }
        requires last { Rises (λ e. e.0) 1 self.old.objects number }
        ensures { OnOk result (self.new ≡ put_object self.old number (kept_object new kept)) }
    {
        let node = Node::kept(self.alloc, new, kept)?;
        self.objects.insert(number, node)?;
        Ok(())
    }

    /// The size of a file. `None`: the number isn't a file's.
    pub fn file_size(&self, number: u64) -> Option<u64>
        ensures { result ≡ (if is_file_at self.now number then Some (length (bytes_of self.now number)) else None) }
    {
        let Some(node) = self.object(number) else {
            return None;
        };
        match node.kind() {
            Kind::File => Some(node.size()),
            _ => None,
        }
    }

    /// Writes bytes into a file, and nothing else of it changes.
    pub fn put_more(&mut self, number: u64, offset: usize, more: &[u8]) -> Result<(), AllocError>
        requires few { offset + length more.now < 2 ^ 63 }
        requires file { kind_of self.old number ≡ Some Kind.File }
        ensures { OnOk result (self.new ≡ put_more self.old number offset more.now) }
    {
        edits::extend(&mut self.objects, self.alloc, number, offset, more)
    }

    /// Adds a name that doesn't exist yet, with a cookie above all others.
    pub fn put_name(
        &mut self,
        cookie: u64,
        directory: u64,
        name: &[u8],
        child: u64,
    ) -> Result<(), AllocError>
        requires absent { child_named self.old directory name.now ≡ None }
        requires last { Rises (λ n. n.cookie) 3 self.old.names cookie }
        ensures { OnOk result (self.new ≡ put_name self.old (record {
          cookie = cookie;
          directory = directory;
          name = name.now;
          child = child;
        })) }
    {
        self.names.push(self.alloc, cookie, directory, name, child)
    }

    /// Whether an object may have one more name: a directory only one.
    pub fn child_fits(&self, child: u64) -> bool
        ensures { result ≡ child_fits self.now child }
    {
        if self.is_directory(child) {
            !self.names.has_name(child)
        } else {
            self.object(child).is_some() && self.may_link(child)
        }
    }

    /// Whether the way up from an object reaches the root.
    fn climbs_to_root(&self, number: u64) -> bool
        ensures { result ≡ climbs_to_root (parent_of self.now) (length self.now.objects) number }
    {
        let mut here = number;
        for _ in 0..self.objects.len() {
            if here == ROOT {
                return true;
            }
            let Some(parent) = self.parent(here) else {
                return false;
            };
            here = parent;
        }
        false
    }

    /// Whether an object has a place in the tree.
    fn is_placed(&self, number: u64) -> bool
        ensures { result ≡ is_placed self.now number }
    {
        if self.is_directory(number) {
            self.climbs_to_root(number)
        } else {
            self.names.has_name(number)
        }
    }

    /// Whether each of these objects has a place in the tree.
    pub fn all_placed(&self, numbers: &[u64]) -> bool
        ensures { result ≡ list_all (is_placed self.now) numbers.now }
    {
        for number in numbers {
            if !self.is_placed(*number) {
                return false;
            }
        }
        true
    }
}
