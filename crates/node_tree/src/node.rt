//! An object with the attributes that decide access.
ghost use Rattle.std.specs.Prelude.{◌≡◌, ◌+◌, ◌<◌, ◌≤◌, ◌^◌, ◌++◌, length, take, drop, OnOk, OnErr, IfOk};
ghost use Rattle.std.specs.Prelude.{IfSome, IfNone, slice_index, ◌≢◌, unwrap_or};
ghost use Rattle.std.specs.Option.{option_or};
ghost use Rattle.acl_list.specs.declared.entry.Kind.TheVariants as kinds;
ghost use Rattle.acl_shape.specs.Inherited.{is_directory};
ghost use Rattle.node_tree.specs.Restored.{kept_object};
ghost use Rattle.node_tree.specs.Contents.{most_held};
ghost use Rattle.node_tree.specs.Holes.{IsHole};
ghost use Rattle.node_tree.specs.Changes.{made, touched, retold, written, resized};

use crate::at::At;
use crate::contents::Contents;
use acl_list::{AclList, Kind};
use nfs_types::Moment;
use std::alloc::{AllocError, Allocator, Global};
use std::marker::Model;

/// The parts of a new object.
#[derive(Drop)]
pub struct NewObject<A: Allocator = Global> {
    /// The type of the object.
    pub kind: Kind,
    /// The bytes of a file, or the text of a symbolic link. A directory has none.
    pub bytes: Vec<u8, A>,
    /// The user ID of the owner.
    pub owner: u32,
    /// The group ID of the owner's group.
    pub group: u32,
    /// The access control list (ACL), within the bounds of [`acl_shape::is_bounded`].
    pub list: AclList<A>,
    /// The bits 0o7000 of the mode.
    pub high: u32,
    /// The first time of the last access (RFC 8881, section 5.8.2.37). `None`: it is `time_modify`.
    pub time_access: Option<Moment>,
    /// The first time of the last change of the bytes or names (RFC 8881, section 5.8.2.43).
    pub time_modify: Moment,
}

/// The attributes of an object that a checkpoint stores beside its parts.
#[derive(Clone, Copy, PartialEq, Eq)]
pub struct Kept {
    /// The tick of the last change.
    pub change: u64,
    /// The time of the last access. `None`: it is `time_modify`.
    pub time_access: Option<Moment>,
    /// The time of the last change of the bytes or names.
    pub time_modify: Moment,
    /// The time of the last change.
    pub time_metadata: Moment,
    /// The stamp.
    pub stamp: u64,
}

/// An object of a tree: its attributes, including those that decide access. [`crate::Tree::read`] reads its bytes.
#[derive(Drop)]
pub struct Node<A: Allocator = Global> {
    contents: Contents<A>,
    owner: u32,
    group: u32,
    list: AclList<A>,
    high: u32,
    change: u64,
    time_access: Option<Moment>,
    time_modify: Moment,
    time_metadata: Moment,
    stamp: u64,
}

impl<A: Allocator> Model for Node<A> {
    ghost use Rattle.node_tree.specs.World.{Object};
    ghost use Rattle.node_tree.specs.Contents.{kind_held, bytes_held};

    ghost Value = { Object };

    ghost view = { λ n. record {
      kind = kind_held n.contents;
      bytes = bytes_held n.contents;
      owner = n.owner;
      group = n.group;
      list = n.list;
      high = n.high;
      change = n.change;
      time_access = n.time_access;
      time_modify = n.time_modify;
      time_metadata = n.time_metadata;
      stamp = n.stamp;
    } };
}

impl<A: Allocator> Node<A> {
    /// The type of the object.
    pub fn kind(&self) -> Kind
        ensures { result ≡ self.now.kind }
    {
        self.contents.kind()
    }

    /// Whether it is a directory.
    pub fn is_directory(&self) -> bool
        ensures { result ≡ is_directory self.now.kind }
    {
        matches!(self.kind(), Kind::Directory)
    }

    /// The byte count of a file, or of the text of a symbolic link.
    pub fn size(&self) -> u64
        ensures { result ≡ length self.now.bytes }
    {
        self.contents.size() as u64
    }

    /// The user ID of the owner.
    pub fn owner(&self) -> u32
        ensures { result ≡ self.now.owner }
    {
        self.owner
    }

    /// The group ID of the owner's group.
    pub fn group(&self) -> u32
        ensures { result ≡ self.now.group }
    {
        self.group
    }

    /// The ACL.
    pub fn list(&self) -> &AclList<A>
        ensures { result.now ≡ self.now.list }
    {
        &self.list
    }

    /// The bits 0o7000 of the mode.
    pub fn high(&self) -> u32
        ensures { result ≡ self.now.high }
    {
        self.high
    }

    /// The tick of the last change, the attribute `change`.
    pub fn change(&self) -> u64
        ensures { result ≡ self.now.change }
    {
        self.change
    }

    /// The time of the last access, the attribute `time_access`. `None`: it is `time_modify`.
    pub fn time_access(&self) -> Option<Moment>
        ensures { result ≡ self.now.time_access }
    {
        self.time_access
    }

    /// The time of the last change of the bytes or names, the attribute `time_modify`.
    pub fn time_modify(&self) -> Moment
        ensures { result ≡ self.now.time_modify }
    {
        self.time_modify
    }

    /// The time of the last change, the attribute `time_metadata`.
    pub fn time_metadata(&self) -> Moment
        ensures { result ≡ self.now.time_metadata }
    {
        self.time_metadata
    }

    /// The stamp. It changes whenever the ACL, the owner or the group is set, and no other object ever has it.
    pub fn stamp(&self) -> u64
        ensures { result ≡ self.now.stamp }
    {
        self.stamp
    }

    /// Copies the bytes at an offset into a buffer, as far as both reach, and returns the count.
    pub(crate) fn read(&self, offset: usize, buffer: &mut [u8]) -> usize
        ensures count { result ≡ length (take (length buffer.old) (drop offset self.now.bytes)) }
        ensures copied { buffer.new ≡ take (length buffer.old) (drop offset self.now.bytes) ++ drop result buffer.old }
    {
        self.contents.read(offset, buffer)
    }

    /// The first place from an offset on whose byte isn't 0.
    pub(crate) fn data_from(&self, offset: usize) -> Option<usize>
        ensures data { IfSome result (λ place. (offset ≤ place) × (slice_index self.now.bytes place ≢ 0)) }
        ensures skipped { IfSome result (λ place. IsHole self.now.bytes offset place) }
        ensures none { IfNone result (IsHole self.now.bytes offset (length self.now.bytes)) }
    {
        self.contents.data_from(offset)
    }

    /// A change of bytes, of a size or of a directory's names.
    pub(crate) fn touch(&mut self, at: At)
        ensures { self.new ≡ touched at self.old }
    {
        self.change = at.tick;
        self.time_modify = at.moment;
        self.time_metadata = at.moment;
    }

    /// A change of an ACL, an owner, a group, times or the number of names, or a move.
    pub(crate) fn retell(&mut self, at: At)
        ensures { self.new ≡ retold at self.old }
    {
        self.change = at.tick;
        self.time_metadata = at.moment;
    }

    /// Sets the ACL with the high bits of the mode.
    pub(crate) fn set_list(&mut self, list: AclList<A>, high: u32, stamp: u64, at: At)
        ensures { self.new ≡ retold at (record self.old { list = list; high = high; stamp = stamp }) }
    {
        self.list = list;
        self.high = high;
        self.stamp = stamp;
        self.retell(at);
    }

    /// Sets the owner and the group.
    pub(crate) fn set_owner(&mut self, owner: u32, group: u32, stamp: u64, at: At)
        ensures { self.new ≡ retold at (record self.old { owner = owner; group = group; stamp = stamp }) }
    {
        self.owner = owner;
        self.group = group;
        self.stamp = stamp;
        self.retell(at);
    }

    /// Sets the times that are given.
    pub(crate) fn set_times(&mut self, access: Option<Moment>, modify: Option<Moment>, at: At)
        ensures { self.new ≡ retold at (record self.old {
          time_access = option_or access self.old.time_access;
          time_modify = unwrap_or modify self.old.time_modify;
        }) }
    {
        self.time_access = access.or(self.time_access);
        self.time_modify = modify.unwrap_or(self.time_modify);
        self.retell(at);
    }

    /// Sets the size of a file: truncates it, or appends zeros. It allocates no memory.
    pub(crate) fn resize(&mut self, size: usize, at: At)
        requires { self.old.kind ≡ kinds.File }
        ensures { self.new ≡ touched at (record self.old { bytes = resized self.old.bytes size }) }
    {
        self.contents.resize(size);
        self.touch(at);
    }
}

impl<A: Allocator + Copy> Node<A> {
    /// A new object. `Err`: an allocation for the bytes of a file fails.
    pub(crate) fn made(alloc: A, new: NewObject<A>, stamp: u64, at: At) -> Result<Self, AllocError>
        requires { length new.bytes.items ≤ most_held new.kind }
        ensures { IfOk result (λ node. node ≡ made new stamp at) }
    {
        Ok(Node {
            contents: Contents::made(alloc, new.kind, new.bytes)?,
            owner: new.owner,
            group: new.group,
            list: new.list,
            high: new.high,
            change: at.tick,
            time_access: new.time_access,
            time_modify: new.time_modify,
            time_metadata: at.moment,
            stamp,
        })
    }

    /// An object from a checkpoint. `Err`: an allocation for the bytes of a file fails.
    pub(crate) fn kept(alloc: A, new: NewObject<A>, kept: Kept) -> Result<Self, AllocError>
        requires { length new.bytes.items ≤ most_held new.kind }
        ensures { IfOk result (λ node. node ≡ kept_object new kept) }
    {
        Ok(Node {
            contents: Contents::made(alloc, new.kind, new.bytes)?,
            owner: new.owner,
            group: new.group,
            list: new.list,
            high: new.high,
            change: kept.change,
            time_access: kept.time_access,
            time_modify: kept.time_modify,
            time_metadata: kept.time_metadata,
            stamp: kept.stamp,
        })
    }

    /// Writes data into a file at an offset, and zeros between the end and it. `Err`: an allocation fails, and nothing
    /// has changed.
    pub(crate) fn write(
        &mut self,
        alloc: A,
        offset: usize,
        more: &[u8],
        at: At,
    ) -> Result<(), AllocError>
        requires few { offset + length more.now < 2 ^ 63 }
        requires file { self.old.kind ≡ kinds.File }
        ensures ok { OnOk result (self.new ≡
            touched at (record self.old { bytes = written self.old.bytes offset more.now })) }
        ensures err { OnErr result (self.new ≡ self.old) }
    {
        self.contents.write(alloc, offset, more)?;
        self.touch(at);
        Ok(())
    }

    /// Writes data into a file as [`Node::write`] does, and nothing else of it changes.
    pub(crate) fn extend(&mut self, alloc: A, offset: usize, more: &[u8]) -> Result<(), AllocError>
        requires few { offset + length more.now < 2 ^ 63 }
        requires file { self.old.kind ≡ kinds.File }
        ensures ok { OnOk result (self.new ≡ record self.old { bytes = written self.old.bytes offset more.now }) }
        ensures err { OnErr result (self.new ≡ self.old) }
    {
        let contents = &mut self.contents;
        contents.write(alloc, offset, more)
    }
}
