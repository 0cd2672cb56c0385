//! Changes of the objects.
ghost use Rattle.std.specs.Prelude.{◌≡◌, ◌+◌, ◌<◌, ◌^◌, ◌==◌, if◌then◌else◌, length, OnOk, OnErr, Some, unwrap_or};
ghost use Rattle.std.specs.Option.{option_or, option_map, option_map_or};
ghost use Rattle.std.specs.Map.{lookup};
ghost use Rattle.std.specs.BTreeMap.{is_at};
ghost use Rattle.std.specs.Ordering.{nat_cmp};
ghost use Rattle.node_tree.specs.Changes.{changed, touched, retold, without, written, resized};

use crate::at::At;
use crate::node_table::NodeTable;
use acl_list::{AclList, Kind};
use nfs_types::Moment;
use std::alloc::{AllocError, Allocator};

/// A change of bytes, of a size or of a directory's names.
pub fn touch<A: Allocator>(objects: &mut NodeTable<A>, number: u64, at: At)
    ensures { objects.new ≡ changed number (touched at) objects.old }
{
    if let Some(node) = objects.get_mut(number) {
        node.touch(at);
    }
}

/// A change of an access control list (ACL), an owner, a group, times or the number of names, or a move.
pub fn retell<A: Allocator>(objects: &mut NodeTable<A>, number: u64, at: At)
    ensures { objects.new ≡ changed number (retold at) objects.old }
{
    if let Some(node) = objects.get_mut(number) {
        node.retell(at);
    }
}

/// An object has lost a name. It stays if it has another name, else it is removed.
#[tactic(auto, using(crate::proofs::Objects::removal_facts, std::proofs::lemmas::Map::Steps::set_value_same))]
pub fn release<A: Allocator>(objects: &mut NodeTable<A>, number: u64, stays: bool, at: At)
    ensures { objects.new ≡ (if stays then changed number (retold at) objects.old else without number objects.old) }
{
    let Some(node) = objects.get_mut(number) else {
        return;
    };
    if stays {
        node.retell(at);
    } else {
        objects.remove(number);
    }
}

/// A child has a new name, and a target of that name has lost it. The target stays if it has another name, else it is
/// removed.
pub fn move_child<A: Allocator>(
    objects: &mut NodeTable<A>,
    from: u64,
    to: u64,
    child: u64,
    target: Option<u64>,
    stays: bool,
    at: At,
)
    ensures { objects.new ≡ changed to (touched at)
        (changed from (touched at) (changed child (retold at)
        (option_map_or (λ t. if stays then changed t (retold at) objects.old else without t objects.old) target
        objects.old))) }
{
    if let Some(target) = target {
        release(objects, target, stays, at);
    }
    retell(objects, child, at);
    touch(objects, from, at);
    touch(objects, to, at);
}

/// Writes data into a file. `Err`: an allocation fails, and nothing has changed.
#[tactic(auto, using(std::proofs::lemmas::Map::Steps::set_value_same))]
pub fn write<A: Allocator + Copy>(
    objects: &mut NodeTable<A>,
    alloc: A,
    number: u64,
    offset: usize,
    more: &[u8],
    at: At,
) -> Result<(), AllocError>
    requires few { offset + length more.now < 2 ^ 63 }
    requires file { option_map (λ o. o.kind) (lookup (is_at (nat_cmp number)) objects.old) ≡ Some Kind.File }
    ensures ok { OnOk result (objects.new ≡
        changed number (λ o. touched at (record o { bytes = written o.bytes offset more.now })) objects.old) }
    ensures err { OnErr result (objects.new ≡ objects.old) }
{
    if let Some(node) = objects.get_mut(number) {
        node.write(alloc, offset, more, at)?;
    }
    Ok(())
}

/// Writes data of a checkpoint into a file, and nothing else of it changes. `Err`: an allocation fails, and nothing has
/// changed.
#[tactic(auto, using(std::proofs::lemmas::Map::Steps::set_value_same))]
pub fn extend<A: Allocator + Copy>(
    objects: &mut NodeTable<A>,
    alloc: A,
    number: u64,
    offset: usize,
    more: &[u8],
) -> Result<(), AllocError>
    requires few { offset + length more.now < 2 ^ 63 }
    requires file { option_map (λ o. o.kind) (lookup (is_at (nat_cmp number)) objects.old) ≡ Some Kind.File }
    ensures ok { OnOk result (objects.new ≡
        changed number (λ o. record o { bytes = written o.bytes offset more.now }) objects.old) }
    ensures err { OnErr result (objects.new ≡ objects.old) }
{
    if let Some(node) = objects.get_mut(number) {
        node.extend(alloc, offset, more)?;
    }
    Ok(())
}

/// Sets the size of a file. It allocates no memory.
pub fn resize<A: Allocator>(objects: &mut NodeTable<A>, number: u64, size: usize, at: At)
    requires { option_map (λ o. o.kind) (lookup (is_at (nat_cmp number)) objects.old) ≡ Some Kind.File }
    ensures { objects.new ≡ changed number (λ o. touched at (record o { bytes = resized o.bytes size })) objects.old }
{
    if let Some(node) = objects.get_mut(number) {
        node.resize(size, at);
    }
}

/// Sets the ACL of an object.
pub fn set_list<A: Allocator>(
    objects: &mut NodeTable<A>,
    number: u64,
    list: AclList<A>,
    high: u32,
    stamp: u64,
    at: At,
)
    ensures { objects.new ≡ changed number (λ o. retold at (record o { list = list; high = high; stamp = stamp }))
        objects.old }
{
    if let Some(node) = objects.get_mut(number) {
        node.set_list(list, high, stamp, at);
    }
}

/// Sets the owner and the group of an object.
pub fn set_owner<A: Allocator>(
    objects: &mut NodeTable<A>,
    number: u64,
    owner: u32,
    group: u32,
    stamp: u64,
    at: At,
)
    ensures { objects.new ≡ changed number (λ o. retold at (record o { owner = owner; group = group; stamp = stamp }))
        objects.old }
{
    if let Some(node) = objects.get_mut(number) {
        node.set_owner(owner, group, stamp, at);
    }
}

/// Sets the times of an object that are given.
pub fn set_times<A: Allocator>(
    objects: &mut NodeTable<A>,
    number: u64,
    access: Option<Moment>,
    modify: Option<Moment>,
    at: At,
)
    ensures { objects.new ≡ changed number (λ o. retold at (record o {
      time_access = option_or access o.time_access;
      time_modify = unwrap_or modify o.time_modify;
    })) objects.old }
{
    if let Some(node) = objects.get_mut(number) {
        node.set_times(access, modify, at);
    }
}
