//! The objects of trees.
ghost use Rattle.std.specs.Prelude.{◌≡◌, IfSome};
ghost use Rattle.node_tree.specs.World.{kind_of};
ghost use Rattle.node_tree.specs.Sound.{IsTick};

use acl_list::{AclList, Entry, EntryKind, Kind, Who};
use acl_shape::is_bounded;
use nfs_types::Limits;
use node_tree::{At, EPOCH, NewObject, Tree, TreeFault};
use std::alloc::{Allocator, Global};
use std::test::Fail;

fn kind_of_entry(text: &str) -> Option<EntryKind> {
    match text {
        "A" => Some(EntryKind::Allow),
        "D" => Some(EntryKind::Deny),
        "U" => Some(EntryKind::Audit),
        "L" => Some(EntryKind::Alarm),
        _ => None,
    }
}

fn principal_of(text: &str) -> Option<Who> {
    match text {
        "OWNER@" => Some(Who::Owner),
        "GROUP@" => Some(Who::Group),
        "EVERYONE@" => Some(Who::Everyone),
        _ => Some(Who::User(text.parse().ok()?)),
    }
}

/// The ACE (access control entry) `TYPE:FLAGS:MASK:WHO`.
fn entry_of(word: &str) -> Option<Entry> {
    let (kind, rest) = word.split_once(':')?;
    let (flags, rest) = rest.split_once(':')?;
    let (mask, who) = rest.split_once(':')?;
    Some(Entry {
        kind: kind_of_entry(kind)?,
        flags: u32::from_str_radix(flags, 16).ok()?,
        mask: u32::from_str_radix(mask, 16).ok()?,
        who: principal_of(who)?,
    })
}

fn put_entries(entries: &mut Vec<Entry>, words: &str) -> Result<(), Fail> {
    for word in words.split_whitespace() {
        let Some(entry) = entry_of(word) else {
            return Err(Fail::new("no entry"));
        };
        entries.push(entry)?;
    }
    Ok(())
}

/// The ACL (access control list) of these ACEs.
fn list_of(alloc: Global, words: &str) -> Result<AclList, Fail> {
    let mut entries = Vec::new(alloc);
    put_entries(&mut entries, words)?;
    Ok(AclList::from_vec(entries))
}

/// The next tick.
fn now<A: Allocator + Copy>(tree: &Tree<A>) -> Option<At>
    ensures { IfSome result (λ at. IsTick tree.now at.tick) }
{
    let tick = tree.next_tick();
    if tick >= 1 << 63 {
        return None;
    }
    Some(At {
        tick,
        moment: EPOCH,
    })
}

fn kind<A: Allocator + Copy>(tree: &Tree<A>, number: u64) -> Option<Kind>
    ensures { result ≡ kind_of tree.now number }
{
    tree.object(number).map(|node| node.kind())
}

/// A root with this ACL, of owner 0 and group 0.
fn root<A: Allocator + Copy>(alloc: A, list: &[Entry]) -> Result<Tree<A>, TreeFault> {
    let list = AclList::from_slice(alloc, list)?;
    if !is_bounded(&list) {
        return Err(TreeFault::NoSpc);
    }
    Ok(Tree::new(alloc, Limits::standard(), 0, 0, list, 0)?)
}

/// A root of owner 0 and group 0 with the ACL of these ACEs as text.
pub fn root_of(alloc: Global, words: &str) -> Result<Tree, Fail> {
    let list = list_of(alloc, words)?;
    Ok(root(alloc, list.as_slice())?)
}

/// Adds an object of owner 0 and group 0, without bytes, to a directory.
pub fn add(
    alloc: Global,
    tree: &mut Tree,
    directory: u64,
    name: &[u8],
    kind_of_new: Kind,
    words: &str,
) -> Result<u64, Fail> {
    let list = list_of(alloc, words)?;
    let (Some(at), Some(Kind::Directory)) = (now(tree), kind(tree, directory)) else {
        return Err(Fail::new("no directory"));
    };
    if name.len() > 255 || !is_bounded(&list) {
        return Err(Fail::new("a long name or list"));
    }
    let new = NewObject {
        kind: kind_of_new,
        bytes: Vec::new(alloc),
        owner: 0,
        group: 0,
        list,
        high: 0,
        time_access: None,
        time_modify: at.moment,
    };
    Ok(tree.add(directory, name, new, at)?)
}

/// Adds the file `f` of owner 0 and group 0 with this ACL, without bytes, to the root.
fn add_file<A: Allocator + Copy>(
    alloc: A,
    tree: &mut Tree<A>,
    list: &[Entry],
) -> Result<(), TreeFault> {
    let list = AclList::from_slice(alloc, list)?;
    let root = tree.root();
    let (Some(at), Some(Kind::Directory)) = (now(tree), kind(tree, root)) else {
        return Err(TreeFault::NoEnt);
    };
    if !is_bounded(&list) {
        return Err(TreeFault::NoSpc);
    }
    let new = NewObject {
        kind: Kind::File,
        bytes: Vec::new(alloc),
        owner: 0,
        group: 0,
        list,
        high: 0,
        time_access: None,
        time_modify: at.moment,
    };
    tree.add(root, b"f", new, at)?;
    Ok(())
}

/// A root and the file `f` in it, both with this ACL.
pub fn one_file<A: Allocator + Copy>(alloc: A, list: &[Entry]) -> Result<Tree<A>, TreeFault> {
    let mut tree = root(alloc, list)?;
    add_file(alloc, &mut tree, list)?;
    Ok(tree)
}

/// Gives a link one more name in the root.
pub fn link(tree: &mut Tree, name: &[u8], number: u64) -> Result<(), Fail> {
    let (Some(at), Some(Kind::Link)) = (now(tree), kind(tree, number)) else {
        return Err(Fail::new("no link"));
    };
    if name.len() > 255 {
        return Err(Fail::new("a long name"));
    }
    let directory = tree.root();
    Ok(tree.link(directory, name, number, at)?)
}

/// Sets the ACL of the object that has a name in the root.
pub fn set_list(alloc: Global, tree: &mut Tree, name: &[u8], words: &str) -> Result<(), Fail> {
    let list = list_of(alloc, words)?;
    let (Some(at), Some(number)) = (now(tree), tree.find(tree.root(), name)) else {
        return Err(Fail::new("no object"));
    };
    if tree.next_stamp() >= 1 << 63 || !is_bounded(&list) {
        return Err(Fail::new("a long list"));
    }
    tree.set_list(number, list, 0, at);
    Ok(())
}
