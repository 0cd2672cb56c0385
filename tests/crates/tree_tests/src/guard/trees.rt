//! Trees to decide on, and the guards of their access control lists (ACLs).

use crate::guard::entries::entry;
use access_guard::{Decision, Demand, FIRST_EPOCH, Guard, GuardedTree};
use acl_list::{AclList, Entry, Kind};
use acl_shape::is_bounded;
use nfs_types::Limits;
use node_tree::{At, EPOCH, NewObject, Tree, TreeFault};
use rpc_record::Caller;
use std::alloc::{AllocError, Allocator, Global};
use std::hash::RandomState;
use std::num::NonZeroUsize;
use who_book::Book;

pub const LOOKUP: u32 = 15;

pub const READ: u32 = 25;

pub const REMOVE: u32 = 28;

pub const WRITE: u32 = 38;

/// The ACL that mode 0755 makes on a directory.
pub const MODE_755: [Entry; 5] = [
    entry!(Allow, 0, 0x1e_01e7, Owner),
    entry!(Deny, 0, 0, Owner),
    entry!(Allow, 0, 0x21, Group),
    entry!(Deny, 0, 0x46, Group),
    entry!(Allow, 0, 0x12_00a1, Everyone),
];

/// The ACL that mode 0640 makes on a file.
const MODE_640: [Entry; 5] = [
    entry!(Allow, 0, 0x1e_0187, Owner),
    entry!(Deny, 0, 0x20, Owner),
    entry!(Allow, 0, 0x1, Group),
    entry!(Deny, 0, 0x26, Group),
    entry!(Allow, 0, 0x12_0080, Everyone),
];

/// The ACL that mode 0777 makes on a directory.
const MODE_777: [Entry; 5] = [
    entry!(Allow, 0, 0x1e_01e7, Owner),
    entry!(Deny, 0, 0, Owner),
    entry!(Allow, 0, 0x67, Group),
    entry!(Deny, 0, 0, Group),
    entry!(Allow, 0, 0x12_00e7, Everyone),
];

/// A file or a directory in the root, of group 100.
#[derive(Clone, Copy)]
pub struct Child<'a> {
    pub name: &'a [u8],
    pub kind: Kind,
    pub owner: u32,
    pub list: &'a [Entry],
}

/// A tree to be made: the ACL of the root, which is of owner 0 and group 0, and its children. The root has the number
/// 1, and they have the next ones, which are their stamps too.
#[derive(Clone, Copy)]
pub struct Scene<'a> {
    pub name: &'a str,
    pub root: &'a [Entry],
    pub children: &'a [Child<'a>],
}

/// A root of mode 0755, a file of mode 0640 and a directory of mode 0777: the numbers 1 to 3.
pub const SAMPLE: Scene<'static> = Scene {
    name: "sample",
    root: &MODE_755,
    children: &[
        Child {
            name: b"notes",
            kind: Kind::File,
            owner: 1001,
            list: &MODE_640,
        },
        Child {
            name: b"pub",
            kind: Kind::Directory,
            owner: 0,
            list: &MODE_777,
        },
    ],
};

fn root<A: Allocator + Copy>(alloc: A, list: &[Entry]) -> Result<Tree<A>, TreeFault> {
    let list = AclList::from_slice(alloc, list)?;
    if !is_bounded(&list) {
        return Err(TreeFault::NoSpc);
    }
    Ok(Tree::new(alloc, Limits::standard(), 0, 0, list, 0)?)
}

fn add<A: Allocator + Copy>(
    alloc: A,
    tree: &mut Tree<A>,
    child: &Child<'_>,
) -> Result<u64, TreeFault> {
    let list = AclList::from_slice(alloc, child.list)?;
    let tick = tree.next_tick();
    if tick >= 1 << 63 || child.name.len() > 255 || !is_bounded(&list) {
        return Err(TreeFault::NoSpc);
    }
    let new = NewObject {
        kind: child.kind,
        bytes: Vec::new(alloc),
        owner: child.owner,
        group: 100,
        list,
        high: 0,
        time_access: None,
        time_modify: EPOCH,
    };
    let at = At {
        tick,
        moment: EPOCH,
    };
    let directory = tree.root();
    tree.add(directory, child.name, new, at)
}

fn add_all<A: Allocator + Copy>(
    alloc: A,
    tree: &mut Tree<A>,
    children: &[Child<'_>],
) -> Result<(), TreeFault> {
    for child in children {
        add(alloc, tree, child)?;
    }
    Ok(())
}

/// The tree of a scene.
pub fn tree<A: Allocator + Copy>(alloc: A, scene: &Scene<'_>) -> Result<Tree<A>, TreeFault> {
    let mut tree = root(alloc, scene.root)?;
    add_all(alloc, &mut tree, scene.children)?;
    Ok(tree)
}

/// The tree and a book without names, with a guard of this capacity.
pub fn guarded(
    alloc: Global,
    tree: Tree,
    capacity: usize,
    hasher: RandomState,
) -> Result<GuardedTree, AllocError> {
    let capacity = NonZeroUsize::new(capacity).unwrap_or(NonZeroUsize::MIN);
    GuardedTree::new(alloc, tree, Book::default(alloc), capacity, hasher)
}

/// A guard that remembers one summary.
pub fn guard<A: Allocator + Copy>(alloc: A, hasher: RandomState) -> Result<Guard<A>, AllocError> {
    Guard::new(alloc, NonZeroUsize::MIN, hasher)
}

/// Decides on the ACLs of a tree that the guard agrees with, under its first book, and keeps the lines.
pub fn decide_on<A: Allocator + Copy, B: Allocator + Copy>(
    guard: &mut Guard<A>,
    demand: Demand,
    tree: &Tree<B>,
    book: &Book,
    caller: &Caller,
    op: u32,
) -> Decision {
    let decision = guard.decide(demand, tree, book, FIRST_EPOCH, caller, op);
    guard.settle(true);
    decision
}
