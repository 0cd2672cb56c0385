//! Guards whose trails have some lines.

use access_guard::{Demand, FIRST_EPOCH, Guard};
use acl_list::AclList;
use nfs_types::Limits;
use node_tree::Tree;
use rpc_record::Caller;
use std::alloc::Global;
use std::hash::RandomState;
use std::num::NonZeroUsize;
use std::test::Fail;
use who_book::Book;

const READ: u32 = 25;

/// Asks for bit 1 of the root, whose access control list is empty, and keeps the line of the refusal.
fn refuse(guard: &mut Guard, tree: &Tree, book: &Book, caller: &Caller) {
    let demand = Demand::Bits { object: 1, mask: 1 };
    let _ = guard.decide(demand, tree, book, FIRST_EPOCH, caller, READ);
    guard.settle(true);
}

/// Asks by `count` users, of the numbers 1, 2 and so on.
fn refuse_all(guard: &mut Guard, tree: &Tree, book: &Book, count: u32) {
    for uid in 0..count {
        refuse(
            guard,
            tree,
            book,
            &Caller::new(uid.saturating_add(1), 100, &[]),
        );
    }
}

/// A guard that refused `count` users, of the numbers 1, 2 and so on.
pub fn refusing(alloc: Global, hasher: RandomState, count: u32) -> Result<Guard, Fail> {
    let tree = Tree::new(
        alloc,
        Limits::standard(),
        0,
        0,
        AclList::from_slice(alloc, &[])?,
        0,
    )?;
    let mut guard = Guard::new(alloc, NonZeroUsize::MIN, hasher)?;
    refuse_all(&mut guard, &tree, &Book::default(alloc), count);
    Ok(guard)
}
