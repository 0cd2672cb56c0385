//! The ACEs of an ACL (access control list), with ample memory and with allocations that fail.

use crate::acl::entries::{allow, deny, entry};
use acl_list::{AclList, Entry, Who};
use linked_list_allocator::LocalHeap;
use std::alloc::{AllocError, Allocator, Global};
use std::process::Abort;

static FIVE: [Entry; 5] = [
    allow!(0, 1, Who::Owner),
    deny!(0, 2, Who::Group),
    allow!(0, 4, Who::User(7)),
    deny!(0, 8, Who::GroupOf(7)),
    allow!(0, 0x10, Who::Everyone),
];

fn five() -> &'static [Entry] {
    &FIVE
}

/// Whether an ACL has exactly these ACEs, in their order.
fn has<A: Allocator>(list: &AclList<A>, entries: &[Entry]) -> bool {
    list.as_slice() == entries
}

/// Whether the copy of an ACL on this heap has these ACEs, if its allocation succeeds.
fn copied<A: Allocator + Copy>(alloc: A, list: &AclList, entries: &[Entry]) -> Option<bool> {
    match list.clone_in(alloc) {
        Ok(copy) => Some(has(&copy, entries)),
        Err(_) => None,
    }
}

/// Whether an ACL keeps its ACEs when it is made into a `Vec`, and that into an ACL.
fn is_moved(list: AclList, entries: &[Entry]) -> bool {
    let row = list.into_vec();
    let is_row = row.as_slice() == entries;
    is_row & has(&AclList::from(row), entries)
}

/// Whether an ACL has the ACEs that it is made of, and so have its copy and the ACLs that it is made into and from.
fn is_held_all_ways(alloc: Global, entries: &[Entry]) -> bool {
    match AclList::from_slice(alloc, entries) {
        Ok(list) => {
            let is_held = has(&list, entries);
            let is_copied = copied(alloc, &list, entries) == Some(true);
            is_held & is_copied & is_moved(list, entries)
        }
        Err(_) => false,
    }
}

/// Adds an ACE to an ACL, if the allocation succeeds.
fn push<A: Allocator + Copy>(list: &mut AclList<A>, entry: Entry) -> bool {
    list.push(entry).is_ok()
}

/// Adds ACEs to an ACL until an allocation fails. Returns the number of added ACEs.
fn add<A: Allocator + Copy>(list: &mut AclList<A>, entries: &[Entry]) -> usize {
    let mut held = 0usize;
    for entry in entries {
        if !push(list, *entry) {
            return held;
        }
        held = held.saturating_add(1);
    }
    held
}

/// Whether an ACL is empty, how many ACEs it takes, and whether it is empty then.
fn grown(alloc: Global, entries: &[Entry]) -> (bool, usize, bool) {
    let mut list = AclList::new(alloc);
    let was_empty = list.is_empty();
    let held = add(&mut list, entries);
    (was_empty, held, list.is_empty())
}

#[test]
fn holds_its_entries_in_order(rt: HostRuntime) {
    assert!(rt; grown(rt.alloc(), five()) == (true, 5, false));
    assert!(rt; grows(rt.alloc(), five()) == (5, true));
    assert!(rt; is_held_all_ways(rt.alloc(), five()));
}

/// Whether a copy over a heap of this size has the ACEs, if there is one, and how many bytes stay allocated.
fn copied_at(alloc: Global, list: &AclList, size: usize) -> (Option<bool>, usize) {
    match LocalHeap::new(alloc, size) {
        Ok(heap) => {
            let copied = copied(&heap, list, five());
            (copied, heap.used())
        }
        Err(_) => (Some(false), 0),
    }
}

fn see_copies(rt: &impl Abort, alloc: Global, list: &AclList) {
    let mut made = 0u32;
    for size in 0..512usize {
        let (copied, left) = copied_at(alloc, list, size);
        assert!(rt; copied != Some(false) && left == 0, "at {size}");
        if copied.is_some() {
            made = made.saturating_add(1);
        }
    }
    assert!(rt; made > 100 && made < 462, "made {made}");
}

fn see_copies_of(rt: &impl Abort, alloc: Global, entries: &[Entry]) -> Result<(), AllocError> {
    let list = AclList::from_slice(alloc, entries)?;
    see_copies(rt, alloc, &list);
    Ok(())
}

/// Over each size of a heap a copy is complete, or there is none and no byte stays allocated.
#[test]
fn copies_are_whole_or_refused(rt: HostRuntime) {
    assert!(rt; see_copies_of(&rt, rt.alloc(), five()).is_ok());
}

/// How many ACEs an ACL takes until an allocation fails, and whether it has exactly these then.
fn grows<A: Allocator + Copy>(alloc: A, entries: &[Entry]) -> (usize, bool) {
    let mut list = AclList::new(alloc);
    let held = add(&mut list, entries);
    let (prefix, _) = entries.split_at(held.min(entries.len()));
    (held, has(&list, prefix))
}

/// How an ACL grows over a heap of this size, and how many bytes stay allocated.
fn grows_at(alloc: Global, entries: &[Entry], size: usize) -> ((usize, bool), usize) {
    match LocalHeap::new(alloc, size) {
        Ok(heap) => {
            let grown = grows(&heap, entries);
            (grown, heap.used())
        }
        Err(_) => ((0, false), 0),
    }
}

/// Over each size of a heap an ACL grows until an allocation fails, and then keeps its ACEs.
#[test]
fn a_refused_push_leaves_the_list(rt: HostRuntime) {
    let mut whole = 0u32;
    for size in 0..512usize {
        let ((held, is_kept), left) = grows_at(rt.alloc(), five(), size);
        assert!(rt; is_kept && left == 0, "at {size}");
        if held == 5 {
            whole = whole.saturating_add(1);
        }
    }
    assert!(rt; whole > 100 && whole < 462, "whole {whole}");
}
