//! Each call that allocates, over each size of a heap: its ACL (access control list) is complete, or it fails and no
//! byte stays allocated.

use crate::acl::entries::{allow, entry};
use acl_list::{AclList, Entry, Kind, Who};
use acl_shape::{Given, Raw, admit, changed_permissions, created_permissions, inherit, set_mode};
use linked_list_allocator::LocalHeap;
use std::alloc::{AllocError, Global};
use std::process::Abort;

#[derive(Clone, Copy, Debug)]
enum Call {
    SetMode,
    Inherit,
    Admit,
    Create(Option<u32>),
    Change(Option<u32>),
}

/// The length of the ACL that a mode makes.
fn with_mode(heap: &LocalHeap, list: &AclList, mode: u32) -> Option<usize> {
    match set_mode(heap, list, Kind::File, mode) {
        Ok(new) => Some(new.len()),
        Err(_) => None,
    }
}

/// The length of the ACL that a child inherits.
fn inherited(heap: &LocalHeap, list: &AclList) -> Option<usize> {
    match inherit(heap, list, Kind::Directory) {
        Ok(new) => Some(new.len()),
        Err(_) => None,
    }
}

/// The length of the ACL that a client sends.
fn admitted(heap: &LocalHeap, raws: &[Raw]) -> Option<usize> {
    match admit(heap, raws, Kind::Directory) {
        Ok(new) => Some(new.len()),
        Err(_) => None,
    }
}

/// The length of the ACL of a new object.
fn created(heap: &LocalHeap, parent: &AclList, mode: Option<u32>) -> Option<usize> {
    let given = Given { mode, list: None };
    match created_permissions(heap, parent, Kind::File, given) {
        Ok(made) => Some(made.list.len()),
        Err(_) => None,
    }
}

/// The length of the ACL of an object.
fn changed(heap: &LocalHeap, list: &AclList, mode: Option<u32>) -> Option<usize> {
    let given = Given { mode, list: None };
    match changed_permissions(heap, list, 0, Kind::File, given) {
        Ok(now) => Some(now.list.len()),
        Err(_) => None,
    }
}

/// The length of the ACL that a call makes over the heap, if the allocation succeeds.
fn made(call: Call, heap: &LocalHeap, list: &AclList, raws: &[Raw]) -> Option<usize> {
    match call {
        Call::SetMode => with_mode(heap, list, 0o640),
        Call::Inherit => inherited(heap, list),
        Call::Admit => admitted(heap, raws),
        Call::Create(mode) => created(heap, list, mode),
        Call::Change(mode) => changed(heap, list, mode),
    }
}

static RAWS: [Raw; 20] = [Raw {
    kind: 0,
    flags: 0x03,
    mask: 1,
    who: Some(Who::User(5)),
}; 20];

/// The length of the ACL of each call over an ACL of 20 ACEs, and over an empty one.
static CALLS: [(Call, usize, usize); 7] = [
    (Call::SetMode, 25, 5),
    (Call::Inherit, 20, 0),
    (Call::Admit, 20, 20),
    (Call::Create(Some(0o640)), 25, 5),
    (Call::Create(None), 20, 5),
    (Call::Change(Some(0o640)), 25, 5),
    (Call::Change(None), 20, 0),
];

fn raws() -> &'static [Raw] {
    &RAWS
}

fn calls() -> &'static [(Call, usize, usize)] {
    &CALLS
}

/// The length of the ACL of a call over a heap of this size, if the allocation succeeds, and how many bytes stay
/// allocated.
fn made_at(alloc: Global, size: usize, call: Call, list: &AclList) -> (Option<usize>, usize) {
    match LocalHeap::new(alloc, size) {
        Ok(heap) => {
            let len = made(call, &heap, list, raws());
            (len, heap.used())
        }
        Err(_) => (None, 1),
    }
}

/// How often a call fails, over each size of a heap. Else its ACL has this length. No byte stays allocated.
fn refusals(rt: &impl Abort, alloc: Global, call: Call, list: &AclList, want: usize) -> u32 {
    let mut refused = 0u32;
    for size in 0..3072usize {
        let (len, left) = made_at(alloc, size, call, list);
        assert!(rt; left == 0, "{call:?} at {size}");
        if len.is_none() {
            refused = refused.saturating_add(1);
        } else {
            assert!(rt; len == Some(want), "{call:?} at {size}");
        }
    }
    refused
}

fn see_full(rt: &impl Abort, alloc: Global, full: &AclList) {
    for (call, of_full, _) in calls() {
        let refused = refusals(rt, alloc, *call, full, *of_full);
        assert!(rt; refused > 50 && refused < 2900, "{call:?}: {refused}");
    }
}

static FULL: [Entry; 20] = [allow!(0x03, 1, Who::User(5)); 20];

fn full(alloc: Global) -> Result<AclList, AllocError> {
    AclList::from_slice(alloc, &FULL)
}

#[test]
fn whole_or_refused(rt: HostRuntime) -> Result<(), AllocError> {
    let full = full(rt.alloc())?;
    see_full(&rt, rt.alloc(), &full);
    Ok(())
}

fn see_empty(rt: &impl Abort, alloc: Global, empty: &AclList) {
    for (call, _, of_empty) in calls() {
        assert!(rt;
            made_at(alloc, 3072, *call, empty) == (Some(*of_empty), 0),
            "{call:?}"
        );
    }
}

/// With ample memory no call fails.
#[test]
fn whole_over_an_empty_list(rt: HostRuntime) {
    let empty = AclList::new(rt.alloc());
    see_empty(&rt, rt.alloc(), &empty);
}
