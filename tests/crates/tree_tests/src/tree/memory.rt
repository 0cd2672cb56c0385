//! Each allocation fails.

use crate::tree::acting::Outcome;
use crate::tree::acting::Outcome::{Bytes, Done, Is, Misused, Refused};
use crate::tree::steps::Look::{Change, Links, Size};
use crate::tree::steps::Step::{
    After, Create, Link, Next, Read, Rename, Resize, See, SetOwner, Unlink, Write,
};
use crate::tree::steps::{Step, act, walk, walk_sample};
use linked_list_allocator::LocalHeap;
use node_tree::Tree;
use node_tree::TreeFault::{Memory, NoEnt};
use std::alloc::AllocError;
use std::process::Abort;
use std::test::Fail;

/// The parts of the state that are compared before and after a call: the counters, and the attributes of each object.
const LOOKS: [Step; 17] = [
    Next,
    See(Change, 1),
    See(Change, 2),
    See(Change, 3),
    See(Change, 4),
    See(Size, 1),
    See(Size, 2),
    See(Size, 3),
    See(Size, 4),
    See(Links, 1),
    See(Links, 2),
    See(Links, 3),
    See(Links, 4),
    After(1, 0),
    After(1, 3),
    After(1, 4),
    After(3, 0),
];

fn look<'a>(tree: &mut Tree<&'a LocalHeap>, heap: &'a LocalHeap) -> [Outcome; 17] {
    let mut picture = [Misused; 17];
    for place in 0..17usize {
        picture[place] = act(tree, heap, LOOKS[place]);
    }
    picture
}

/// The calls that may allocate.
const GROWTH: &[Step] = &[
    Create(3, b"a longer name"),
    Link(3, b"another", 2),
    Write(2, 5000, b"data"),
    Write(2, 8190, b"over a border"),
    Rename(1, b"notes", 3, b"renamed"),
];

/// The calls that don't allocate.
const NO_GROWTH: &[(Step, Outcome)] = &[
    (Resize(2, 1_000_000), Done),
    (Resize(2, 1), Done),
    (SetOwner(2, 1, 1), Done),
    (Unlink(1, b"nothing"), Refused(NoEnt)),
];

/// How many calls were done, and how many failed for an allocation.
#[derive(Clone, Copy)]
struct Count {
    done: u32,
    refused: u32,
}

/// Makes a call over a heap of this size. Returns whether an allocation failed. The state is unchanged exactly if one
/// did.
fn see_growth<'a>(
    rt: &impl Abort,
    heap: &'a LocalHeap,
    tree: &mut Tree<&'a LocalHeap>,
    step: Step<'_>,
    size: usize,
) -> bool {
    let before = look(tree, heap);
    let refused = act(tree, heap, step) == Refused(Memory);
    let is_same = look(tree, heap) == before;
    assert_eq!(rt; is_same, refused, "{step:?} at {size}");
    refused
}

/// Makes the calls that may allocate, and then those that don't.
fn see_calls<'a>(
    rt: &impl Abort,
    heap: &'a LocalHeap,
    tree: &mut Tree<&'a LocalHeap>,
    size: usize,
    count: &mut Count,
) {
    for step in GROWTH {
        if see_growth(rt, heap, tree, *step, size) {
            count.refused = count.refused.saturating_add(1);
        } else {
            count.done = count.done.saturating_add(1);
        }
    }
    walk(rt, heap, tree, NO_GROWTH);
}

/// Makes the calls over a heap of this size, if it has room for the sample tree.
fn see_heap(
    rt: &impl Abort,
    heap: &LocalHeap,
    size: usize,
    count: &mut Count,
) -> Result<(), AllocError> {
    let mut tree = Tree::sample(heap)?;
    see_calls(rt, heap, &mut tree, size, count);
    Ok(())
}

/// Over each size of a heap a call is done, or fails for an allocation with the state unchanged. A call that doesn't
/// allocate is done.
#[test]
fn refused_growth_changes_nothing(rt: HostRuntime) -> Result<(), Fail> {
    let mut count = Count {
        done: 0,
        refused: 0,
    };
    for size in 0..120usize {
        let heap = LocalHeap::new(rt.alloc(), size.saturating_mul(128))?;
        let _ = see_heap(&rt, &heap, size, &mut count);
    }
    assert!(rt; count.refused > 5, "refused {}", count.refused);
    assert!(rt; count.done > 50, "done {}", count.done);
    Ok(())
}

/// A heap in which the sample tree leaves room for one more block, and not for two.
const ONE_BLOCK: usize = 16_000;

const ABSENT_BLOCKS: &[(Step, Outcome)] = &[
    (Resize(2, 0), Done),
    (Write(2, 1_048_575, b"z"), Done),
    (See(Size, 2), Is(1_048_576)),
    (Write(2, 4095, b"xy"), Refused(Memory)),
    (See(Size, 2), Is(1_048_576)),
    (Write(2, 1_044_480, b"y"), Done),
    (Read(2, 4094), Bytes(4, [0, 0, 0, 0])),
    (Read(2, 1_048_574), Bytes(2, [0, b'z', 9, 9])),
];

/// A file of 1,048,576 bytes takes one block for the only byte that was written. Allocations of two further blocks
/// fail; zeros need none.
#[test]
fn absent_blocks_take_no_memory(rt: HostRuntime) -> Result<(), Fail> {
    let heap = LocalHeap::new(rt.alloc(), ONE_BLOCK)?;
    walk_sample(&rt, &heap, ABSENT_BLOCKS);
    Ok(())
}
