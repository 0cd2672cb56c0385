//! Objects and names that are made and removed again, over a heap of a fixed size.

use crate::tree::acting::Outcome::{Done, Made, Refused};
use crate::tree::steps::Step::{Create, Link, Mkdir, Rename, Resize, Unlink, Write};
use crate::tree::steps::{sample, walk};
use linked_list_allocator::LocalHeap;
use node_tree::Tree;
use node_tree::TreeFault::Memory;
use std::process::Abort;
use std::test::Fail;

/// A heap that has room for the sample tree and for the objects of one turn, and not for [`TOO_MUCH`].
const HEAP: usize = 24_000;

/// More bytes than the heap has.
const TOO_MUCH: [u8; 25_000] = [1; 25_000];

/// A turn is eight calls.
const TURNS: u64 = 125_000;

/// Every 250th turn writes, too.
const WRITING: u64 = 250;

/// Bytes are written over a border of blocks and cut off. A write whose allocation fails is refused.
fn write_and_cut<'a>(rt: &impl Abort, heap: &'a LocalHeap, tree: &mut Tree<&'a LocalHeap>) {
    let steps = [
        (Write(2, 4095, b"data"), Done),
        (Write(2, 1, &TOO_MUCH), Refused(Memory)),
        (Resize(2, 2), Done),
    ];
    walk(rt, heap, tree, &steps);
}

/// Makes a directory of this number and a file in it, which gets other names, and removes both.
fn turn<'a>(rt: &impl Abort, heap: &'a LocalHeap, tree: &mut Tree<&'a LocalHeap>, directory: u64) {
    let file = directory.saturating_add(1);
    let steps = [
        (Mkdir(1, b"d"), Made(directory)),
        (Create(directory, b"f"), Made(file)),
        (Link(1, b"g", file), Done),
        (Rename(directory, b"f", 1, b"h"), Done),
        (Rename(1, b"h", 1, b"g"), Done),
        (Unlink(1, b"h"), Done),
        (Unlink(1, b"g"), Done),
        (Unlink(1, b"d"), Done),
    ];
    walk(rt, heap, tree, &steps);
}

/// A million calls that leave nothing need no more memory than the first of them.
#[test]
fn memory_follows_what_is_there(rt: HostRuntime) -> Result<(), Fail> {
    let heap = LocalHeap::new(rt.alloc(), HEAP)?;
    let mut tree = sample(&rt, &heap);
    for index in 0..TURNS {
        let directory = index.saturating_mul(2).saturating_add(4);
        turn(&rt, &heap, &mut tree, directory);
        if index % WRITING == 0 {
            write_and_cut(&rt, &heap, &mut tree);
        }
    }
    Ok(())
}
