//! Files of the greatest size of the office profile, with holes.
use acl_list::{AclList, Kind};
use nfs_types::Limits;
use node_tree::{At, EPOCH, NewObject, ROOT, Tree, TreeFault};
use std::alloc::Allocator;

/// The most bytes of a file.
const MOST: u64 = 1 << 40;

/// The number of the only file.
const LONG: u64 = 2;

fn at(tick: u64) -> At {
    At {
        tick,
        moment: EPOCH,
    }
}

/// A tree with an empty file.
fn tree_with_file<A: Allocator + Copy>(alloc: A) -> Result<Tree<A>, TreeFault> {
    let mut tree = Tree::new(alloc, Limits::office(), 0, 0, AclList::new(alloc), 0)?;
    let new = NewObject {
        kind: Kind::File,
        bytes: Vec::new(alloc),
        owner: 0,
        group: 0,
        list: AclList::new(alloc),
        high: 0,
        time_access: None,
        time_modify: EPOCH,
    };
    let _number = tree.add(ROOT, b"long", new, at(2))?;
    Ok(tree)
}

fn size<A: Allocator + Copy>(tree: &Tree<A>) -> Option<u64> {
    tree.object(LONG).map(|node| node.size())
}

/// Each search and each cut is over in no time: a walk over the 268 million blocks of the hole would not be.
#[test]
fn a_hole_as_long_as_a_file(rt: HostRuntime) {
    let Ok(mut tree) = tree_with_file(rt.alloc()) else {
        panic!(rt; "no tree");
    };
    let mut tick = 3;
    for _ in 0..1000 {
        assert!(rt;
            tree.write(LONG, MOST - 1, b"z", at(tick)).is_ok() && size(&tree) == Some(MOST)
        );
        assert!(rt; tree.data_from(LONG, 0) == Some(MOST - 1));
        assert!(rt; tree.data_from(LONG, MOST - 1) == Some(MOST - 1));
        assert!(rt; tree.data_from(LONG, MOST) == None);
        assert!(rt; tree.resize(LONG, 0, at(tick + 1)).is_ok() && size(&tree) == Some(0));
        assert!(rt; tree.data_from(LONG, 0) == None);
        tick += 2;
    }
    assert!(rt; tree.write(LONG, MOST, b"z", at(tick)) == Err(TreeFault::FBig));
    assert!(rt; tree.resize(LONG, MOST + 1, at(tick)) == Err(TreeFault::FBig));
}

/// Zeros of a block that is present are passed over too, and a block that is cut in two keeps its first bytes.
#[test]
fn bytes_and_holes(rt: HostRuntime) {
    let Ok(mut tree) = tree_with_file(rt.alloc()) else {
        panic!(rt; "no tree");
    };
    assert!(rt; tree.write(LONG, 10, &[1, 0, 0, 2], at(3)).is_ok());
    assert!(rt; tree.write(LONG, 9_000_000, &[3], at(4)).is_ok());
    for (from, found) in [
        (0, Some(10)),
        (10, Some(10)),
        (11, Some(13)),
        (13, Some(13)),
        (14, Some(9_000_000)),
        (9_000_000, Some(9_000_000)),
        (9_000_001, None),
        (u64::MAX, None),
    ] {
        assert!(rt; tree.data_from(LONG, from) == found);
    }
    assert!(rt; tree.data_from(ROOT, 0) == None && tree.data_from(99, 0) == None);
    assert!(rt;
        tree.resize(LONG, 12, at(5)).is_ok() && tree.resize(LONG, 10_000_000, at(6)).is_ok()
    );
    assert!(rt; tree.data_from(LONG, 0) == Some(10) && tree.data_from(LONG, 11) == None);
}
