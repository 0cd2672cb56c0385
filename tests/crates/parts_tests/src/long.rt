//! A long file in several parts, under the limits of the office profile.
use acl_list::{AclList, Kind};
use nfs_types::Limits;
use node_tree::{At, EPOCH, NewObject, ROOT, RestoreFault, Restoring, Tree, TreeFault};
use std::alloc::{AllocError, Allocator};
use tree_parts::{
    PartFault, WrittenPart, next_rest, take, write_counters, write_name, write_object, write_rest,
};
use xdr_wire::{Reader, Wire, Writer};

/// The most bytes of a file that one part has.
const PIECE: u64 = 1_048_576;

/// The number of the only file.
const LONG: u64 = 2;

fn at(tick: u64) -> At {
    At {
        tick,
        moment: EPOCH,
    }
}

/// A tree with one file, of this size and with a byte 7 at each of these places.
fn tree_with<A: Allocator + Copy>(
    alloc: A,
    size: u64,
    places: &[u64],
) -> Result<Tree<A>, TreeFault> {
    let mut tree = Tree::new(alloc, Limits::office(), 0, 0, AclList::new(alloc), 0)?;
    let new = NewObject {
        kind: Kind::File,
        bytes: Vec::new(alloc),
        owner: 0,
        group: 0,
        list: AclList::new(alloc),
        high: 0,
        time_access: Some(EPOCH),
        time_modify: EPOCH,
    };
    let _number = tree.add(ROOT, b"long", new, at(2))?;
    tree.resize(LONG, size, at(3))?;
    let mut tick = 4;
    for place in places {
        tree.write(LONG, *place, &[7], at(tick))?;
        tick += 1;
    }
    Ok(tree)
}

/// The offsets of the further parts of the file.
fn offsets<A: Allocator + Copy>(alloc: A, tree: &Tree<A>) -> Result<Vec<u64, A>, AllocError> {
    let mut found = Vec::new(alloc);
    let mut last = 0;
    for _ in 0..10 {
        let Some(offset) = next_rest(tree, LONG, last) else {
            break;
        };
        found.push(offset)?;
        last = offset;
    }
    Ok(found)
}

/// Writes all parts of the tree.
fn write_all<A: Allocator + Copy>(
    alloc: A,
    tree: &Tree<A>,
    rests: &[u64],
    writer: &mut Writer<A>,
) -> Result<(), PartFault> {
    write_counters(tree, writer)?;
    write_object(tree, alloc, ROOT, writer)?;
    write_object(tree, alloc, LONG, writer)?;
    for offset in rests {
        write_rest(tree, alloc, LONG, *offset, writer)?;
    }
    if let Some(name) = tree.any_after(0) {
        write_name(name, writer)?;
    }
    Ok(())
}

/// Takes all parts.
fn take_all<A: Allocator + Copy>(
    alloc: A,
    bytes: &[u8],
) -> Result<Option<Restoring<A>>, RestoreFault> {
    let mut reader = Reader::new(bytes);
    let mut so_far = None;
    for _ in 0..20 {
        if reader.is_empty() {
            break;
        }
        let Ok(part) = WrittenPart::read(&mut reader) else {
            return Err(RestoreFault::Unsound);
        };
        so_far = Some(take(alloc, Limits::office(), so_far, part)?);
    }
    Ok(so_far)
}

/// The tree that is restored from its parts.
fn again<A: Allocator + Copy>(alloc: A, tree: &Tree<A>, rests: &[u64]) -> Option<Tree<A>> {
    let Ok(mut writer) = Writer::new(alloc, 8 * 1_048_576) else {
        return None;
    };
    if write_all(alloc, tree, rests, &mut writer).is_err() {
        return None;
    }
    match take_all(alloc, writer.bytes()) {
        Ok(Some(restoring)) => restoring.finish(),
        _ => None,
    }
}

/// The byte at a place.
fn byte_at<A: Allocator + Copy>(tree: &Tree<A>, place: u64) -> u8 {
    let mut byte = [9];
    tree.read(LONG, place, &mut byte);
    byte[0]
}

/// A size, the places whose byte isn't 0, and the offsets of the further parts.
const FILES: &[(u64, &[u64], &[u64])] = &[
    (0, &[], &[]),
    (PIECE, &[0, PIECE - 1], &[]),
    (PIECE + 1, &[0], &[PIECE]),
    (PIECE + 1, &[PIECE], &[PIECE]),
    (3 * PIECE, &[0, 3 * PIECE - 1], &[2 * PIECE]),
    (3 * PIECE, &[PIECE], &[PIECE, 2 * PIECE]),
    (3 * PIECE, &[2 * PIECE - 1], &[PIECE, 2 * PIECE]),
    (1 << 40, &[(1 << 40) - 1], &[(1 << 40) - PIECE]),
    (1 << 40, &[5 * PIECE + 3], &[5 * PIECE, (1 << 40) - PIECE]),
];

#[test]
fn files_of_several_parts(rt: HostRuntime) {
    let a = rt.alloc();
    for (size, places, wanted) in FILES {
        let Ok(tree) = tree_with(a, *size, places) else {
            panic!(rt; "no tree");
        };
        let Ok(rests) = offsets(a, &tree) else {
            panic!(rt; "no memory");
        };
        assert!(rt; rests.as_slice() == *wanted);
        let Some(tree) = again(a, &tree, &rests) else {
            panic!(rt; "not restored");
        };
        assert!(rt; tree.object(LONG).map(|node| node.size()) == Some(*size));
        for place in *places {
            assert!(rt; byte_at(&tree, *place) == 7);
        }
        assert!(rt; tree.data_from(LONG, 0) == places.first().copied());
    }
}

/// A part that the file already has, one for the root, and one that is beyond the limit aren't taken.
#[test]
fn parts_that_do_not_fit(rt: HostRuntime) {
    let a = rt.alloc();
    for (number, offset) in [
        (LONG, PIECE - 1),
        (ROOT, PIECE),
        (3, PIECE),
        (LONG, 1 << 40),
    ] {
        let Ok(tree) = tree_with(a, PIECE, &[0]) else {
            panic!(rt; "no tree");
        };
        let Ok(mut writer) = Writer::new(a, 4 * 1_048_576) else {
            panic!(rt; "no memory");
        };
        assert!(rt; write_all(a, &tree, &[], &mut writer).is_ok());
        let Ok(Some(restoring)) = take_all(a, writer.bytes()) else {
            panic!(rt; "not taken");
        };
        assert!(rt;
            matches!(
                restoring.more(number, offset, b"x"),
                Err(RestoreFault::Unsound)
            )
        );
    }
}
