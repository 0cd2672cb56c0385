//! A checkpoint of the office profile: many sessions and open files, and long files.

use crate::clients::{after_steps, call, opens};
use crate::memory::Memory;
use crate::servers::{MACHINE, at, found_picture, journal, parts_in, read_parts, server_picture};
use acl_list::{AclList, Kind};
use checkpoint::{CheckpointFault, write_checkpoint};
use compound_run::{ClientState, Server};
use nfs_types::Limits;
use node_tree::{NewObject, ROOT, Tree};
use std::alloc::Global;
use std::hash::RandomState;
use std::num::NonZeroUsize;
use std::process::Abort;
use std::test::Fail;
use who_book::Book;

/// The count of sessions: one more than two parts have.
const SESSIONS: u8 = 65;

/// The count of open files: one more than a part has.
const OPENS: u32 = 4_097;

const MIB: u64 = 1_048_576;

fn add(alloc: Global, tree: &mut Tree<Global>, name: &[u8]) -> Option<u64> {
    let when = at(tree);
    let new = NewObject {
        kind: Kind::File,
        bytes: Vec::new(alloc),
        owner: 4,
        group: 5,
        list: AclList::new(alloc),
        high: 0,
        time_access: None,
        time_modify: when.moment,
    };
    tree.add(ROOT, name, new, when).ok()
}

/// A root with two files. The first has data in its first, fourth and sixth MiB. The second is a hole of 2 MiB and a
/// byte.
fn tree_of(alloc: Global) -> Option<Tree<Global>> {
    let mut tree = Tree::new(alloc, Limits::office(), 4, 5, AclList::new(alloc), 0).ok()?;
    let long = add(alloc, &mut tree, b"long")?;
    for (offset, bytes) in [
        (0, b"first".as_slice()),
        (3 * MIB + 5, b"fourth".as_slice()),
        (5 * MIB + 9, b"sixth".as_slice()),
    ] {
        let when = at(&tree);
        tree.write(long, offset, bytes, when).ok()?;
    }
    let hole = add(alloc, &mut tree, b"hole")?;
    let when = at(&tree);
    tree.resize(hole, 2 * MIB + 1, when).ok()?;
    Some(tree)
}

/// A server with a client and a session for each number, a call on a slot of each, and one file that is open often.
fn server_of(alloc: Global, hasher: RandomState) -> Option<Server<Global>> {
    let mut clients = ClientState::nothing(alloc, Limits::office());
    for number in 0..SESSIONS {
        let session = after_steps(&mut clients, &[b'c', number])?;
        if !call(&mut clients, session, 0, 1, b"a", &[number]) {
            return None;
        }
    }
    for _open in 0..OPENS {
        opens(alloc, &mut clients, 1, 2).ok()?;
    }
    let (tree, capacity) = (tree_of(alloc)?, NonZeroUsize::new(8)?);
    Server::restored(alloc, tree, clients, Book::default(alloc), capacity, hasher).ok()
}

#[test]
fn all_parts_are_written_and_read(rt: HostRuntime) -> Result<(), Fail> {
    let alloc = rt.alloc();
    let Some(server) = server_of(alloc, RandomState::new(&rt)?) else {
        panic!(rt; "no server");
    };
    let mut disk = Memory::new(alloc);
    let mut journal = journal();
    assert!(rt; write_checkpoint(&mut disk, alloc, &mut journal, MACHINE, &server).is_ok());
    let Some(mut parts) = parts_in(alloc, &mut disk) else {
        panic!(rt; "no checkpoint");
    };
    // the head, 17 parts of clients, the counters, the root, 3 parts of a file and 2 of the other, and 2 names
    assert_eq!(rt; parts.len(), 27);
    assert_eq!(rt; parts[0].as_slice(), [0, 0, 0, 1, 0, 0, 0, 0].as_slice());
    let Ok(found) = read_parts(alloc, alloc, &parts)? else {
        panic!(rt; "nothing is read");
    };
    assert_eq!(rt; found.tree.limits().profile(), 1);
    assert_eq!(rt; found.clients.opens.len(), 4_097);
    assert!(rt; found_picture(alloc, alloc, &found)? == server_picture(alloc, alloc, &server)?);
    // a later part of a file before an earlier one
    parts.swap(21, 22);
    let swapped = read_parts(alloc, alloc, &parts)?;
    assert!(rt; matches!(swapped, Err(CheckpointFault::Corrupt)));
    Ok(())
}
