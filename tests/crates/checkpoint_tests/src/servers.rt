//! Servers, and the content of their checkpoints, with their pictures.

use crate::clients::{Picture, after_steps, call, exchange, opens};
use crate::memory::Memory;
use acl_list::{AclList, Kind};
use checkpoint::{CheckpointFault, Found, read};
use compound_run::{ClientState, Lent, Server};
use nfs_types::Limits;
use node_tree::{At, Moment, NewObject, ROOT, Tree};
use std::alloc::{AllocError, Allocator, Global};
use std::hash::RandomState;
use std::num::NonZeroUsize;
use std::test::Fail;
use store_journal::{Current, Identity, Journal, choose, load};
use tree_parts::{next_rest, write_counters, write_name, write_object, write_rest};
use who_book::Book;
use xdr_wire::Writer;

/// A book of two users and a group.
pub(crate) const BOOK: &str =
    "domain = 'lab.example'\nroot_owner = 0\nroot_group = 0\nroot_mode = 0o755\n[users]\nalice = 1001\nbob = 1002\n[groups]\nstaff = 100\n";

/// The machine's number in the checkpoints.
pub(crate) const MACHINE: u64 = 9;

/// The most bytes of a file that one part has.
const PIECE: u64 = 1_048_576;

/// The time of the next change.
pub(crate) fn at<A: Allocator + Copy>(tree: &Tree<A>) -> At {
    At {
        tick: tree.next_tick(),
        moment: Moment {
            seconds: 5,
            nanoseconds: 6,
        },
    }
}

fn add<A: Allocator + Copy>(
    alloc: A,
    tree: &mut Tree<A>,
    name: &[u8],
    kind: Kind,
    bytes: &[u8],
) -> Option<()> {
    let when = at(tree);
    let new = NewObject {
        kind,
        bytes: Vec::from_slice(alloc, bytes).ok()?,
        owner: 4,
        group: 5,
        list: AclList::new(alloc),
        high: 0,
        time_access: None,
        time_modify: when.moment,
    };
    tree.add(ROOT, name, new, when).ok()?;
    Some(())
}

/// The sample tree with two further files, a directory and a link, a second name of its file, and a removed object.
fn tree_of<A: Allocator + Copy>(alloc: A) -> Option<Tree<A>> {
    let mut tree = Tree::sample(alloc).ok()?;
    add(alloc, &mut tree, b"first", Kind::File, b"abcd")?;
    add(alloc, &mut tree, b"gone", Kind::File, b"x")?;
    add(alloc, &mut tree, b"folder", Kind::Directory, b"")?;
    add(alloc, &mut tree, b"second", Kind::File, &[7; 30])?;
    add(alloc, &mut tree, b"link", Kind::Link, b"first")?;
    let when = at(&tree);
    tree.link(ROOT, b"again", 2, when).ok()?;
    let when = at(&tree);
    tree.unlink(ROOT, b"gone", when).ok()?;
    Some(tree)
}

/// Three clients, two of them with a session; calls on three slots, and two open files. A third file was closed.
fn client_state_of<A: Allocator + Copy>(alloc: A) -> Option<ClientState<A>> {
    let mut clients = ClientState::nothing(alloc, Limits::standard());
    let change_clients = exchange(&mut clients, b"early") == Some(1)
        && after_steps(&mut clients, b"alice") == Some(1)
        && after_steps(&mut clients, b"bob") == Some(2)
        && call(&mut clients, 1, 0, 1, b"a", b"one")
        && call(&mut clients, 1, 0, 2, &[3; 12], &[4; 20])
        && call(&mut clients, 1, 1, 1, b"c", b"")
        && call(&mut clients, 2, 1, 1, b"g", b"six");
    if !change_clients {
        return None;
    }
    for client in [2, 2, 3] {
        opens(alloc, &mut clients, client, 2).ok()?;
    }
    clients.opens.remove(1);
    Some(clients)
}

/// A server of all this, with the book of a text, if any. `None`: an allocation failed.
pub(crate) fn server_of<A: Allocator + Copy>(
    alloc: A,
    global: Global,
    text: Option<&str>,
    hasher: RandomState,
) -> Option<Server<A>> {
    let capacity = NonZeroUsize::new(8)?;
    let (tree, clients) = (tree_of(alloc)?, client_state_of(alloc)?);
    let book = Book::from_text(global, text).ok()?;
    Server::restored(alloc, tree, clients, book, capacity, hasher).ok()
}

/// An empty server.
pub(crate) fn empty(alloc: Global, hasher: RandomState) -> Result<Server, Fail> {
    let Some(capacity) = NonZeroUsize::new(8) else {
        return Err(Fail::new("0 is no capacity"));
    };
    let (tree, book) = (Tree::sample(alloc)?, Book::default(alloc));
    Ok(Server::new(alloc, tree, book, capacity, hasher)?)
}

/// A new journal.
pub(crate) fn journal() -> Journal {
    let identity = Identity {
        high: 0x0123_4567_89ab_cdef,
        low: 0xfedc_ba98_7654_3210,
    };
    Journal::new(Current::new(identity, 4))
}

/// Appends all parts of an object.
fn put_object<A: Allocator + Copy>(
    own: A,
    tree: &Tree<A>,
    number: u64,
    writer: &mut Writer<Global>,
) -> Result<(), AllocError> {
    if let Some(node) = tree.object(number) {
        writer.make_room(node.size().min(PIECE) as usize + 4096)?;
    }
    if write_object(tree, own, number, writer).is_err() {
        return Err(AllocError);
    }
    let mut at = 0;
    while let Some(offset) = next_rest(tree, number, at) {
        writer.make_room(PIECE as usize + 4096)?;
        if write_rest(tree, own, number, offset, writer).is_err() {
            return Err(AllocError);
        }
        at = offset;
    }
    Ok(())
}

/// A tree, clients and a book, as bytes.
fn picture<A: Allocator + Copy>(
    global: Global,
    tree: &Tree<A>,
    own: A,
    now: Lent<'_, A>,
    book: &Book,
) -> Result<Vec<u8>, AllocError> {
    let mut writer = Writer::new(global, 16384)?;
    if write_counters(tree, &mut writer).is_err() {
        return Err(AllocError);
    }
    let mut at = 0;
    while let Some(number) = tree.number_after(at) {
        put_object(own, tree, number, &mut writer)?;
        at = number;
    }
    let mut at = 0;
    while let Some(name) = tree.any_after(at) {
        if write_name(name, &mut writer).is_err() {
            return Err(AllocError);
        }
        at = name.cookie();
    }
    let mut picture = Picture {
        bytes: writer.into_bytes(),
    };
    picture.put_known(now)?;
    match book.text() {
        Some(text) => picture.bytes.extend_from_slice(text.as_bytes())?,
        None => picture.bytes.extend_from_slice(b"no book")?,
    }
    Ok(picture.bytes)
}

/// The picture of a server.
pub(crate) fn server_picture<A: Allocator + Copy>(
    global: Global,
    own: A,
    server: &Server<A>,
) -> Result<Vec<u8>, AllocError> {
    picture(global, server.tree(), own, Lent::of(server), server.book())
}

/// The picture of the content that was found.
pub(crate) fn found_picture<A: Allocator + Copy>(
    global: Global,
    own: A,
    found: &Found<A>,
) -> Result<Vec<u8>, AllocError> {
    picture(global, &found.tree, own, found.clients.lend(), &found.book)
}

/// The parts of the active checkpoint on a disk, each with its own memory. `None` if a record follows it, if its number
/// isn't the given one, or if there is no active checkpoint.
pub(crate) fn parts_in(alloc: Global, disk: &mut Memory) -> Option<Vec<Vec<u8>>> {
    let Ok(loaded) = load(disk, alloc) else {
        return None;
    };
    let current = loaded.current?;
    let Ok(chosen) = choose(alloc, current, &loaded.bytes) else {
        return None;
    };
    if !chosen.records.is_empty() || current.machine != MACHINE {
        return None;
    }
    let mut parts = Vec::new(alloc);
    for part in &chosen.parts {
        let Ok(copy) = part.to_vec(alloc) else {
            return None;
        };
        if parts.push(copy).is_err() {
            return None;
        }
    }
    Some(parts)
}

/// Reads parts.
pub(crate) fn read_parts<A: Allocator + Copy>(
    alloc: Global,
    own: A,
    parts: &[Vec<u8>],
) -> Result<Result<Found<A>, CheckpointFault>, AllocError> {
    let mut lent: Vec<&[u8]> = Vec::new(alloc);
    for part in parts {
        lent.push(part.as_slice())?;
    }
    Ok(read(own, alloc, &lent))
}

/// The picture of the active checkpoint on a disk.
pub(crate) fn picture_in(alloc: Global, disk: &mut Memory) -> Result<Option<Vec<u8>>, AllocError> {
    let Some(parts) = parts_in(alloc, disk) else {
        return Ok(None);
    };
    match read_parts(alloc, alloc, &parts)? {
        Ok(found) => Ok(Some(found_picture(alloc, alloc, &found)?)),
        Err(_) => Ok(None),
    }
}
