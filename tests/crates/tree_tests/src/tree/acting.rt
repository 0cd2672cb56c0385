//! Calls of a tree, each an operation of its own: it takes the next tick, at the second of that tick.

use acl_list::{AclList, Kind};
use acl_shape::is_bounded;
use node_tree::{At, Moment, NewObject, Tree, TreeFault};
use std::alloc::Allocator;

/// The outcome of a call, or the value of a part of the state.
#[derive(Clone, Copy, Debug, PartialEq, Eq)]
pub enum Outcome {
    /// The call was done.
    Done,
    /// The call was done, and made this object.
    Made(u64),
    /// The call was refused.
    Refused(TreeFault),
    /// A precondition of the call doesn't hold.
    Misused,
    /// A number.
    Is(u64),
    /// Nothing was found.
    Absent,
    /// The seconds in which the data and the metadata of an object were changed last.
    Changed(i64, i64),
    /// The cookie and the child of a name.
    Entry(u64, u64),
    /// The next tick and the next stamp.
    Counters(u64, u64),
    /// How many bytes were read, and the content of a buffer of four nines after that.
    Bytes(usize, [u8; 4]),
}

fn outcome_of(answer: Result<(), TreeFault>) -> Outcome {
    match answer {
        Ok(()) => Outcome::Done,
        Err(fault) => Outcome::Refused(fault),
    }
}

/// The next tick, at the second of that number.
fn now<A: Allocator + Copy>(tree: &Tree<A>) -> Option<At> {
    let tick = tree.next_tick();
    if tick >= 1 << 62 {
        return None;
    }
    Some(At {
        tick,
        moment: Moment {
            seconds: tick as i64,
            nanoseconds: 0,
        },
    })
}

fn kind<A: Allocator + Copy>(tree: &Tree<A>, number: u64) -> Option<Kind> {
    tree.object(number).map(|node| node.kind())
}

/// A new file or directory of the owner 0, with an empty access control list.
pub fn add<A: Allocator + Copy>(
    tree: &mut Tree<A>,
    alloc: A,
    directory: u64,
    name: &[u8],
    kind_of_new: Kind,
) -> Outcome {
    let Some(at) = now(tree) else {
        return Outcome::Misused;
    };
    let Some(Kind::Directory) = kind(tree, directory) else {
        return Outcome::Misused;
    };
    let list = AclList::new(alloc);
    if name.len() > 255 || !is_bounded(&list) {
        return Outcome::Misused;
    }
    let new = NewObject {
        kind: kind_of_new,
        bytes: Vec::new(alloc),
        owner: 0,
        group: 0,
        list,
        high: 0,
        time_access: None,
        time_modify: at.moment,
    };
    match tree.add(directory, name, new, at) {
        Ok(number) => Outcome::Made(number),
        Err(fault) => Outcome::Refused(fault),
    }
}

pub fn link<A: Allocator + Copy>(
    tree: &mut Tree<A>,
    directory: u64,
    name: &[u8],
    number: u64,
) -> Outcome {
    let Some(at) = now(tree) else {
        return Outcome::Misused;
    };
    let Some(Kind::Directory) = kind(tree, directory) else {
        return Outcome::Misused;
    };
    let Some(Kind::File) = kind(tree, number) else {
        return Outcome::Misused;
    };
    if name.len() > 255 {
        return Outcome::Misused;
    }
    outcome_of(tree.link(directory, name, number, at))
}

pub fn unlink<A: Allocator + Copy>(tree: &mut Tree<A>, directory: u64, name: &[u8]) -> Outcome {
    let Some(at) = now(tree) else {
        return Outcome::Misused;
    };
    outcome_of(tree.unlink(directory, name, at))
}

pub fn rename<A: Allocator + Copy>(
    tree: &mut Tree<A>,
    from: u64,
    old: &[u8],
    to: u64,
    new: &[u8],
) -> Outcome {
    let Some(at) = now(tree) else {
        return Outcome::Misused;
    };
    let Some(Kind::Directory) = kind(tree, to) else {
        return Outcome::Misused;
    };
    if new.len() > 255 {
        return Outcome::Misused;
    }
    outcome_of(tree.rename(from, old, to, new, at))
}

pub fn write<A: Allocator + Copy>(
    tree: &mut Tree<A>,
    file: u64,
    offset: u64,
    more: &[u8],
) -> Outcome {
    let Some(at) = now(tree) else {
        return Outcome::Misused;
    };
    let Some(Kind::File) = kind(tree, file) else {
        return Outcome::Misused;
    };
    outcome_of(tree.write(file, offset, more, at))
}

pub fn resize<A: Allocator + Copy>(tree: &mut Tree<A>, file: u64, size: u64) -> Outcome {
    let Some(at) = now(tree) else {
        return Outcome::Misused;
    };
    let Some(Kind::File) = kind(tree, file) else {
        return Outcome::Misused;
    };
    outcome_of(tree.resize(file, size, at))
}

pub fn set_list<A: Allocator + Copy>(tree: &mut Tree<A>, number: u64, list: AclList<A>) -> Outcome {
    let Some(at) = now(tree) else {
        return Outcome::Misused;
    };
    if tree.next_stamp() >= 1 << 62 || !is_bounded(&list) {
        return Outcome::Misused;
    }
    tree.set_list(number, list, 0, at);
    Outcome::Done
}

pub fn set_owner<A: Allocator + Copy>(
    tree: &mut Tree<A>,
    number: u64,
    owner: u32,
    group: u32,
) -> Outcome {
    let Some(at) = now(tree) else {
        return Outcome::Misused;
    };
    if tree.next_stamp() >= 1 << 62 {
        return Outcome::Misused;
    }
    tree.set_owner(number, owner, group, at);
    Outcome::Done
}

/// How many bytes a file has.
pub fn size<A: Allocator + Copy>(tree: &Tree<A>, number: u64) -> Option<u64> {
    Some(tree.object(number)?.size())
}

/// The tick of the last change.
pub fn change<A: Allocator + Copy>(tree: &Tree<A>, number: u64) -> Option<u64> {
    Some(tree.object(number)?.change())
}

/// The stamp.
pub fn stamp<A: Allocator + Copy>(tree: &Tree<A>, number: u64) -> Option<u64> {
    Some(tree.object(number)?.stamp())
}

/// The seconds of the two times.
pub fn times<A: Allocator + Copy>(tree: &Tree<A>, number: u64) -> Option<(i64, i64)> {
    let node = tree.object(number)?;
    Some((node.time_modify().seconds, node.time_metadata().seconds))
}

/// The cookie and the child of the next name of a directory.
pub fn after<A: Allocator + Copy>(
    tree: &Tree<A>,
    directory: u64,
    cookie: u64,
) -> Option<(u64, u64)> {
    let entry = tree.list_after(directory, cookie)?;
    Some((entry.cookie(), entry.child()))
}
