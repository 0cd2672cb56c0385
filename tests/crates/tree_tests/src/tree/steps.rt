//! Calls and parts of the state as data, so that a test is a table of them with their outcomes.

use crate::tree::acting::Outcome::{Absent, Bytes, Changed, Counters, Entry, Is};
use crate::tree::acting::{
    Outcome, add, after, change, link, rename, resize, set_list, set_owner, size, stamp, times,
    unlink, write,
};
use node_tree::{AclList, Kind, Tree};
use std::alloc::Allocator;
use std::process::Abort;

/// A part of an object.
#[derive(Clone, Copy, Debug)]
pub enum Look {
    Change,
    Stamp,
    Size,
    Times,
    Links,
    Parent,
}

/// A call, or a part of a tree's state.
#[derive(Clone, Copy, Debug)]
pub enum Step<'a> {
    Mkdir(u64, &'a [u8]),
    Create(u64, &'a [u8]),
    Link(u64, &'a [u8], u64),
    Unlink(u64, &'a [u8]),
    Rename(u64, &'a [u8], u64, &'a [u8]),
    Write(u64, u64, &'a [u8]),
    Resize(u64, u64),
    /// An empty access control list is set.
    SetList(u64),
    SetOwner(u64, u32, u32),
    /// The next tick and the next stamp.
    Next,
    See(Look, u64),
    Find(u64, &'a [u8]),
    /// The next name of a directory after a cookie.
    After(u64, u64),
    /// Four bytes of a file are read at an offset.
    Read(u64, u64),
}

fn number(seen: Option<u64>) -> Outcome {
    match seen {
        Some(number) => Is(number),
        None => Absent,
    }
}

fn changed<A: Allocator + Copy>(tree: &Tree<A>, object: u64) -> Outcome {
    match times(tree, object) {
        Some((modify, metadata)) => Changed(modify, metadata),
        None => Absent,
    }
}

fn entry<A: Allocator + Copy>(tree: &Tree<A>, directory: u64, cookie: u64) -> Outcome {
    match after(tree, directory, cookie) {
        Some((cookie, child)) => Entry(cookie, child),
        None => Absent,
    }
}

fn look_at<A: Allocator + Copy>(tree: &Tree<A>, what: Look, object: u64) -> Outcome {
    match what {
        Look::Change => number(change(tree, object)),
        Look::Stamp => number(stamp(tree, object)),
        Look::Size => number(size(tree, object)),
        Look::Times => changed(tree, object),
        Look::Links => Is(tree.links(object) as u64),
        Look::Parent => number(tree.parent(object)),
    }
}

fn read<A: Allocator + Copy>(tree: &Tree<A>, file: u64, offset: u64) -> Outcome {
    let mut bytes = [9u8; 4];
    let count = tree.read(file, offset, &mut bytes);
    Bytes(count, bytes)
}

/// Makes a call, or reads a part of the state.
pub fn act<A: Allocator + Copy>(tree: &mut Tree<A>, alloc: A, step: Step<'_>) -> Outcome {
    match step {
        Step::Mkdir(directory, name) => add(tree, alloc, directory, name, Kind::Directory),
        Step::Create(directory, name) => add(tree, alloc, directory, name, Kind::File),
        Step::Link(directory, name, number) => link(tree, directory, name, number),
        Step::Unlink(directory, name) => unlink(tree, directory, name),
        Step::Rename(from, old, to, new) => rename(tree, from, old, to, new),
        Step::Write(file, offset, more) => write(tree, file, offset, more),
        Step::Resize(file, size) => resize(tree, file, size),
        Step::SetList(number) => set_list(tree, number, AclList::new(alloc)),
        Step::SetOwner(number, owner, group) => set_owner(tree, number, owner, group),
        Step::Next => Counters(tree.next_tick(), tree.next_stamp()),
        Step::See(what, object) => look_at(tree, what, object),
        Step::Find(directory, name) => number(tree.find(directory, name)),
        Step::After(directory, cookie) => entry(tree, directory, cookie),
        Step::Read(file, offset) => read(tree, file, offset),
    }
}

/// Makes a call or reads a part of the state, and checks the outcome.
pub fn see<A: Allocator + Copy>(
    rt: &impl Abort,
    alloc: A,
    tree: &mut Tree<A>,
    step: Step<'_>,
    want: Outcome,
) {
    assert_eq!(rt; act(tree, alloc, step), want, "{step:?}");
}

/// Goes over a table of calls and parts of the state, and checks their outcomes.
pub fn walk<A: Allocator + Copy>(
    rt: &impl Abort,
    alloc: A,
    tree: &mut Tree<A>,
    rows: &[(Step<'_>, Outcome)],
) {
    for (step, want) in rows {
        see(rt, alloc, tree, *step, *want);
    }
}

/// A name of two bytes for each number below 2^16.
pub fn name_of(number: u64) -> [u8; 2] {
    [(number / 256 % 256) as u8, (number % 256) as u8]
}

/// The sample tree.
pub fn sample<A: Allocator + Copy>(rt: &impl Abort, alloc: A) -> Tree<A> {
    Tree::sample(alloc).expect(rt, "the sample tree")
}

/// Goes over a table on the sample tree.
pub fn walk_sample<A: Allocator + Copy>(rt: &impl Abort, alloc: A, rows: &[(Step<'_>, Outcome)]) {
    let mut tree = sample(rt, alloc);
    walk(rt, alloc, &mut tree, rows);
}
