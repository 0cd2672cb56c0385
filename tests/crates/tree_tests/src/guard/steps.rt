//! Calls as data, so that a test is a table of them with their results.

use crate::guard::trees::{Scene, guarded, tree};
use access_guard::{Decision, Demand, Guard, GuardedTree, write_line};
use acl_list::{AclList, Entry, Kind, Summary};
use acl_shape::is_bounded;
use node_tree::{At, EPOCH, NewObject};
use rpc_record::Caller;
use std::alloc::{AllocError, Global};
use std::hash::RandomState;
use std::process::Abort;
use std::random::RandomSource;
use std::test::Fail;
use who_book::Book;

/// A caller as sent: the user and its group.
pub type Sent = (u32, u32);

/// The user 1002 in the group 100, which is that of all objects but the root.
pub const BOB: Sent = (1002, 100);

/// The user 1002 in the group 7.
pub const BOB_IN_7: Sent = (1002, 7);

/// The user 1002 in the group 0, which is that of the root.
pub const BOB_IN_0: Sent = (1002, 0);

/// The user 1003 in the group 100.
pub const CAROL: Sent = (1003, 100);

/// A call, and its result; or a part of the state, and its value.
#[derive(Clone, Copy, Debug)]
pub enum Step {
    /// A decision, whose lines are kept: the caller, the demand, the operation and the decision.
    Decide(Sent, Demand, u32, Decision),
    /// The bits that an object's ACL (access control list) grants: the caller, the object and the bits.
    Grants(Sent, u64, u32),
    /// A reload: the text of the book. `None`: another book without names.
    Reload(Option<&'static str>),
    /// Another ACL of an object.
    SetList(u64, &'static [Entry]),
    /// A file of the root is removed: its name.
    Unlink(&'static [u8]),
    /// A file is added to the root: its name, its ACL and its number.
    Add(&'static [u8], &'static [Entry], u64),
    /// The number of ACEs that were examined so far.
    Examined(u64),
    /// The number of the lines so far.
    Total(u64),
    /// The epoch of the book.
    Epoch(u64),
    /// The remembered summaries, the last one used first: the epochs of their books, their stamps, and the summaries.
    Remembered(&'static [(u64, u64, Summary)]),
    /// The lines of the trail.
    Lines(&'static str),
}

fn caller_of(sent: Sent) -> Caller {
    Caller::new(sent.0, sent.1, &[])
}

/// Decides, and keeps the lines.
fn decide(guarded: &mut GuardedTree, sent: Sent, demand: Demand, op: u32) -> Decision {
    let decision = guarded.decide(demand, &caller_of(sent), op);
    guarded.settle(true);
    decision
}

fn book(alloc: Global, text: Option<&str>) -> Result<Book, Fail> {
    match text {
        Some(text) => Ok(Book::read(alloc, text)?),
        None => Ok(Book::default(alloc)),
    }
}

fn reload(alloc: Global, guarded: &mut GuardedTree, text: Option<&str>) -> Result<(), Fail> {
    let book = book(alloc, text)?;
    if guarded.reload(book).is_err() {
        return Err(Fail::new("no epoch"));
    }
    Ok(())
}

/// The next tick.
fn now(guarded: &GuardedTree) -> Result<At, Fail> {
    let tick = guarded.next_tick();
    if tick >= 1 << 63 {
        return Err(Fail::new("no tick"));
    }
    Ok(At {
        tick,
        moment: EPOCH,
    })
}

fn set_list(
    alloc: Global,
    guarded: &mut GuardedTree,
    object: u64,
    list: &[Entry],
) -> Result<(), Fail> {
    let at = now(guarded)?;
    let list = AclList::from_slice(alloc, list)?;
    if guarded.next_stamp() >= 1 << 63 || !is_bounded(&list) {
        return Err(Fail::new("no stamp"));
    }
    guarded.set_list(object, list, 0, at);
    Ok(())
}

fn unlink(guarded: &mut GuardedTree, name: &[u8]) -> Result<(), Fail> {
    let at = now(guarded)?;
    Ok(guarded.unlink(1, name, at)?)
}

/// Adds a file of the user 1001 in the group 100 to the root.
fn add(alloc: Global, guarded: &mut GuardedTree, name: &[u8], list: &[Entry]) -> Result<u64, Fail> {
    let at = now(guarded)?;
    let list = AclList::from_slice(alloc, list)?;
    if name.len() > 255 || !is_bounded(&list) {
        return Err(Fail::new("too long"));
    }
    let new = NewObject {
        kind: Kind::File,
        bytes: Vec::new(alloc),
        owner: 1001,
        group: 100,
        list,
        high: 0,
        time_access: None,
        time_modify: at.moment,
    };
    let directory = guarded.root();
    Ok(guarded.add(directory, name, new, at)?)
}

/// The remembered summaries, the last one used first: the epochs of their books, their stamps, and the summaries.
fn remembered(alloc: Global, guard: &Guard) -> Result<Vec<(u64, u64, Summary)>, AllocError> {
    let mut rows = Vec::new(alloc);
    for (key, sum) in guard.remembered() {
        rows.push((key.epoch, key.stamp, *sum))?;
    }
    Ok(rows)
}

/// The lines of the trail, each with a newline.
fn lines(alloc: Global, guard: &Guard) -> Result<Vec<u8>, AllocError> {
    let mut text = Vec::new(alloc);
    for line in guard.trail() {
        text.extend_from_slice(write_line(line).as_bytes())?;
        text.push(b'\n')?;
    }
    Ok(text)
}

fn are_remembered(
    alloc: Global,
    guard: &Guard,
    want: &[(u64, u64, Summary)],
) -> Result<bool, AllocError> {
    let rows = remembered(alloc, guard)?;
    Ok(rows.as_slice() == want)
}

fn are_lines(alloc: Global, guard: &Guard, want: &str) -> Result<bool, AllocError> {
    let text = lines(alloc, guard)?;
    Ok(text.as_slice() == want.as_bytes())
}

/// Makes a change.
fn change(alloc: Global, guarded: &mut GuardedTree, step: Step) -> Result<bool, Fail> {
    match step {
        Step::Reload(text) => reload(alloc, guarded, text)?,
        Step::SetList(object, list) => set_list(alloc, guarded, object, list)?,
        Step::Unlink(name) => unlink(guarded, name)?,
        Step::Add(name, list, want) => return Ok(add(alloc, guarded, name, list)? == want),
        _ => return Ok(false),
    }
    Ok(true)
}

/// Whether the state has the expected value.
fn is_seen(alloc: Global, guarded: &GuardedTree, step: Step) -> Result<bool, AllocError> {
    match step {
        Step::Examined(want) => Ok(guarded.guard().examined() == want),
        Step::Total(want) => Ok(guarded.guard().total() == want),
        Step::Epoch(want) => Ok(guarded.epoch() == want),
        Step::Remembered(want) => are_remembered(alloc, guarded.guard(), want),
        Step::Lines(want) => are_lines(alloc, guarded.guard(), want),
        _ => Ok(false),
    }
}

/// Makes a step. Returns whether it has the expected result.
fn take(alloc: Global, guarded: &mut GuardedTree, step: Step) -> Result<bool, Fail> {
    match step {
        Step::Decide(sent, demand, op, want) => Ok(decide(guarded, sent, demand, op) == want),
        Step::Grants(sent, object, want) => { Ok(guarded.grants(object, &caller_of(sent)) == want) }
        Step::Reload(_) | Step::SetList(..) | Step::Unlink(_) | Step::Add(..) => {
            change(alloc, guarded, step)
        }
        _ => Ok(is_seen(alloc, guarded, step)?),
    }
}

/// Makes the steps, and checks the result of each.
fn walk(
    rt: &impl Abort,
    alloc: Global,
    guarded: &mut GuardedTree,
    name: &str,
    steps: &[Step],
) -> Result<(), Fail> {
    for (index, step) in steps.iter().enumerate() {
        let is_right = take(alloc, guarded, *step)?;
        assert!(rt; is_right, "{name}: step {index}, {step:?}");
    }
    Ok(())
}

/// Makes the steps on the tree of a scene, with a guard of this capacity, and checks the result of each.
pub fn play(
    rt: &(impl Abort + RandomSource),
    alloc: Global,
    scene: &Scene<'_>,
    capacity: usize,
    steps: &[Step],
) -> Result<(), Fail> {
    let hasher = RandomState::new(rt)?;
    let tree = tree(alloc, scene)?;
    let mut guarded = guarded(alloc, tree, capacity, hasher)?;
    walk(rt, alloc, &mut guarded, scene.name, steps)
}
