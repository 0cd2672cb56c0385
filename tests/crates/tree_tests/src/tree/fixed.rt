//! Calls in a fixed order that looks random, on a tree and on a plain program.

use crate::tree::acting::{Outcome, add, link, rename, resize, set_owner, unlink, write};
use crate::tree::plain::{Label, Named, Plain};
use acl_shape::is_bounded;
use nfs_types::Limits;
use node_tree::{AclList, Kind, Tree};
use std::alloc::{AllocError, Global};
use std::process::Abort;
use std::test::Fail;

/// Numbers in a fixed order that looks random.
#[derive(Clone, Copy)]
struct Dice {
    state: u64,
}

impl Dice {
    fn roll(&mut self, sides: u64) -> u64 {
        self.state = self
            .state
            .wrapping_mul(6_364_136_223_846_793_005)
            .wrapping_add(1_442_695_040_888_963_407);
        if sides == 0 {
            return 0;
        }
        (self.state >> 33) % sides
    }

    /// One of eight names.
    fn label(&mut self) -> Label {
        [b'n', (self.roll(8) % 8) as u8]
    }
}

/// A number that has an object.
fn any(dice: &mut Dice, plain: &Plain) -> u64 {
    let place = dice.roll(plain.things.len() as u64);
    match plain.things.get(place as usize) {
        Some(thing) => thing.number,
        None => 1,
    }
}

/// A directory: the root if the dice gave none.
fn directory(dice: &mut Dice, plain: &Plain) -> u64 {
    let number = any(dice, plain);
    if plain.is_directory(number) {
        number
    } else {
        1
    }
}

/// A name of a directory that exists.
fn there(dice: &mut Dice, plain: &Plain) -> (u64, Label) {
    let place = dice.roll(plain.names.len() as u64);
    match plain.names.get(place as usize) {
        Some(name) => (name.directory, name.label),
        None => (1, [b'n', 0]),
    }
}

/// The outcome of a call, in the tree and in the plain program.
type Both = (Outcome, Outcome);

fn make(
    dice: &mut Dice,
    tree: &mut Tree<Global>,
    plain: &mut Plain,
    alloc: Global,
) -> Result<Both, AllocError> {
    let (parent, label) = (directory(dice, plain), dice.label());
    let is_directory = dice.roll(3) == 0;
    let kind = if is_directory {
        Kind::Directory
    } else {
        Kind::File
    };
    let done = add(tree, alloc, parent, &label, kind);
    Ok((done, plain.add(parent, label, is_directory)?))
}

fn give_name(
    dice: &mut Dice,
    tree: &mut Tree<Global>,
    plain: &mut Plain,
) -> Result<Both, AllocError> {
    let (parent, label, number) = (directory(dice, plain), dice.label(), any(dice, plain));
    if plain.is_directory(number) {
        return Ok((Outcome::Done, Outcome::Done));
    }
    let done = link(tree, parent, &label, number);
    Ok((done, plain.link(parent, label, number)?))
}

fn take_name(dice: &mut Dice, tree: &mut Tree<Global>, plain: &mut Plain) -> Both {
    let (mut parent, mut label) = there(dice, plain);
    if dice.roll(5) == 0 {
        parent = any(dice, plain);
        label = dice.label();
    }
    let done = unlink(tree, parent, &label);
    (done, plain.unlink(parent, label))
}

fn change_name(
    dice: &mut Dice,
    tree: &mut Tree<Global>,
    plain: &mut Plain,
) -> Result<Both, AllocError> {
    let (from, old) = there(dice, plain);
    let (mut to, mut new) = (directory(dice, plain), dice.label());
    if dice.roll(3) == 0 {
        (to, new) = there(dice, plain);
    }
    let done = rename(tree, from, &old, to, &new);
    Ok((done, plain.rename(from, old, to, new)?))
}

fn put_bytes(
    dice: &mut Dice,
    tree: &mut Tree<Global>,
    plain: &mut Plain,
) -> Result<Both, AllocError> {
    let (file, offset, count) = (any(dice, plain), dice.roll(9000), dice.roll(9));
    if plain.is_directory(file) {
        return Ok((Outcome::Done, Outcome::Done));
    }
    let data = [1u8, 2, 3, 4, 5, 6, 7, 8];
    let more = data.get(..count as usize).unwrap_or(&data);
    let done = write(tree, file, offset, more);
    Ok((done, plain.write(file, offset as usize, more)?))
}

fn set_size(
    dice: &mut Dice,
    tree: &mut Tree<Global>,
    plain: &mut Plain,
) -> Result<Both, AllocError> {
    let (file, size) = (any(dice, plain), dice.roll(9000));
    if plain.is_directory(file) {
        return Ok((Outcome::Done, Outcome::Done));
    }
    let done = resize(tree, file, size);
    Ok((done, plain.resize(file, size as usize)?))
}

fn give_away(dice: &mut Dice, tree: &mut Tree<Global>, plain: &mut Plain) -> Both {
    let number = any(dice, plain);
    let done = set_owner(tree, number, 7, 8);
    (done, plain.set_owner(number))
}

fn call(
    dice: &mut Dice,
    tree: &mut Tree<Global>,
    plain: &mut Plain,
    alloc: Global,
) -> Result<Both, AllocError> {
    match dice.roll(16) {
        0..=3 => make(dice, tree, plain, alloc),
        4 | 5 => give_name(dice, tree, plain),
        6..=8 => Ok(take_name(dice, tree, plain)),
        9..=11 => change_name(dice, tree, plain),
        12 | 13 => put_bytes(dice, tree, plain),
        14 => set_size(dice, tree, plain),
        _ => Ok(give_away(dice, tree, plain)),
    }
}

/// The attributes of an object.
#[derive(Clone, Copy, Debug, PartialEq, Eq)]
struct Attributes {
    is_directory: bool,
    size: u64,
    change: u64,
    stamp: u64,
    modify: i64,
    metadata: i64,
    links: usize,
    parent: Option<u64>,
    has_entries: bool,
}

/// The attributes of an object in the tree.
fn seen(tree: &Tree<Global>, number: u64) -> Option<Attributes> {
    let node = tree.object(number)?;
    Some(Attributes {
        is_directory: node.is_directory(),
        size: node.size(),
        change: node.change(),
        stamp: node.stamp(),
        modify: node.time_modify().seconds,
        metadata: node.time_metadata().seconds,
        links: tree.links(number),
        parent: tree.parent(number),
        has_entries: tree.has_entries(number),
    })
}

/// The attributes of an object in the plain program.
fn wanted(plain: &Plain, number: u64) -> Option<Attributes> {
    let thing = plain.thing(number)?;
    Some(Attributes {
        is_directory: thing.is_directory,
        size: thing.bytes.len() as u64,
        change: thing.change,
        stamp: thing.stamp,
        modify: thing.modify,
        metadata: thing.metadata,
        links: plain.links(number),
        parent: plain.parent(number),
        has_entries: plain.has_entries(number),
    })
}

/// Whether a file has these bytes.
fn has_bytes(
    tree: &Tree<Global>,
    alloc: Global,
    number: u64,
    want: &[u8],
) -> Result<bool, AllocError> {
    let mut bytes = Vec::new(alloc);
    bytes.resize(want.len(), 9)?;
    tree.read(number, 0, &mut bytes);
    Ok(bytes.as_slice() == want)
}

/// An object has the same attributes in both, or is in neither.
fn see_object(rt: &impl Abort, tree: &Tree<Global>, plain: &Plain, number: u64) {
    assert_eq!(rt; seen(tree, number), wanted(plain, number), "{number}");
}

/// An object has the same bytes in both.
fn see_bytes(
    rt: &impl Abort,
    tree: &Tree<Global>,
    alloc: Global,
    plain: &Plain,
    number: u64,
) -> Result<(), AllocError> {
    if let Some(thing) = plain.thing(number) {
        let is_same = has_bytes(tree, alloc, number, &thing.bytes)?;
        assert!(rt; is_same, "bytes of {number}");
    }
    Ok(())
}

/// The next name of a directory after a cookie.
fn entry_after(tree: &Tree<Global>, directory: u64, cookie: u64) -> Option<Named> {
    let entry = tree.list_after(directory, cookie)?;
    Some(Named {
        cookie: entry.cookie(),
        directory,
        label: Label::try_from(entry.name()).ok()?,
        child: entry.child(),
    })
}

/// A name comes after the last one of its directory, and has its child.
fn see_name(rt: &impl Abort, tree: &Tree<Global>, want: &Named, last: u64) {
    let found = tree.find(want.directory, &want.label);
    assert_eq!(rt;
        (entry_after(tree, want.directory, last), found),
        (Some(*want), Some(want.child))
    );
}

/// The names of a directory, one after another, and none after the last.
fn see_directory(rt: &impl Abort, tree: &Tree<Global>, plain: &Plain, directory: u64) {
    let mut last = 0u64;
    for name in plain.names.iter() {
        if name.directory == directory {
            see_name(rt, tree, name, last);
            last = name.cookie;
        }
    }
    assert!(rt; tree.list_after(directory, last).is_none(), "{directory}");
}

/// The next tick and the next stamp are the same in both.
fn see_counters(rt: &impl Abort, tree: &Tree<Global>, plain: &Plain) {
    assert_eq!(rt;
        (tree.next_tick(), tree.next_stamp()),
        (plain.tick, plain.stamp)
    );
}

/// The complete world, number by number.
fn see_world(
    rt: &impl Abort,
    tree: &Tree<Global>,
    alloc: Global,
    plain: &Plain,
) -> Result<(), AllocError> {
    see_counters(rt, tree, plain);
    for number in 0..plain.number.saturating_add(1) {
        see_object(rt, tree, plain, number);
        see_bytes(rt, tree, alloc, plain, number)?;
        see_directory(rt, tree, plain, number);
    }
    Ok(())
}

/// A root alone, with an empty access control list.
fn empty(alloc: Global) -> Result<Tree<Global>, AllocError> {
    let list = AclList::new(alloc);
    if !is_bounded(&list) {
        return Err(AllocError);
    }
    Tree::new(alloc, Limits::standard(), 0, 0, list, 0)
}

/// A hundred calls, and the number of those that are refused.
fn hundred(
    rt: &impl Abort,
    alloc: Global,
    dice: &mut Dice,
    tree: &mut Tree<Global>,
    plain: &mut Plain,
) -> Result<u32, AllocError> {
    let mut refused = 0u32;
    for index in 0..100 {
        let (done, want) = call(dice, tree, plain, alloc)?;
        assert_eq!(rt; done, want, "call {index}");
        if let Outcome::Refused(_) = done {
            refused = refused.saturating_add(1);
        }
    }
    Ok(refused)
}

/// Some of the calls were refused and most were not, and many objects are left.
fn see_mixed(rt: &impl Abort, plain: &Plain, refused: u32) {
    assert!(rt; refused > 1000 && refused < 5000, "{refused} refused");
    assert!(rt; plain.things.len() > 20, "too few are left");
}

fn all_calls(
    rt: &impl Abort,
    alloc: Global,
    tree: &mut Tree<Global>,
    plain: &mut Plain,
) -> Result<(), Fail> {
    let mut dice = Dice { state: 20 };
    let mut refused = 0u32;
    for _ in 0..100 {
        refused = refused.saturating_add(hundred(rt, alloc, &mut dice, tree, plain)?);
        see_world(rt, tree, alloc, plain)?;
    }
    see_mixed(rt, plain, refused);
    Ok(())
}

/// 10,000 calls have the same outcome in both, and after each hundredth the worlds are equal.
#[test]
fn a_plain_program_does_the_same(rt: HostRuntime) -> Result<(), Fail> {
    let mut tree = empty(rt.alloc()).expect(&rt, "a root alone");
    let mut plain = Plain::new(rt.alloc()).expect(&rt, "a root alone");
    all_calls(&rt, rt.alloc(), &mut tree, &mut plain)
}
