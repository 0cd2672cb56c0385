//! The largest number of objects, in 4,096 directories, and the largest number of names of one directory: made, listed,
//! renamed and removed in three orders.

use crate::tree::acting::Outcome::{Absent, Counters, Done, Entry, Is, Made, Refused};
use crate::tree::acting::{Outcome, after};
use crate::tree::steps::Look::{Links, Parent, Size};
use crate::tree::steps::Step::{After, Create, Find, Mkdir, Next, Rename, See, Unlink};
use crate::tree::steps::{Step, name_of, sample, see, walk};
use node_tree::Tree;
use node_tree::TreeFault::NoSpc;
use std::alloc::Global;
use std::process::Abort;

/// The directories except the root and `pub`. With `notes` and `pub` the root has 4,096 names.
const DIRECTORIES: u64 = 4094;

/// The number of a directory. The sample tree has the numbers 1 to 3.
fn directory(index: u64) -> u64 {
    index.saturating_add(4)
}

/// The number of a file of a directory, of three: those of the directories come first.
fn file(index: u64, place: u64) -> u64 {
    index
        .saturating_mul(3)
        .saturating_add(4098)
        .saturating_add(place)
}

/// The index of the next directory, and of the first after the last.
fn next(index: u64) -> u64 {
    index.saturating_add(1) % DIRECTORIES
}

/// Checks that no further file can be added to a directory.
fn see_full(rt: &impl Abort, alloc: Global, tree: &mut Tree<Global>, directory: u64) {
    see(rt, alloc, tree, Create(directory, b"more"), Refused(NoSpc));
}

/// Adds the three files of a directory.
fn make_three(rt: &impl Abort, alloc: Global, tree: &mut Tree<Global>, index: u64) {
    let own = directory(index);
    see(rt, alloc, tree, Create(own, b"a"), Made(file(index, 0)));
    see(rt, alloc, tree, Create(own, b"b"), Made(file(index, 1)));
    see(rt, alloc, tree, Create(own, b"c"), Made(file(index, 2)));
}

/// Fills the root with directories, each of them with three files, and `pub` with the five files that are left of
/// 16,384 objects.
fn make(rt: &impl Abort, alloc: Global, tree: &mut Tree<Global>) {
    for index in 0..DIRECTORIES {
        let made = Made(directory(index));
        see(rt, alloc, tree, Mkdir(1, &name_of(index)), made);
    }
    see_full(rt, alloc, tree, 1);
    for index in 0..DIRECTORIES {
        make_three(rt, alloc, tree, index);
    }
    for place in 0..5 {
        let made = Made(file(DIRECTORIES, place));
        see(rt, alloc, tree, Create(3, &name_of(place)), made);
    }
    see_full(rt, alloc, tree, 3);
}

/// The first two children of a directory by rising cookie, and whether there is a third.
fn listed(tree: &Tree<Global>, directory: u64) -> (Option<u64>, Option<u64>, bool) {
    let Some((cookie, first)) = after(tree, directory, 0) else {
        return (None, None, false);
    };
    let Some((cookie, second)) = after(tree, directory, cookie) else {
        return (Some(first), None, false);
    };
    let third = after(tree, directory, cookie).is_some();
    (Some(first), Some(second), third)
}

/// Checks the first two children of a directory, and whether there is a third.
fn see_listed(
    rt: &impl Abort,
    tree: &Tree<Global>,
    directory: u64,
    want: (Option<u64>, Option<u64>, bool),
) {
    assert_eq!(rt; listed(tree, directory), want);
}

/// Moves the first file of a directory to the next one, and its second to the name of its third, which is removed.
fn rename_two(rt: &impl Abort, alloc: Global, tree: &mut Tree<Global>, index: u64) {
    let (own, other) = (directory(index), directory(next(index)));
    let three = (Some(file(index, 0)), Some(file(index, 1)), true);
    see_listed(rt, tree, own, three);
    see(rt, alloc, tree, Rename(own, b"a", other, b"d"), Done);
    see(rt, alloc, tree, Rename(own, b"b", own, b"c"), Done);
    see(rt, alloc, tree, See(Links, file(index, 2)), Is(0));
}

/// Checks the names of the directory after the one of this index then.
fn see_next(rt: &impl Abort, alloc: Global, tree: &mut Tree<Global>, index: u64) {
    let other = directory(next(index));
    see(rt, alloc, tree, Find(other, b"d"), Is(file(index, 0)));
    see(rt, alloc, tree, Find(other, b"c"), Is(file(next(index), 1)));
    see(rt, alloc, tree, See(Parent, other), Is(1));
    assert!(rt; !listed(tree, other).2);
}

/// Moves each first file to the next directory, and each second one to the name of the third, which is removed.
fn rename_all(rt: &impl Abort, alloc: Global, tree: &mut Tree<Global>) {
    for index in 0..DIRECTORIES {
        rename_two(rt, alloc, tree, index);
    }
    for index in 0..DIRECTORIES {
        see_next(rt, alloc, tree, index);
    }
}

/// Removes the renamed file of a directory, which is its last.
fn remove_last(rt: &impl Abort, alloc: Global, tree: &mut Tree<Global>, own: u64) {
    see(rt, alloc, tree, Unlink(own, b"c"), Done);
    assert!(rt; !tree.has_entries(own));
}

/// Removes the moved files from the first directory on, the renamed ones from the last on, and the directories in steps
/// of 1,001.
fn remove_all(rt: &impl Abort, alloc: Global, tree: &mut Tree<Global>) {
    for index in 0..DIRECTORIES {
        see(rt, alloc, tree, Unlink(directory(index), b"d"), Done);
    }
    for index in 1..=DIRECTORIES {
        let own = directory(DIRECTORIES.saturating_sub(index));
        remove_last(rt, alloc, tree, own);
    }
    for index in 0..DIRECTORIES {
        let name = name_of(index.saturating_mul(1001) % DIRECTORIES);
        see(rt, alloc, tree, Unlink(1, &name), Done);
    }
}

/// Six rounds of 4,094 changes and 12,287 new files take a tick each, and the 16,381 new objects a stamp each. They
/// leave the sample tree with five files in `pub`. No number is used again.
const LEFT: &[(Step, Outcome)] = &[
    (Next, Counters(36_855, 16_385)),
    (After(1, 0), Entry(3, 2)),
    (After(1, 3), Entry(4, 3)),
    (After(1, 4), Absent),
    (See(Links, 2), Is(1)),
    (See(Links, 3), Is(1)),
    (See(Links, 4), Is(0)),
    (Mkdir(1, b"new"), Made(16_385)),
];

fn fill_and_empty(rt: &impl Abort, alloc: Global, tree: &mut Tree<Global>) {
    make(rt, alloc, tree);
    rename_all(rt, alloc, tree);
    remove_all(rt, alloc, tree);
    walk(rt, alloc, tree, LEFT);
}

#[test]
fn a_full_tree_empties(rt: HostRuntime) {
    let mut tree = sample(&rt, rt.alloc());
    fill_and_empty(&rt, rt.alloc(), &mut tree);
}

/// The names that a directory may have.
const NAMES: u64 = 4096;

/// Fills `pub` with files, and gives each another name, in steps of 1,001.
fn fill(rt: &impl Abort, alloc: Global, tree: &mut Tree<Global>) {
    for number in 0..NAMES {
        let made = Made(number.saturating_add(4));
        see(rt, alloc, tree, Create(3, &name_of(number)), made);
    }
    see_full(rt, alloc, tree, 3);
    for index in 0..NAMES {
        let number = index.saturating_mul(1001) % NAMES;
        let (old, new) = (name_of(number), name_of(number.saturating_add(NAMES)));
        see(rt, alloc, tree, Rename(3, &old, 3, &new), Done);
    }
}

/// Checks which file is in `pub` after a cookie, and returns the cookie of its name, which is a later one.
fn see_after(rt: &impl Abort, tree: &Tree<Global>, last: u64, want: u64) -> u64 {
    // No object has the number 0.
    let (cookie, child) = after(tree, 3, last).unwrap_or((last, 0));
    assert_eq!(rt; child, want);
    assert!(rt; last < cookie);
    cookie
}

/// The files are listed in the order in which they got their names.
fn list(rt: &impl Abort, alloc: Global, tree: &mut Tree<Global>) {
    let mut last = 0u64;
    for index in 0..NAMES {
        let number = index.saturating_mul(1001) % NAMES;
        last = see_after(rt, tree, last, number.saturating_add(4));
    }
    see(rt, alloc, tree, After(3, last), Absent);
}

/// Removes a file of `pub` by its second name.
fn take(rt: &impl Abort, alloc: Global, tree: &mut Tree<Global>, number: u64) {
    let name = name_of(number.saturating_add(NAMES));
    see(rt, alloc, tree, Unlink(3, &name), Done);
    see(rt, alloc, tree, See(Size, number.saturating_add(4)), Absent);
}

/// Removes every third file from the first on, every third from the last on, and the others in steps of 1,003.
fn take_all(rt: &impl Abort, alloc: Global, tree: &mut Tree<Global>) {
    for index in 0..1366u64 {
        take(rt, alloc, tree, index.saturating_mul(3));
    }
    for index in 1..1366u64 {
        let place = 1365u64.saturating_sub(index);
        let number = place.saturating_mul(3).saturating_add(1);
        take(rt, alloc, tree, number);
    }
    for index in 0..1365u64 {
        let place = index.saturating_mul(1003) % 1365;
        let number = place.saturating_mul(3).saturating_add(2);
        take(rt, alloc, tree, number);
    }
}

/// Three rounds of 4,096 changes take a tick each, and the new objects a stamp each. They leave the directory empty.
const NONE_LEFT: &[(Step, Outcome)] = &[
    (After(3, 0), Absent),
    (Next, Counters(12_292, 4100)),
    (Create(3, b"new"), Made(4100)),
];

fn empty_out(rt: &impl Abort, alloc: Global, tree: &mut Tree<Global>) {
    fill(rt, alloc, tree);
    list(rt, alloc, tree);
    take_all(rt, alloc, tree);
    walk(rt, alloc, tree, NONE_LEFT);
}

#[test]
fn a_full_directory_empties(rt: HostRuntime) {
    let mut tree = sample(&rt, rt.alloc());
    empty_out(&rt, rt.alloc(), &mut tree);
}
