//! Limits at their borders.

use crate::tree::acting::Outcome;
use crate::tree::acting::Outcome::{Counters, Done, Is, Refused};
use crate::tree::steps::Look::{Links, Size};
use crate::tree::steps::Step::{Link, Next, Rename, Resize, See, Write};
use crate::tree::steps::{Step, name_of, sample, see, walk};
use node_tree::Tree;
use node_tree::TreeFault::{FBig, MLink};
use std::alloc::Global;
use std::process::Abort;

/// The sample tree's next tick and stamp are 4. The 999 names, a move and a write take a tick each, and no stamp. A
/// call that is refused or has no data takes none.
const FULL: &[(Step, Outcome)] = &[
    (See(Links, 2), Is(1000)),
    (Link(3, b"more", 2), Refused(MLink)),
    (Rename(1, b"notes", 3, b"more"), Done),
    (Write(2, 1_048_575, b"z"), Done),
    (See(Size, 2), Is(1_048_576)),
    (Next, Counters(1005, 4)),
    (Write(2, 1_048_576, b"z"), Refused(FBig)),
    (Write(2, u64::MAX, b"z"), Refused(FBig)),
    (Write(2, u64::MAX, b""), Done),
    (Resize(2, 1_048_577), Refused(FBig)),
    (Next, Counters(1005, 4)),
];

/// Gives `notes` as many names as a file may have, and then bytes.
fn fill_up(rt: &impl Abort, alloc: Global, tree: &mut Tree<Global>) {
    for number in 1..1000 {
        see(rt, alloc, tree, Link(3, &name_of(number), 2), Done);
    }
    walk(rt, alloc, tree, FULL);
}

/// 1,000 names of a file, and 1,048,576 bytes in it.
#[test]
fn files_fill_up(rt: HostRuntime) {
    let mut tree = sample(&rt, rt.alloc());
    fill_up(&rt, rt.alloc(), &mut tree);
}
