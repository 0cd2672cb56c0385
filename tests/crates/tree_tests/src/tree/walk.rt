//! Twenty rounds of eleven calls, with the state after each round counted by hand.

use crate::tree::acting::Outcome;
use crate::tree::acting::Outcome::{Counters, Done, Is, Made, Refused};
use crate::tree::steps::Look::{Change, Links, Stamp};
use crate::tree::steps::Step::{Link, Mkdir, Next, Rename, Resize, See, SetOwner, Unlink, Write};
use crate::tree::steps::{Step, sample, see, walk};
use node_tree::Tree;
use node_tree::TreeFault::NotEmpty;
use std::alloc::Global;
use std::process::Abort;

/// `notes` gets a second name, which is moved to `pub`. It is written, cut, and gets another owner. A move onto another
/// name of `notes` changes nothing, and `pub` isn't removed, since it isn't empty. `notes` gets one more name there,
/// and both are removed.
const ROUND: &[(Step, Outcome)] = &[
    (Link(1, b"x", 2), Done),
    (Rename(1, b"x", 3, b"y"), Done),
    (Write(2, 1, b"abc"), Done),
    (Write(2, 1, b""), Done),
    (Resize(2, 2), Done),
    (SetOwner(2, 7, 8), Done),
    (Rename(1, b"notes", 3, b"y"), Done),
    (Unlink(1, b"pub"), Refused(NotEmpty)),
    (Link(3, b"z", 2), Done),
    (Unlink(3, b"y"), Done),
    (Unlink(3, b"z"), Done),
];

/// Checks the state after a round: the next tick and stamp, those of `notes`, and its one name and that of `pub`.
fn see_round(rt: &impl Abort, alloc: Global, tree: &mut Tree<Global>, tick: u64, stamp: u64) {
    see(rt, alloc, tree, Next, Counters(tick, stamp));
    see(rt, alloc, tree, See(Change, 2), Is(tick.saturating_sub(1)));
    see(rt, alloc, tree, See(Stamp, 2), Is(stamp.saturating_sub(1)));
    see(rt, alloc, tree, See(Links, 2), Is(1));
    see(rt, alloc, tree, See(Links, 3), Is(1));
}

fn go_round(rt: &impl Abort, alloc: Global, tree: &mut Tree<Global>) {
    let mut ticks = 4u64;
    let mut stamps = 4u64;
    for _ in 0..20 {
        walk(rt, alloc, tree, ROUND);
        ticks = ticks.saturating_add(8);
        stamps = stamps.saturating_add(1);
        see_round(rt, alloc, tree, ticks, stamps);
    }
    see(rt, alloc, tree, Mkdir(1, b"last"), Made(4));
}

/// A round takes eight ticks (no data, the names of one object and a refusal take none), one stamp (an owner) and three
/// cookies (two links, a move), and leaves `notes` and `pub` with one name each.
#[test]
fn rounds_take_what_they_should(rt: HostRuntime) {
    let mut tree = sample(&rt, rt.alloc());
    go_round(&rt, rt.alloc(), &mut tree);
}
