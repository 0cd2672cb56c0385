//! Lines, and the trail that keeps the last ones.

use crate::guard::entries::{allow, bits, entry, refused};
use crate::guard::steps::Step::{Decide, Lines, Total};
use crate::guard::steps::{BOB_IN_0, BOB_IN_7, Step, play};
use crate::guard::trees::{
    Child, LOOKUP, MODE_755, READ, SAMPLE, Scene, WRITE, decide_on, guard, tree,
};
use Cause::{ByEntry, Missing};
use Decision::Granted;
use access_guard::{Cause, Decision, FIRST_EPOCH, Guard};
use acl_list::Kind;
use linked_list_allocator::LocalHeap;
use node_tree::Tree;
use rpc_record::Caller;
use std::alloc::{Allocator, Global};
use std::hash::RandomState;
use std::process::Abort;
use std::random::RandomSource;
use std::test::Fail;
use who_book::Book;

const A_REFUSAL: &[Step] = &[
    Decide(BOB_IN_0, bits!(1, 2), LOOKUP, refused!(1, 2, ByEntry(3))),
    Total(1),
    Lines("DENY uid=1002 op=LOOKUP obj=1 mask=00000002 entry=3\n"),
];

#[test]
fn a_refusal_names_the_entry(rt: HostRuntime) -> Result<(), Fail> {
    play(&rt, rt.alloc(), &SAMPLE, 1, A_REFUSAL)
}

/// The file `f` of uid 1001, whose access control list audits and allows reading it.
const AUDITED: Scene<'static> = Scene {
    name: "audited",
    root: &MODE_755,
    children: &[Child {
        name: b"f",
        kind: Kind::File,
        owner: 1001,
        list: &[entry!(Audit, 0x30, 1, Everyone), allow!(1)],
    }],
};

/// The file is read twice, and not written.
const AUDITED_READS: &[Step] = &[
    Decide(BOB_IN_7, bits!(2, 1), READ, Granted),
    Decide(BOB_IN_7, bits!(2, 1), READ, Granted),
    Decide(BOB_IN_7, bits!(2, 2), WRITE, refused!(2, 2, Missing(2))),
    Lines(
        "AUDIT uid=1002 op=READ obj=2 mask=00000001 granted entry=0\nAUDIT uid=1002 op=READ obj=2 mask=00000001 granted entry=0\nDENY uid=1002 op=WRITE obj=2 mask=00000002 missing=00000002\n",
    ),
];

#[test]
fn audited_reads(rt: HostRuntime) -> Result<(), Fail> {
    play(&rt, rt.alloc(), &AUDITED, 1, AUDITED_READS)
}

/// The outcome of a guard over a small heap: it couldn't be made, or it decides and may have remembered nothing.
#[derive(Clone, Copy, Debug, PartialEq, Eq)]
enum Made {
    None,
    Forgot,
    Kept,
}

/// The decisions on a lookup in the root and on a write of the file, and the number of the lines.
fn answers<A: Allocator + Copy>(
    guard: &mut Guard<A>,
    tree: &Tree,
    book: &Book,
) -> (Decision, Decision, u64) {
    let caller = Caller::new(1002, 100, &[]);
    let looked_up = decide_on(guard, bits!(1, 0x20), tree, book, &caller, LOOKUP);
    let written = decide_on(guard, bits!(2, 2), tree, book, &caller, WRITE);
    (looked_up, written, guard.total())
}

/// Checks the answers of a guard over a heap.
fn see_answers<A: Allocator + Copy>(
    rt: &impl Abort,
    guard: &mut Guard<A>,
    tree: &Tree,
    book: &Book,
) {
    let want = (Granted, refused!(2, 2, ByEntry(3)), 1);
    assert_eq!(rt; answers(guard, tree, book), want);
}

fn has_remembered<A: Allocator + Copy>(guard: &Guard<A>) -> bool {
    guard.remembered().next().is_some()
}

/// The outcome of a guard over a heap.
fn ask(rt: &impl Abort, heap: &LocalHeap, hasher: RandomState, tree: &Tree, book: &Book) -> Made {
    let Ok(mut guard) = guard(heap, hasher) else {
        return Made::None;
    };
    see_answers(rt, &mut guard, tree, book);
    if has_remembered(&guard) {
        Made::Kept
    } else {
        Made::Forgot
    }
}

/// The outcome of a guard over a heap of this size.
fn ask_at(
    rt: &(impl Abort + RandomSource),
    alloc: Global,
    tree: &Tree,
    book: &Book,
    size: usize,
) -> Result<Made, Fail> {
    let hasher = RandomState::new(rt)?;
    let heap = LocalHeap::new(alloc, size)?;
    Ok(ask(rt, &heap, hasher, tree, book))
}

/// Makes guards over heaps of each size, and checks that each outcome occurs.
fn see_sizes(
    rt: &(impl Abort + RandomSource),
    alloc: Global,
    tree: &Tree,
    book: &Book,
) -> Result<(), Fail> {
    let (mut none, mut forgot, mut kept) = (false, false, false);
    for size in 0..4000usize {
        match ask_at(rt, alloc, tree, book, size * 100)? {
            Made::None => none = true,
            Made::Forgot => forgot = true,
            Made::Kept => kept = true,
        }
    }
    assert_eq!(rt; (none, forgot, kept), (true, true, true));
    Ok(())
}

/// Over each size of a heap the decisions and the lines are the same, whether or not the summaries can be remembered.
#[test]
fn a_refused_memory_changes_no_answer(rt: HostRuntime) -> Result<(), Fail> {
    let tree = tree(rt.alloc(), &SAMPLE)?;
    see_sizes(&rt, rt.alloc(), &tree, &Book::default(rt.alloc()))
}
