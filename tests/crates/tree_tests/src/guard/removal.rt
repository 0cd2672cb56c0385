//! Removals, worked out by hand from the table of RFC 8881, section 6.2.1.3.2.

use crate::guard::entries::{allow, deny, entry, refused, removal};
use crate::guard::steps::Step::{Decide, Lines};
use crate::guard::steps::{BOB_IN_7, play};
use crate::guard::trees::{Child, REMOVE, Scene};
use Cause::{ByEntry, Missing};
use Decision::Granted;
use access_guard::{Cause, Decision};
use acl_list::{Entry, Kind};
use std::alloc::Global;
use std::process::Abort;
use std::random::RandomSource;
use std::test::Fail;

/// The removal of file 2 from directory 1, by user 1002 in group 7: their access control lists, the decision, and the
/// line.
struct Case {
    name: &'static str,
    parent: &'static [Entry],
    target: &'static [Entry],
    want: Decision,
    line: &'static str,
}

macro_rules! case {
    ($name:expr, $parent:expr, $target:expr => $want:expr, $line:expr) => {
        Case {
            name: $name,
            parent: &$parent,
            target: &$target,
            want: $want,
            line: $line,
        }
    };
}

fn see_case(
    rt: &(impl Abort + RandomSource),
    alloc: Global,
    case: &'static Case,
) -> Result<(), Fail> {
    let target = Child {
        name: b"t",
        kind: Kind::File,
        owner: 0,
        list: case.target,
    };
    let scene = Scene {
        name: case.name,
        root: case.parent,
        children: &[target],
    };
    let steps = [
        Decide(BOB_IN_7, removal!(2), REMOVE, case.want),
        Lines(case.line),
    ];
    play(rt, alloc, &scene, 4, &steps)
}

fn see_cases(
    rt: &(impl Abort + RandomSource),
    alloc: Global,
    cases: &'static [Case],
) -> Result<(), Fail> {
    for case in cases {
        see_case(rt, alloc, case)?;
    }
    Ok(())
}

static ALLOWED: [Case; 6] = [
    case!("both allow", [allow!(0x40)], [allow!(0x1_0000)] => Granted, ""),
    case!("the parent denies, the target allows", [deny!(0x40)], [allow!(0x1_0000)] => Granted, ""),
    case!("the target allows", [], [allow!(0x1_0000)] => Granted, ""),
    case!("the parent allows, the target denies", [allow!(0x60)], [deny!(0x1_0000)] => Granted, ""),
    case!("the parent allows", [allow!(0x40)], [] => Granted, ""),
    case!("the parent allows ADD_FILE", [allow!(0x22)], [] => Granted, ""),
];

#[test]
fn allowed_by_either(rt: HostRuntime) -> Result<(), Fail> {
    see_cases(&rt, rt.alloc(), &ALLOWED)
}

static REFUSED: [Case; 5] = [
    case!(
        "both deny", [allow!(0x1), deny!(0x40)], [deny!(0x1_0000)]
            => refused!(1, 0x40, ByEntry(1)), "DENY uid=1002 op=REMOVE obj=1 mask=00000040 entry=1\n"
    ),
    case!(
        "the parent denies, and allows ADD_FILE", [deny!(0x40), allow!(0x22)], []
            => refused!(1, 0x40, ByEntry(0)), "DENY uid=1002 op=REMOVE obj=1 mask=00000040 entry=0\n"
    ),
    case!(
        "the target denies, and the parent allows ADD_FILE", [allow!(0x22)], [deny!(0x1_0000)]
            => refused!(2, 0x1_0000, ByEntry(0)), "DENY uid=1002 op=REMOVE obj=2 mask=00010000 entry=0\n"
    ),
    case!(
        "neither mentions it, nor ADD_FILE", [allow!(0x20)], []
            => refused!(1, 0x2, Missing(0x2)), "DENY uid=1002 op=REMOVE obj=1 mask=00000002 missing=00000002\n"
    ),
    case!(
        "the parent denies ADD_FILE", [deny!(0x2)], []
            => refused!(1, 0x2, ByEntry(0)), "DENY uid=1002 op=REMOVE obj=1 mask=00000002 entry=0\n"
    ),
];

#[test]
fn refused_by_the_parent_first(rt: HostRuntime) -> Result<(), Fail> {
    see_cases(&rt, rt.alloc(), &REFUSED)
}
