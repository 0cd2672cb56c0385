//! The lines of a server on disks of every size, after each call of a keeper.

use crate::disk::Disk;
use nfs_hub::{ConnId, Hub};
use nfs_types::Moment;
use std::alloc::Global;
use std::hash::RandomState;
use std::process::Abort;
use std::test::Fail;
use trail_keeper::TrailKeeper;

/// PUTROOTFH and CREATE of the directory `x` by bob, user 1002, as a record in hexadecimal digits. It is refused, which
/// adds a line.
const BOB_CREATES: &str =
    "80000068000000010000000000000002000186a3000000040000000100000001000000180000000000000000000003ea\
     000000070000000100000007000000000000000000000000000000010000000200000018000000060000000200000001\
     780000000000000000000000";

/// That call by carol, user 1003.
const CAROL_CREATES: &str =
    "80000068000000020000000000000002000186a3000000040000000100000001000000180000000000000000000003eb\
     000000070000000100000064000000000000000000000000000000010000000200000018000000060000000200000001\
     780000000000000000000000";

/// The line of the refusal of a directory in the root to bob, and after it that of the refusal to carol.
static LINES: &[u8] =
    b"DENY uid=1002 op=CREATE obj=1 mask=00000024 missing=00000004\nDENY uid=1003 op=CREATE obj=1 mask=00000024 missing=00000004\n";

fn lines() -> &'static [u8] {
    LINES
}

/// The number of bytes of the first line.
const FIRST: usize = 61;

/// The results of a keeper: before any refusal, and twice after each of two refusals.
type Steps = [bool; 5];

/// Makes a call, which has an answer.
fn refuse(hub: &mut Hub, conn: ConnId, call: &[u8]) -> bool {
    let now = Moment {
        seconds: 1,
        nanoseconds: 0,
    };
    hub.feed(conn, call, now).is_ok()
}

/// Keeps the trail of a hub's server.
fn keep(hub: &Hub, keeper: &mut TrailKeeper<Disk>) -> bool {
    keeper.keep(hub.server().guard())
}

/// Keeps the trail before two refusals, and twice after each. `None`: a call has no answer.
fn keep_all(
    hub: &mut Hub,
    conn: ConnId,
    keeper: &mut TrailKeeper<Disk>,
    (bob, carol): (&[u8], &[u8]),
) -> Option<Steps> {
    let first = keep(hub, keeper);
    let is_first_refused = refuse(hub, conn, bob);
    let second = keep(hub, keeper);
    let third = keep(hub, keeper);
    let is_second_refused = refuse(hub, conn, carol);
    let fourth = keep(hub, keeper);
    let fifth = keep(hub, keeper);
    if is_first_refused && is_second_refused {
        return Some([first, second, third, fourth, fifth]);
    }
    None
}

/// The results of a keeper, and its disk then.
type Answers = (Option<Steps>, Disk);

fn print_answer(hub: &mut Hub, conn: ConnId, disk: Disk, calls: (&[u8], &[u8])) -> Answers {
    let mut keeper = TrailKeeper::new(disk);
    let printed = keep_all(hub, conn, &mut keeper, calls);
    (printed, keeper.into_inner())
}

/// The results of a keeper of a new server's trail.
fn keep_new(
    alloc: Global,
    hasher: RandomState,
    disk: Disk,
    calls: (&[u8], &[u8]),
) -> Result<Answers, Fail> {
    let mut hub = Hub::bare(alloc, alloc, hasher)?;
    let conn = hub.connect()?;
    Ok(print_answer(&mut hub, conn, disk, calls))
}

/// The results of a keeper over a disk.
fn answers_of(
    alloc: Global,
    hasher: RandomState,
    room: usize,
    piece: usize,
) -> Result<Answers, Fail> {
    let bob = hex::decode(alloc, BOB_CREATES)?;
    let carol = hex::decode(alloc, CAROL_CREATES)?;
    keep_new(alloc, hasher, Disk::new(room, piece), (&bob, &carol))
}

/// Whether a keeper that can't append a line reports it, and reports it again, after a prefix of the lines; any other
/// keeper continues.
fn is_kept((printed, disk): &Answers, room: usize) -> bool {
    let (first, both) = (room >= FIRST, room >= lines().len());
    let prefix = lines().get(..room).unwrap_or(lines());
    *printed == Some([true, first, first, both, both]) && disk.held() == prefix
}

/// Each line is written once, after the earlier lines. If a write fails, a prefix of the lines was written.
#[test]
fn lines_are_kept_as_they_come(rt: HostRuntime) -> Result<(), Fail> {
    let hasher = RandomState::new(&rt)?;
    for room in 0..130usize {
        let whole = answers_of(rt.alloc(), hasher, room, 1000)?;
        assert!(rt; is_kept(&whole, room), "{room}");
        let pieces = answers_of(rt.alloc(), hasher, room, 7)?;
        assert!(rt; is_kept(&pieces, room), "{room} in pieces");
    }
    Ok(())
}

fn see_writes(rt: &impl Abort, (printed, disk): &Answers, wanted: Steps, writes: u32) {
    assert!(rt; *printed == Some(wanted));
    assert_eq!(rt; disk.writes, writes);
}

/// A keeper that has failed doesn't call its writer any more, whether its disk has room for the first line or for none.
#[test]
fn a_failed_keeper_writes_nothing(rt: HostRuntime) -> Result<(), Fail> {
    let hasher = RandomState::new(&rt)?;
    let later = answers_of(rt.alloc(), hasher, FIRST, 1000)?;
    see_writes(&rt, &later, [true, true, true, false, false], 2);
    let at_once = answers_of(rt.alloc(), hasher, 0, 1000)?;
    see_writes(&rt, &at_once, [true, false, false, false, false], 1);
    Ok(())
}
