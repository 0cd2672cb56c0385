//! Streams that are ready in every order, with short reads and writes, one of which fails or breaks: each gets the
//! replies to its own calls.

use crate::bytes::REPLY_LEN;
use crate::memory::{Memory, Time};
use crate::peers::{Script, Seat, Stream, USUAL, script_of};
use crate::plain::{AMPLE, serve_new};
use nfs_streams::{AllEnd, Limits};
use std::alloc::{AllocError, Global};
use std::hash::RandomState;
use std::process::Abort;
use std::test::Fail;

/// Three peers, and how many calls of the second have replies; with `None` it gets a prefix of them.
#[derive(Clone, Copy)]
struct Three {
    scripts: [Script; 3],
    second: Option<u32>,
}

/// Whether a peer got replies, to this number of calls if it is known, and its stream was closed.
fn is_served(stream: &Stream, calls: Option<u32>) -> bool {
    let sent = calls.map(|calls| (calls as usize).saturating_mul(REPLY_LEN));
    let is_expired = matches!(&stream.seat, Seat::Done(_));
    stream.right && is_expired && stream.sent == sent.unwrap_or(stream.sent)
}

/// The end of serving three peers, and whether each of them is served: the first and the last to all calls.
fn serve_three(
    alloc: Global,
    hasher: RandomState,
    three: &Three,
) -> Result<(AllEnd, [bool; 3]), AllocError> {
    let time = Time::new();
    let mut streams = Memory::new(alloc, &time);
    for script in three.scripts {
        streams.add(script, "11");
    }
    let limits = Limits {
        connections: 3,
        turns: 20_000,
        ..AMPLE
    };
    let end = serve_new(alloc, hasher, &mut streams, &time, limits)?;
    let [a, b, c] = streams.all() else {
        return Ok((end, [false; 3]));
    };
    let served = [
        is_served(a, Some(2)),
        is_served(b, three.second),
        is_served(c, Some(2)),
    ];
    Ok((end, served))
}

fn see_three(
    rt: &impl Abort,
    alloc: Global,
    hasher: RandomState,
    three: &Three,
) -> Result<(), Fail> {
    let sent = serve_three(alloc, hasher, three)?;
    assert!(rt; sent == (AllEnd::Served, [true; 3]), "{sent:?}");
    Ok(())
}

/// The waits of eight in which each of the three is ready.
static READY: [[u8; 3]; 8] = [
    [0xff, 0xff, 0xff],
    [0x49, 0x92, 0x24],
    [0x24, 0x92, 0x49],
    [0x92, 0x49, 0x24],
    [0x92, 0x24, 0x49],
    [0x01, 0x80, 0x10],
    [0x55, 0xaa, 0xff],
    [0xf0, 0x0f, 0x3c],
];

fn ready() -> &'static [[u8; 3]] {
    &READY
}

/// The most bytes of a read and of a write.
static SIZES: [(usize, usize); 4] = [(4096, 4096), (1, 4096), (7, 1), (4096, 5)];

fn sizes() -> &'static [(usize, usize)] {
    &SIZES
}

fn ready_as([a, b, c]: [u8; 3], (piece, takes): (usize, usize)) -> Three {
    let usual = Script {
        piece,
        takes,
        ..USUAL
    };
    let scripts = [
        Script { ready: a, ..usual },
        Script { ready: b, ..usual },
        Script { ready: c, ..usual },
    ];
    Three {
        scripts,
        second: Some(2),
    }
}

/// One peer between two usual ones.
fn between(script: Script, second: Option<u32>) -> Three {
    Three {
        scripts: [USUAL, script, USUAL],
        second,
    }
}

#[test]
fn streams_are_ready_in_any_order(rt: HostRuntime) -> Result<(), Fail> {
    let hasher = RandomState::new(&rt)?;
    for order in ready() {
        for size in sizes() {
            see_three(&rt, rt.alloc(), hasher, &ready_as(*order, *size))?;
        }
    }
    Ok(())
}

/// The second of three, as a word of `script_of`, and how many of its calls have replies.
static SECOND: [(&str, u32); 4] = [("b", 2), ("c", 1), ("g", 0), ("n", 0)];

fn second() -> &'static [(&'static str, u32)] {
    &SECOND
}

#[test]
fn one_breaks_and_leaves_the_others(rt: HostRuntime) -> Result<(), Fail> {
    let hasher = RandomState::new(&rt)?;
    for (word, calls) in second() {
        see_three(
            &rt,
            rt.alloc(),
            hasher,
            &between(script_of(word), Some(*calls)),
        )?;
    }
    Ok(())
}

/// The k-th read or write of the second peer fails, in short pieces.
fn failing(k: u32, at_read: bool) -> Three {
    let slow = Script {
        piece: 40,
        takes: 20,
        ..USUAL
    };
    if at_read {
        return between(
            Script {
                fails_read: k,
                ..slow
            },
            None,
        );
    }
    between(
        Script {
            fails_write: k,
            ..slow
        },
        None,
    )
}

/// The k-th read of a peer fails, or its k-th write. It gets a prefix of its replies, and the other peers all of
/// theirs.
#[test]
fn one_fails_and_leaves_the_others(rt: HostRuntime) -> Result<(), Fail> {
    let hasher = RandomState::new(&rt)?;
    for k in 2..16u32 {
        see_three(&rt, rt.alloc(), hasher, &failing(k / 2, k % 2 == 0))?;
    }
    Ok(())
}
