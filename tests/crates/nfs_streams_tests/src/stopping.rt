//! The end of serving, by its reason.

use crate::bytes::REPLY_LEN;
use crate::memory::{Memory, Time};
use crate::plain::{AMPLE, serve_new};
use nfs_streams::{AllEnd, Limits};
use std::alloc::{AllocError, Global};
use std::hash::RandomState;
use std::process::Abort;
use std::test::Fail;

/// Two peers with two calls each, and the end of serving them.
#[derive(Clone, Copy)]
struct Stop {
    name: &'static str,
    connections: u64,
    turns: u64,
    /// The wait that fails; 0: none.
    fails_wait: u64,
    /// The number of the `keep` that fails; 0: none.
    fails_keep: u64,
    end: AllEnd,
    waits: u64,
    admitted: usize,
    /// How many replies were written to both peers.
    sent: usize,
}

static STOPS: [Stop; 9] = [
    Stop {
        name: "all are served",
        connections: 2,
        turns: 400,
        fails_wait: 0,
        fails_keep: 0,
        end: AllEnd::Served,
        waits: 3,
        admitted: 2,
        sent: 4,
    },
    Stop {
        name: "one connection and no more",
        connections: 1,
        turns: 400,
        fails_wait: 0,
        fails_keep: 0,
        end: AllEnd::Served,
        waits: 3,
        admitted: 1,
        sent: 2,
    },
    Stop {
        name: "no connection",
        connections: 0,
        turns: 400,
        fails_wait: 0,
        fails_keep: 0,
        end: AllEnd::Served,
        waits: 0,
        admitted: 0,
        sent: 0,
    },
    Stop {
        name: "two turns",
        connections: 9,
        turns: 2,
        fails_wait: 0,
        fails_keep: 0,
        end: AllEnd::Turns,
        waits: 2,
        admitted: 2,
        sent: 4,
    },
    Stop {
        name: "no turn",
        connections: 9,
        turns: 0,
        fails_wait: 0,
        fails_keep: 0,
        end: AllEnd::Turns,
        waits: 0,
        admitted: 0,
        sent: 0,
    },
    Stop {
        name: "the second wait fails",
        connections: 9,
        turns: 400,
        fails_wait: 2,
        fails_keep: 0,
        end: AllEnd::Wait,
        waits: 2,
        admitted: 2,
        sent: 0,
    },
    Stop {
        name: "the trail can't be kept when there are replies to write",
        connections: 9,
        turns: 400,
        fails_wait: 0,
        fails_keep: 2,
        end: AllEnd::Keep,
        waits: 2,
        admitted: 2,
        sent: 0,
    },
    Stop {
        name: "the trail can't be kept after the second call of the first peer",
        connections: 9,
        turns: 400,
        fails_wait: 0,
        fails_keep: 4,
        end: AllEnd::Keep,
        waits: 2,
        admitted: 2,
        sent: 0,
    },
    Stop {
        name: "the trail can't be kept at first",
        connections: 9,
        turns: 400,
        fails_wait: 0,
        fails_keep: 1,
        end: AllEnd::Keep,
        waits: 1,
        admitted: 2,
        sent: 0,
    },
];

fn stops() -> &'static [Stop] {
    &STOPS
}

/// The end of serving, how many waits there were, how many were admitted, and how many bytes were written to all.
#[derive(Clone, Copy)]
struct Sent {
    end: AllEnd,
    waits: u64,
    admitted: usize,
    sent: usize,
}

/// How many bytes were written to all streams.
fn sent_of(streams: &Memory<'_>) -> usize {
    let mut sent = 0usize;
    for stream in streams.all() {
        sent = sent.saturating_add(stream.sent);
    }
    sent
}

fn serve_stop(alloc: Global, hasher: RandomState, stop: &Stop) -> Result<Sent, AllocError> {
    let time = Time::new();
    let mut streams = Memory::new(alloc, &time);
    streams.add_all("u u");
    streams.fails_wait = stop.fails_wait;
    streams.fails_keep = stop.fails_keep;
    let limits = Limits {
        connections: stop.connections,
        turns: stop.turns,
        ..AMPLE
    };
    let end = serve_new(alloc, hasher, &mut streams, &time, limits)?;
    Ok(Sent {
        end,
        waits: streams.waits,
        admitted: streams.admitted,
        sent: sent_of(&streams),
    })
}

fn see(rt: &impl Abort, stop: &Stop, sent: &Sent) {
    let name = stop.name;
    assert_eq!(rt; sent.end, stop.end, "{name}");
    assert_eq!(rt; sent.waits, stop.waits, "{name}");
    assert_eq!(rt; sent.admitted, stop.admitted, "{name}");
    assert_eq!(rt; sent.sent, stop.sent.saturating_mul(REPLY_LEN), "{name}");
}

#[test]
fn serving_ends(rt: HostRuntime) -> Result<(), Fail> {
    let hasher = RandomState::new(&rt)?;
    for stop in stops() {
        let sent = serve_stop(rt.alloc(), hasher, stop)?;
        see(&rt, stop, &sent);
    }
    Ok(())
}
