//! Full houses: peers that never read, silent peers, and peers that connect to a full house.

use crate::bytes::REPLY_LEN;
use crate::memory::{Memory, Time};
use crate::peers::{Seat, Stream};
use crate::plain::{AMPLE, serve_new};
use nfs_streams::Limits;
use std::alloc::{AllocError, Global};
use std::hash::RandomState;
use std::process::Abort;
use std::test::Fail;

/// The peers of a house, and their outcome in 400 turns.
#[derive(Clone, Copy)]
struct House {
    name: &'static str,
    /// How many connections may be open at once.
    places: usize,
    /// The peers, as words of `script_of`.
    peers: &'static str,
    /// The most connections that were open at once.
    most: usize,
    /// How many calls of each peer have replies, a digit a peer.
    sent: &'static str,
    /// The peer whose connection is closed first, and after how many waits; 0: no peer.
    first: (u32, u64),
}

static HOUSES: [House; 8] = [
    House {
        name: "the one that is silent for longest goes",
        places: 2,
        peers: "s5 s9 u20",
        most: 2,
        sent: "002",
        first: (1, 21),
    },
    House {
        name: "the one that has spoken last stays",
        places: 2,
        peers: "o s u10",
        most: 2,
        sent: "102",
        first: (2, 11),
    },
    House {
        name: "nobody goes before two seconds",
        places: 1,
        peers: "s u1",
        most: 1,
        sent: "02",
        first: (1, 3),
    },
    House {
        name: "one that says a byte at a time is let finish",
        places: 1,
        peers: "w u",
        most: 1,
        sent: "22",
        first: (1, 218),
    },
    House {
        name: "the seventeenth is admitted for one that is silent",
        places: 16,
        peers: "s s s w s s s s s s s s s s s s u2",
        most: 16,
        sent: "00020000000000002",
        first: (16, 3),
    },
    House {
        name: "with more places than the hub's sixteen connections, nobody is closed for another",
        places: 40,
        peers: "s s s w s s s s s s s s s s s s u2",
        most: 16,
        sent: "00020000000000002",
        first: (4, 218),
    },
    House {
        name: "without a place nobody is admitted",
        places: 0,
        peers: "u u",
        most: 0,
        sent: "00",
        first: (0, 0),
    },
    House {
        name: "one that never reads doesn't keep the others",
        places: 3,
        peers: "d u w",
        most: 3,
        sent: "022",
        first: (2, 3),
    },
];

fn houses() -> &'static [House] {
    &HOUSES
}

/// The peer whose connection was closed first, and after how many waits; 0: no peer.
fn first_expired(streams: &[Stream]) -> (u32, u64) {
    let mut first = (0, 0);
    let mut earliest = u64::MAX;
    let mut peer = 0u32;
    for stream in streams {
        peer = peer.saturating_add(1);
        if let Seat::Done(waits) = stream.seat {
            if waits < earliest {
                earliest = waits;
                first = (peer, waits);
            }
        }
    }
    first
}

/// The first peer, from 1 on, whose replies aren't those to the given number of its calls, a digit a peer; 0: no peer.
fn first_other(streams: &[Stream], sent: &str) -> u32 {
    let mut peer = 0u32;
    for (stream, digit) in streams.iter().zip(sent.bytes()) {
        peer = peer.saturating_add(1);
        let calls = usize::from(digit.saturating_sub(b'0'));
        if !stream.right || stream.sent != calls.saturating_mul(REPLY_LEN) {
            return peer;
        }
    }
    0
}

/// Serves a house for 400 turns. Returns the peer whose connection was closed first, and after how many waits; the most
/// connections at once; and the first peer that has other replies.
fn serve_house(
    alloc: Global,
    hasher: RandomState,
    house: &House,
) -> Result<((u32, u64), usize, u32), AllocError> {
    let time = Time::new();
    let mut streams = Memory::new(alloc, &time);
    streams.add_all(house.peers);
    let limits = Limits {
        places: house.places,
        ..AMPLE
    };
    serve_new(alloc, hasher, &mut streams, &time, limits)?;
    let first = first_expired(streams.all());
    let other = first_other(streams.all(), house.sent);
    Ok((first, streams.most, other))
}

fn see(rt: &impl Abort, house: &House, sent: ((u32, u64), usize, u32)) {
    let name = house.name;
    assert!(rt; sent == (house.first, house.most, 0), "{name}: {sent:?}");
}

#[test]
fn who_expires(rt: HostRuntime) -> Result<(), Fail> {
    let hasher = RandomState::new(&rt)?;
    for house in houses() {
        let sent = serve_house(rt.alloc(), hasher, house)?;
        see(&rt, house, sent);
    }
    Ok(())
}

/// After 400 turns: how many bytes were read from the first peer and written to it, and how many waits returned at
/// once.
fn looks(
    alloc: Global,
    hasher: RandomState,
    peers: &str,
) -> Result<(Option<(usize, usize)>, u64), AllocError> {
    let time = Time::new();
    let mut streams = Memory::new(alloc, &time);
    streams.add_all(peers);
    serve_new(alloc, hasher, &mut streams, &time, AMPLE)?;
    let looks = streams.waits.saturating_sub(streams.rests);
    let first = streams.all().first();
    Ok((first.map(|stream| (stream.read, stream.sent)), looks))
}

/// From a peer that never reads one piece is read, and no more. While no peer sends, serving waits and doesn't poll.
#[test]
fn silence_is_waited_for(rt: HostRuntime) -> Result<(), Fail> {
    let hasher = RandomState::new(&rt)?;
    let deaf = looks(rt.alloc(), hasher, "d")?;
    assert_eq!(rt; deaf, (Some((4096, 0)), 3));
    let silent = looks(rt.alloc(), hasher, "s s")?;
    assert_eq!(rt; silent, (Some((0, 0)), 2));
    Ok(())
}
