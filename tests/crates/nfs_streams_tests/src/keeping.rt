//! The steps between a read and the replies. The trail is kept after each record, and a book that arrived with the read
//! is used. A peer that never reads gets 4,096 bytes of replies, and one piece of its calls is run.

use crate::memory::{Memory, Time};
use crate::peers::{Script, script_of};
use crate::plain::{AMPLE, serve_new};
use nfs_streams::Limits;
use std::alloc::{AllocError, Global};
use std::hash::RandomState;
use std::test::Fail;

/// The most new lines at once (`most_new`) of a peer that sends `calls` refused calls in one piece, and the number of
/// all lines.
fn lines_of(alloc: Global, hasher: RandomState, calls: u32) -> Result<(u64, u64), AllocError> {
    let time = Time::new();
    let mut streams = Memory::new(alloc, &time);
    let script = Script {
        calls,
        ..script_of("r")
    };
    streams.add(script, "");
    serve_new(alloc, hasher, &mut streams, &time, AMPLE)?;
    Ok((streams.most_new, streams.lines))
}

/// Two records in one piece: the lines of the first are kept before the second is run.
#[test]
fn the_trail_is_kept_after_each_record(rt: HostRuntime) -> Result<(), Fail> {
    let hasher = RandomState::new(&rt)?;
    let (one, all_of_one) = lines_of(rt.alloc(), hasher, 1)?;
    assert!(rt; one > 0);
    assert_eq!(rt; all_of_one, one);
    let (most, all) = lines_of(rt.alloc(), hasher, 2)?;
    assert_eq!(rt; (most, all), (one, one.saturating_mul(2)));
    Ok(())
}

/// The bytes that were read from a peer that never reads, if a read gives `piece` bytes. And how often the trail was
/// kept in addition to once a turn.
fn deaf(alloc: Global, hasher: RandomState, piece: usize) -> Result<(usize, u64), AllocError> {
    let time = Time::new();
    let mut streams = Memory::new(alloc, &time);
    let script = Script {
        piece,
        ..script_of("d")
    };
    streams.add(script, "11");
    serve_new(alloc, hasher, &mut streams, &time, AMPLE)?;
    let read = streams.all().first().map(|stream| stream.read);
    Ok((
        read.unwrap_or(0),
        streams.keeps.saturating_sub(streams.waits),
    ))
}

/// Of 4,096 bytes that are read from a peer that never reads all are run: 37 calls of 108 bytes, and a part of one. Of
/// 131,072 bytes 57 calls are run until more than 4,096 bytes wait, since a reply has 72. Then the rest of the piece is
/// run that began with the last of them: 36 calls and a part of one.
#[test]
fn one_piece_is_given_while_replies_wait(rt: HostRuntime) -> Result<(), Fail> {
    let hasher = RandomState::new(&rt)?;
    assert_eq!(rt; deaf(rt.alloc(), hasher, 4096)?, (4096, 38));
    assert_eq!(rt; deaf(rt.alloc(), hasher, 131_072)?, (131_072, 94));
    assert_eq!(rt; deaf(rt.alloc(), hasher, 140_000)?, (131_072, 94));
    Ok(())
}

/// How many waits took at most a second, and whether the peer was served, if it can't be accepted before seven
/// waits.
fn stuck(alloc: Global, hasher: RandomState, places: usize) -> Result<(u64, bool), AllocError> {
    let time = Time::new();
    let mut streams = Memory::new(alloc, &time);
    streams.add_all("u");
    streams.stuck = 7;
    let limits = Limits {
        places,
        connections: 1,
        ..AMPLE
    };
    serve_new(alloc, hasher, &mut streams, &time, limits)?;
    Ok((
        streams.seconds,
        streams.all().iter().all(|stream| stream.has_all()),
    ))
}

/// A peer that waits and can't be accepted is tried again after a second at most.
#[test]
fn one_that_cannot_be_taken_is_tried_again(rt: HostRuntime) -> Result<(), Fail> {
    let hasher = RandomState::new(&rt)?;
    assert_eq!(rt; stuck(rt.alloc(), hasher, 16)?, (6, true));
    assert_eq!(rt; stuck(rt.alloc(), hasher, 1)?, (6, true));
    Ok(())
}
