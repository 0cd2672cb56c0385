//! The reported end of each connection.

use crate::memory::{Memory, Time};
use crate::peers::{Script, script_of};
use crate::plain::{AMPLE, serve_new};
use nfs_streams::{Limits, StreamEnd};
use std::alloc::{AllocError, Global};
use std::hash::RandomState;
use std::process::Abort;
use std::test::Fail;

/// A peer, and how its connection ends. Another peer sends two calls and leaves.
#[derive(Clone, Copy)]
struct Scene {
    name: &'static str,
    word: &'static str,
    /// The read and the write that fail; 0: none.
    fails: (u32, u32),
    limits: Limits,
    end: Option<StreamEnd>,
    /// The number of the end, as `nfsd` prints it.
    number: u8,
}

const ONE_PLACE: Limits = Limits {
    places: 1,
    makes_room: false,
    ..AMPLE
};

static SCENES: [Scene; 11] = [
    Scene {
        name: "after a whole record",
        word: "u",
        fails: (0, 0),
        limits: AMPLE,
        end: Some(StreamEnd::Ended),
        number: 1,
    },
    Scene {
        name: "before any record",
        word: "n",
        fails: (0, 0),
        limits: AMPLE,
        end: Some(StreamEnd::Ended),
        number: 1,
    },
    Scene {
        name: "inside a record",
        word: "h",
        fails: (0, 0),
        limits: AMPLE,
        end: Some(StreamEnd::Inside),
        number: 2,
    },
    Scene {
        name: "bytes that break it",
        word: "b",
        fails: (0, 0),
        limits: AMPLE,
        end: Some(StreamEnd::Broken),
        number: 3,
    },
    Scene {
        name: "a read that fails",
        word: "w",
        fails: (2, 0),
        limits: AMPLE,
        end: Some(StreamEnd::Read),
        number: 6,
    },
    Scene {
        name: "a write that fails",
        word: "u",
        fails: (0, 1),
        limits: AMPLE,
        end: Some(StreamEnd::Write),
        number: 7,
    },
    Scene {
        name: "three turns, of a peer that says a byte at a time",
        word: "w",
        fails: (0, 0),
        limits: Limits { reads: 3, ..AMPLE },
        end: Some(StreamEnd::Turns),
        number: 8,
    },
    Scene {
        name: "quiet, while another one knocks at the only place",
        word: "s",
        fails: (0, 0),
        limits: Limits { places: 1, ..AMPLE },
        end: Some(StreamEnd::Quiet),
        number: 9,
    },
    Scene {
        name: "quiet, while another one knocks and no room is made",
        word: "s",
        fails: (0, 0),
        limits: ONE_PLACE,
        end: Some(StreamEnd::Stopped),
        number: 10,
    },
    Scene {
        name: "open, while serving stops",
        word: "s",
        fails: (0, 0),
        limits: AMPLE,
        end: Some(StreamEnd::Stopped),
        number: 10,
    },
    Scene {
        name: "one after the other",
        word: "u",
        fails: (0, 0),
        limits: ONE_PLACE,
        end: Some(StreamEnd::Ended),
        number: 1,
    },
];

fn scenes() -> &'static [Scene] {
    &SCENES
}

/// How the connections of both peers ended.
fn ends(
    alloc: Global,
    hasher: RandomState,
    scene: &Scene,
) -> Result<[Option<StreamEnd>; 2], AllocError> {
    let time = Time::new();
    let mut streams = Memory::new(alloc, &time);
    let (fails_read, fails_write) = scene.fails;
    let script = Script {
        fails_read,
        fails_write,
        ..script_of(scene.word)
    };
    streams.add(script, "11");
    streams.add(script_of("u1"), "11");
    serve_new(alloc, hasher, &mut streams, &time, scene.limits)?;
    let [first, second] = streams.all() else {
        return Ok([None, None]);
    };
    Ok([first.end, second.end])
}

fn see(rt: &impl Abort, scene: &Scene, sent: [Option<StreamEnd>; 2]) {
    let name = scene.name;
    let [first, second] = sent;
    assert_eq!(rt; first, scene.end, "{name}");
    assert_eq!(rt; first.map(|end| end as u8), Some(scene.number), "{name}");
    let is_kept_out = scene.limits.places == 1 && scene.end == Some(StreamEnd::Stopped);
    let other = if is_kept_out {
        None
    } else {
        Some(StreamEnd::Ended)
    };
    if scene.limits.reads > 3 {
        assert_eq!(rt; second, other, "{name}");
    }
}

#[test]
fn each_end_is_reported(rt: HostRuntime) -> Result<(), Fail> {
    let hasher = RandomState::new(&rt)?;
    for scene in scenes() {
        let sent = ends(rt.alloc(), hasher, scene)?;
        see(&rt, scene, sent);
    }
    Ok(())
}
