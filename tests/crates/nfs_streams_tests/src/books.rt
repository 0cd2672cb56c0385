//! Books that arrive while streams are served: the book by which each call is judged.

use crate::memory::{Memory, Time};
use crate::peers::{Script, script_of};
use crate::plain::{AMPLE, serve_new};
use nfs_streams::{AllEnd, Limits};
use std::alloc::{AllocError, Global};
use std::hash::RandomState;
use std::process::Abort;
use std::test::Fail;

/// A book by which the caller of all calls is in no group. Each call states that the caller is in group 100, the group
/// of the file.
const IN_NO_GROUP: &str = "\
domain = 'd'
root_owner = 0
root_group = 0
root_mode = 0o755
users = { bob = 1002 }
groups = { staff = 100 }
members = { staff = [] }
";

/// Two peers with two calls each, of 108 bytes, and a book that arrives meanwhile.
#[derive(Clone, Copy)]
struct Scene {
    name: &'static str,
    /// The peers, as words of `script_of`.
    peers: [&'static str; 2],
    /// The most bytes of a read, and of a write.
    sizes: (usize, usize),
    /// How many waits come before the book. Streams are admitted after the first, and read from the second on.
    brings: u64,
    /// How many reads come before the book.
    reads: u64,
    /// Of each call of each peer, a digit each: 1 if the reply grants reading the file, else 0.
    sent: [&'static str; 2],
}

static SCENES: [Scene; 12] = [
    Scene {
        name: "before anything is read",
        peers: ["u", "u"],
        sizes: (108, 4096),
        brings: 1,
        reads: 0,
        sent: ["00", "00"],
    },
    Scene {
        name: "between the first and the second calls",
        peers: ["u", "u"],
        sizes: (108, 4096),
        brings: 3,
        reads: 0,
        sent: ["10", "10"],
    },
    Scene {
        name: "between the halves of the first calls",
        peers: ["u", "u"],
        sizes: (54, 4096),
        brings: 3,
        reads: 0,
        sent: ["00", "00"],
    },
    Scene {
        name: "behind the first calls in halves",
        peers: ["u", "u"],
        sizes: (54, 4096),
        brings: 4,
        reads: 0,
        sent: ["10", "10"],
    },
    Scene {
        name: "between the halves of the second calls",
        peers: ["u", "u"],
        sizes: (54, 4096),
        brings: 5,
        reads: 0,
        sent: ["10", "10"],
    },
    Scene {
        name: "behind all calls",
        peers: ["u", "u"],
        sizes: (54, 4096),
        brings: 6,
        reads: 0,
        sent: ["11", "11"],
    },
    Scene {
        name: "between the calls of two connections",
        peers: ["u", "u1"],
        sizes: (108, 4096),
        brings: 3,
        reads: 0,
        sent: ["10", "00"],
    },
    Scene {
        name: "before the last byte of the first calls",
        peers: ["u", "u"],
        sizes: (1, 4096),
        brings: 109,
        reads: 0,
        sent: ["00", "00"],
    },
    Scene {
        name: "behind the last byte of the first calls",
        peers: ["u", "u"],
        sizes: (1, 4096),
        brings: 110,
        reads: 0,
        sent: ["10", "10"],
    },
    Scene {
        name: "with the first read, before what it gave is run",
        peers: ["u", "u9"],
        sizes: (108, 4096),
        brings: 0,
        reads: 1,
        sent: ["00", "00"],
    },
    Scene {
        name: "with the second read of two calls that were read at once",
        peers: ["u", "u9"],
        sizes: (216, 4096),
        brings: 0,
        reads: 2,
        sent: ["11", "00"],
    },
    Scene {
        name: "while replies wait to be written",
        peers: ["u", "u"],
        sizes: (108, 1),
        brings: 3,
        reads: 0,
        sent: ["10", "10"],
    },
];

fn scenes() -> &'static [Scene] {
    &SCENES
}

/// Adds the two streams, and the book.
fn set(streams: &mut Memory<'_>, scene: &Scene) {
    let (piece, takes) = scene.sizes;
    for (word, digits) in scene.peers.iter().zip(scene.sent.iter()) {
        let script = Script {
            piece,
            takes,
            ..script_of(word)
        };
        streams.add(script, digits);
    }
    streams.book = Some(IN_NO_GROUP);
    streams.brings = scene.brings;
    streams.brings_reads = scene.reads;
}

/// The end of serving both peers, whether each got its replies, and whether each wait is followed by a request for a
/// book.
fn sent(
    alloc: Global,
    hasher: RandomState,
    scene: &Scene,
) -> Result<(AllEnd, bool, bool), AllocError> {
    let time = Time::new();
    let mut streams = Memory::new(alloc, &time);
    set(&mut streams, scene);
    let limits = Limits {
        connections: 2,
        ..AMPLE
    };
    let end = serve_new(alloc, hasher, &mut streams, &time, limits)?;
    let is_answered = streams.all().iter().all(|stream| stream.has_all());
    Ok((end, is_answered, streams.asked == streams.waits))
}

/// Each call is judged by the book that had arrived when its last byte was read. A reply that waits isn't changed.
#[test]
fn calls_are_judged_by_the_book_of_their_end(rt: HostRuntime) -> Result<(), Fail> {
    let hasher = RandomState::new(&rt)?;
    for scene in scenes() {
        let sent = sent(rt.alloc(), hasher, scene)?;
        see(&rt, scene.name, sent);
    }
    Ok(())
}

fn see(rt: &impl Abort, name: &str, sent: (AllEnd, bool, bool)) {
    assert!(rt; sent == (AllEnd::Served, true, true), "{name}: {sent:?}");
}
