//! Random calls on a hub whose calls are logged, and starts from the store: the state is that of the hub.

use crate::dice::Dice;
use crate::image::Image;
use crate::memory::{Memory, left_of};
use crate::requests::{Request, exchange, some, still};
use crate::script::{IDENTITY, nothing};
use call_store::{MACHINE, Opened, Store, StoreFault, open};
use checkpoint::write_checkpoint;
use linked_list_allocator::LocalHeap;
use nfs_hub::{ConnId, Hub};
use nfs_types::{Limits, Moment};
use std::alloc::{AllocError, Allocator, Global};
use std::hash::RandomState;
use std::process::Abort;
use std::test::Fail;
use store_journal::{Current, Journal};
use who_book::Book;

/// The first seed, and the number of seeds. 1,000 seeds take some minutes.
const FIRST: u64 = 1;

const SEEDS: u64 = 40;

const EVENTS: u32 = 120;

const HEAP: usize = 16 << 20;

/// The place of a COMPOUND's status in a reply, after its mark and its header.
const STATUS: usize = 28;

const OK: u32 = 0;

const DELAY: u32 = 10_008;

const BOOKS: [Option<&str>; 3] = [
    None,
    Some(
        "domain = \"a.org\"\nroot_owner = 0\nroot_group = 0\nroot_mode = 493\nusers = { root = 0, eve = 5 }\ngroups = { wheel = 0 }\n",
    ),
    Some(
        "domain = \"b.org\"\nroot_owner = 0\nroot_group = 0\nroot_mode = 493\nusers = { root = 0 }\ngroups = { wheel = 0, staff = 7 }\nmembers = { wheel = [\"root\"] }\n",
    ),
];

/// Why a run failed.
struct Wrong(&'static str);

impl From<AllocError> for Wrong {
    fn from(_: AllocError) -> Self {
        Wrong("there is no memory for the test")
    }
}

/// The counts of all runs.
#[derive(Clone, Copy)]
struct Seen {
    answered: u32,
    delayed: u32,
    unanswered: u32,
    expire_client: u32,
    books: u32,
    starts: u32,
}

/// A hub over a heap, its store, and the last call.
#[derive(Drop)]
struct Run<'a> {
    alloc: Global,
    hasher: RandomState,
    heap: &'a LocalHeap,
    dice: Dice,
    hub: Hub<&'a LocalHeap>,
    store: Store,
    disk: Memory,
    /// Allocations that fill the heap.
    ballast: Vec<Vec<u8, &'a LocalHeap>>,
    second: u64,
    last: Option<Request>,
    conn: Option<ConnId>,
    seen: Seen,
}

/// The record of a call, with its mark.
fn record_of(alloc: Global, request: &Request) -> Result<Vec<u8>, AllocError> {
    let header = [
        1,
        0,
        2,
        100_003,
        4,
        1,
        1,
        20,
        0,
        0,
        request.uid,
        0,
        0,
        0,
        0,
        0,
        1,
    ];
    let len = u32::try_from((header.len() + request.words.len()) * 4).unwrap_or(0);
    let mut bytes = Vec::from_slice(alloc, &(0x8000_0000 | len).to_be_bytes())?;
    for words in [&header[..], request.words.as_slice()] {
        for word in words {
            bytes.extend_from_slice(&word.to_be_bytes())?;
        }
    }
    Ok(bytes)
}

/// A checkpoint of a hub's server, on a disk of its own.
fn checkpoint_of<A: Allocator + Copy>(alloc: Global, own: A, hub: &Hub<A>) -> Result<Image, Wrong> {
    let mut disk = Memory::new(alloc, nothing(alloc), u32::MAX);
    let mut journal = Journal::new(Current::new(IDENTITY, MACHINE));
    if write_checkpoint(&mut disk, own, &mut journal, MACHINE, hub.server()).is_err() {
        return Err(Wrong("no checkpoint"));
    }
    Ok(left_of(alloc, &disk.before, &disk.events)?.safe)
}

fn is_same(one: &Image, other: &Image) -> bool {
    one.a.as_slice() == other.a.as_slice() && one.b.as_slice() == other.b.as_slice()
}

impl<'a> Run<'a> {
    fn begun(
        alloc: Global,
        hasher: RandomState,
        heap: &'a LocalHeap,
        seed: u64,
        seen: Seen,
    ) -> Result<Self, Wrong> {
        let Ok(mut hub) = Hub::lasting(heap, Limits::standard(), Book::default(alloc), hasher)
        else {
            return Err(Wrong("no hub"));
        };
        hub.begin_log();
        let mut disk = Memory::new(alloc, nothing(alloc), u32::MAX);
        let current = Current::new(IDENTITY, MACHINE);
        let Ok(store) = Store::begin(&mut disk, heap, current, hub.server()) else {
            return Err(Wrong("no store"));
        };
        Ok(Run {
            alloc,
            hasher,
            heap,
            dice: Dice::new(seed),
            hub,
            store,
            disk,
            ballast: Vec::new(alloc),
            second: 0,
            last: None,
            conn: None,
            seen,
        })
    }

    /// The status of a call, or `None` if it has no answer.
    fn status_on(&mut self, conn: ConnId, request: &Request) -> Result<Option<u32>, AllocError> {
        let record = record_of(self.alloc, request)?;
        let now = Moment {
            seconds: i64::from(self.dice.below(1_000_000)),
            nanoseconds: self.dice.below(1_000_000_000),
        };
        if self.hub.feed(conn, &record, now).is_err() {
            return Ok(None);
        }
        let reply = self.hub.pending(conn).unwrap_or(b"");
        let (status, len) = (reply.get(STATUS..STATUS + 4), reply.len());
        let status = match status {
            Some([a, b, c, d]) => Some(u32::from_be_bytes([*a, *b, *c, *d])),
            _ => None,
        };
        let _consumed = self.hub.consume(conn, len);
        Ok(status)
    }

    /// Makes a call, on the open connection or on a new one.
    fn call(&mut self, request: &Request) -> Result<Option<u32>, AllocError> {
        let mut status = None;
        if let Some(conn) = self.conn.or_else(|| self.hub.connect().ok()) {
            status = self.status_on(conn, request)?;
            self.conn = Some(conn);
            if status.is_none() {
                self.conn = None;
                let _closed = self.hub.close(conn);
            }
        }
        match status {
            Some(DELAY) => self.seen.delayed += 1,
            Some(_) => self.seen.answered += 1,
            None => self.seen.unanswered += 1,
        }
        Ok(status)
    }

    /// A random call, or the last one again.
    fn call_some(&mut self) -> Result<(), AllocError> {
        let again = if self.dice.is_in(6) {
            self.last.take()
        } else {
            None
        };
        let request = match again {
            Some(request) => request,
            None => some(self.alloc, &mut self.dice, self.hub.server())?,
        };
        self.call(&request)?;
        self.last = Some(request);
        Ok(())
    }

    /// Registers more clients than may exist for long.
    fn crowd(&mut self) -> Result<(), AllocError> {
        for _ in 0..40u32 {
            let request = exchange(self.alloc, &mut self.dice, 100_000)?;
            self.call(&request)?;
        }
        Ok(())
    }

    /// Fills the heap except for small pieces.
    fn fill(&mut self) -> Result<(), AllocError> {
        let least = self.dice.one_of(&[32, 128, 512, 2048]) as usize;
        let mut size = 65_536usize;
        while size >= least {
            match Vec::with_capacity(self.heap, size) {
                Ok(room) => self.ballast.push(room)?,
                Err(AllocError) => size /= 2,
            }
        }
        for _ in 0..self.dice.below(40) {
            self.ballast.pop();
        }
        Ok(())
    }

    fn expire_client(&mut self) {
        self.second += 100;
        self.hub.set_second(self.second);
        let now = Moment {
            seconds: 7,
            nanoseconds: 8,
        };
        if self.hub.expire_client(now).is_some() {
            self.seen.expire_client += 1;
        }
    }

    fn reload(&mut self) -> Result<(), Wrong> {
        let text = BOOKS
            .get(self.dice.below(3) as usize)
            .copied()
            .unwrap_or(None);
        let Ok(book) = Book::from_text(self.alloc, text) else {
            return Err(Wrong("no book"));
        };
        if self.hub.reload(book).is_ok() {
            self.seen.books += 1;
        }
        Ok(())
    }

    fn keep(&mut self) -> Result<(), Wrong> {
        let log = self.hub.log().unwrap_or(b"");
        let mut kept = self
            .store
            .keep(&mut self.disk, self.heap, log, self.hub.server());
        if kept == Err(StoreFault::Memory) {
            self.ballast.clear();
            kept = self
                .store
                .keep(&mut self.disk, self.heap, log, self.hub.server());
        }
        if kept.is_err() {
            return Err(Wrong("what was logged isn't kept"));
        }
        self.hub.begin_log();
        Ok(())
    }

    fn mark_or_close(&mut self) -> Result<(), Wrong> {
        self.ballast.clear();
        self.keep()?;
        let done = if self.dice.is_in(50) {
            self.store.mark(&mut self.disk, self.heap)
        } else {
            self.store
                .close(&mut self.disk, self.heap, self.hub.server())
        };
        match done {
            Ok(()) => Ok(()),
            Err(_) => Err(Wrong("no mark, or no checkpoint")),
        }
    }

    /// Continues from the store.
    fn start(&mut self) -> Result<(), Wrong> {
        self.keep()?;
        self.ballast.clear();
        let image = left_of(self.alloc, &self.disk.before, &self.disk.events)?.safe;
        let mut disk = Memory::new(self.alloc, image, u32::MAX);
        let opened = open(&mut disk, self.heap, self.alloc, self.hasher, self.second);
        let Ok(Opened::Kept(found)) = opened else {
            return Err(Wrong("what was kept isn't opened"));
        };
        self.hub = Hub::started(self.heap, found.restart);
        self.conn = None;
        self.hub.begin_log();
        self.store = found.store;
        self.disk = disk;
        self.seen.starts += 1;
        Ok(())
    }

    fn event(&mut self) -> Result<(), Wrong> {
        match self.dice.below(100) {
            0..3 => self.reload()?,
            3..5 => self.expire_client(),
            5 => self.crowd()?,
            6..9 => self.fill()?,
            9..16 => self.ballast.clear(),
            16..18 => self.mark_or_close()?,
            18..20 => self.start()?,
            _ => self.call_some()?,
        }
        if self.dice.is_in(50) {
            self.keep()?;
        }
        Ok(())
    }

    /// A call that is logged is made on each slot that caches one. After that no slot lags.
    fn settle(&mut self) -> Result<(), Wrong> {
        self.ballast.clear();
        let mut from = 0;
        while let Some(session) = self.hub.server().clients().session_from(from) {
            for slot in 0..8u32 {
                if self.hub.server().clients().kept(session, slot).is_some() {
                    let request = still(self.alloc, self.hub.server(), session, slot)?;
                    if self.call(&request)? != Some(OK) {
                        return Err(Wrong("a slot doesn't go on"));
                    }
                }
            }
            from = session.saturating_add(1);
        }
        Ok(())
    }

    /// Whether a start from the store gives the state of the hub.
    fn is_kept(&mut self) -> Result<bool, Wrong> {
        self.settle()?;
        let live = checkpoint_of(self.alloc, self.heap, &self.hub)?;
        self.start()?;
        Ok(is_same(&live, &checkpoint_of(self.alloc, self.heap, &self.hub)?))
    }
}

/// Plays the events of a seed. Returns the counts with those of this seed.
fn play(alloc: Global, hasher: RandomState, seed: u64, seen: Seen) -> Result<Seen, Wrong> {
    let heap = LocalHeap::new(alloc, HEAP)?;
    let mut run = Run::begun(alloc, hasher, &heap, seed, seen)?;
    for _ in 0..EVENTS {
        run.event()?;
    }
    if run.is_kept()? {
        Ok(run.seen)
    } else {
        Err(Wrong("a start comes to another state"))
    }
}

/// A start over the store gives exactly the state of the hub, byte for byte. The hub had calls, allocations that
/// failed, clients that expired, and books.
#[test]
fn a_start_comes_to_the_same_state(rt: HostRuntime) -> Result<(), Fail> {
    let alloc = rt.alloc();
    let hasher = RandomState::new(&rt)?;
    let mut seen = Seen {
        answered: 0,
        delayed: 0,
        unanswered: 0,
        expire_client: 0,
        books: 0,
        starts: 0,
    };
    for seed in FIRST..FIRST + SEEDS {
        match play(alloc, hasher, seed, seen) {
            Ok(now) => seen = now,
            Err(Wrong(why)) => return Err(Fail::new(format_args!("seed {seed}: {why}"))),
        }
    }
    let Seen {
        answered,
        delayed,
        unanswered,
        expire_client,
        books,
        starts,
    } = seen;
    if delayed == 0 || expire_client == 0 || books == 0 || starts == 0 || unanswered > answered {
        return Err(Fail::new(format_args!(
            "{answered} calls were answered, {delayed} by DELAY, {unanswered} weren't; {expire_client} clients went; {books} books, {starts} starts"
        )));
    }
    Ok(())
}
