//! One peer that sends a call in each turn, a disk, and the content of the disk when each reply was written.

use crate::memory::Time;
use crate::plain::AMPLE;
use call_store::{MACHINE, Opened, Store, open};
use compound_run::Server;
use nfs_hub::{Clock, ConnId, Hub, Restart};
use nfs_streams::{AllEnd, Arrival, Limits, Moved, StreamEnd, Streams, Wait, serve_all};
use std::alloc::{AllocError, Allocator, Global};
use std::hash::RandomState;
use std::test::Fail;
use store_journal::{Current, Disk, Identity, LoadFault, Slot};
use who_book::Book;

/// Puts bytes over those of a file, which is extended if it is too short.
fn put(file: &mut Vec<u8>, at: usize, bytes: &[u8]) -> Result<(), AllocError> {
    while file.len() < at.saturating_add(bytes.len()) {
        file.push(0)?;
    }
    for (place, byte) in bytes.iter().enumerate() {
        if let Some(old) = file.get_mut(at.saturating_add(place)) {
            *old = *byte;
        }
    }
    Ok(())
}

fn lent<A: Allocator>(alloc: A, bytes: &[u8]) -> Result<Vec<u8, A>, LoadFault> {
    match bytes.to_vec(alloc) {
        Ok(bytes) => Ok(bytes),
        Err(AllocError) => Err(LoadFault::Memory),
    }
}

/// CURRENT and two files in memory, and the calls of the disk.
#[derive(Drop)]
pub struct Disks {
    alloc: Global,
    current: Option<Vec<u8>>,
    a: Vec<u8>,
    b: Vec<u8>,
    /// How often a file was written or synced, or CURRENT was replaced.
    pub calls: u64,
    /// The call of this number fails, and does nothing; 0: none.
    pub fails: u64,
    /// Some bytes are unsynced.
    pub loose: bool,
}

impl Disks {
    pub fn new(alloc: Global) -> Self {
        Disks {
            alloc,
            current: None,
            a: Vec::new(alloc),
            b: Vec::new(alloc),
            calls: 0,
            fails: 0,
            loose: false,
        }
    }

    /// Another disk of the same bytes.
    pub fn copied(&self) -> Result<Self, AllocError> {
        let current = match &self.current {
            Some(bytes) => Some(bytes.to_vec(self.alloc)?),
            None => None,
        };
        Ok(Disks {
            alloc: self.alloc,
            current,
            a: self.a.clone()?,
            b: self.b.clone()?,
            calls: self.calls,
            fails: 0,
            loose: self.loose,
        })
    }

    fn at(&mut self, slot: Slot) -> &mut Vec<u8> {
        match slot {
            Slot::A => &mut self.a,
            Slot::B => &mut self.b,
        }
    }

    /// Whether the next call is done.
    fn is_good(&mut self) -> bool {
        self.calls = self.calls.saturating_add(1);
        self.calls != self.fails
    }
}

impl Disk for Disks {
    fn load_current<A: Allocator>(&mut self, alloc: A) -> Result<Option<Vec<u8, A>>, LoadFault> {
        match &self.current {
            Some(bytes) => Ok(Some(lent(alloc, bytes)?)),
            None => Ok(None),
        }
    }

    fn load<A: Allocator>(&mut self, alloc: A, slot: Slot) -> Result<Vec<u8, A>, LoadFault> {
        lent(alloc, self.at(slot))
    }

    fn write(&mut self, slot: Slot, at: u64, prefix: &[u8], body: &[u8], back: &[u8]) -> bool {
        self.loose = true;
        if !self.is_good() {
            return false;
        }
        let file = self.at(slot);
        let start = at as usize;
        let middle = start.saturating_add(prefix.len());
        put(file, start, prefix).is_ok()
            && put(file, middle, body).is_ok()
            && put(file, middle.saturating_add(body.len()), back).is_ok()
    }

    fn sync(&mut self, _slot: Slot) -> bool {
        let is_good = self.is_good();
        self.loose = self.loose && !is_good;
        is_good
    }

    fn turn(&mut self, bytes: &[u8]) -> bool {
        if !self.is_good() {
            return false;
        }
        match bytes.to_vec(self.alloc) {
            Ok(bytes) => {
                self.current = Some(bytes);
                true
            }
            Err(AllocError) => false,
        }
    }
}

/// A reply, and the content of the files when it was written.
#[derive(Drop)]
pub struct Reply {
    pub bytes: Vec<u8>,
    pub files: Disks,
}

/// A peer that sends calls, one in each turn, and leaves after the last one.
#[derive(Drop)]
pub struct Talk<'a> {
    alloc: Global,
    time: &'a Time,
    calls: &'a [Vec<u8>],
    at: usize,
    /// How many turns it is silent before its last call.
    pub silent: u64,
    /// How far the clock of the moments is set ahead before its last call.
    pub ahead: i64,
    has_arrived: bool,
    /// A second passes with each wait.
    pub goes_on: bool,
    /// How many waits took at most a second.
    pub seconds: u64,
    pub files: Disks,
    pub replies: Vec<Reply>,
}

impl<'a> Talk<'a> {
    pub fn new(alloc: Global, time: &'a Time, files: Disks, calls: &'a [Vec<u8>]) -> Self {
        Talk {
            alloc,
            time,
            calls,
            at: 0,
            silent: 0,
            ahead: 0,
            has_arrived: false,
            goes_on: true,
            seconds: 0,
            files,
            replies: Vec::new(alloc),
        }
    }

    fn receive(&mut self, bytes: &[u8]) -> Option<()> {
        let reply = Reply {
            bytes: bytes.to_vec(self.alloc).ok()?,
            files: self.files.copied().ok()?,
        };
        self.replies.push(reply).ok()
    }
}

impl Disk for Talk<'_> {
    fn load_current<A: Allocator>(&mut self, alloc: A) -> Result<Option<Vec<u8, A>>, LoadFault> {
        self.files.load_current(alloc)
    }

    fn load<A: Allocator>(&mut self, alloc: A, slot: Slot) -> Result<Vec<u8, A>, LoadFault> {
        self.files.load(alloc, slot)
    }

    fn write(&mut self, slot: Slot, at: u64, prefix: &[u8], body: &[u8], back: &[u8]) -> bool {
        self.files.write(slot, at, prefix, body, back)
    }

    fn sync(&mut self, slot: Slot) -> bool {
        self.files.sync(slot)
    }

    fn turn(&mut self, bytes: &[u8]) -> bool {
        self.files.turn(bytes)
    }
}

impl<A: Allocator + Copy> Streams<A> for Talk<'_> {
    ghost disk_acts = { λ old new act it. tt };

    fn wait(&mut self, how: Wait) -> bool {
        if how == Wait::Second {
            self.seconds = self.seconds.saturating_add(1);
        }
        if self.goes_on {
            self.time.go_on();
        }
        true
    }

    fn book(&mut self) -> Option<Book> {
        None
    }

    fn arrival(&mut self) -> Arrival {
        if self.has_arrived {
            Arrival::Nobody
        } else {
            Arrival::Here
        }
    }

    fn admit(&mut self, _place: usize, _conn: ConnId) {
        self.has_arrived = true;
    }

    fn close(&mut self, _place: usize, _end: StreamEnd) {}

    fn read(&mut self, _place: usize, buf: &mut [u8]) -> Moved {
        if self.at + 1 == self.calls.len() {
            self.time.set(self.ahead);
            if self.silent > 0 {
                self.silent -= 1;
                return Moved::NotYet;
            }
        }
        let Some(call) = self.calls.get(self.at) else {
            return Moved::Over;
        };
        let Some(prefix) = buf.get_mut(..call.len()) else {
            return Moved::Failed;
        };
        prefix.copy_from_slice(call);
        self.at += 1;
        Moved::Bytes(call.len())
    }

    fn write(&mut self, _place: usize, bytes: &[u8]) -> Moved {
        match self.receive(bytes) {
            Some(()) => Moved::Bytes(bytes.len()),
            None => Moved::Failed,
        }
    }

    fn keep(&mut self, _server: &Server<A>) -> bool {
        true
    }
}

/// The identity of the stores.
const IDENTITY: Identity = Identity { high: 1, low: 2 };

/// A hub over the store, or over a root alone, and the store that logs its calls.
fn hub_over(alloc: Global, hasher: RandomState, talk: &mut Talk<'_>) -> Result<(Hub, Store), Fail> {
    let second = talk.time.second();
    match open(talk, alloc, alloc, hasher, second) {
        Ok(Opened::Kept(found)) => Ok((Hub::started(alloc, found.restart), found.store)),
        Ok(Opened::New(current)) => {
            let current = match current {
                Some(current) => current,
                None => Current::new(IDENTITY, MACHINE),
            };
            let hub = Hub::lasting(
                alloc,
                nfs_types::Limits::standard(),
                Book::default(alloc),
                hasher,
            )?;
            match Store::begin(talk, alloc, current, hub.server()) {
                Ok(store) => Ok((hub, store)),
                Err(_) => Err(Fail::new("the store doesn't begin")),
            }
        }
        Err(_) => Err(Fail::new("the store isn't opened")),
    }
}

/// A server starts over the disk of a talk, and serves it. The act of the disk with the number `fails` fails, counted
/// from when serving begins.
pub fn serve_talk(
    alloc: Global,
    hasher: RandomState,
    talk: &mut Talk<'_>,
    leases: bool,
    fails: u64,
) -> Result<AllEnd, Fail> {
    let time = talk.time;
    let (mut hub, store) = hub_over(alloc, hasher, talk)?;
    hub.begin_log();
    talk.files.calls = 0;
    talk.files.fails = fails;
    let limits = Limits {
        connections: 1,
        leases,
        ..AMPLE
    };
    let end = serve_all(alloc, &mut hub, talk, time, Some(store), limits);
    talk.files.fails = 0;
    Ok(end)
}

/// The server that a start over this disk gives.
pub fn found_in(alloc: Global, hasher: RandomState, files: &Disks) -> Result<Restart, Fail> {
    let mut files = files.copied()?;
    match open(&mut files, alloc, alloc, hasher, 0) {
        Ok(Opened::Kept(found)) => Ok(found.restart),
        _ => Err(Fail::new("nothing is found")),
    }
}
