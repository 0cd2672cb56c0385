//! Streams in memory: peers that connect in turn, a trail that is kept, and a book that arrives.

use crate::peers::{Script, Seat, Stream, USUAL, script_of};
use crate::plain::{read_book, total};
use compound_run::Server;
use nfs_hub::{Clock, ConnId};
use nfs_streams::{Arrival, Moved, StreamEnd, Streams, Wait};
use nfs_types::Moment;
use std::alloc::{Allocator, Global};
use std::cell::Cell;
use store_journal::{Disk, LoadFault, Slot};
use who_book::Book;

/// Time that advances by a second with each wait, and a clock of the moments that can be set.
#[derive(Drop)]
pub struct Time {
    seconds: Cell<i64>,
    /// How far the clock of the moments is ahead.
    ahead: Cell<i64>,
}

impl Time {
    pub fn new() -> Self {
        Time {
            seconds: Cell::new(1_000),
            ahead: Cell::new(0),
        }
    }

    /// Sets the clock of the moments ahead by `ahead`.
    pub fn set(&self, ahead: i64) {
        self.ahead.set(ahead);
    }

    /// Advances by a second.
    pub fn go_on(&self) {
        self.seconds.set(self.seconds.get().saturating_add(1));
    }
}

impl Clock for Time {
    fn now(&self) -> Moment {
        Moment {
            seconds: self.seconds.get().saturating_add(self.ahead.get()),
            nanoseconds: 0,
        }
    }

    fn second(&self) -> u64 {
        self.seconds.get().max(0) as u64
    }
}

/// At most 17 streams. It owns nothing, so that a test may continue from it in many ways.
#[derive(Clone, Copy)]
pub struct Memory<'a> {
    alloc: Global,
    time: &'a Time,
    streams: [Stream; 17],
    /// The number of streams.
    count: usize,
    /// How many streams were admitted.
    pub admitted: usize,
    pub waits: u64,
    /// The number of waits that may block.
    pub rests: u64,
    /// The wait of this number fails; 0: none.
    pub fails_wait: u64,
    /// How many waits took at most a second.
    pub seconds: u64,
    /// How often the trail was kept.
    pub keeps: u64,
    /// Keeping fails at this number; 0: never.
    pub fails_keep: u64,
    /// How many lines the trail had when it was kept last.
    pub lines: u64,
    /// The most new lines when the trail was kept.
    pub most_new: u64,
    /// A stream that connects can't be accepted before this number of waits.
    pub stuck: u64,
    /// The most streams that were at places at once.
    pub most: usize,
    /// The text of the book, until it arrives.
    pub book: Option<&'static str>,
    /// How many waits come before the book.
    pub brings: u64,
    /// How many reads come before the book.
    pub brings_reads: u64,
    reads: u64,
    /// How often `book` was called.
    pub asked: u64,
}

impl<'a> Memory<'a> {
    /// Without a stream.
    pub fn new(alloc: Global, time: &'a Time) -> Self {
        Memory {
            alloc,
            time,
            streams: [Stream::new(0, USUAL, ""); 17],
            count: 0,
            admitted: 0,
            waits: 0,
            rests: 0,
            fails_wait: 0,
            seconds: 0,
            keeps: 0,
            fails_keep: 0,
            lines: 0,
            most_new: 0,
            stuck: 0,
            most: 0,
            book: None,
            brings: 0,
            brings_reads: 0,
            reads: 0,
            asked: 0,
        }
    }

    /// Adds the stream of a peer, the next one from 1 on. Its calls are to be answered by these digits.
    pub fn add(&mut self, script: Script, digits: &str) {
        let number = u32::try_from(self.count).unwrap_or(0).saturating_add(1);
        if let Some(place) = self.streams.get_mut(self.count) {
            *place = Stream::new(number, script, digits);
            self.count = self.count.saturating_add(1);
        }
    }

    /// Adds a stream for each peer of these words, whose calls may read the file.
    pub fn add_all(&mut self, words: &str) {
        for word in words.split_whitespace() {
            self.add(script_of(word), "11");
        }
    }

    /// The streams, in the order of their peers.
    pub fn all(&self) -> &[Stream] {
        self.streams.get(..self.count).unwrap_or(&[])
    }

    /// The wait after which the next stream connects that isn't admitted yet.
    fn next_arrives(&self) -> Option<u64> {
        match self.all().get(self.admitted) {
            Some(stream) => Some(stream.script.arrives),
            None => None,
        }
    }

    /// The stream at a place.
    fn at(&mut self, place: usize) -> Option<&mut Stream> {
        let index = self.all().iter().position(|stream| stream.is_at(place))?;
        self.streams.get_mut(index)
    }

    /// How many streams are at places.
    fn seated(&self) -> usize {
        let mut count = 0usize;
        for stream in self.all() {
            if let Seat::At(_) = stream.seat {
                count = count.saturating_add(1);
            }
        }
        count
    }
}

/// No store exists.
impl Disk for Memory<'_> {
    fn load_current<A: Allocator>(&mut self, _alloc: A) -> Result<Option<Vec<u8, A>>, LoadFault> {
        Err(LoadFault::Failed)
    }

    fn load<A: Allocator>(&mut self, _alloc: A, _slot: Slot) -> Result<Vec<u8, A>, LoadFault> {
        Err(LoadFault::Failed)
    }

    fn write(&mut self, _slot: Slot, _at: u64, _prefix: &[u8], _body: &[u8], _back: &[u8]) -> bool {
        false
    }

    fn sync(&mut self, _slot: Slot) -> bool {
        false
    }

    fn turn(&mut self, _bytes: &[u8]) -> bool {
        false
    }
}

impl<A: Allocator + Copy> Streams<A> for Memory<'_> {
    ghost disk_acts = { λ old new act it. tt };

    fn wait(&mut self, how: Wait) -> bool {
        self.waits = self.waits.saturating_add(1);
        if how != Wait::No {
            self.rests = self.rests.saturating_add(1);
        }
        if how == Wait::Second {
            self.seconds = self.seconds.saturating_add(1);
        }
        self.time.go_on();
        self.waits != self.fails_wait
    }

    fn book(&mut self) -> Option<Book> {
        self.asked = self.asked.saturating_add(1);
        if self.waits < self.brings || self.reads < self.brings_reads {
            return None;
        }
        read_book(self.alloc, self.book.take()?)
    }

    fn arrival(&mut self) -> Arrival {
        match self.next_arrives() {
            Some(arrives) if arrives < self.waits => {
                if self.waits < self.stuck {
                    Arrival::Waiting
                } else {
                    Arrival::Here
                }
            }
            _ => Arrival::Nobody,
        }
    }

    fn admit(&mut self, place: usize, _conn: ConnId) {
        if let Some(stream) = self.streams.get_mut(self.admitted) {
            stream.seat = Seat::At(place);
        }
        self.admitted = self.admitted.saturating_add(1);
        self.most = self.most.max(self.seated());
    }

    fn close(&mut self, place: usize, end: StreamEnd) {
        let waits = self.waits;
        if let Some(stream) = self.at(place) {
            stream.seat = Seat::Done(waits);
            stream.end = Some(end);
        }
    }

    fn read(&mut self, place: usize, buf: &mut [u8]) -> Moved {
        let waits = self.waits;
        self.reads = self.reads.saturating_add(1);
        match self.at(place) {
            Some(stream) => stream.give(waits, buf),
            None => Moved::Failed,
        }
    }

    fn write(&mut self, place: usize, bytes: &[u8]) -> Moved {
        let waits = self.waits;
        match self.at(place) {
            Some(stream) => stream.take(waits, bytes),
            None => Moved::Failed,
        }
    }

    fn keep(&mut self, server: &Server<A>) -> bool {
        self.keeps = self.keeps.saturating_add(1);
        if self.keeps == self.fails_keep {
            return false;
        }
        let lines = total(server);
        self.most_new = self.most_new.max(lines.saturating_sub(self.lines));
        self.lines = lines;
        true
    }
}
