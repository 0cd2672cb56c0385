//! Serving over readers and writers in memory, which give and take pieces, and fail at a chosen place.

use crate::digits::bytes_in;
use crate::split_word;
use nfs_hub::{Clock, Hub, ServeEnd, serve};
use nfs_types::Moment;
use std::alloc::{Allocator, Global};
use std::cell::Cell;
use std::io;
use std::io::{ErrorKind, Read, Write};
use std::test::Fail;

/// Gives at most `piece` bytes a read, and fails once `reads` are done.
#[derive(Drop)]
struct Source<'a> {
    bytes: &'a [u8],
    piece: usize,
    reads: usize,
}

impl Read for Source<'_> {
    fn read(&mut self, buf: &mut [u8]) -> io::Result<usize> {
        if self.reads == 0 {
            return Err(io::Error::from(ErrorKind::Other));
        }
        self.reads -= 1;
        let n = self.bytes.len().min(buf.len()).min(self.piece);
        let (prefix, rest) = self.bytes.split_at(n);
        buf[..n].copy_from_slice(prefix);
        self.bytes = rest;
        Ok(n)
    }
}

/// Takes at most `piece` bytes a write. Once `writes` are done it fails, or takes nothing.
#[derive(Drop)]
struct Paper<'a> {
    written: &'a mut Vec<u8>,
    piece: usize,
    writes: usize,
    fails: bool,
}

impl Write for Paper<'_> {
    fn write(&mut self, buf: &[u8]) -> io::Result<usize> {
        if self.writes > 0 {
            self.writes -= 1;
            let n = buf.len().min(self.piece);
            self.written.extend_from_slice(&buf[..n])?;
            return Ok(n);
        }
        if self.fails {
            return Err(io::Error::from(ErrorKind::Interrupted));
        }
        Ok(0)
    }

    fn flush(&mut self) -> io::Result<()> {
        Ok(())
    }
}

/// A clock that begins at a second, and advances by a step each time.
#[derive(Drop)]
struct Rising {
    second: Cell<i64>,
    step: i64,
}

impl Clock for Rising {
    fn now(&self) -> Moment {
        let seconds = self.second.get();
        self.second.set(seconds.saturating_add(self.step));
        Moment {
            seconds,
            nanoseconds: 0,
        }
    }
}

/// How a stream is served: the first second and the step of the clock, the most turns, the bytes of a read and the
/// number of reads, the bytes of a write and the number of writes, and whether the writer fails then.
#[derive(Clone, Copy)]
struct Way {
    second: i64,
    step: i64,
    turns: u64,
    read: usize,
    reads: usize,
    written: usize,
    writes: usize,
    fails: bool,
}

/// `SECOND STEP TURNS`, and the rest.
fn clock_in(words: &str) -> Option<((i64, i64, u64), &str)> {
    let (second, rest) = split_word(words);
    let (step, rest) = split_word(rest);
    let (turns, rest) = split_word(rest);
    Some((
        (
            second.parse().ok()?,
            step.parse().ok()?,
            turns.parse().ok()?,
        ),
        rest,
    ))
}

/// `SIZE COUNT`, and the rest.
fn sizes_in(words: &str) -> Option<((usize, usize), &str)> {
    let (size, rest) = split_word(words);
    let (count, rest) = split_word(rest);
    Some(((size.parse().ok()?, count.parse().ok()?), rest))
}

/// `SECOND STEP TURNS READ READS WRITTEN WRITES fails|stops STREAM`.
fn way_in(words: &str) -> Option<(Way, &str)> {
    let ((second, step, turns), rest) = clock_in(words)?;
    let ((read, reads), rest) = sizes_in(rest)?;
    let ((written, writes), rest) = sizes_in(rest)?;
    let (end, digits) = split_word(rest);
    let way = Way {
        second,
        step,
        turns,
        read,
        reads,
        written,
        writes,
        fails: end == "fails",
    };
    Some((way, digits))
}

/// Serves a stream on a new connection.
fn serve_new<A: Allocator + Copy>(
    hub: &mut Hub<A>,
    way: Way,
    bytes: &[u8],
    written: &mut Vec<u8>,
) -> ServeEnd {
    let mut reader = Source {
        bytes,
        piece: way.read,
        reads: way.reads,
    };
    let mut writer = Paper {
        written,
        piece: way.written,
        writes: way.writes,
        fails: way.fails,
    };
    let clock = Rising {
        second: Cell::new(way.second),
        step: way.step,
    };
    serve(hub, &mut reader, &mut writer, &clock, way.turns)
}

/// The number of the end, and the replies.
fn served<A: Allocator + Copy>(
    alloc: Global,
    hub: &mut Hub<A>,
    way: Way,
    stream: &[u8],
) -> Result<String, Fail> {
    let mut written = Vec::new(alloc);
    let end = serve_new(hub, way, stream, &mut written) as u8;
    let replies = hex::encode(alloc, written)?;
    Ok(format!(in alloc; "{end} {replies}")?)
}

/// `serve ..`: the number of the end, and the replies.
pub fn serve_stream<A: Allocator + Copy>(
    alloc: Global,
    hub: &mut Hub<A>,
    words: &str,
) -> Result<String, Fail> {
    let Some((way, digits)) = way_in(words) else {
        return Err(Fail::new("serve how?"));
    };
    let stream = bytes_in(alloc, digits)?;
    served(alloc, hub, way, &stream)
}
