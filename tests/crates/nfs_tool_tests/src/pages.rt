//! Directories and files without an end: a command takes 10,000 pages, and no more.

use crate::plain::{cat, ls, mkdir, resume};
use crate::replies::{PAGE, PIECE};
use nfs_tool::{Client, ToolFault};
use std::alloc::Global;
use std::io::{self, Read, Write};
use std::process::Abort;

/// The places of the xid and of the sequence ID in a reply.
const XID: usize = 4;

const NUMBER: usize = 64;

/// The place of eof in a page of a directory, and in a piece of a file.
const EOF_OF_PAGE: usize = 140;

const EOF_OF_PIECE: usize = 100;

/// Takes any bytes, and answers a call at each read by the same reply, under the call's own numbers. The reply of one
/// number is the last: its eof is true.
#[derive(Drop)]
struct Pages<'a> {
    reply: &'a [u8],
    eof: usize,
    last: u32,
    answered: &'a mut u32,
}

/// Writes a word to a place of a reply.
fn put_word(reply: &mut [u8], place: usize, word: u32) {
    for (index, byte) in word.to_be_bytes().into_iter().enumerate() {
        reply[place + index] = byte;
    }
}

impl Read for Pages<'_> {
    fn read(&mut self, buf: &mut [u8]) -> io::Result<usize> {
        let n = self.reply.len();
        if buf.len() < n {
            return Ok(0);
        }
        *self.answered += 1;
        buf[..n].copy_from_slice(self.reply);
        put_word(buf, XID, *self.answered);
        put_word(buf, NUMBER, *self.answered);
        put_word(buf, self.eof, u32::from(*self.answered == self.last));
        Ok(n)
    }
}

impl Write for Pages<'_> {
    fn write(&mut self, buf: &[u8]) -> io::Result<usize> {
        Ok(buf.len())
    }

    fn flush(&mut self) -> io::Result<()> {
        Ok(())
    }
}

/// A command that requests pages.
#[derive(Clone, Copy)]
enum Command {
    Ls,
    Cat,
}

impl Command {
    /// The reply that has a page of it, and the place of eof there.
    fn reply(self) -> (&'static [u8], usize) {
        match self {
            Command::Ls => (PAGE, EOF_OF_PAGE),
            Command::Cat => (PIECE, EOF_OF_PIECE),
        }
    }

    /// How many bytes it answers.
    fn run<S: Read + Write>(self, client: &mut Client<S>) -> Result<usize, ToolFault> {
        match self {
            Command::Ls => ls(client),
            Command::Cat => cat(client),
        }
    }
}

/// How many bytes a command answers, and the answer to a command after it if it fails.
type Outcome = (Result<usize, ToolFault>, Option<ToolFault>);

fn outcome<S: Read + Write + Drop>(alloc: Global, stream: S, command: Command) -> Outcome {
    let mut client = resume(alloc, stream);
    match command.run(&mut client) {
        Ok(count) => (Ok(count), None),
        Err(fault) => (Err(fault), mkdir(&mut client, b"/g").err()),
    }
}

/// The outcome of a command if the last page has this number, and how many calls were answered.
fn printed(alloc: Global, command: Command, last: u32) -> (Outcome, u32) {
    let mut answered = 0;
    let (reply, eof) = command.reply();
    let pages = Pages {
        reply,
        eof,
        last,
        answered: &mut answered,
    };
    (outcome(alloc, pages, command), answered)
}

/// The outcome of pages without an end.
const ENDLESS: (Outcome, u32) = ((Err(ToolFault::Reply), Some(ToolFault::Failed)), 10_000);

/// Checks that 10,000 pages give `count` bytes, and that pages without an end give none.
fn see(rt: &impl Abort, alloc: Global, command: Command, count: usize) {
    assert!(rt; printed(alloc, command, 10_000) == ((Ok(count), None), 10_000));
    assert!(rt; printed(alloc, command, u32::MAX) == ENDLESS);
}

/// Each page is a line `? ? ? ? ? a`, of 12 bytes with its newline.
#[test]
fn a_directory_without_an_end_is_no_reply(rt: HostRuntime) {
    see(&rt, rt.alloc(), Command::Ls, 120_000);
}

/// Each page is a byte.
#[test]
fn a_file_without_an_end_is_no_reply(rt: HostRuntime) {
    see(&rt, rt.alloc(), Command::Cat, 10_000);
}
