//! Streams that fail, or never end: the fault is answered, and no command follows it.

use crate::plain::{mkdir, resume, rm};
use crate::replies::REMOVED;
use nfs_tool::ToolFault;
use std::alloc::Global;
use std::io::{self, ErrorKind, Read, Write};
use std::process::Abort;

/// Takes any bytes, four at a time, and gives these bytes, three at a time. The write or the read of this number fails.
#[derive(Drop)]
struct Failing<'a> {
    gives: &'a [u8],
    writes: u32,
    reads: u32,
}

impl Read for Failing<'_> {
    fn read(&mut self, buf: &mut [u8]) -> io::Result<usize> {
        if self.reads == 0 {
            return Err(io::Error::from(ErrorKind::Other));
        }
        self.reads -= 1;
        let n = self.gives.len().min(buf.len()).min(3);
        let (prefix, rest) = self.gives.split_at(n);
        buf[..n].copy_from_slice(prefix);
        self.gives = rest;
        Ok(n)
    }
}

impl Write for Failing<'_> {
    fn write(&mut self, buf: &[u8]) -> io::Result<usize> {
        if self.writes == 0 {
            return Err(io::Error::from(ErrorKind::Other));
        }
        self.writes -= 1;
        Ok(buf.len().min(4))
    }

    fn flush(&mut self) -> io::Result<()> {
        Ok(())
    }
}

/// The answers to `rm /f` and to a command after it.
type Outcomes = (Result<(), ToolFault>, Result<(), ToolFault>);

fn removed<S: Read + Write + Drop>(alloc: Global, stream: S) -> Outcomes {
    let mut client = resume(alloc, stream);
    let first = rm(&mut client);
    let second = mkdir(&mut client, b"/g");
    (first, second)
}

/// The answers if the first `writes` writes and `reads` reads succeed.
fn removed_within(alloc: Global, writes: u32, reads: u32) -> Outcomes {
    let gives = REMOVED;
    removed(
        alloc,
        Failing {
            gives,
            writes,
            reads,
        },
    )
}

/// Both commands fail, the first by this fault.
fn failed(fault: ToolFault) -> Outcomes {
    (Err(fault), Err(ToolFault::Failed))
}

/// The call is written by 32 writes.
fn see_writes(rt: &impl Abort, alloc: Global) {
    for writes in 0..32 {
        let outcome = removed_within(alloc, writes, 1000);
        assert!(rt; outcome == failed(ToolFault::Write), "{writes} writes");
    }
}

/// The reply is read by 40 reads.
fn see_reads(rt: &impl Abort, alloc: Global) {
    for reads in 0..40 {
        let outcome = removed_within(alloc, 1000, reads);
        assert!(rt; outcome == failed(ToolFault::Read), "{reads} reads");
    }
}

#[test]
fn each_write_fails(rt: HostRuntime) {
    see_writes(&rt, rt.alloc());
}

#[test]
fn each_read_fails(rt: HostRuntime) {
    see_reads(&rt, rt.alloc());
}

#[test]
fn no_read_and_no_write_too_many_fail(rt: HostRuntime) {
    let outcome = removed_within(rt.alloc(), 32, 40);
    assert!(rt; outcome == (Ok(()), Err(ToolFault::Write)));
}

/// Takes any bytes, and gives one zero byte at each read, without end.
#[derive(Drop)]
struct Zeros;

impl Read for Zeros {
    fn read(&mut self, buf: &mut [u8]) -> io::Result<usize> {
        if buf.is_empty() {
            return Ok(0);
        }
        buf[0] = 0;
        Ok(1)
    }
}

impl Write for Zeros {
    fn write(&mut self, buf: &[u8]) -> io::Result<usize> {
        Ok(buf.len())
    }

    fn flush(&mut self) -> io::Result<()> {
        Ok(())
    }
}

#[test]
fn zeros_for_ever_end(rt: HostRuntime) {
    assert!(rt; removed(rt.alloc(), Zeros) == failed(ToolFault::Read));
}

/// Gives a number of zero bytes, one at each read, which are empty fragments, and then the reply as the last read.
#[derive(Drop)]
struct Late<'a> {
    zeros: u32,
    gives: &'a [u8],
}

impl Read for Late<'_> {
    fn read(&mut self, buf: &mut [u8]) -> io::Result<usize> {
        if self.zeros > 0 && !buf.is_empty() {
            self.zeros -= 1;
            buf[0] = 0;
            return Ok(1);
        }
        let n = self.gives.len().min(buf.len());
        let (prefix, rest) = self.gives.split_at(n);
        buf[..n].copy_from_slice(prefix);
        self.gives = rest;
        Ok(n)
    }
}

impl Write for Late<'_> {
    fn write(&mut self, buf: &[u8]) -> io::Result<usize> {
        Ok(buf.len())
    }

    fn flush(&mut self) -> io::Result<()> {
        Ok(())
    }
}

fn removed_late(alloc: Global, zeros: u32) -> Outcomes {
    let gives = REMOVED;
    removed(alloc, Late { zeros, gives })
}

/// A reply may take at most 200,000 reads. With 199,996 zero bytes it takes 199,997.
#[test]
fn a_late_reply_is_read(rt: HostRuntime) {
    assert!(rt; removed_late(rt.alloc(), 199_996).0 == Ok(()));
    assert!(rt; removed_late(rt.alloc(), 200_000) == failed(ToolFault::Read));
}
