//! Each allocation fails: a client on a small heap answers `Memory`, and continues if no bytes were written.

use crate::plain::{getacl, mkdir, resume};
use crate::replies::LISTED;
use linked_list_allocator::LocalHeap;
use nfs_tool::ToolFault;
use std::alloc::{AllocError, Global};
use std::io::{self, Read, Write};
use std::test::Fail;

/// Takes any bytes, and gives these bytes.
#[derive(Drop)]
struct Given<'a> {
    gives: &'a [u8],
}

impl Read for Given<'_> {
    fn read(&mut self, buf: &mut [u8]) -> io::Result<usize> {
        let n = self.gives.len().min(buf.len());
        let (prefix, rest) = self.gives.split_at(n);
        buf[..n].copy_from_slice(prefix);
        self.gives = rest;
        Ok(n)
    }
}

impl Write for Given<'_> {
    fn write(&mut self, buf: &[u8]) -> io::Result<usize> {
        Ok(buf.len())
    }

    fn flush(&mut self) -> io::Result<()> {
        Ok(())
    }
}

/// How many bytes `getacl /` prints, or its fault, and the answer to a command after it.
type Outcomes = (Result<usize, ToolFault>, Result<(), ToolFault>);

fn listed(heap: &LocalHeap) -> Outcomes {
    let mut client = resume(heap, Given { gives: LISTED });
    let first = getacl(&mut client);
    let second = mkdir(&mut client, b"/");
    (first, second)
}

/// The answers on a heap of `size` bytes.
fn listed_on(alloc: Global, size: usize) -> Result<Outcomes, AllocError> {
    let heap = LocalHeap::new(alloc, size)?;
    Ok(listed(&heap))
}

/// The answers on a heap of 131,000 bytes and 64 more for each step.
fn listed_at(alloc: Global, step: usize) -> Result<Outcomes, AllocError> {
    listed_on(alloc, step.saturating_mul(64).saturating_add(131_000))
}

/// On how many heaps an allocation failed, and on how many of those after them none did.
#[derive(Clone, Copy)]
struct Seen {
    refused: u32,
    done: u32,
}

/// The counts with one more outcome, if it may follow these.
fn seen_with(seen: Seen, outcome: Outcomes) -> Option<Seen> {
    match outcome {
        (Err(ToolFault::Memory), Err(ToolFault::Path)) if seen.done == 0 => Some(Seen {
            refused: seen.refused.saturating_add(1),
            done: 0,
        }),
        (Ok(21), Err(ToolFault::Path)) => Some(Seen {
            refused: seen.refused,
            done: seen.done.saturating_add(1),
        }),
        _ => None,
    }
}

#[test]
fn memory_is_refused_until_there_is_enough(rt: HostRuntime) -> Result<(), Fail> {
    let mut seen = Seen {
        refused: 0,
        done: 0,
    };
    for step in 0..24 {
        let outcome = listed_at(rt.alloc(), step)?;
        let Some(next) = seen_with(seen, outcome) else {
            return Err(Fail::new("another answer"));
        };
        seen = next;
    }
    assert!(rt; seen.refused > 0 && seen.done > 0);
    Ok(())
}
