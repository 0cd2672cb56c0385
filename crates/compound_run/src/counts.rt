//! How often each operation was answered with each status.
//!
//! No model has these counts: they are for people who watch a server, and no answer depends on them.

use nfs_ops::OpKind;
use nfs_types::Status;
use std::alloc::{AllocError, Allocator, Global};
use xdr_wire::{Reader, XdrFault};

/// The most operations.
const OPERATIONS: usize = 32;

/// The columns of an operation: 128 for the statuses of the NFS versions before 4, and 128 for those from 10,000 on.
const COLUMNS: usize = 256;

/// The most bytes of a tag.
const MAX_TAG: usize = 1_024;

/// How often each operation was answered with each status, and how many bytes READ and WRITE carried, since the server
/// was made. Each count stays at 2^64 - 1.
#[derive(Drop)]
pub struct CallCounts<A: Allocator = Global> {
    /// A row of statuses for each operation.
    answers: Vec<u64, A>,
    read_bytes: u64,
    written_bytes: u64,
}

/// The place of an operation's status among the counts.
fn place(kind: OpKind, status: Status) -> usize {
    let number = status.number() as usize;
    let column = number % 128 + if number < 10_000 { 0 } else { 128 };
    (kind as usize % OPERATIONS) * COLUMNS + column
}

/// The result of the first operation, among the results of a COMPOUND (RFC 8881, section 16.2).
fn first_result(results: &[u8]) -> Result<&[u8], XdrFault> {
    let mut reader = Reader::new(results);
    reader.u32()?;
    reader.opaque(MAX_TAG)?;
    reader.u32()?;
    Ok(reader.rest())
}

/// The bytes after a place, none after the end.
pub(crate) fn bytes_after(bytes: &[u8], start: usize) -> &[u8] {
    bytes.get(start..).unwrap_or_default()
}

impl<A: Allocator> CallCounts<A> {
    /// Nothing was answered yet. `Err`: an allocation fails.
    pub(crate) fn new(alloc: A) -> Result<Self, AllocError> {
        let mut answers = Vec::new(alloc);
        answers.resize(OPERATIONS * COLUMNS, 0)?;
        Ok(CallCounts {
            answers,
            read_bytes: 0,
            written_bytes: 0,
        })
    }

    /// Begins again with 0.
    pub(crate) fn forget(&mut self) {
        for count in self.answers.iter_mut() {
            *count = 0;
        }
        self.read_bytes = 0;
        self.written_bytes = 0;
    }

    /// Counts an operation by the bytes of its result.
    pub(crate) fn note(&mut self, bytes: &[u8]) {
        let mut reader = Reader::new(bytes);
        let (Ok(number), Ok(status)) = (reader.u32(), reader.u32()) else {
            return;
        };
        let (Some(kind), Some(status)) = (OpKind::of_number(number), Status::of_number(status))
        else {
            return;
        };
        if let Some(count) = self.answers.get_mut(place(kind, status)) {
            *count = count.saturating_add(1);
        }
        if status == Status::Ok {
            self.note_bytes(kind, reader);
        }
    }

    /// Counts the bytes that a READ returned, or that a WRITE took, by what comes after the status of its result.
    fn note_bytes(&mut self, kind: OpKind, mut reader: Reader<'_>) {
        match kind {
            OpKind::Read => {
                if let (Ok(_), Ok(count)) = (reader.u32(), reader.u32()) {
                    self.read_bytes = self.read_bytes.saturating_add(u64::from(count));
                }
            }
            OpKind::Write => {
                if let Ok(count) = reader.u32() {
                    self.written_bytes = self.written_bytes.saturating_add(u64::from(count));
                }
            }
            _ => {}
        }
    }

    /// Counts the first operation of a COMPOUND by the bytes of its results.
    pub(crate) fn note_first(&mut self, results: &[u8]) {
        if let Ok(result) = first_result(results) {
            self.note(result);
        }
    }

    /// How often an operation was answered with a status. Calls that a start replays don't count.
    pub fn answers(&self, kind: OpKind, status: Status) -> u64 {
        self.answers
            .get(place(kind, status))
            .copied()
            .unwrap_or_default()
    }

    /// The bytes of files that READ returned.
    pub fn read_bytes(&self) -> u64 {
        self.read_bytes
    }

    /// The bytes that WRITE took.
    pub fn written_bytes(&self) -> u64 {
        self.written_bytes
    }
}
