//! Bytes that were read from a stream and aren't given to the hub yet.
ghost use Rattle.std.specs.Prelude.{◌≡◌, ◌≤◌, length, take, drop, [], IfOk, IsTrue, ◌↔◌};

use crate::streams::{Moved, Streams};
use std::alloc::{AllocError, Allocator};
use std::marker::Model;

/// The most bytes of one read.
const MAX_READ: usize = 131_072;

/// The bytes that were read from a stream and aren't given yet, in order. Their memory, for one read, is allocated when
/// this is made.
#[derive(Drop)]
pub(crate) struct Ahead<A: Allocator + Copy> {
    bytes: Vec<u8, A>,
    from: usize,
    to: usize,
}

impl<A: Allocator + Copy> Model for Ahead<A> {
    ghost use Rattle.std.specs.Prelude.{◌≡◌, ◌≤◌, ℕ, List, length, slice_range};

    ghost Value = { List ℕ };

    ghost view = { λ a. slice_range a.bytes.items a.from a.to };

    ghost invariant = { λ a. (a.from ≤ a.to) × (a.to ≤ length a.bytes.items) × (length a.bytes.items ≡ 131072) };
}

impl<A: Allocator + Copy> Ahead<A> {
    ghost use Rattle.nfs_streams.specs.Stages.{ReadGives};

    /// No bytes, and the memory for one read.
    pub(crate) fn new(alloc: A) -> Result<Self, AllocError>
        ensures { IfOk result (λ a. a ≡ []) }
    {
        let mut bytes = Vec::new(alloc);
        bytes.resize(MAX_READ, 0)?;
        Ok(Ahead {
            bytes,
            from: 0,
            to: 0,
        })
    }

    pub(crate) fn is_empty(&self) -> bool
        ensures { IsTrue result ↔ (self.now ≡ []) }
    {
        self.from == self.to
    }

    /// Reads at most 131,072 bytes from the stream of a place, if none are left.
    pub(crate) fn read<S: Streams<A>>(&mut self, streams: &mut S, place: usize) -> Moved
        ensures { ReadGives place result self.new (S.acts streams.old) (S.acts streams.new) }
    {
        self.from = 0;
        self.to = 0;
        let moved = streams.read(place, &mut self.bytes[..]);
        if let Moved::Bytes(n) = moved {
            self.to = n;
        }
        moved
    }

    /// The first bytes, at most `most` of them.
    pub(crate) fn prefix(&self, most: usize) -> &[u8]
        ensures { result.now ≡ take most self.now }
    {
        let len = most.min(self.to - self.from);
        &self.bytes[self.from..self.from + len]
    }

    /// Drops the first `n` bytes.
    pub(crate) fn skip(&mut self, n: usize)
        requires { n ≤ length self.old }
        ensures { self.new ≡ drop n self.old }
    {
        self.from += n;
    }
}
