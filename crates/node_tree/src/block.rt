//! A block of a file: 4,096 of its bytes.
ghost use Rattle.std.specs.Prelude.{◌≡◌, ◌+◌, ◌-◌, ◌<◌, ◌≤◌, ◌^◌, ◌&&◌, ◌++◌, ℕ, nat_le, nat_lt, if◌then◌else◌};
ghost use Rattle.std.specs.Prelude.{slice_index, length, take, drop, IfOk, IfSome, IfNone, ◌≢◌};
ghost use Rattle.node_tree.specs.Holes.{IsHole};

use std::alloc::{AllocError, Allocator, Global};
use std::marker::Model;

/// The byte count of a block.
pub const BLOCK: usize = 4096;

/// The bytes of one block.
#[derive(Drop)]
pub struct Block<A: Allocator = Global> {
    bytes: Vec<u8, A>,
}

impl<A: Allocator> Model for Block<A> {
    ghost use Rattle.std.specs.Prelude.{List, ℕ, ◌≡◌, length};

    ghost Value = { List ℕ };

    ghost view = { λ b. b.bytes.items };

    ghost invariant = { λ b. length b.bytes.items ≡ 4096 };
}

impl<A: Allocator> Block<A> {
    /// A block of zeros. `Err`: an allocation fails.
    pub fn zeros(alloc: A) -> Result<Self, AllocError>
        ensures { IfOk result (λ b. (k : ℕ) → slice_index b k ≡ 0) }
    {
        let mut bytes = Vec::with_capacity(alloc, BLOCK)?;
        bytes.resize(BLOCK, 0)?;
        Ok(Block { bytes })
    }

    /// Writes the part of the data that is in the block. The block begins at `first`, and the data at `offset`.
    pub fn write(&mut self, first: usize, offset: usize, more: &[u8])
        requires few { offset + length more.now < 2 ^ 63 }
        requires reaches { first < offset + length more.now }
        requires before { offset < first + 4096 }
        ensures { (k : ℕ) → k < 4096 → slice_index self.new k ≡
            (if nat_le offset (first + k) && nat_lt (first + k) (offset + length more.now)
            then slice_index more.now (first + k - offset) else slice_index self.old k) }
    {
        write_part(&mut self.bytes, first, offset, more);
    }

    /// Sets the bytes from an index on to zeros.
    pub fn clear_from(&mut self, at: usize)
        requires { at ≤ 4096 }
        ensures { (k : ℕ) → slice_index self.new k ≡ (if nat_lt k at then slice_index self.old k else 0) }
    {
        clear(&mut self.bytes, at, BLOCK);
    }

    /// The index of the first byte from an index on that isn't 0.
    pub fn data_from(&self, at: usize) -> Option<usize>
        ensures data { IfSome result (λ index. (at ≤ index) × (index < 4096) × (slice_index self.now index ≢ 0)) }
        ensures skipped { IfSome result (λ index. (k : ℕ) → at ≤ k → k < index → slice_index self.now k ≡ 0) }
        ensures none { IfNone result ((k : ℕ) → at ≤ k → k < 4096 → slice_index self.now k ≡ 0) }
    {
        first_data(&self.bytes, at)
    }

    /// Copies the part of the block that is in a range of the file. The block begins at `first`, and the range at
    /// `offset`.
    pub fn read(&self, first: usize, offset: usize, buffer: &mut [u8])
        requires fits { offset + length buffer.old < 2 ^ 64 }
        requires reaches { first < offset + length buffer.old }
        requires before { offset < first + 4096 }
        ensures len { length buffer.new ≡ length buffer.old }
        ensures bytes { (k : ℕ) → slice_index buffer.new k ≡
            (if (nat_le first (offset + k) && nat_lt (offset + k) (first + 4096)) && nat_lt k (length buffer.old)
            then slice_index self.now (offset + k - first) else slice_index buffer.old k) }
    {
        let from = first.saturating_sub(offset);
        let start = offset.saturating_sub(first);
        let end = (offset + buffer.len() - first).min(BLOCK);
        overwrite(buffer, from, part(&self.bytes, start, end));
    }
}

/// The index of the first byte from an index on that isn't 0.
pub fn first_data(bytes: &[u8], at: usize) -> Option<usize>
    ensures data { IfSome result (λ index.
        (at ≤ index) × (index < length bytes.now) × (slice_index bytes.now index ≢ 0)) }
    ensures skipped { IfSome result (λ index. IsHole bytes.now at index) }
    ensures none { IfNone result (IsHole bytes.now at (length bytes.now)) }
{
    for index in at..bytes.len() {
        if bytes[index] != 0 {
            return Some(index);
        }
    }
    None
}

/// Sets the part of an absent block that is in a range of the file to zeros.
pub fn read_absent(first: usize, offset: usize, buffer: &mut [u8])
    requires fits { offset + length buffer.old < 2 ^ 64 }
    requires reaches { first < offset + length buffer.old }
    requires before { offset < first + 4096 }
    ensures len { length buffer.new ≡ length buffer.old }
    ensures bytes { (k : ℕ) → slice_index buffer.new k ≡
        (if (nat_le first (offset + k) && nat_lt (offset + k) (first + 4096)) && nat_lt k (length buffer.old) then 0
        else slice_index buffer.old k) }
{
    let from = first.saturating_sub(offset);
    let start = offset.saturating_sub(first);
    let end = (offset + buffer.len() - first).min(BLOCK);
    clear(buffer, from, from + (end - start));
}

/// Overwrites the bytes at an offset with data.
fn overwrite(bytes: &mut [u8], offset: usize, more: &[u8])
    requires { offset + length more.now ≤ length bytes.old }
    ensures len { length bytes.new ≡ length bytes.old }
    ensures bytes { (k : ℕ) → slice_index bytes.new k ≡
        (if nat_le offset k && nat_lt k (offset + length more.now) then slice_index more.now (k - offset)
        else slice_index bytes.old k) }
{
    bytes[offset..offset + more.len()].copy_from_slice(more);
}

/// Sets the bytes from `start` up to `end` to zeros.
fn clear(bytes: &mut [u8], start: usize, end: usize)
    requires order { start ≤ end }
    requires inside { end ≤ length bytes.old }
    ensures len { length bytes.new ≡ length bytes.old }
    ensures bytes { (k : ℕ) → slice_index bytes.new k ≡
        (if nat_le start k && nat_lt k end then 0 else slice_index bytes.old k) }
{
    bytes[start..end].fill(0);
}

/// The bytes from `start` up to `end`.
#[tactic(auto, using(crate::proofs::Placing::part_reads))]
fn part(bytes: &[u8], start: usize, end: usize) -> &[u8]
    requires order { start ≤ end }
    requires inside { end ≤ length bytes.now }
    ensures len { length result.now ≡ end - start }
    ensures bytes { (k : ℕ) → k < end - start → slice_index result.now k ≡ slice_index bytes.now (start + k) }
{
    &bytes[start..end]
}

/// Writes the part of the data that is in a block. The block begins at `first`, and the data at `offset`.
fn write_part(bytes: &mut [u8], first: usize, offset: usize, more: &[u8])
    requires whole { length bytes.old ≡ 4096 }
    requires few { offset + length more.now < 2 ^ 63 }
    requires reaches { first < offset + length more.now }
    requires before { offset < first + 4096 }
    ensures len { length bytes.new ≡ length bytes.old }
    ensures bytes { (k : ℕ) → k < 4096 → slice_index bytes.new k ≡
        (if nat_le offset (first + k) && nat_lt (first + k) (offset + length more.now)
        then slice_index more.now (first + k - offset) else slice_index bytes.old k) }
{
    let start = offset.max(first);
    let end = (offset + more.len()).min(first + BLOCK);
    overwrite(
        bytes,
        start - first,
        part(more, start - offset, end - offset),
    );
}
