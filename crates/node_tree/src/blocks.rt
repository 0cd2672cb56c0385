//! The bytes of a file, in blocks by number. A block that was never written is absent, and reads as zeros.
ghost use Rattle.std.specs.Prelude.{◌≡◌, ◌+◌, ◌-◌, ◌*◌, ◌/◌, ◌%◌, ◌<◌, ◌≤◌, ◌^◌, ◌&&◌, ◌++◌, ◌==◌, ℕ, [], true, false};
ghost use Rattle.std.specs.Prelude.{nat_le, nat_lt, if◌then◌else◌, slice_index, length, take, drop, IfOk, OnOk, OnErr};
ghost use Rattle.std.specs.Prelude.{◌≢◌, map, IfSome, IfNone};
ghost use Rattle.std.specs.List.{range_with_len};
ghost use Rattle.std.specs.Map.{lookup};
ghost use Rattle.std.specs.BTreeMap.{is_at};
ghost use Rattle.std.specs.Ordering.{nat_cmp};
ghost use Rattle.node_tree.specs.Holes.{IsHole};
ghost use Rattle.node_tree.specs.Changes.{written, resized};
ghost use Rattle.node_tree.specs.Blocks.{byte_at, is_held, AreWithin};

use crate::block::{BLOCK, Block, read_absent};
use std::alloc::{AllocError, Allocator, Global};
use std::collections::BTreeMap;
use std::marker::Model;

/// The bytes of a file.
#[derive(Drop)]
pub struct Blocks<A: Allocator = Global> {
    blocks: BTreeMap<usize, Block<A>, A>,
    size: usize,
}

impl<A: Allocator> Model for Blocks<A> {
    ghost use Rattle.std.specs.Prelude.{List, ℕ};
    ghost use Rattle.node_tree.specs.Blocks.{bytes_in, AreWithin};

    ghost Value = { List ℕ };

    ghost view = { λ b. bytes_in b.blocks.entries b.size };

    ghost invariant = { λ b. AreWithin b.blocks.entries b.size };
}

/// Puts a block of zeros if the block is absent. `Err`: an allocation fails.
fn put_zeros<A: Allocator + Copy>(
    blocks: &mut BTreeMap<usize, Block<A>, A>,
    alloc: A,
    number: usize,
) -> Result<(), AllocError>
    ensures bytes { (i : ℕ) → byte_at blocks.new.entries i ≡ byte_at blocks.old.entries i }
    ensures there { OnOk result (is_held blocks.new.entries number ≡ true) }
    ensures kept { (k : ℕ) → is_held blocks.old.entries k ≡ true → is_held blocks.new.entries k ≡ true }
    ensures others { (k : ℕ) → k ≢ number → is_held blocks.new.entries k ≡ is_held blocks.old.entries k }
{
    if blocks.contains_key(&number) {
        return Ok(());
    }
    let block = Block::zeros(alloc)?;
    blocks.insert(number, block)?;
    Ok(())
}

/// Puts blocks of zeros in place of absent ones, which changes no byte. `Err`: an allocation fails before all of them
/// are put.
fn put_all_zeros<A: Allocator + Copy>(
    blocks: &mut BTreeMap<usize, Block<A>, A>,
    alloc: A,
    from: usize,
    to: usize,
) -> Result<(), AllocError>
    ensures bytes { (i : ℕ) → byte_at blocks.new.entries i ≡ byte_at blocks.old.entries i }
    ensures there { OnOk result ((k : ℕ) → from ≤ k → k < to → is_held blocks.new.entries k ≡ true) }
    ensures others { (k : ℕ) → to ≤ k → is_held blocks.new.entries k ≡ is_held blocks.old.entries k }
{
    for number in from..to {
        put_zeros(blocks, alloc, number)?;
    }
    Ok(())
}

/// Removes the last block if its number isn't below another one, and returns whether it did.
fn remove_last<A: Allocator>(blocks: &mut BTreeMap<usize, Block<A>, A>, from: usize) -> bool
    ensures fewer { result ≡ true → length blocks.new.entries < length blocks.old.entries }
    ensures kept { (k : ℕ) → k < from → lookup (is_at (nat_cmp k)) blocks.new.entries ≡
        lookup (is_at (nat_cmp k)) blocks.old.entries }
    ensures past { result ≡ false → (k : ℕ) → from ≤ k → is_held blocks.new.entries k ≡ false }
{
    let Some((last, _)) = blocks.last_key_value() else {
        return false;
    };
    if *last < from {
        return false;
    }
    blocks.pop_last();
    true
}

/// Removes the blocks from a number on: their bytes are zeros then.
fn remove_from<A: Allocator>(blocks: &mut BTreeMap<usize, Block<A>, A>, from: usize)
    ensures bytes { (i : ℕ) → byte_at blocks.new.entries i ≡
        (if nat_lt (i / 4096) from then byte_at blocks.old.entries i else 0) }
    ensures removed { (k : ℕ) → is_held blocks.new.entries k ≡
        (if nat_lt k from then is_held blocks.old.entries k else false) }
{
    while remove_last(blocks, from) {}
}

/// Sets the bytes of a block from an offset of the file on to zeros.
fn clear_after<A: Allocator>(blocks: &mut BTreeMap<usize, Block<A>, A>, at: usize)
    ensures bytes { (i : ℕ) → byte_at blocks.new.entries i ≡
        (if (i / 4096 == at / 4096) && nat_le at i then 0 else byte_at blocks.old.entries i) }
    ensures held { (k : ℕ) → is_held blocks.new.entries k ≡ is_held blocks.old.entries k }
{
    if let Some(block) = blocks.get_mut(&(at / BLOCK)) {
        block.clear_from(at % BLOCK);
    }
}

/// Removes the bytes from a size on, up to another size: whole blocks are removed, and the rest of the last one becomes
/// zeros.
fn cut<A: Allocator>(blocks: &mut BTreeMap<usize, Block<A>, A>, held: usize, size: usize)
    requires { AreWithin blocks.old.entries held }
    ensures bytes { (i : ℕ) → byte_at blocks.new.entries i ≡
        (if nat_lt i size then byte_at blocks.old.entries i else 0) }
    ensures few { (k : ℕ) → is_held blocks.new.entries k ≡ true → k * 4096 < size }
{
    if held <= size {
        return;
    }
    remove_from(blocks, size.div_ceil(BLOCK));
    clear_after(blocks, size);
}

/// Writes the part of the data that is in a block, which is present.
fn write_block<A: Allocator>(
    blocks: &mut BTreeMap<usize, Block<A>, A>,
    number: usize,
    offset: usize,
    more: &[u8],
)
    requires few { offset + length more.now < 2 ^ 63 }
    requires reaches { number * 4096 < offset + length more.now }
    requires before { offset < number * 4096 + 4096 }
    requires there { is_held blocks.old.entries number ≡ true }
    ensures bytes { (i : ℕ) → byte_at blocks.new.entries i ≡
        (if (i / 4096 == number) && (nat_le offset i && nat_lt i (offset + length more.now))
        then slice_index more.now (i - offset) else byte_at blocks.old.entries i) }
    ensures held { (k : ℕ) → is_held blocks.new.entries k ≡ is_held blocks.old.entries k }
{
    if let Some(block) = blocks.get_mut(&number) {
        block.write(number * BLOCK, offset, more);
    }
}

/// Writes data into blocks that are present.
fn write_blocks<A: Allocator>(
    blocks: &mut BTreeMap<usize, Block<A>, A>,
    offset: usize,
    more: &[u8],
    from: usize,
    to: usize,
)
    requires few { offset + length more.now < 2 ^ 63 }
    requires from { from ≡ offset / 4096 }
    requires to { to ≡ (offset + length more.now - 1) / 4096 + 1 }
    requires some { 0 < length more.now }
    requires there { (k : ℕ) → from ≤ k → k < to → is_held blocks.old.entries k ≡ true }
    ensures bytes { (i : ℕ) → byte_at blocks.new.entries i ≡
        (if nat_le offset i && nat_lt i (offset + length more.now) then slice_index more.now (i - offset)
        else byte_at blocks.old.entries i) }
    ensures held { (k : ℕ) → is_held blocks.new.entries k ≡ is_held blocks.old.entries k }
{
    for number in from..to {
        write_block(blocks, number, offset, more);
    }
}

/// Copies the part of a block that is in the range of the file that a buffer represents.
fn read_block<A: Allocator>(
    blocks: &BTreeMap<usize, Block<A>, A>,
    number: usize,
    offset: usize,
    buffer: &mut [u8],
)
    requires fits { offset + length buffer.old < 2 ^ 64 }
    requires reaches { number * 4096 < offset + length buffer.old }
    requires before { offset < number * 4096 + 4096 }
    ensures len { length buffer.new ≡ length buffer.old }
    ensures bytes { (k : ℕ) → slice_index buffer.new k ≡
        (if ((offset + k) / 4096 == number) && nat_lt k (length buffer.old) then byte_at blocks.now.entries (offset + k)
        else slice_index buffer.old k) }
{
    match blocks.get(&number) {
        Some(block) => block.read(number * BLOCK, offset, buffer),
        None => read_absent(number * BLOCK, offset, buffer),
    }
}

/// Copies a range of the file.
fn read_blocks<A: Allocator>(
    blocks: &BTreeMap<usize, Block<A>, A>,
    offset: usize,
    buffer: &mut [u8],
)
    requires fits { offset + length buffer.old < 2 ^ 64 }
    requires some { 0 < length buffer.old }
    ensures { buffer.new ≡ map (byte_at blocks.now.entries) (range_with_len offset (length buffer.old)) }
{
    for number in offset / BLOCK..(offset + buffer.len() - 1) / BLOCK + 1 {
        read_block(blocks, number, offset, buffer);
    }
}

/// The number of the first block from a number on.
fn block_from<A: Allocator>(blocks: &BTreeMap<usize, Block<A>, A>, number: usize) -> Option<usize>
    ensures present { IfSome result (λ first. (number ≤ first) × (is_held blocks.now.entries first ≡ true)) }
    ensures least { IfSome result (λ first. (k : ℕ) → number ≤ k → k < first → is_held blocks.now.entries k ≡ false) }
    ensures none { IfNone result ((k : ℕ) → number ≤ k → is_held blocks.now.entries k ≡ false) }
{
    match blocks.range(number..).next() {
        Some((first, _)) => Some(*first),
        None => None,
    }
}

/// The first place from an offset on whose byte isn't 0, if it is in this block.
fn data_in<A: Allocator>(
    blocks: &BTreeMap<usize, Block<A>, A>,
    number: usize,
    offset: usize,
) -> Option<usize>
    requires { number * 4096 < 2 ^ 64 }
    ensures data { IfSome result (λ place. (offset ≤ place) × (place / 4096 ≡ number) ×
        (byte_at blocks.now.entries place ≢ 0)) }
    ensures skipped { IfSome result (λ place. (i : ℕ) → offset ≤ i → i / 4096 ≡ number → i < place →
        byte_at blocks.now.entries i ≡ 0) }
    ensures none { IfNone result ((i : ℕ) → offset ≤ i → i / 4096 ≡ number → byte_at blocks.now.entries i ≡ 0) }
{
    let first = number * BLOCK;
    let Some(block) = blocks.get(&number) else {
        return None;
    };
    match block.data_from(offset.saturating_sub(first)) {
        Some(index) => Some(first + index),
        None => None,
    }
}

/// The first place from an offset on whose byte isn't 0. Blocks that are absent aren't visited.
fn first_data<A: Allocator>(
    blocks: &BTreeMap<usize, Block<A>, A>,
    offset: usize,
    size: usize,
) -> Option<usize>
    requires within { AreWithin blocks.now.entries size }
    ensures data { IfSome result (λ place. (offset ≤ place) × (byte_at blocks.now.entries place ≢ 0)) }
    ensures skipped { IfSome result (λ place. (i : ℕ) → offset ≤ i → i < place → byte_at blocks.now.entries i ≡ 0) }
    ensures none { IfNone result ((i : ℕ) → offset ≤ i → byte_at blocks.now.entries i ≡ 0) }
{
    let mut number = offset / BLOCK;
    while let Some(first) = block_from(blocks, number) {
        if let Some(place) = data_in(blocks, first, offset) {
            return Some(place);
        }
        number = first + 1;
    }
    None
}

impl<A: Allocator> Blocks<A> {
    /// The byte count.
    pub fn len(&self) -> usize
        ensures { result ≡ length self.now }
    {
        self.size
    }

    /// Sets the size: truncates, or appends zeros. It allocates no memory.
    pub fn resize(&mut self, size: usize)
        ensures { self.new ≡ resized self.old size }
    {
        cut(&mut self.blocks, self.size, size);
        self.size = size;
    }

    /// The first place from an offset on whose byte isn't 0.
    pub fn data_from(&self, offset: usize) -> Option<usize>
        ensures data { IfSome result (λ place. (offset ≤ place) × (slice_index self.now place ≢ 0)) }
        ensures skipped { IfSome result (λ place. IsHole self.now offset place) }
        ensures none { IfNone result (IsHole self.now offset (length self.now)) }
    {
        first_data(&self.blocks, offset, self.size)
    }

    /// Copies the bytes at an offset into a buffer, as far as both reach, and returns the count.
    pub fn read(&self, offset: usize, buffer: &mut [u8]) -> usize
        ensures count { result ≡ length (take (length buffer.old) (drop offset self.now)) }
        ensures copied { buffer.new ≡ take (length buffer.old) (drop offset self.now) ++ drop result buffer.old }
    {
        let count = self.size.saturating_sub(offset).min(buffer.len());
        if count > 0 {
            read_blocks(&self.blocks, offset, &mut buffer[..count]);
        }
        count
    }
}

impl<A: Allocator + Copy> Blocks<A> {
    /// A file of no bytes.
    pub fn new(alloc: A) -> Self
        ensures { result ≡ [] }
    {
        Blocks {
            blocks: BTreeMap::new(alloc),
            size: 0,
        }
    }

    /// A file of these bytes. `Err`: an allocation fails.
    pub fn from_slice(alloc: A, bytes: &[u8]) -> Result<Self, AllocError>
        requires { length bytes.now < 2 ^ 63 }
        ensures { IfOk result (λ blocks. blocks ≡ bytes.now) }
    {
        let mut blocks = Blocks::new(alloc);
        blocks.write(alloc, 0, bytes)?;
        Ok(blocks)
    }

    /// Writes data at an offset, and zeros between the end and it. `Err`: an allocation fails, and nothing has changed.
    pub fn write(&mut self, alloc: A, offset: usize, more: &[u8]) -> Result<(), AllocError>
        requires { offset + length more.now < 2 ^ 63 }
        ensures ok { OnOk result (self.new ≡ written self.old offset more.now) }
        ensures err { OnErr result (self.new ≡ self.old) }
    {
        if more.is_empty() {
            self.size = self.size.max(offset);
            return Ok(());
        }
        let end = offset + more.len();
        let from = offset / BLOCK;
        let to = (end - 1) / BLOCK + 1;
        if put_all_zeros(&mut self.blocks, alloc, from, to).is_err() {
            let reached = self.size.max(to * BLOCK);
            cut(&mut self.blocks, reached, self.size);
            return Err(AllocError);
        }
        write_blocks(&mut self.blocks, offset, more, from, to);
        self.size = self.size.max(end);
        Ok(())
    }
}
