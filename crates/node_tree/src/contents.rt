//! The content of an object.
ghost use Rattle.std.specs.Prelude.{◌≡◌, ◌+◌, ◌<◌, ◌≤◌, ◌^◌, ◌++◌, length, take, drop, OnOk, OnErr, IfOk};
ghost use Rattle.std.specs.Prelude.{IfSome, IfNone, slice_index, ◌≢◌};
ghost use Rattle.acl_list.specs.declared.entry.Kind.TheVariants as kinds;
ghost use Rattle.node_tree.specs.Changes.{written, resized};
ghost use Rattle.node_tree.specs.Contents.{kind_held, bytes_held, most_held};
ghost use Rattle.node_tree.specs.Holes.{IsHole};

use crate::block::first_data;
use crate::blocks::Blocks;
use acl_list::Kind;
use std::alloc::{AllocError, Allocator, Global};

/// The content of an object, by its type.
#[derive(Drop)]
pub enum Contents<A: Allocator = Global> {
    /// The bytes of a file.
    File(Blocks<A>),
    /// A directory has no bytes.
    Directory,
    /// The text of a symbolic link.
    Link(Vec<u8, A>),
}

/// Copies the bytes at an offset into a buffer, as far as both reach, and returns the count.
fn read_text(text: &[u8], offset: usize, buffer: &mut [u8]) -> usize
    ensures count { result ≡ length (take (length buffer.old) (drop offset text.now)) }
    ensures copied { buffer.new ≡ take (length buffer.old) (drop offset text.now) ++ drop result buffer.old }
{
    let Some(rest) = text.get(offset..) else {
        return 0;
    };
    let count = rest.len().min(buffer.len());
    buffer[..count].copy_from_slice(&rest[..count]);
    count
}

impl<A: Allocator> Contents<A> {
    /// The type of the object.
    pub fn kind(&self) -> Kind
        ensures { result ≡ kind_held self.now }
    {
        match self {
            Contents::File(_) => Kind::File,
            Contents::Directory => Kind::Directory,
            Contents::Link(_) => Kind::Link,
        }
    }

    /// The byte count.
    pub fn size(&self) -> usize
        ensures { result ≡ length (bytes_held self.now) }
    {
        match self {
            Contents::File(blocks) => blocks.len(),
            Contents::Directory => 0,
            Contents::Link(text) => text.len(),
        }
    }

    /// Copies the bytes at an offset into a buffer, as far as both reach, and returns the count.
    pub fn read(&self, offset: usize, buffer: &mut [u8]) -> usize
        ensures count { result ≡ length (take (length buffer.old) (drop offset (bytes_held self.now))) }
        ensures copied { buffer.new ≡ take (length buffer.old) (drop offset (bytes_held self.now)) ++
            drop result buffer.old }
    {
        match self {
            Contents::File(blocks) => blocks.read(offset, buffer),
            Contents::Directory => read_text(&[], offset, buffer),
            Contents::Link(text) => read_text(text, offset, buffer),
        }
    }

    /// The first place from an offset on whose byte isn't 0.
    pub fn data_from(&self, offset: usize) -> Option<usize>
        ensures data { IfSome result (λ place. (offset ≤ place) × (slice_index (bytes_held self.now) place ≢ 0)) }
        ensures skipped { IfSome result (λ place. IsHole (bytes_held self.now) offset place) }
        ensures none { IfNone result (IsHole (bytes_held self.now) offset (length (bytes_held self.now))) }
    {
        match self {
            Contents::File(blocks) => blocks.data_from(offset),
            Contents::Directory => None,
            Contents::Link(text) => first_data(text, offset),
        }
    }

    /// Sets the size of a file: truncates it, or appends zeros. It allocates no memory.
    pub fn resize(&mut self, size: usize)
        requires { kind_held self.old ≡ kinds.File }
        ensures kind { kind_held self.new ≡ kinds.File }
        ensures bytes { bytes_held self.new ≡ resized (bytes_held self.old) size }
    {
        if let Contents::File(blocks) = self {
            blocks.resize(size);
        }
    }
}

impl<A: Allocator + Copy> Contents<A> {
    /// The content of a new object of this type. `Err`: an allocation for the bytes of a file fails.
    pub fn made(alloc: A, kind: Kind, bytes: Vec<u8, A>) -> Result<Self, AllocError>
        requires { length bytes.items ≤ most_held kind }
        ensures kind { IfOk result (λ contents. kind_held contents ≡ kind) }
        ensures bytes { IfOk result (λ contents. bytes_held contents ≡ bytes.items) }
    {
        match kind {
            Kind::File => Ok(Contents::File(Blocks::from_slice(alloc, &bytes)?)),
            Kind::Directory => Ok(Contents::Directory),
            Kind::Link => Ok(Contents::Link(bytes)),
        }
    }

    /// Writes data into a file at an offset, and zeros between the end and it. `Err`: an allocation fails, and nothing
    /// has changed.
    pub fn write(&mut self, alloc: A, offset: usize, more: &[u8]) -> Result<(), AllocError>
        requires few { offset + length more.now < 2 ^ 63 }
        requires file { kind_held self.old ≡ kinds.File }
        ensures kind { kind_held self.new ≡ kinds.File }
        ensures ok { OnOk result (bytes_held self.new ≡ written (bytes_held self.old) offset more.now) }
        ensures err { OnErr result (bytes_held self.new ≡ bytes_held self.old) }
    {
        if let Contents::File(blocks) = self {
            blocks.write(alloc, offset, more)?;
        }
        Ok(())
    }
}
