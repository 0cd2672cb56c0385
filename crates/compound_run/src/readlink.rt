//! READLINK (RFC 8881, section 18.24).
ghost use Rattle.std.specs.Prelude.{◌≡◌, ◌+◌, ◌≤◌, ◌++◌, [], length, Some};
ghost use Rattle.std.specs.Int.{w32, to_be_bytes};
ghost use Rattle.xdr_wire.specs.Buffer.{Appends};
ghost use Rattle.node_tree.specs.World.{kind_of, bytes_of};
ghost use Rattle.nfs_ops.specs.Forms.{readlink_size};
ghost use Rattle.nfs_ops.specs.Results.{Done};
ghost use Rattle.nfs_ops.specs.declared.OpKind.TheVariants as kinds;
ghost use Rattle.compound_run.specs.Operations.Readlink.{readlink};
ghost use Rattle.compound_run.specs.Runs.{spelled};
ghost use Rattle.compound_run.specs.Views.{Gives, HasRoom, stage};

use crate::filehandles::FileHandles;
use crate::realm::Realm;
use crate::step::Step;
use access_guard::GuardedTree;
use nfs_ops::{OP_READLINK, Op, sizes_of_carried_bytes_are_exact};
use nfs_types::Status;
use node_tree::Kind;
use std::alloc::Allocator;
use xdr_wire::{Source, Spell, Writer};

/// The bytes of a result with a text of this length.
fn text_size(length: u64) -> u64
    requires { length ≤ 1024 }
    ensures { result ≡ readlink_size length }
{
    12 + length + (4 - length % 4) % 4
}

/// The text of a symbolic link, which is copied from the tree.
#[derive(Drop)]
struct Text<'t, A: Allocator + Copy> {
    tree: &'t GuardedTree<A>,
    link: u64,
}

impl<A: Allocator + Copy> Source for Text<'_, A> {
    ghost use Rattle.node_tree.specs.World.{bytes_at};

    ghost gives = { λ s n. bytes_at s.tree.now.world s.link 0 n };

    fn copy(self, space: &mut [u8]) -> usize {
        self.tree.read(self.link, 0, space)
    }
}

/// Writes number and status OK. The room must suffice for both.
fn put_head<A: Allocator>(out: &mut Writer<A>)
    requires { 8 ≤ out.old.room }
    ensures { Appends out.old out.new (to_be_bytes w32 27 ++ to_be_bytes w32 0) }
{
    (OP_READLINK, 0u32).write(out).unwrap();
}

/// Writes the text of a symbolic link straight from the tree. It has `len` bytes, which must fit.
fn put_text<A: Allocator + Copy>(tree: &GuardedTree<A>, link: u64, len: usize, out: &mut Writer<A>)
    requires all { length (bytes_of tree.now.world link) ≡ len }
    requires short { len ≤ 1024 }
    requires room { readlink_size len ≤ out.old.room }
    ensures written { Appends out.old out.new (spelled (Done kinds.ReadLink (bytes_of tree.now.world link))) }
    ensures within { length out.new.bytes ≤ length out.old.bytes + readlink_size len }
{
    sizes_of_carried_bytes_are_exact();
    put_head(out);
    out.put_opaque_by(len, Text { tree, link });
}

impl<A: Allocator + Copy> Realm<A> {
    /// The byte count of the text of a symbolic link.
    #[tactic(auto, using(crate::proofs::Texts::text_is_short))]
    fn text_length(&self, link: u64) -> u64
        requires { kind_of self.now.tree.world link ≡ Some Kind.Link }
        ensures value { result ≡ length (bytes_of self.now.tree.world link) }
        ensures short { result ≤ 1024 }
    {
        match self.tree.object(link) {
            Some(node) => node.size(),
            None => 0,
        }
    }

    /// The text of the current symbolic link.
    pub fn readlink(&mut self, step: Step<'_>, out: &mut Writer<A>) -> Result<FileHandles, Status>
        requires settled { self.old.tree.log.held ≡ [] }
        requires room { HasRoom step.context out.old }
        ensures { Gives step.entry readlink (stage self.old out.old) result (stage self.new out.new) }
    {
        let number = step.handles.current.ok_or(Status::NoFileHandle)?;
        match self.tree.object(number).ok_or(Status::Stale)?.kind() {
            Kind::Link => {}
            Kind::File | Kind::Directory => return Err(Status::WrongType),
        }
        if !self.grants_first(step, &Op::ReadLink) {
            return Err(Status::Access);
        }
        let length = self.text_length(number);
        if text_size(length) > step.context.room as u64 {
            return Err(step.context.too_big());
        }
        put_text(&self.tree, number, length as usize, out);
        Ok(step.handles)
    }
}
