//! The parts of a checkpoint in their encoded form.
ghost use Rattle.std.specs.Prelude.{◌≡◌, ◌<◌, ◌≤◌, length, find, nat_lt, Err, OnOk, OnErr, IfOk, IfSome, IsSome};
ghost use Rattle.xdr_wire.specs.Xdr.{HasSpelling, spelling};
ghost use Rattle.xdr_wire.specs.Buffer.{Appends, Puts};
ghost use Rattle.node_tree.specs.World.{object, bytes_of};
ghost use Rattle.tree_parts.specs.Parts as specs;
ghost use Rattle.tree_parts.specs.declared.part.PartFault.TheVariants as faults;

use crate::forms::{EntryForm, KindForm, ListForm};
use node_tree::{DirEntry, Node, Tree};
use std::alloc::{AllocError, Allocator};
use thiserror::Error;
use xdr_wire::{Array, Full, Opaque, Reader, Spell, Wire, Writer, XdrFault};

/// Seconds and nanoseconds.
pub type WrittenMoment = (i64, u32);

/// The entries of an access control list (ACL).
pub type WrittenList<'a> = Array<'a, EntryForm, 64>;

/// The type of an object, its bytes, owner, group and ACL, and the high bits of its mode.
pub type WrittenObject<'a> = (
    KindForm,
    (Opaque<'a, 1_048_576>, (u32, (u32, (WrittenList<'a>, u32)))),
);

/// A part of a checkpoint, lent, and not yet judged.
#[derive(Drop)]
pub enum WrittenPart<'a> {
    /// The next number, tick, stamp and cookie.
    Counters((u64, (u64, (u64, u64)))),
    /// The time of the last access, if the object has one beside its other times; a number, the fields of a new object,
    /// and the last change with its two times and the stamp.
    Object(
        Option<WrittenMoment>,
        u64,
        WrittenObject<'a>,
        (u64, (WrittenMoment, (WrittenMoment, u64))),
    ),
    /// A cookie, a directory, a name and a child.
    Name(u64, u64, Opaque<'a, 255>, u64),
    /// A number, an offset, and the bytes at that offset.
    Rest(u64, u64, Opaque<'a, 1_048_576>),
}

impl<'a> Spell for WrittenPart<'a> {
    ghost use Rattle.std.specs.Prelude.{None};
    ghost use Rattle.tree_parts.specs.Parts.{part, written_part};

    ghost form = { part };

    ghost view = { written_part };

    ghost normal = { None };

    fn write<A: Allocator>(self, writer: &mut Writer<A>) -> Result<(), Full> {
        match self {
            WrittenPart::Counters(counters) => (0u32, counters).write(writer),
            WrittenPart::Object(access, number, new, last) => match access {
                None => (1u32, (number, (new, last))).write(writer),
                Some(access) => (4u32, (access, (number, (new, last)))).write(writer),
            },
            WrittenPart::Name(cookie, directory, name, child) => {
                (2u32, (cookie, (directory, (name, child)))).write(writer)
            }
            WrittenPart::Rest(number, offset, bytes) => {
                (3u32, (number, (offset, bytes))).write(writer)
            }
        }
    }
}

impl<'a> Wire<'a> for WrittenPart<'a> {
    fn read(reader: &mut Reader<'a>) -> Result<Self, XdrFault> {
        let mut ahead = reader.fork();
        let part = match ahead.u32()? {
            0 => WrittenPart::Counters(Wire::read(&mut ahead)?),
            1 => {
                let (number, (new, last)) = Wire::read(&mut ahead)?;
                WrittenPart::Object(None, number, new, last)
            }
            2 => {
                let (cookie, (directory, (name, child))) = Wire::read(&mut ahead)?;
                WrittenPart::Name(cookie, directory, name, child)
            }
            3 => {
                let (number, (offset, bytes)) = Wire::read(&mut ahead)?;
                WrittenPart::Rest(number, offset, bytes)
            }
            4 => {
                let (access, (number, (new, last))) = Wire::read(&mut ahead)?;
                WrittenPart::Object(Some(access), number, new, last)
            }
            _ => return Err(XdrFault::BadChoice),
        };
        *reader = ahead;
        Ok(part)
    }
}

/// Writes the counters of a tree in a form that is read again. `Full` if and only if they don't
/// fit, and then nothing is written.
pub fn write_counters<A: Allocator + Copy, B: Allocator>(
    tree: &Tree<A>,
    writer: &mut Writer<B>,
) -> Result<(), Full>
    ensures puts { Puts writer.old writer.new (spelling specs.part (specs.counters_value tree.now)) result }
    ensures has_spelling { OnOk result (HasSpelling specs.part (specs.counters_value tree.now)) }
{
    let last = (tree.next_stamp(), tree.next_cookie());
    (0u32, (tree.next_number(), (tree.next_tick(), last))).write(writer)
}

/// Writes a name in a form that is read again. `Full` if and only if it doesn't fit, and then
/// nothing is written.
pub fn write_name<A: Allocator, B: Allocator>(
    name: &DirEntry<A>,
    writer: &mut Writer<B>,
) -> Result<(), Full>
    requires { length name.now.name ≤ 255 }
    ensures puts { Puts writer.old writer.new (spelling specs.part (specs.name_value name.now)) result }
    ensures has_spelling { OnOk result (HasSpelling specs.part (specs.name_value name.now)) }
{
    let Some(bytes) = Opaque::<255>::new(name.name()) else {
        return Err(Full);
    };
    let named = (name.directory(), (bytes, name.child()));
    (2u32, (name.cookie(), named)).write(writer)
}

/// Why an object isn't written. Then nothing is written.
#[derive(Clone, Copy, Debug, PartialEq, Eq, Error)]
pub enum PartFault {
    /// It doesn't fit.
    #[error("there is less room than the object takes")]
    Full,
    /// An allocation for its bytes failed.
    #[error("out of memory")]
    Memory,
}

impl From<AllocError> for PartFault {
    ghost from_gives = { λ _ fault. fault ≡ faults.Memory };

    fn from(_: AllocError) -> Self {
        PartFault::Memory
    }
}

impl From<Full> for PartFault {
    ghost from_gives = { λ _ fault. fault ≡ faults.Full };

    fn from(_: Full) -> Self {
        PartFault::Full
    }
}

/// The most bytes of a file that one part has.
const PIECE: u64 = 1_048_576;

/// The byte count of an object.
fn size_of<A: Allocator + Copy>(tree: &Tree<A>, number: u64) -> u64
    ensures { result ≡ length (bytes_of tree.now number) }
{
    match tree.object(number) {
        Some(node) => node.size(),
        None => 0,
    }
}

/// The bytes of an object that the part at an offset has.
fn piece_of<A: Allocator + Copy>(
    tree: &Tree<A>,
    alloc: A,
    number: u64,
    offset: u64,
) -> Result<Vec<u8, A>, AllocError>
    ensures { IfOk result (λ bytes. bytes.items ≡ specs.piece (bytes_of tree.now number) offset) }
{
    let count = size_of(tree, number).saturating_sub(offset).min(PIECE);
    let mut bytes = Vec::new(alloc);
    bytes.resize(count as usize, 0)?;
    tree.read(number, offset, &mut bytes);
    Ok(bytes)
}

/// Writes the object of a number, with its bytes.
fn put_object<A: Allocator, B: Allocator>(
    node: &Node<A>,
    number: u64,
    bytes: &[u8],
    writer: &mut Writer<B>,
) -> Result<(), Full>
    requires bytes { length bytes.now ≤ 1048576 }
    requires list { length node.now.list ≤ 64 }
    ensures puts { Puts writer.old writer.new
        (spelling specs.part (specs.object_value number (record node.now { bytes = bytes.now }))) result }
    ensures has_spelling { OnOk result (HasSpelling specs.part
        (specs.object_value number (record node.now { bytes = bytes.now }))) }
{
    let (Some(bytes), Some(list)) = (
        Opaque::<1_048_576>::new(bytes),
        ListForm::new(node.list().as_slice()),
    ) else {
        return Err(Full);
    };
    let rest = (node.owner(), (node.group(), (list, node.high())));
    let new = (KindForm(node.kind()), (bytes, rest));
    let times = (node.time_modify(), (node.time_metadata(), node.stamp()));
    let object = (number, (new, (node.change(), times)));
    match node.time_access() {
        None => (1u32, object).write(writer),
        Some(access) => (4u32, (access, object)).write(writer),
    }
}

/// Writes the first part of the object of a number, which has one, in a form that is read again. `Full` only if it
/// doesn't fit. After a fault nothing is written.
pub fn write_object<A: Allocator + Copy, B: Allocator>(
    tree: &Tree<A>,
    alloc: A,
    number: u64,
    writer: &mut Writer<B>,
) -> Result<(), PartFault>
    requires { IsSome (object tree.now number) }
    ensures ok { OnOk result (IfSome (object tree.now number)
        (λ o. Appends writer.old writer.new (spelling specs.part (specs.first_value number o)))) }
    ensures has_spelling { OnOk result (IfSome (object tree.now number)
        (λ o. HasSpelling specs.part (specs.first_value number o))) }
    ensures full { result ≡ Err PartFault.Full →
        IfSome (object tree.now number) (λ o. writer.old.room <
        length (spelling specs.part (specs.first_value number o))) }
    ensures err { OnErr result (writer.new ≡ writer.old) }
{
    let Some(node) = tree.object(number) else {
        return Err(PartFault::Memory);
    };
    let bytes = piece_of(tree, alloc, number, 0)?;
    put_object(node, number, &bytes, writer)?;
    Ok(())
}

/// The offset of the next part of an object after an offset. `None`: there is none.
pub fn next_rest<A: Allocator + Copy>(tree: &Tree<A>, number: u64, at: u64) -> Option<u64>
    ensures { result ≡ find (λ offset. nat_lt at offset) (specs.rest_offsets (bytes_of tree.now number)) }
{
    let last = size_of(tree, number).saturating_sub(1) / PIECE * PIECE;
    if last <= at {
        return None;
    }
    match tree.data_from(number, (at / PIECE + 1) * PIECE) {
        Some(place) => Some(place / PIECE * PIECE),
        None => Some(last),
    }
}

/// Writes bytes of a file, with its number and their offset.
fn put_rest<B: Allocator>(
    number: u64,
    offset: u64,
    bytes: &[u8],
    writer: &mut Writer<B>,
) -> Result<(), Full>
    requires { length bytes.now ≤ 1048576 }
    ensures puts { Puts writer.old writer.new (spelling specs.part (specs.rest_value number offset bytes.now)) result }
    ensures has_spelling { OnOk result (HasSpelling specs.part (specs.rest_value number offset bytes.now)) }
{
    let Some(bytes) = Opaque::<1_048_576>::new(bytes) else {
        return Err(Full);
    };
    (3u32, (number, (offset, bytes))).write(writer)
}

/// Writes the part of an object at an offset, in a form that is read again. `Full` only if it doesn't fit. After a
/// fault nothing is written.
pub fn write_rest<A: Allocator + Copy, B: Allocator>(
    tree: &Tree<A>,
    alloc: A,
    number: u64,
    offset: u64,
    writer: &mut Writer<B>,
) -> Result<(), PartFault>
    ensures ok { OnOk result (Appends writer.old writer.new
        (spelling specs.part (specs.rest_value number offset (specs.piece (bytes_of tree.now number) offset)))) }
    ensures has_spelling { OnOk result (HasSpelling specs.part
        (specs.rest_value number offset (specs.piece (bytes_of tree.now number) offset))) }
    ensures full { result ≡ Err PartFault.Full → writer.old.room < length
        (spelling specs.part (specs.rest_value number offset (specs.piece (bytes_of tree.now number) offset))) }
    ensures err { OnErr result (writer.new ≡ writer.old) }
{
    let bytes = piece_of(tree, alloc, number, offset)?;
    put_rest(number, offset, &bytes, writer)?;
    Ok(())
}
