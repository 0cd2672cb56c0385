//! Writing a frame, and the end of the log after it.
ghost use Rattle.std.specs.Prelude.{◌≡◌, ◌≤◌, ◌+◌, ◌++◌, length, replicate, IfOk};
ghost use Rattle.xdr_wire.specs.Xdr.{pair, hyper, uint, spelling, padding, HasSpelling};
ghost use Rattle.store_journal.specs.Checksum.{head_checksum};
ghost use Rattle.store_journal.specs.Disk.{wrote};
ghost use Rattle.store_journal.specs.Frames.{head_for, head_form, head_value, lent, wiped};
ghost use Rattle.store_journal.specs.Passage.{passage};
ghost use Rattle.store_journal.specs.Writing.{at_start};
ghost use Rattle.store_journal.specs.internal.Writing.{WriteGives};

use crate::checksum::{Identity, checksum_of, head_checksum_of};
use crate::current::VERSION;
use crate::disk::{Disk, Slot};
use crate::fault::JournalFault;
use crate::frames::{Frame, MAX_BODY, Place};
use crate::head::Head;
use std::alloc::{AllocError, Allocator};
use xdr_wire::{Spell, Writer};

/// The bytes of a frame before its body: its head, the head's checksum, and the body's length.
const PREFIX: usize = 7 * 8 + 8 + 4;

/// The zero bytes that end the log.
const LOG_END: usize = 8;

/// The most bytes of a file before its last frame.
const MOST: u64 = 1 << 62;

/// The zero bytes that a start writes after the last frame: the length of a head and its checksum.
const WIPED: usize = 7 * 8 + 8;

/// Zero bytes: the padding of a body, the end of the log, and what a start writes after the last frame.
const ZEROS: [u8; WIPED] = [0; WIPED];

/// The position of a frame.
#[derive(Clone, Copy, PartialEq, Eq)]
pub struct Position {
    pub place: Place,
    /// The number of bytes before it in its file.
    pub at: u64,
}

impl Position {
    /// The position of a generation's first frame.
    pub(crate) fn start(generation: u64) -> Self
        ensures { result ≡ at_start generation }
    {
        Position {
            place: Place::start(generation),
            at: 0,
        }
    }
}

/// The number of zero bytes after a body of `len` bytes (RFC 4506, section 3).
fn padding_of(len: usize) -> usize
    ensures { result ≡ padding len }
{
    (4 - len % 4) % 4
}

/// The head of a frame.
fn head_of(identity: Identity, place: Place, frame: Frame<'_>) -> Head
    ensures { result ≡ head_for identity place (lent frame.entry) }
{
    Head {
        version: VERSION,
        generation: place.generation,
        number: place.number,
        before: place.before,
        kind: frame.kind,
        length: frame.body.len() as u64,
        body: checksum_of(identity, frame.body),
    }
}

/// The bytes of a frame before its body: its head, the head's checksum, and the body's length.
fn prefix_of<A: Allocator>(
    alloc: A,
    head: Head,
    checksum: u64,
    len: u32,
) -> Result<Writer<A>, AllocError>
    ensures bytes { IfOk result (λ w. w.bytes ≡ spelling (pair head_form (pair hyper uint))
        (head_value head, (checksum, len))) }
    ensures fit { IfOk result (λ w. HasSpelling (pair head_form (pair hyper uint)) (head_value head, (checksum, len))) }
{
    let mut writer = Writer::new(alloc, PREFIX)?;
    let Ok(()) = (head, (checksum, len)).write(&mut writer) else {
        return Err(AllocError);
    };
    Ok(writer)
}

/// `count` zero bytes.
fn zeros(count: usize) -> &'static [u8]
    requires { count ≤ 64 }
    ensures { result.now ≡ replicate count 0 }
{
    &ZEROS[..count]
}

/// The zero bytes that a start writes after the last frame.
#[tactic(auto, unfolding(crate::specs::Frames::wiped))]
pub(crate) fn wiped() -> &'static [u8]
    ensures { result.now ≡ wiped }
{
    zeros(WIPED)
}

/// Writes the bytes before a body, the body, its padding, and the end of the log.
fn put<D: Disk>(disk: &mut D, slot: Slot, at: u64, prefix: &[u8], body: &[u8]) -> bool
    requires { length body.now ≤ MAX_BODY }
    ensures { D.adds disk.old
        (wrote result slot at (prefix.now ++ body.now ++ replicate (padding (length body.now) + 8) 0)) disk.new }
{
    let back = zeros(padding_of(body.len()) + LOG_END);
    disk.write(slot, at, prefix, body, back)
}

/// Writes a frame at its place in a file, and returns where the next one goes. Its body isn't copied.
#[tactic(auto, unfolding(crate::specs::Frames::framed, crate::specs::Frames::IsFit))]
pub(crate) fn write_frame<D: Disk, A: Allocator>(
    disk: &mut D,
    alloc: A,
    identity: Identity,
    slot: Slot,
    position: Position,
    frame: Frame<'_>,
) -> Result<Position, JournalFault>
    ensures { WriteGives (passage D.adds disk.old disk.new) identity slot position (lent frame.entry) result }
{
    let Position { place, at } = position;
    if place.number == u64::MAX {
        return Err(JournalFault::Full);
    }
    if at > MOST {
        return Err(JournalFault::Full);
    }
    let len = frame.body.len();
    if len > MAX_BODY as usize {
        return Err(JournalFault::TooLong);
    }
    let head = head_of(identity, place, frame);
    let checksum = head_checksum_of(identity, head);
    let Ok(prefix) = prefix_of(alloc, head, checksum, len as u32) else {
        return Err(JournalFault::Memory);
    };
    if !put(disk, slot, at, prefix.bytes(), frame.body) {
        return Err(JournalFault::Failed);
    }
    Ok(Position {
        place: Place {
            generation: place.generation,
            number: place.number + 1,
            before: checksum,
        },
        at: at + (PREFIX + len + padding_of(len)) as u64,
    })
}
