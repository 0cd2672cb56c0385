//! Reading a checkpoint from a file, and the records after it.
ghost use Rattle.std.specs.Prelude.{◌≡◌, ◌∷◌, List, map, IfOk, OnOk};
ghost use Rattle.store_journal.specs.Files.{IsRead};
ghost use Rattle.store_journal.specs.internal.Files.{joined_to};
ghost use Rattle.store_journal.specs.Frames.{Frame as FrameSpec, lent};

use crate::checksum::Identity;
use crate::frames::{END, Frame, Frames, MARK, Place};
use std::alloc::{AllocError, Allocator};

/// The bodies read from a file by now.
#[derive(Drop)]
pub(crate) struct Bodies<'a, A: Allocator> {
    /// The end of the checkpoint was read.
    pub is_whole: bool,
    pub parts: Vec<&'a [u8], A>,
    pub records: Vec<&'a [u8], A>,
}

impl<'a, A: Allocator> Bodies<'a, A> {
    /// Adds the body of the next frame.
    fn add(&mut self, frame: Frame<'a>) -> Result<(), AllocError>
        ensures { OnOk result ((frames : List FrameSpec) →
            joined_to self.new.is_whole (map (λ b. b.now) self.new.parts.items)
            (map (λ b. b.now) self.new.records.items) frames ≡
            joined_to self.old.is_whole (map (λ b. b.now) self.old.parts.items)
            (map (λ b. b.now) self.old.records.items) (lent frame.entry ∷ frames)) }
    {
        if !self.is_whole {
            if frame.kind == END {
                self.is_whole = true;
                return Ok(());
            }
            self.parts.push(frame.body)?;
            return Ok(());
        }
        if frame.kind == MARK {
            return Ok(());
        }
        self.records.push(frame.body)?;
        Ok(())
    }
}

/// The content of a file.
#[derive(Drop)]
pub(crate) struct FileRead<'a, A: Allocator> {
    /// The place after its frames.
    pub place: Place,
    /// The number of bytes before its last frame.
    pub last_at: usize,
    /// The bytes after its frames.
    pub rest: &'a [u8],
    pub bodies: Bodies<'a, A>,
}

/// Reads the frames of a generation from a file. The only error is a failed allocation.
pub(crate) fn read_file<'a, A: Allocator + Copy>(
    alloc: A,
    identity: Identity,
    generation: u64,
    file: &'a [u8],
) -> Result<FileRead<'a, A>, AllocError>
    ensures { IfOk result (λ r. IsRead identity generation file.now r.place r.rest.now r.last_at r.bodies.is_whole
        (map (λ b. b.now) r.bodies.parts.items) (map (λ b. b.now) r.bodies.records.items)) }
{
    let mut frames = Frames {
        identity,
        place: Place::start(generation),
        rest: file,
    };
    let mut bodies = Bodies {
        is_whole: false,
        parts: Vec::new(alloc),
        records: Vec::new(alloc),
    };
    let mut last_at = 0;
    let mut at = 0;
    while let Some(frame) = frames.next() {
        bodies.add(frame)?;
        last_at = at;
        at = file.len() - frames.rest.len();
    }
    Ok(FileRead {
        place: frames.place,
        last_at,
        rest: frames.rest,
        bodies,
    })
}
