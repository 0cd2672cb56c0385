//! Where a store is corrupt, as far as it is known.
ghost use Rattle.std.specs.Prelude.{◌≡◌};
ghost use Rattle.store_folder.specs.Spots.{IsFrames, IsSpotIn};

use crate::fault::{Flaw, Part};
use std::fmt;
use std::fmt::{Display, Formatter};
use store_journal::{Current, Frames, Identity, Place, is_ended};

/// The valid frames from the start of a file of a journal, and what follows them.
#[derive(Clone, Copy, PartialEq, Eq)]
pub struct FileFrames {
    /// The number of valid frames.
    pub frames: u64,
    /// The number of bytes after them.
    pub rest: usize,
    /// Whether the bytes after them begin with the end of the log. If not, a crash tore the next frame, or it is
    /// corrupt.
    pub is_ended: bool,
}

/// A place in a file of a journal: after its valid frames.
#[derive(Clone, Copy, Debug, PartialEq, Eq)]
pub struct Spot {
    pub part: Part,
    pub frames: u64,
    /// The offset of the first byte after them.
    pub byte: usize,
}

/// The corruption of a store.
#[derive(Clone, Copy, Debug, PartialEq, Eq)]
pub enum Corruption {
    /// A part of the folder isn't as a store has it.
    Part(Part, Flaw),
    /// CURRENT is corrupt, or is missing beside a file that isn't empty.
    Current,
    /// A durable frame after this place is corrupt, or the file was cut.
    Rotten(Spot),
    /// CURRENT names no checkpoint.
    NoCheckpoint,
    /// The checkpoint and the records of this file are valid, and don't make a tree.
    Content(Part),
}

/// Reads the valid frames from the start of a file, by its store and its generation.
pub fn frames_of(identity: Identity, generation: u64, file: &[u8]) -> FileFrames
    ensures { IsFrames identity generation file.now result }
{
    let mut frames = Frames {
        identity,
        place: Place::start(generation),
        rest: file,
    };
    while let Some(_frame) = frames.next() {}
    FileFrames {
        frames: frames.place.number,
        rest: frames.rest.len(),
        is_ended: is_ended(frames.rest),
    }
}

/// The place after the valid frames of the file that CURRENT names.
pub(crate) fn spot_in(current: Current, part: Part, file: &[u8]) -> Spot
    ensures part { result.part ≡ part }
    ensures after { IsSpotIn current file.now result }
{
    let found = frames_of(current.identity, current.generation, file);
    Spot {
        part,
        frames: found.frames,
        byte: file.len().saturating_sub(found.rest),
    }
}

impl Display for Spot {
    fn fmt<W: fmt::Write>(&self, f: &mut Formatter<W>) -> fmt::Result {
        let Spot { part, frames, byte } = self;
        write!(
            f,
            "{part}: {frames} frames stand, and what was safe at byte {byte} is damaged"
        )
    }
}

impl Display for Corruption {
    fn fmt<W: fmt::Write>(&self, f: &mut Formatter<W>) -> fmt::Result {
        match self {
            Corruption::Part(part, flaw) => write!(f, "{part}: {flaw}"),
            Corruption::Current => write!(f, "{}: it isn't whole", Part::Current),
            Corruption::Rotten(spot) => write!(f, "{spot}"),
            Corruption::NoCheckpoint => write!(f, "{}: it names no checkpoint", Part::Current),
            Corruption::Content(part) => {
                write!(
                    f,
                    "{part}: its checkpoint and its records don't make a tree"
                )
            }
        }
    }
}
