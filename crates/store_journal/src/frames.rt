//! Reading frames from the start of a file's bytes, and the frames that are written.
ghost use Rattle.std.specs.Prelude.{◌≡◌, ◌<◌, ◌+◌, ◌++◌, ◌^◌, ◌↔◌, length, Err, IfOk, IfNone, OnSome};
ghost use Rattle.store_journal.specs.Frames.{Takes, lent, framed, in_place, start, IsFit, head_at};

use crate::checksum::{Identity, checksum_of, head_checksum_of};
use crate::current::VERSION;
use crate::head::Head;
use xdr_wire::{Opaque, Reader, Wire};

/// The most bytes of a body.
pub(crate) const MAX_BODY: u32 = 67_108_864;

/// The kind of a frame that is a part of a checkpoint.
pub(crate) const PART: u64 = 0;

/// The kind of the frame that ends a checkpoint.
pub(crate) const END: u64 = 1;

/// The kind of a frame that is a record.
pub(crate) const RECORD: u64 = 2;

/// The kind of a frame that marks everything before it as durable.
pub(crate) const MARK: u64 = 3;

/// The place of a frame in its generation's chain.
#[derive(Clone, Copy, PartialEq, Eq)]
pub struct Place {
    pub generation: u64,
    /// The number of frames before it.
    pub number: u64,
    /// The checksum of the previous frame's head. 0 for the first frame.
    pub before: u64,
}

impl Place {
    /// The place of the first frame.
    pub fn start(generation: u64) -> Self
        ensures { result ≡ start generation }
    {
        Place {
            generation,
            number: 0,
            before: 0,
        }
    }
}

/// A frame whose body is borrowed.
#[derive(Clone, Copy)]
pub struct Frame<'a> {
    /// Its kind: 0 a part of the checkpoint, 1 the checkpoint's end, 2 a record, 3 a mark.
    pub kind: u64,
    pub body: &'a [u8],
}

/// The remaining bytes of a file, from which frames are read one after the other.
#[derive(Drop)]
pub struct Frames<'a> {
    pub identity: Identity,
    /// The place of the next frame.
    pub place: Place,
    pub rest: &'a [u8],
}

/// The head at the start of the bytes. `None`: the bytes don't begin with a head whose checksum matches.
#[tactic(auto, unfolding(crate::specs::Frames::head_at))]
pub(crate) fn head_at(identity: Identity, bytes: &[u8]) -> Option<Head>
    ensures { result ≡ head_at identity bytes.now }
{
    let mut reader = Reader::new(bytes);
    let Ok((head, checksum)) = <(Head, u64)>::read(&mut reader) else {
        return None;
    };
    if checksum != head_checksum_of(identity, head) {
        return None;
    }
    Some(head)
}

impl<'a> Frames<'a> {
    /// Whether a head, its checksum and a body are the next frame: of this version and place, with matching
    /// checksums.
    fn is_next(&self, head: Head, checksum: u64, body: &[u8]) -> bool
        ensures { result ≡ in_place self.now.identity self.now.place head checksum body.now }
    {
        checksum == head_checksum_of(self.identity, head)
            && (head.version == VERSION
                && (head.generation == self.place.generation
                    && (head.number == self.place.number
                        && (head.before == self.place.before
                            && (head.length == body.len() as u64
                                && head.body == checksum_of(self.identity, body))))))
    }

    /// Takes the next frame. `None`: no valid frame of this version and place is at the start, and nothing is taken.
    #[tactic(auto, unfolding(crate::specs::Frames::frame_at))]
    pub fn next(&mut self) -> Option<Frame<'a>>
        requires { self.old.place.number + length self.old.rest.now < 2 ^ 64 }
        ensures takes { Takes self.old result self.new }
        ensures shorter { OnSome result (length self.new.rest.now < length self.old.rest.now) }
        ensures number { OnSome result (self.new.place.number ≡ self.old.place.number + 1) }
        ensures identity { self.new.identity ≡ self.old.identity }
    {
        let mut reader = Reader::new(self.rest);
        let Ok((head, (checksum, Opaque { bytes }))) = <(Head, (u64, Opaque<MAX_BODY>))>::read(
            &mut reader,
        ) else {
            return None;
        };
        if !self.is_next(head, checksum, bytes) {
            return None;
        }
        self.rest = reader.rest();
        self.place = Place {
            generation: self.place.generation,
            number: self.place.number + 1,
            before: checksum,
        };
        Some(Frame {
            kind: head.kind,
            body: bytes,
        })
    }
}
