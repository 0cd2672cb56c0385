//! The head of a frame.
ghost use Rattle.std.specs.Prelude.{◌≡◌};

use std::alloc::Allocator;
use xdr_wire::{Full, Reader, Spell, Wire, Writer, XdrFault};

/// The head of a frame: its version, place, kind and length, and checksums.
#[derive(Clone, Copy, PartialEq, Eq)]
pub struct Head {
    /// The version of the form. No frame has version 0.
    pub version: u64,
    /// The generation that it belongs to.
    pub generation: u64,
    /// The number of frames before it in its file.
    pub number: u64,
    /// The checksum of the previous frame's head. 0 in the first frame.
    pub before: u64,
    /// The frame's kind: 0 a part of the checkpoint, 1 the checkpoint's end, 2 a record, 3 a mark.
    pub kind: u64,
    /// The number of bytes of its body.
    pub length: u64,
    /// The checksum of its body.
    pub body: u64,
}

impl Spell for Head {
    ghost use Rattle.std.specs.Prelude.{None};
    ghost use Rattle.store_journal.specs.Frames.{head_form, head_value};

    ghost form = { head_form };

    ghost view = { head_value };

    ghost normal = { None };

    fn write<A: Allocator>(self, writer: &mut Writer<A>) -> Result<(), Full> {
        let what = (self.before, (self.kind, (self.length, self.body)));
        (self.version, (self.generation, (self.number, what))).write(writer)
    }
}

impl<'a> Wire<'a> for Head {
    fn read(reader: &mut Reader<'a>) -> Result<Self, XdrFault> {
        let (version, (generation, (number, (before, (kind, (length, body)))))) = Wire::read(
            reader,
        )?;
        Ok(Head {
            version,
            generation,
            number,
            before,
            kind,
            length,
            body,
        })
    }
}
