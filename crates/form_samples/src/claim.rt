//! Samples of a union, an enum and a field that is ignored.
use std::alloc::Allocator;
use xdr_wire::{Full, Opaque, Reader, Spell, Wire, Writer, XdrFault};

/// How the file of an OPEN is named (RFC 8881, section 18.16, `open_claim4`): a union of two arms.
#[derive(Clone, Copy)]
pub enum Claim<'a> {
    ByName(Opaque<'a, 0xffff_ffff>),
    ByHandle,
}

impl<'a> Spell for Claim<'a> {
    ghost use Rattle.std.specs.Prelude.{None};
    ghost use Rattle.form_samples.specs.internal.Forms.{claim};
    ghost use Rattle.std.proofs.Common.{inl, inr};
    ghost use Rattle.form_samples.specs.declared.claim.Claim.TheVariants.{ByName, ByHandle};

    ghost form = { claim };

    ghost view = { elim [ ByName name ↦ inl name.bytes.now | ByHandle ↦ inr (inl tt) ] };

    ghost normal = { None };

    fn write<A: Allocator>(self, writer: &mut Writer<A>) -> Result<(), Full> {
        match self {
            Claim::ByName(name) => (0u32, name).write(writer),
            Claim::ByHandle => (4u32, ()).write(writer),
        }
    }
}

impl<'a> Wire<'a> for Claim<'a> {
    fn read(reader: &mut Reader<'a>) -> Result<Self, XdrFault> {
        let mut ahead = reader.fork();
        let claim = match ahead.u32()? {
            0 => Claim::ByName(Wire::read(&mut ahead)?),
            4 => Claim::ByHandle,
            _ => return Err(XdrFault::BadChoice),
        };
        *reader = ahead;
        Ok(claim)
    }
}

/// The stability that a WRITE requests (section 18.32, `stable_how4`): an enum.
#[derive(Clone, Copy, PartialEq, Eq)]
pub enum Stable {
    Unstable,
    Data,
    File,
}

impl Spell for Stable {
    ghost use Rattle.std.specs.Prelude.{None};
    ghost use Rattle.form_samples.specs.internal.Forms.{stable};
    ghost use Rattle.std.proofs.Common.{inl, inr};
    ghost use Rattle.form_samples.specs.declared.claim.Stable.TheVariants.{Unstable, Data, File};

    ghost form = { stable };

    ghost view = { elim [ Unstable ↦ inl tt | Data ↦ inr (inl tt) | File ↦ inr (inr (inl tt)) ] };

    ghost normal = { None };

    fn write<A: Allocator>(self, writer: &mut Writer<A>) -> Result<(), Full> {
        match self {
            Stable::Unstable => (0u32, ()).write(writer),
            Stable::Data => (1u32, ()).write(writer),
            Stable::File => (2u32, ()).write(writer),
        }
    }
}

impl<'a> Wire<'a> for Stable {
    fn read(reader: &mut Reader<'a>) -> Result<Self, XdrFault> {
        let mut ahead = reader.fork();
        let stable = match ahead.u32()? {
            0 => Stable::Unstable,
            1 => Stable::Data,
            2 => Stable::File,
            _ => return Err(XdrFault::BadChoice),
        };
        *reader = ahead;
        Ok(stable)
    }
}

/// A number that a reader ignores, and an optional time: an ignored field, and optional data.
#[derive(Clone, Copy, PartialEq, Eq)]
pub struct Mark {
    pub time: Option<i64>,
}

impl Spell for Mark {
    ghost use Rattle.std.specs.Prelude.{Some};
    ghost use Rattle.form_samples.specs.internal.Forms.{mark, without_number};

    ghost form = { mark };

    ghost view = { λ m. (0, m.time) };

    ghost normal = { Some without_number };

    fn write<A: Allocator>(self, writer: &mut Writer<A>) -> Result<(), Full> {
        (0u32, self.time).write(writer)
    }
}

impl<'a> Wire<'a> for Mark {
    fn read(reader: &mut Reader<'a>) -> Result<Self, XdrFault> {
        let (_ignored, time): (u32, Option<i64>) = Wire::read(reader)?;
        Ok(Mark { time })
    }
}
