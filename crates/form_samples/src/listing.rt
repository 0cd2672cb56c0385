//! A sample of a chain.
use std::alloc::Allocator;
use xdr_wire::{Chain, Full, Opaque, Reader, Spell, Wire, Writer, XdrFault};

/// A name of a directory (RFC 8881, section 18.23, `entry4`, without its attributes).
#[derive(Clone, Copy)]
pub struct Entry<'a> {
    pub cookie: u64,
    pub name: Opaque<'a, 0xffff_ffff>,
}

impl<'a> Spell for Entry<'a> {
    ghost use Rattle.std.specs.Prelude.{None};
    ghost use Rattle.form_samples.specs.internal.Forms.{entry};

    ghost form = { entry };

    ghost view = { λ e. (e.cookie, e.name.bytes.now) };

    ghost normal = { None };

    fn write<A: Allocator>(self, writer: &mut Writer<A>) -> Result<(), Full> {
        (self.cookie, self.name).write(writer)
    }
}

impl<'a> Wire<'a> for Entry<'a> {
    fn read(reader: &mut Reader<'a>) -> Result<Self, XdrFault> {
        let (cookie, name) = Wire::read(reader)?;
        Ok(Entry { cookie, name })
    }
}

/// A directory's listing (`dirlist4`): a chain of entries, and whether the directory ends after them.
#[derive(Drop)]
pub struct Listing<'a> {
    pub entries: Chain<'a, Entry<'a>>,
    pub end: bool,
}

impl<'a> Spell for Listing<'a> {
    ghost use Rattle.std.specs.Prelude.{None};
    ghost use Rattle.xdr_wire.specs.Wire.{chain_values};
    ghost use Rattle.form_samples.specs.internal.Forms.{entry, listing};

    ghost form = { listing };

    ghost view = { λ l. (chain_values entry None l.entries.bytes.now, l.end) };

    ghost normal = { None };

    fn write<A: Allocator>(self, writer: &mut Writer<A>) -> Result<(), Full> {
        let Listing { entries, end } = self;
        (entries, end).write(writer)
    }
}

impl<'a> Wire<'a> for Listing<'a> {
    fn read(reader: &mut Reader<'a>) -> Result<Self, XdrFault> {
        let (entries, end) = Wire::read(reader)?;
        Ok(Listing { entries, end })
    }
}
