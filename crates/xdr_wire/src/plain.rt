//! Numbers and booleans (RFC 4506, sections 4.1 to 4.5).
use crate::fault::XdrFault;
use crate::reader::Reader;
use crate::wire::{Spell, Wire};
use crate::writer::{Full, Writer};
use std::alloc::Allocator;

/// void (RFC 4506, section 4.16)
impl Spell for () {
    ghost use Rattle.std.specs.Prelude.{None};
    ghost use Rattle.xdr_wire.specs.Xdr.{void};

    ghost form = { void };

    ghost view = { λ v. v };

    ghost normal = { None };

    fn write<A: Allocator>(self, _writer: &mut Writer<A>) -> Result<(), Full> {
        Ok(())
    }
}

impl<'a> Wire<'a> for () {
    fn read(_reader: &mut Reader<'a>) -> Result<Self, XdrFault> {
        Ok(())
    }
}

/// unsigned int (section 4.2)
impl Spell for u32 {
    ghost use Rattle.std.specs.Prelude.{None};
    ghost use Rattle.xdr_wire.specs.Xdr.{uint};

    ghost form = { uint };

    ghost view = { λ n. n };

    ghost normal = { None };

    fn write<A: Allocator>(self, writer: &mut Writer<A>) -> Result<(), Full> {
        writer.put_u32(self)
    }
}

impl<'a> Wire<'a> for u32 {
    fn read(reader: &mut Reader<'a>) -> Result<Self, XdrFault> {
        reader.u32()
    }
}

/// unsigned hyper (section 4.5)
impl Spell for u64 {
    ghost use Rattle.std.specs.Prelude.{None};
    ghost use Rattle.xdr_wire.specs.Xdr.{hyper};

    ghost form = { hyper };

    ghost view = { λ n. n };

    ghost normal = { None };

    fn write<A: Allocator>(self, writer: &mut Writer<A>) -> Result<(), Full> {
        writer.put_u64(self)
    }
}

impl<'a> Wire<'a> for u64 {
    fn read(reader: &mut Reader<'a>) -> Result<Self, XdrFault> {
        reader.u64()
    }
}

/// hyper (section 4.5)
impl Spell for i64 {
    ghost use Rattle.std.specs.Prelude.{None};
    ghost use Rattle.xdr_wire.specs.Xdr.{signed_hyper};

    ghost form = { signed_hyper };

    ghost view = { λ z. z };

    ghost normal = { None };

    fn write<A: Allocator>(self, writer: &mut Writer<A>) -> Result<(), Full> {
        writer.put_i64(self)
    }
}

impl<'a> Wire<'a> for i64 {
    fn read(reader: &mut Reader<'a>) -> Result<Self, XdrFault> {
        reader.i64()
    }
}

/// bool (section 4.4)
impl Spell for bool {
    ghost use Rattle.std.specs.Prelude.{None};
    ghost use Rattle.xdr_wire.specs.Xdr.{boolean};

    ghost form = { boolean };

    ghost view = { λ b. b };

    ghost normal = { None };

    fn write<A: Allocator>(self, writer: &mut Writer<A>) -> Result<(), Full> {
        writer.put_bool(self)
    }
}

impl<'a> Wire<'a> for bool {
    fn read(reader: &mut Reader<'a>) -> Result<Self, XdrFault> {
        reader.boolean()
    }
}
