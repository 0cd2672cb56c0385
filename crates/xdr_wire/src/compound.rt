//! Pairs and optional data (RFC 4506, sections 4.14 and 4.19).
use crate::fault::XdrFault;
use crate::reader::Reader;
use crate::wire::{Spell, Wire};
use crate::writer::{Full, Writer};
use std::alloc::Allocator;

/// Two fields, one after the other. A struct is a pair of its first field and the struct of the
/// others (RFC 4506, section 4.14).
impl<S: Spell, T: Spell> Spell for (S, T) {
    ghost use Rattle.xdr_wire.specs.Xdr.{pair};
    ghost use Rattle.xdr_wire.specs.Wire.{both};

    ghost form = { pair S.form T.form };

    ghost view = { λ x. (S.view x.0, T.view x.1) };

    ghost normal = { both S.normal T.normal };

    fn write<A: Allocator>(self, writer: &mut Writer<A>) -> Result<(), Full> {
        let (first, second) = self;
        let start = writer.len();
        first.write(writer)?;
        let written = second.write(writer);
        if written.is_err() {
            writer.truncate(start);
        }
        written
    }
}

impl<'a, S: Wire<'a>, T: Wire<'a>> Wire<'a> for (S, T) {
    fn read(reader: &mut Reader<'a>) -> Result<Self, XdrFault> {
        let mut ahead = reader.fork();
        let first = S::read(&mut ahead)?;
        let second = T::read(&mut ahead)?;
        *reader = ahead;
        Ok((first, second))
    }
}

/// Optional data (section 4.19): TRUE and the item, or FALSE.
impl<T: Spell> Spell for Option<T> {
    ghost use Rattle.std.specs.Prelude.{option_map};
    ghost use Rattle.xdr_wire.specs.Xdr.{optional};
    ghost use Rattle.xdr_wire.specs.Wire.{within};

    ghost form = { optional T.form };

    ghost view = { λ x. option_map T.view x };

    ghost normal = { within T.normal };

    fn write<A: Allocator>(self, writer: &mut Writer<A>) -> Result<(), Full> {
        match self {
            None => writer.put_bool(false),
            Some(item) => (true, item).write(writer),
        }
    }
}

impl<'a, T: Wire<'a>> Wire<'a> for Option<T> {
    fn read(reader: &mut Reader<'a>) -> Result<Self, XdrFault> {
        let mut ahead = reader.fork();
        if !ahead.boolean()? {
            *reader = ahead;
            return Ok(None);
        }
        let item = T::read(&mut ahead)?;
        *reader = ahead;
        Ok(Some(item))
    }
}
