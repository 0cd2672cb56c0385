//! Lists in which TRUE precedes each item (RFC 4506, section 4.19).
ghost use Rattle.std.specs.Prelude.{◌≡◌, is_ok, IsTrue};
ghost use Rattle.xdr_wire.specs.Xdr.{chain};
ghost use Rattle.xdr_wire.specs.Reading.{Gives, read_at};
ghost use Rattle.xdr_wire.specs.Wire.{chain_values, values_of, TakesFirst};

use crate::fault::XdrFault;
use crate::reader::Reader;
use crate::wire::{Spell, Wire};
use crate::writer::{Full, Writer};
use std::alloc::Allocator;
use std::marker::PhantomData;

/// A list of optional data (RFC 4506, section 4.19), as the entries of a directory, kept as its bytes. Each item is
/// decoded when it is taken.
#[derive(Drop)]
pub struct Chain<'a, T: Wire<'a>> {
    /// The items that are left, each after its TRUE, the FALSE at the end, and possibly more bytes.
    pub bytes: &'a [u8],
    of: PhantomData<T>,
    ghost spelled: { IsTrue (is_ok (read_at (chain T.form) bytes.now)) },
}

impl<'a, T: Wire<'a>> Chain<'a, T> {
    /// Takes the first item that is left.
    pub fn next(&mut self) -> Option<T>
        ensures { TakesFirst T.view result (chain_values T.form T.normal self.old.bytes.now)
            (chain_values T.form T.normal self.new.bytes.now) }
    {
        let mut reader = Reader::new(self.bytes);
        let Ok(Some(item)) = Option::<T>::read(&mut reader) else {
            return None;
        };
        *self = Chain {
            bytes: reader.rest(),
            of: PhantomData,
        };
        Some(item)
    }
}

/// Decodes links and the end after them, and discards them.
fn pass_links<'a, T: Wire<'a>>(reader: &mut Reader<'a>) -> Result<(), XdrFault>
    ensures { Gives (λ _. values_of (read_at (chain T.form) reader.old)) reader.old reader.new result
        (read_at (chain T.form) reader.old) }
{
    let mut ahead = reader.fork();
    while Option::<T>::read(&mut ahead)?.is_some() {}
    *reader = ahead;
    Ok(())
}

impl<'a, T: Wire<'a>> Spell for Chain<'a, T> {
    ghost use Rattle.xdr_wire.specs.Wire.{each};

    ghost form = { chain T.form };

    ghost view = { λ c. chain_values T.form T.normal c.bytes.now };

    ghost normal = { each T.normal };

    fn write<A: Allocator>(self, writer: &mut Writer<A>) -> Result<(), Full> {
        let start = writer.len();
        let mut left = self;
        while let Some(item) = left.next() {
            if Some(item).write(writer).is_err() {
                writer.truncate(start);
                return Err(Full);
            }
        }
        let written = None::<T>.write(writer);
        if written.is_err() {
            writer.truncate(start);
        }
        written
    }
}

impl<'a, T: Wire<'a>> Wire<'a> for Chain<'a, T> {
    fn read(reader: &mut Reader<'a>) -> Result<Self, XdrFault> {
        let mut ahead = reader.fork();
        let bytes = ahead.rest();
        pass_links::<T>(&mut ahead)?;
        *reader = ahead;
        Ok(Chain {
            bytes,
            of: PhantomData,
        })
    }
}
